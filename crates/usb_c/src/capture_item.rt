//! What a reader of a recording shows, in the caller's struct and buffer.
ghost use Rattle.std.specs.Prelude.{◌≡◌, Some, slice_get};
ghost use Rattle.std.specs.Option.{option_copied, option_map};
ghost use Rattle.usb_c.specs.Captures.{DeviceMade, TellsDevice, TellsItem, device_item, finding_at, item_in, lacking, only, packet_item, request_item};
ghost use Rattle.usb_c.specs.Answers.{Puts};
ghost use Rattle.usb_c.specs.declared.answer.Verdict.TheVariants as verdicts;

use crate::answer::Verdict;
use crate::buffer::fill;
use crate::recorded::NzgRecorded;
use usb_capture::{ControlTransfer, DeviceFile, FileLack};
use usb_capture_lines::{
    BusFinding, DeviceAddress, RecordingReader, SeenDevice, Shown, finding_words, packet_words,
};

/// Reports the thing of this kind and number, if there is one.
pub(crate) fn tell_item(
    recording: &RecordingReader,
    kind: u8,
    number: usize,
    recorded: &mut NzgRecorded,
    out: &mut [u8],
) -> Verdict
    ensures { TellsItem (item_in recording.now kind number) recorded.old recorded.new out.old out.new result }
{
    let shown = recording.shown();
    match kind {
        1 => tell_over(shown, number, recorded, out),
        2 => tell_finding(shown, number, recorded, out),
        3 => tell_in_packets(shown.in_packets.get(number), recorded, out),
        4 => tell_request(recording.unended(number), recorded, out),
        5 => tell_seen(recording.devices().get(number), recorded, out),
        _ => Verdict::Open(0),
    }
}

fn tell_over(shown: &Shown, number: usize, recorded: &mut NzgRecorded, out: &mut [u8]) -> Verdict
    ensures { TellsItem (option_map request_item (only number shown.now.transfer)) recorded.old recorded.new out.old out.new result }
{
    if number > 0 {
        return Verdict::Open(0);
    }
    match &shown.transfer {
        Some(transfer) => put_request(transfer, recorded, out),
        None => Verdict::Open(0),
    }
}

fn tell_request(
    transfer: Option<&ControlTransfer>,
    recorded: &mut NzgRecorded,
    out: &mut [u8],
) -> Verdict
    ensures { TellsItem (option_map request_item (option_copied transfer.entry)) recorded.old recorded.new out.old out.new result }
{
    match transfer {
        Some(transfer) => put_request(transfer, recorded, out),
        None => Verdict::Open(0),
    }
}

fn put_request(transfer: &ControlTransfer, recorded: &mut NzgRecorded, out: &mut [u8]) -> Verdict
    ensures { TellsItem (Some (request_item transfer.now)) recorded.old recorded.new out.old out.new result }
{
    put(
        NzgRecorded::of_request(transfer),
        transfer.data.as_slice(),
        recorded,
        out,
    )
}

fn tell_finding(shown: &Shown, number: usize, recorded: &mut NzgRecorded, out: &mut [u8]) -> Verdict
    ensures { TellsItem (finding_at shown.now.transfer (slice_get shown.now.found.items number)) recorded.old recorded.new out.old out.new result }
{
    match (&shown.transfer, shown.found.get(number)) {
        (Some(transfer), Some(finding)) => put(
            NzgRecorded::of_finding(transfer, *finding),
            finding_words(*finding).as_bytes(),
            recorded,
            out,
        ),
        _ => Verdict::Open(0),
    }
}

fn tell_in_packets(
    found: Option<&BusFinding>,
    recorded: &mut NzgRecorded,
    out: &mut [u8],
) -> Verdict
    ensures { TellsItem (option_map packet_item (option_copied found.entry)) recorded.old recorded.new out.old out.new result }
{
    match found {
        Some(found) => put(
            NzgRecorded::in_packets(found),
            packet_words(found.finding).as_bytes(),
            recorded,
            out,
        ),
        None => Verdict::Open(0),
    }
}

fn tell_seen(seen: Option<&SeenDevice>, recorded: &mut NzgRecorded, out: &mut [u8]) -> Verdict
    ensures { TellsItem (option_map device_item (option_copied seen.entry)) recorded.old recorded.new out.old out.new result }
{
    match seen {
        Some(seen) => put(NzgRecorded::of_device(seen), &[], recorded, out),
        None => Verdict::Open(0),
    }
}

/// Puts numbers into the struct, and bytes into the buffer, where it has room.
fn put(numbers: NzgRecorded, bytes: &[u8], recorded: &mut NzgRecorded, out: &mut [u8]) -> Verdict
    ensures { TellsItem (Some (record { numbers = numbers; bytes = bytes.now })) recorded.old recorded.new out.old out.new result }
{
    if fill(bytes, out) {
        *recorded = numbers;
        Verdict::Done(bytes.len())
    } else {
        Verdict::NoRoom(bytes.len())
    }
}

/// Puts the descriptors of a device into the buffer, or says what lacks.
pub(crate) fn tell_device(
    recording: &RecordingReader,
    device: DeviceAddress,
    out: &mut [u8],
) -> Verdict
    ensures { TellsDevice (Some recording.now) device out.old out.new result }
{
    match recording.file(device) {
        Ok(file) => put_file(&file, out),
        Err(lack) => lacking(lack),
    }
}

fn put_file(file: &DeviceFile, out: &mut [u8]) -> Verdict
    ensures { DeviceMade file.now out.old out.new result }
{
    match file {
        DeviceFile::File(bytes) => put_made(2, bytes, out),
        DeviceFile::Dump(bytes) => put_made(3, bytes, out),
    }
}

fn put_made(number: u8, bytes: &[u8], out: &mut [u8]) -> Verdict
    ensures { Puts (verdicts.Meant number 0) bytes.now out.old out.new result }
{
    if fill(bytes, out) {
        Verdict::Meant(number, 0, bytes.len())
    } else {
        Verdict::NoRoom(bytes.len())
    }
}

fn lacking(lack: FileLack) -> Verdict
    ensures { result ≡ lacking lack }
{
    match lack {
        FileLack::Device => Verdict::Lack(None),
        FileLack::Configuration(index) => Verdict::Lack(Some(index)),
        FileLack::Memory => Verdict::NoMemory,
    }
}
