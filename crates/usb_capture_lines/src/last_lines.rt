//! The first line of what is said of a recording, and the last ones.
ghost use Rattle.std.specs.Prelude.{◌≡◌, ◌++◌, find, OnOk};
ghost use Rattle.std.specs.Option.{option_copied};
ghost use Rattle.usb_text.specs.Lines.{column};
ghost use Rattle.usb_capture_lines.specs.Lines.{address_words};
ghost use Rattle.usb_capture_lines.specs.Recordings.{counts_lines, cut_line, device_line, device_lines, device_part, device_words, findings_words, finds_any, first_line, has_findings, form_words, frames_line, is_reading_of, link_words, no_device_line, product_words, replaced_part, seen_line, set_length_words, set_words, span_words, undecoded_part};

use crate::seen_device::SeenDevice;
use crate::selection::{DeviceAddress, Selection};
use crate::tally::Tally;
use crate::transfer_line::{put_address, put_seconds};
use std::alloc::AllocError;
use usb_capture::ControlTransfer;
use usb_fields::word_at;
use usb_text::{Text, put_count};

/// Puts the first line: the form of a file with this first byte, and what a first frame of this link type has.
#[tactic(auto, unfolding(crate::specs::Recordings::first_line))]
pub(crate) fn put_first_line(text: &mut Text, first: u8, link: u16) -> Result<(), AllocError>
    ensures { OnOk result (text.new ≡ text.old ++ first_line first link) }
{
    text.put("capture: ")?;
    text.put(form_words(first))?;
    text.put(", ")?;
    put_link(text, link)?;
    text.put("\n")
}

fn form_words(first: u8) -> &'static str
    ensures { result.now ≡ form_words first }
{
    match first {
        0x0a => "pcapng",
        0x4d | 0xa1 | 0xd4 => "pcap",
        _ => "text",
    }
}

fn put_link(text: &mut Text, link: u16) -> Result<(), AllocError>
    ensures { OnOk result (text.new ≡ text.old ++ link_words link) }
{
    match link {
        189 | 220 => text.put("usbmon"),
        249 => text.put("USBPcap"),
        288 => text.put("packets of the bus"),
        293 => text.put("packets of the bus, low speed"),
        294 => text.put("packets of the bus, full speed"),
        295 => text.put("packets of the bus, high speed"),
        other => {
            text.put("link type ")?;
            text.put_decimal(u64::from(other))?;
            text.put(", no USB")
        }
    }
}

/// Puts how many frames there were, in which time, and how many of them are neither an event nor a whole packet, where some are;
/// then before the end of how many transfers the next request came, where there are any.
#[tactic(auto, unfolding(crate::specs::Recordings::counts_lines))]
pub(crate) fn put_counts(
    text: &mut Text,
    tally: &Tally,
    decoded: u64,
    replaced: u64,
) -> Result<(), AllocError>
    ensures { OnOk result (text.new ≡ text.old ++ counts_lines tally.now decoded replaced) }
{
    put_frames(text, tally.frames, tally.origin, tally.last)?;
    put_undecoded(text, tally.frames.saturating_sub(decoded))?;
    put_replaced(text, replaced)
}

#[tactic(auto, unfolding(crate::specs::Recordings::frames_line))]
fn put_frames(text: &mut Text, count: u64, origin: u64, last: Option<u64>) -> Result<(), AllocError>
    ensures { OnOk result (text.new ≡ text.old ++ frames_line count origin last) }
{
    put_count(text, count, "frame")?;
    put_span(text, origin, last)?;
    text.put("\n")
}

fn put_span(text: &mut Text, origin: u64, last: Option<u64>) -> Result<(), AllocError>
    ensures { OnOk result (text.new ≡ text.old ++ span_words origin last) }
{
    let Some(last) = last else {
        return Ok(());
    };
    text.put(", ")?;
    put_seconds(text, last.saturating_sub(origin))?;
    text.put(" seconds")
}

fn put_undecoded(text: &mut Text, count: u64) -> Result<(), AllocError>
    ensures { OnOk result (text.new ≡ text.old ++ undecoded_part count) }
{
    if count == 0 {
        return Ok(());
    }
    text.put("no transfer: ")?;
    put_count(text, count, "frame")?;
    text.put("\n")
}

fn put_replaced(text: &mut Text, count: u64) -> Result<(), AllocError>
    ensures { OnOk result (text.new ≡ text.old ++ replaced_part count) }
{
    if count == 0 {
        return Ok(());
    }
    text.put("another request came before the end: ")?;
    put_count(text, count, "transfer")?;
    text.put("\n")
}

/// Puts that the file ends in a part that isn't whole.
pub(crate) fn put_cut(text: &mut Text, place: u64, left: u64) -> Result<(), AllocError>
    ensures { OnOk result (text.new ≡ text.old ++ cut_line place left) }
{
    if left == 0 {
        return Ok(());
    }
    text.put("cut: ")?;
    put_count(text, left, "byte")?;
    text.put(" of what begins at ")?;
    text.put_decimal(place)?;
    text.put("\n")
}

/// Puts the lines of devices.
pub(crate) fn put_devices(
    text: &mut Text,
    selection: &Selection,
    kept: &[ControlTransfer],
    devices: &[SeenDevice],
) -> Result<(), AllocError>
    ensures { OnOk result (text.new ≡ text.old ++ device_lines selection.now kept.now devices.now) }
{
    for device in devices {
        put_wanted_device(text, selection, kept, *device)?;
    }
    Ok(())
}

#[tactic(auto, unfolding(crate::specs::Recordings::device_part))]
fn put_wanted_device(
    text: &mut Text,
    selection: &Selection,
    kept: &[ControlTransfer],
    device: SeenDevice,
) -> Result<(), AllocError>
    ensures { OnOk result (text.new ≡ text.old ++ device_part selection.now kept.now device) }
{
    if selection.wants_device(device.address) {
        put_seen(text, kept, device)
    } else {
        Ok(())
    }
}

/// Whether one of these lines counts a finding.
pub(crate) fn finds_any(selection: &Selection, devices: &[SeenDevice]) -> bool
    ensures { result ≡ finds_any selection.now devices.now }
{
    devices.iter().any(|device| has_findings(selection, device))
}

fn has_findings(selection: &Selection, device: &SeenDevice) -> bool
    ensures { result ≡ has_findings selection.now device.now }
{
    selection.wants_device(device.address) && device.findings > 0
}

/// Puts the line of a device, or of packets of which none is known.
fn put_seen(text: &mut Text, kept: &[ControlTransfer], seen: SeenDevice) -> Result<(), AllocError>
    ensures { OnOk result (text.new ≡ text.old ++ seen_line kept.now seen.address seen.findings) }
{
    match seen.address {
        Some(device) => put_device(text, kept, device, seen.findings),
        None => put_no_device(text, seen.findings),
    }
}

#[tactic(auto, unfolding(crate::specs::Recordings::no_device_line))]
fn put_no_device(text: &mut Text, count: u64) -> Result<(), AllocError>
    ensures { OnOk result (text.new ≡ text.old ++ no_device_line count) }
{
    text.put("no device    ")?;
    put_count(text, count, "finding")?;
    text.put("\n")
}

/// Puts the line of a device: what came of its descriptors, and how many findings there are.
#[tactic(auto, unfolding(crate::specs::Recordings::device_line))]
fn put_device(
    text: &mut Text,
    kept: &[ControlTransfer],
    device: DeviceAddress,
    findings: u64,
) -> Result<(), AllocError>
    ensures { OnOk result (text.new ≡ text.old ++ device_line kept.now device findings) }
{
    text.put("device ")?;
    put_device_column(text, device)?;
    put_product(text, reading_of(kept, device, 1))?;
    put_set(text, reading_of(kept, device, 2))?;
    put_finding_count(text, findings)?;
    text.put("\n")
}

fn put_finding_count(text: &mut Text, count: u64) -> Result<(), AllocError>
    ensures { OnOk result (text.new ≡ text.old ++ findings_words count) }
{
    if count == 0 {
        return Ok(());
    }
    text.put(", ")?;
    put_count(text, count, "finding")
}

fn put_device_column(text: &mut Text, device: DeviceAddress) -> Result<(), AllocError>
    ensures { OnOk result (text.new ≡ text.old ++ column 6 (address_words device.bus device.device)) }
{
    let start = text.len();
    put_address(text, device.bus, device.device)?;
    text.fill(start, 6)
}

fn put_product(text: &mut Text, reading: Option<&ControlTransfer>) -> Result<(), AllocError>
    ensures { OnOk result (text.new ≡ text.old ++ device_words (option_copied reading.entry)) }
{
    let Some(reading) = reading else {
        return text.put("no device descriptor came");
    };
    let bytes = reading.data.as_slice();
    text.put_digits(&word_at(bytes, 8).to_be_bytes())?;
    text.put(":")?;
    text.put_digits(&word_at(bytes, 10).to_be_bytes())
}

fn put_set(text: &mut Text, reading: Option<&ControlTransfer>) -> Result<(), AllocError>
    ensures { OnOk result (text.new ≡ text.old ++ set_words (option_copied reading.entry)) }
{
    let Some(reading) = reading else {
        return text.put(", no configuration came");
    };
    put_set_length(text, reading.data.as_slice().len() as u64)
}

#[tactic(auto, unfolding(crate::specs::Recordings::set_length_words))]
fn put_set_length(text: &mut Text, length: u64) -> Result<(), AllocError>
    ensures { OnOk result (text.new ≡ text.old ++ set_length_words length) }
{
    text.put(", configuration of ")?;
    put_count(text, length, "byte")
}

/// The reading of a device's descriptor of this type.
fn reading_of(kept: &[ControlTransfer], device: DeviceAddress, kind: u8) -> Option<&ControlTransfer>
    ensures { option_copied result ≡ find (is_reading_of device kind) kept.now }
{
    kept.iter()
        .find(|reading| is_reading_of(device, kind, reading))
}

fn is_reading_of(device: DeviceAddress, kind: u8, transfer: &ControlTransfer) -> bool
    ensures { result ≡ is_reading_of device kind transfer.now }
{
    device.is(Some(DeviceAddress::of(transfer))) && transfer.setup.value / 256 == u16::from(kind)
}
