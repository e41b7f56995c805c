//! The lines of a control transfer.
ghost use Rattle.std.specs.Prelude.{◌≡◌, ◌<◌, ◌++◌, codes, IfOk, OnOk};
ghost use Rattle.usb_text.specs.Lines.{column};
ghost use Rattle.usb_capture_lines.specs.Lines.{address_words, bytes_part, code_words, byte_part, data_part, digit_at, ending_words, meaning_line, meaning_part, reply_words, request_column, room_after, rows, seconds_words, time_column, time_words, transfer_line, transfer_lines};

use crate::request_words::put_request;
use crate::selection::time_of;
use crate::status_words::{LEAST_ERRNO, status_words};
use std::alloc::AllocError;
use usb_capture::{ControlTransfer, Ending};
use usb_text::Text;

/// The columns of a line: the time, the device, the request.
const TIME_WIDTH: usize = 11;

pub(crate) const DEVICE_WIDTH: usize = 6;

const REQUEST_WIDTH: usize = 44;

/// Puts the lines of a transfer: when it ended, whose it is, what was asked and what was answered; what its status means; and
/// its bytes, where they are wanted.
#[tactic(auto, unfolding(crate::specs::Lines::transfer_lines))]
pub(crate) fn put_transfer(
    text: &mut Text,
    data: bool,
    origin: u64,
    transfer: &ControlTransfer,
) -> Result<(), AllocError>
    ensures { OnOk result (text.new ≡ text.old ++ transfer_lines «data» origin transfer.now) }
{
    put_line(text, origin, transfer)?;
    put_meaning(text, transfer.ending)?;
    put_bytes(text, data, transfer)
}

#[tactic(auto, unfolding(crate::specs::Lines::transfer_line))]
fn put_line(text: &mut Text, origin: u64, transfer: &ControlTransfer) -> Result<(), AllocError>
    ensures { OnOk result (text.new ≡ text.old ++ transfer_line origin transfer.now) }
{
    put_time_column(text, origin, time_of(transfer))?;
    put_device_column(text, transfer.bus, transfer.device)?;
    put_request_column(text, transfer)?;
    put_reply(text, transfer)?;
    text.put("\n")
}

/// Puts a time in seconds from an origin, in its column.
pub(crate) fn put_time_column(
    text: &mut Text,
    origin: u64,
    time: Option<u64>,
) -> Result<(), AllocError>
    ensures { OnOk result (text.new ≡ text.old ++ time_column origin time) }
{
    let start = text.len();
    put_time(text, origin, time)?;
    text.fill(start, TIME_WIDTH)
}

/// Puts a time in seconds from an origin.
fn put_time(text: &mut Text, origin: u64, time: Option<u64>) -> Result<(), AllocError>
    ensures { OnOk result (text.new ≡ text.old ++ time_words origin time) }
{
    match time {
        None => text.put("-"),
        Some(time) if time < origin => {
            text.put("-")?;
            put_seconds(text, origin - time)
        }
        Some(time) => put_seconds(text, time - origin),
    }
}

/// Puts this many nanoseconds in seconds, with six digits after the point.
#[tactic(auto, unfolding(crate::specs::Lines::seconds_words))]
pub(crate) fn put_seconds(text: &mut Text, nanoseconds: u64) -> Result<(), AllocError>
    ensures { OnOk result (text.new ≡ text.old ++ seconds_words nanoseconds) }
{
    let rest = nanoseconds / 1000 % 1_000_000;
    text.put_decimal(nanoseconds / 1_000_000_000)?;
    text.put_bytes(&[
        b'.',
        digit_at(rest, 100_000),
        digit_at(rest, 10_000),
        digit_at(rest, 1000),
        digit_at(rest, 100),
        digit_at(rest, 10),
        digit_at(rest, 1),
    ])
}

/// The digit of a number that counts this many.
fn digit_at(number: u64, unit: u64) -> u8
    requires { 0 < unit }
    ensures { result ≡ digit_at number unit }
{
    b'0' + (number / unit % 10) as u8
}

fn put_device_column(text: &mut Text, bus: u16, device: u16) -> Result<(), AllocError>
    ensures { OnOk result (text.new ≡ text.old ++ column 6 (address_words bus device)) }
{
    let start = text.len();
    put_address(text, bus, device)?;
    text.fill(start, DEVICE_WIDTH)
}

/// Puts a device: the number of its bus, and its address.
#[tactic(auto, unfolding(crate::specs::Lines::address_words))]
pub(crate) fn put_address(text: &mut Text, bus: u16, device: u16) -> Result<(), AllocError>
    ensures { OnOk result (text.new ≡ text.old ++ address_words bus device) }
{
    text.put_decimal(u64::from(bus))?;
    text.put(".")?;
    text.put_decimal(u64::from(device))
}

fn put_request_column(text: &mut Text, transfer: &ControlTransfer) -> Result<(), AllocError>
    ensures { OnOk result (text.new ≡ text.old ++ request_column transfer.now.setup) }
{
    let start = text.len();
    put_request(text, &transfer.setup)?;
    text.fill(start, REQUEST_WIDTH)
}

/// Puts how a transfer ended, and whether bytes of it lack.
#[tactic(auto, unfolding(crate::specs::Lines::reply_words))]
fn put_reply(text: &mut Text, transfer: &ControlTransfer) -> Result<(), AllocError>
    ensures { OnOk result (text.new ≡ text.old ++ reply_words transfer.now) }
{
    put_ending(text, transfer)?;
    if transfer.is_cut {
        text.put(", cut")
    } else {
        Ok(())
    }
}

fn put_ending(text: &mut Text, transfer: &ControlTransfer) -> Result<(), AllocError>
    ensures { OnOk result (text.new ≡ text.old ++ ending_words transfer.now.setup.length transfer.now.length transfer.now.ending) }
{
    match transfer.ending {
        Ending::Unseen => text.put("no end"),
        Ending::Done if transfer.setup.length == 0 => text.put("done"),
        Ending::Done => text.put_decimal(u64::from(transfer.length)),
        Ending::Stall => text.put("STALL"),
        Ending::Failed(status) => {
            text.put("error ")?;
            put_code(text, status)
        }
        Ending::Refused(status) => {
            text.put("refused ")?;
            put_code(text, status)
        }
    }
}

/// Puts a status: a negative error number of Linux, or eight hexadecimal digits.
fn put_code(text: &mut Text, status: u32) -> Result<(), AllocError>
    ensures { OnOk result (text.new ≡ text.old ++ code_words status) }
{
    if status >= LEAST_ERRNO {
        text.put("-")?;
        text.put_decimal(u64::from(u32::MAX - status) + 1)
    } else {
        text.put("0x")?;
        text.put_digits(&status.to_be_bytes())
    }
}

/// Puts what the status of a failed transfer means.
fn put_meaning(text: &mut Text, ending: Ending) -> Result<(), AllocError>
    ensures { OnOk result (text.new ≡ text.old ++ meaning_part ending) }
{
    match ending {
        Ending::Failed(status) | Ending::Refused(status) => put_meaning_line(text, status),
        Ending::Unseen | Ending::Done | Ending::Stall => Ok(()),
    }
}

#[tactic(auto, unfolding(crate::specs::Lines::meaning_line))]
fn put_meaning_line(text: &mut Text, status: u32) -> Result<(), AllocError>
    ensures { OnOk result (text.new ≡ text.old ++ meaning_line status) }
{
    text.put("           ? ")?;
    text.put(status_words(status))?;
    text.put("\n")
}

/// Puts the bytes of a transfer: its setup packet, and its data.
fn put_bytes(text: &mut Text, data: bool, transfer: &ControlTransfer) -> Result<(), AllocError>
    ensures { OnOk result (text.new ≡ text.old ++ bytes_part «data» transfer.now) }
{
    if !data {
        return Ok(());
    }
    text.put("           setup ")?;
    text.put_digits(&transfer.setup.to_bytes())?;
    text.put("\n")?;
    put_data(text, transfer.data.as_slice())
}

fn put_data(text: &mut Text, bytes: &[u8]) -> Result<(), AllocError>
    ensures { OnOk result (text.new ≡ text.old ++ data_part bytes.now) }
{
    if bytes.is_empty() {
        return Ok(());
    }
    put_rows(text, bytes)?;
    text.put("\n")
}

/// How many bytes a row has.
const ROW: u8 = 32;

/// Puts bytes in rows.
#[tactic(auto, unfolding(crate::specs::Lines::rows))]
fn put_rows(text: &mut Text, bytes: &[u8]) -> Result<(), AllocError>
    ensures { OnOk result (text.new ≡ text.old ++ codes "           " ++ rows 32 bytes.now) }
{
    text.put("           ")?;
    let mut room = ROW;
    let mut rest = bytes;
    while let [byte, tail @ ..] = rest {
        room = put_byte(text, room, *byte)?;
        rest = tail;
    }
    Ok(())
}

/// Puts a byte of a row that has room for this many, or of the next one. Answers how many have room after it.
fn put_byte(text: &mut Text, room: u8, byte: u8) -> Result<u8, AllocError>
    ensures text { OnOk result (text.new ≡ text.old ++ byte_part room byte) }
    ensures room { IfOk result (λ left. left ≡ room_after room) }
{
    if room == 0 {
        text.put("\n           ")?;
        text.put_pair(byte)?;
        return Ok(ROW - 1);
    }
    text.put_pair(byte)?;
    Ok(room - 1)
}
