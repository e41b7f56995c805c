//! The data packet that a transaction's line shows.
ghost use Rattle.std.specs.Prelude.{◌≡◌, ◌++◌, OnOk, option_map};
ghost use Rattle.usb_fields.specs.Packets.{reply_of};
ghost use Rattle.usb_host.specs.Transfer.{sent_by};
ghost use Rattle.usb_bus.specs.Lines.{data_below, data_of, data_words, fit_in_line, rows_below};

use std::alloc::AllocError;
use usb_fields::{Answer, Stage, Transaction};
use usb_text::{Text, put_count};

/// The data packet: the setup packet, or what the device has answered.
pub(crate) fn data_of<'a>(
    sent: &'a Option<Transaction<'static>>,
    answer: Answer<'a>,
) -> Option<&'a [u8]>
    ensures { option_map (λ b. b.now) result ≡ data_of (sent_by sent.now) (reply_of answer.entry) }
{
    match (sent, answer) {
        (
            Some(
                Transaction {
                    stage: Stage::Setup(bytes),
                    ..
                },
            ),
            _,
        ) => Some(bytes),
        (_, Answer::Data(_, bytes)) => Some(bytes),
        _ => None,
    }
}

/// Puts the data in the line: 1 to 8 bytes themselves, and of others how many they are.
pub(crate) fn put_data(text: &mut Text, packet: Option<&[u8]>) -> Result<(), AllocError>
    ensures { OnOk result (text.new ≡ text.old ++ data_words (option_map (λ b. b.now) packet.entry)) }
{
    match packet {
        None => Ok(()),
        Some(bytes) if fit_in_line(bytes.len()) => text.put_digits(bytes),
        Some(bytes) => put_count(text, bytes.len() as u64, "byte"),
    }
}

/// Whether `count` bytes are shown in the line itself.
fn fit_in_line(count: usize) -> bool
    ensures { result ≡ fit_in_line count }
{
    count > 0 && count < 9
}

/// Puts the end of a transaction's line, and below it the data of more than 8 bytes, unless the log is brief.
pub(crate) fn put_below(
    text: &mut Text,
    brief: bool,
    packet: Option<&[u8]>,
) -> Result<(), AllocError>
    ensures { OnOk result (text.new ≡ text.old ++ data_below brief (option_map (λ b. b.now) packet.entry)) }
{
    match packet {
        Some(bytes) if !brief && bytes.len() > 8 => put_rows(text, 0, bytes),
        _ => text.put("\n"),
    }
}

/// How many bytes a row has, but for its first one.
const AFTER_FIRST: u8 = 15;

/// Puts the end of a line, and these bytes in rows below it. The line has room for `room` of them.
#[tactic(auto, unfolding(crate::specs::Lines::rows_below))]
fn put_rows(text: &mut Text, room: u8, bytes: &[u8]) -> Result<(), AllocError>
    ensures { OnOk result (text.new ≡ text.old ++ rows_below room bytes.now) }
{
    match bytes {
        [] => text.put("\n"),
        [byte, rest @ ..] => {
            if room == 0 {
                text.put("\n                       ")?;
                text.put_pair(*byte)?;
                put_rows(text, AFTER_FIRST, rest)
            } else {
                text.put_pair(*byte)?;
                put_rows(text, room - 1, rest)
            }
        }
    }
}
