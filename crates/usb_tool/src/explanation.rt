//! The command `explain`.
ghost use Rattle.std.specs.Prelude.{◌≡◌, ◌++◌, IfErr, IfOk, OnOk, length};
ghost use Rattle.std.specs.Io.KnownBytes.{Appends};
ghost use Rattle.usb_hex.specs.Stops.{stop_line};
ghost use Rattle.usb_tool.specs.Endings.{Writes};
ghost use Rattle.usb_tool.specs.Explains.{DoesWithBytes, ExplainFails, Explained, NoInputIsHexadecimal, RefusesAs, RefusesBytes, RefusesText, ReportsAs, ReportsText, decoded_manner, hexadecimal_words, is_recording};

use crate::fault::ToolFault;
use crate::input::read_all;
use crate::recorded::{is_recording, tell_recording};
use crate::subject::Subject;
use std::alloc::{AllocError, Global};
use std::io::{Read, Write};
use usb_explain::Manner;
use usb_file::FILE_LIMIT;
use usb_hex::{HexFault, parse, put_stop};
use usb_text::{Text, put_count};

/// How an input is explained.
#[derive(Clone, Copy, Debug, PartialEq, Eq, Hash)]
pub struct Explanation {
    /// What is written of each descriptor.
    pub manner: Manner,
    /// Whether the input has to be hexadecimal text.
    pub hex: bool,
    /// Whether it is taken for a fragment: descriptors one after another, of which no owner is asked for, or a setup packet.
    /// What isn't descriptors is *the rest*, and no fault.
    pub loose: bool,
}

/// Reads the input to its end, and writes what its descriptors mean, in words. The input is one configuration set, a
/// descriptor file or a dump, as a [`Task`](crate::Task) takes any, or a fragment; or the hexadecimal text of one, which the
/// first line then says. Of a text that is none the first line says what stopped it. The number in `Ok` is 0, whatever is found.
/// What begins as a recording does is reported as [`run_capture`](crate::run_capture) tells it without options, with its number, where it
/// isn't taken for a fragment or for text.
///
/// ```rust
/// let mut input: &[u8] = &[9, 2, 9, 0, 0, 1, 0, 0x80, 0x32];
/// let mut text = Vec::new(alloc);
/// let manner = Manner { look: Look { brief: true, places: false, utf8: false, formats: false }, speed: None, decoded: false };
/// run_explain(alloc, &mut input, &mut text, Explanation { manner, hex: false, loose: false })?;
/// assert_eq!(rt; text.as_slice(), b"set, 9 bytes
///   configuration 1, full or high speed, 0 interfaces, bus-powered, 100 mA
/// no findings
/// ");
/// ```
///
/// # Errors
///
/// `Read` where the reader failed, and `TooLarge` at the first byte over [`FILE_LIMIT`]; `Hex` where hexadecimal text is
/// demanded and the input is none. Nothing is written then. Of a set
/// `Set` with the fault of the whole input, and `Trailing` where it goes on after the set; else `File` with the
/// fault of a file. What is before the fault is explained then. A fragment has none of these three. `Write` where the writer or
/// its flush failed; a prefix of the text is written then, and may be all of it. `Memory` when out of memory; at least the last
/// byte of the text is not written then, and of a fragment's explanation nothing is, but maybe what is before it.
/// Of a recording those of [`run_capture`](crate::run_capture).
pub fn run_explain<R: Read, W: Write>(
    alloc: Global,
    r: &mut R,
    w: &mut W,
    explanation: Explanation,
) -> Result<u8, ToolFault>
    ensures explained { IfOk result (Explained explanation.loose explanation.hex explanation.manner (R.remaining r.old) (R.remaining r.new) (W.contents w.old) (W.contents w.new)) }
    ensures err { IfErr result (ExplainFails explanation.loose explanation.hex explanation.manner (R.remaining r.old) (R.remaining r.new) (W.contents w.old) (W.contents w.new)) }
{
    let bytes = read_all(alloc, r, FILE_LIMIT)?;
    explain_all(alloc, &bytes, w, explanation)
}

/// Tells of the recording that the bytes are, or explains them.
fn explain_all<W: Write>(
    alloc: Global,
    bytes: &[u8],
    w: &mut W,
    explanation: Explanation,
) -> Result<u8, ToolFault>
    ensures done { IfOk result (DoesWithBytes (is_recording explanation.loose explanation.hex bytes.now) explanation.loose explanation.hex explanation.manner bytes.now (W.contents w.old) (W.contents w.new)) }
    ensures err { IfErr result (RefusesBytes (is_recording explanation.loose explanation.hex bytes.now) explanation.loose explanation.hex explanation.manner bytes.now (W.contents w.old) (W.contents w.new)) }
{
    match is_recording(bytes, explanation.hex, explanation.loose) {
        true => tell_recording(alloc, bytes, w),
        false => explain_text(alloc, bytes, w, explanation),
    }
}

/// Writes the explanation of the bytes, or of those of which they are the hexadecimal text.
#[tactic(auto, using(crate::proofs::Hexadecimal::no_text, crate::proofs::Hexadecimal::reported_of_text, crate::proofs::Hexadecimal::refused_of_text, crate::proofs::Hexadecimal::reported_as_is, crate::proofs::Hexadecimal::refused_as_is, crate::proofs::Hexadecimal::text_refused, crate::proofs::Hexadecimal::text_unread))]
fn explain_text<W: Write>(
    alloc: Global,
    bytes: &[u8],
    w: &mut W,
    explanation: Explanation,
) -> Result<u8, ToolFault>
    ensures explained { IfOk result (Writes Appends (ReportsText explanation.loose explanation.hex explanation.manner) bytes.now (W.contents w.old) (W.contents w.new)) }
    ensures err { IfErr result (RefusesText explanation.loose explanation.hex explanation.manner bytes.now (W.contents w.old) (W.contents w.new)) }
{
    match parse(alloc, bytes) {
        Ok(found) => explain_found(alloc, &found, w, explanation),
        Err(HexFault::Memory) => Err(ToolFault::Memory),
        Err(
            HexFault::Text {
                line,
                column,
                found,
            },
        ) => {
            if explanation.hex {
                return Err(ToolFault::Hex { line, column });
            }
            let fault = HexFault::Text {
                line,
                column,
                found,
            };
            explain_stopped(alloc, bytes, fault, w, explanation)
        }
    }
}

/// Writes the explanation of bytes that are no hexadecimal text, and before it why they are none.
fn explain_stopped<W: Write>(
    alloc: Global,
    bytes: &[u8],
    fault: HexFault,
    w: &mut W,
    explanation: Explanation,
) -> Result<u8, ToolFault>
    ensures explained { IfOk result (Writes Appends (ReportsAs explanation.loose explanation.manner (stop_line bytes.now fault)) bytes.now (W.contents w.old) (W.contents w.new)) }
    ensures err { IfErr result (RefusesAs explanation.loose explanation.manner (stop_line bytes.now fault) bytes.now (W.contents w.old) (W.contents w.new)) }
{
    let mut heading = Text::new(alloc);
    put_stop(&mut heading, bytes, fault)?;
    let subject = Subject {
        heading: heading.as_bytes(),
        bytes,
        manner: explanation.manner,
    };
    subject.explain(alloc, w, explanation.loose)
}

/// Writes the explanation of bytes that were hexadecimal text, and so are not called text.
fn explain_found<W: Write>(
    alloc: Global,
    bytes: &[u8],
    w: &mut W,
    explanation: Explanation,
) -> Result<u8, ToolFault>
    ensures explained { IfOk result (Writes Appends (ReportsAs explanation.loose (decoded_manner explanation.manner) (hexadecimal_words (length bytes.now))) bytes.now (W.contents w.old) (W.contents w.new)) }
    ensures err { IfErr result (RefusesAs explanation.loose (decoded_manner explanation.manner) (hexadecimal_words (length bytes.now)) bytes.now (W.contents w.old) (W.contents w.new)) }
{
    let mut heading = Text::new(alloc);
    put_hexadecimal(&mut heading, bytes.len())?;
    let subject = Subject {
        heading: heading.as_bytes(),
        bytes,
        manner: Manner {
            decoded: true,
            ..explanation.manner
        },
    };
    subject.explain(alloc, w, explanation.loose)
}

/// Puts what is before the explanation of `count` bytes that were hexadecimal text.
#[tactic(auto, unfolding(crate::specs::Explains::hexadecimal_words))]
fn put_hexadecimal(text: &mut Text, count: usize) -> Result<(), AllocError>
    ensures { OnOk result (text.new ≡ text.old ++ hexadecimal_words count) }
{
    text.put("hexadecimal text, ")?;
    put_count(text, count as u64, "byte")?;
    text.put(": ")
}

/// No set, file or dump is hexadecimal text, so each of them is explained as it is.
pub fn no_input_is_hexadecimal_text()
    ensures { NoInputIsHexadecimal }
{}
