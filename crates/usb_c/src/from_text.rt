//! The bytes of hexadecimal text.
ghost use Rattle.usb_c.specs.Answers.{AnswersOn};
ghost use Rattle.usb_c.specs.FromText.{ReadsText};

use crate::answer::{Answer, Verdict, refused_text};
use crate::buffer::fill_done;
use std::alloc::Global;
use usb_hex::parse;

/// Puts the bytes of a hexadecimal text into the buffer, in any form that `usbdesc` reads: digits, a dump with its columns, an array
/// of a program. Of a text that is none, or that two readings would take differently, it answers the line and the column.
#[unsafe(no_mangle)]
pub extern "C" fn nzg_from_text(alloc: Global, text: &[u8], bytes: &mut [u8]) -> Answer
    ensures { AnswersOn (ReadsText text.now bytes.old bytes.new) result }
{
    read_text(alloc, text, bytes).answer()
}

fn read_text(alloc: Global, text: &[u8], out: &mut [u8]) -> Verdict
    ensures { ReadsText text.now out.old out.new result }
{
    match parse(alloc, text) {
        Ok(bytes) => fill_done(bytes.as_slice(), out),
        Err(fault) => refused_text(fault),
    }
}
