//! Explanations by the options of `nzg_explain`.
ghost use Rattle.std.specs.Prelude.{IfOk, true};
ghost use Rattle.usb_text.specs.Shown.{ends};
ghost use Rattle.usb_text.specs.Written.{AreLines};
ghost use Rattle.usb_explain.specs.Fragments.{fragment_lines};
ghost use Rattle.usb_c.specs.Explaining.{ExplainsAs, ExplainsBy, is_hex, is_loose};
ghost use Rattle.usb_c.specs.Texts.{manner_given};

use crate::answer::{Verdict, refused_text};
use crate::buffer::fill_done;
use crate::text::{explain_bytes, manner};
use std::alloc::Global;
use usb_explain::{Manner, explain_fragment};
use usb_hex::parse;
use usb_text::OutFault;

/// Puts the explanation of bytes into the buffer. Bits 0 to 3 of the options and the speed say in which [`manner`], bit 4 takes the
/// bytes for a fragment, bit 5 for hexadecimal text.
pub(crate) fn explain_by(
    alloc: Global,
    bytes: &[u8],
    options: u32,
    speed: u8,
    out: &mut [u8],
) -> Verdict
    ensures { ExplainsBy (is_hex options) (is_loose options) (manner_given options speed) bytes.now out.old out.new result }
{
    let is_loose = options / 16 % 2 == 1;
    let manner = manner(options, speed);
    if options / 32 % 2 == 1 {
        explain_text(alloc, bytes, is_loose, manner, out)
    } else {
        explain_as(alloc, bytes, is_loose, manner, out)
    }
}

/// Explains the bytes of a hexadecimal text, which are not called text then.
fn explain_text(
    alloc: Global,
    text: &[u8],
    is_loose: bool,
    manner: Manner,
    out: &mut [u8],
) -> Verdict
    ensures { ExplainsBy true is_loose manner text.now out.old out.new result }
{
    let decoded = Manner {
        decoded: true,
        ..manner
    };
    match parse(alloc, text) {
        Ok(bytes) => explain_as(alloc, &bytes, is_loose, decoded, out),
        Err(fault) => refused_text(fault),
    }
}

fn explain_as(
    alloc: Global,
    bytes: &[u8],
    is_loose: bool,
    manner: Manner,
    out: &mut [u8],
) -> Verdict
    ensures { ExplainsAs is_loose manner bytes.now out.old out.new result }
{
    if !is_loose {
        return explain_bytes(alloc, bytes, manner, out);
    }
    match explained_alone(alloc, bytes, manner) {
        Ok(text) => fill_done(text.as_slice(), out),
        Err(_) => Verdict::NoMemory,
    }
}

/// The explanation of a fragment.
fn explained_alone(alloc: Global, bytes: &[u8], manner: Manner) -> Result<Vec<u8>, OutFault>
    ensures { IfOk result (λ text. AreLines manner.look.utf8 (ends (fragment_lines manner bytes.now)) text.items) }
{
    let mut text = Vec::new(alloc);
    explain_fragment(alloc, bytes, manner, &mut text)?;
    Ok(text)
}
