//! Bytes as hexadecimal text.
ghost use Rattle.std.specs.Prelude.{◌≡◌, ◌≤◌, IfOk};
ghost use Rattle.usb_tool.specs.Builds.{column_after, hex_from, hex_text, part_after};

use std::alloc::{AllocError, Global};
use usb_text::Text;

/// The bytes as hexadecimal text.
#[tactic(auto, unfolding(crate::specs::Builds::hex_from))]
pub(crate) fn hex_text(alloc: Global, bytes: &[u8]) -> Result<Text, AllocError>
    ensures { IfOk result (λ text. text ≡ hex_text bytes.now) }
{
    let mut text = Text::new(alloc);
    let mut column = 0;
    let mut rest = bytes;
    while let [byte, tail @ ..] = rest {
        text.put_pair(*byte)?;
        text.put_character(part_after(column, tail))?;
        column = column_after(column);
        rest = tail;
    }
    Ok(text)
}

/// The last column of a line.
const LAST: u8 = 15;

/// The column of the next byte.
fn column_after(column: u8) -> u8
    requires { column ≤ 15 }
    ensures { result ≡ column_after column }
{
    if column == LAST { 0 } else { column + 1 }
}

/// What is after the byte in this column, before the others.
fn part_after(column: u8, rest: &[u8]) -> u8
    ensures { result ≡ part_after column rest.now }
{
    if rest.is_empty() || column == LAST {
        b'\n'
    } else {
        b' '
    }
}
