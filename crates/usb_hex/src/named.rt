//! Lines with names before their bytes.
ghost use Rattle.std.specs.Prelude.{◌≡◌, ◌≤◌, length};
ghost use Rattle.usb_hex.specs.Columns.{after_all, after_label, is_in_label, is_named};

use crate::column::{after_blanks, after_one, at_start};

/// Whether `Data (HexDump)` is at the start of a line.
pub(crate) fn is_named(text: &[u8]) -> bool
    ensures { result ≡ is_named text.now }
{
    matches!(
        text,
        [b'D', b'a', b't', b'a', b' ', b'(', b'H', b'e', b'x', ..]
    )
}

/// What is left of a line from its colon on, or from its end.
#[tactic(auto, unfolding(crate::specs::Columns::after_all))]
fn after_name_of_line(text: &[u8]) -> &[u8]
    ensures is { result.now ≡ after_all is_in_label text.now }
    ensures within { length result.now ≤ length text.now }
{
    let mut rest = text;
    while let [c, tail @ ..] = rest {
        if *c == b'\n' || *c == b':' {
            break;
        }
        rest = tail;
    }
    rest
}

/// What is left after the name of a line, where it has one.
pub(crate) fn after_label(text: &[u8]) -> &[u8]
    ensures is { result.now ≡ after_label text.now }
    ensures within { length result.now ≤ length text.now }
{
    let line = at_start(text);
    if is_named(line) {
        after_blanks(after_one(after_name_of_line(line)))
    } else {
        line
    }
}
