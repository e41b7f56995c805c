//! Texts without the labels of their lines.
ghost use Rattle.std.specs.Prelude.{◌≡◌, IfErr, IfOk, false, slice_index};
ghost use Rattle.usb_hex.specs.Columns.{after_all};
ghost use Rattle.usb_hex.specs.SourceItems.{is_decimal, is_quote};
ghost use Rattle.usb_hex.specs.Labels.{after_dot, are_pairs, begins_declaration, begins_hexadecimal, begins_name, begins_pairs, begins_two_digits, declares, ends_declaration, is_beyond_digits, is_comma, is_declaration, goes_on_below, is_directive, is_either_case, is_in_directive, is_label, is_of_radix, is_radix_letter, names_bytes, next_part, part_at, part_of_line, shown_part, unlabelled};
ghost use Rattle.usb_hex.specs.Columns.{is_blank};
ghost use Rattle.usb_hex.specs.inside.Unmarked.{has_no_label};

use crate::bracket::has;
use crate::column::{
    after_blanks, after_hex_digits, after_one, begins_blank, begins_feed, is_blank,
};
use crate::hex_digit::digit;
use crate::hex_text::HexFault;
use crate::reading::keep;
use crate::source_item::begins_escape;
use crate::symbol::{begins_line_end, is_decimal, is_letter, is_quote};
use std::alloc::Global;

/// What a character of a text is in.
#[derive(Clone, Copy, Debug, PartialEq, Eq, Hash)]
pub(crate) enum Part {
    /// The start of a line.
    Start,
    /// A label, which ends with a colon.
    Label,
    /// An assembler's directive, which ends before a number.
    Directive,
    /// What is before a string.
    Declaration,
    /// What is no label.
    Bytes,
}

/// A text with spaces for the labels of its lines. Its lines and columns are those of the text. One with no character that a
/// label must have is handed back.
#[tactic(auto, using(crate::proofs::Unmarked::all_bytes))]
pub(crate) fn unlabelled(alloc: Global, text: Vec<u8>) -> Result<Vec<u8>, HexFault>
    ensures ok { IfOk result (λ bytes. bytes.items ≡ unlabelled Part.Start text.items) }
    ensures err { IfErr result (λ fault. fault ≡ HexFault.Memory) }
{
    if has_no_label(&text) {
        Ok(text)
    } else {
        without_labels(alloc, &text)
    }
}

/// Whether a text has no character of those of which a label, a directive or a declaration has one, and no backslash.
fn has_no_label(text: &[u8]) -> bool
    ensures { result ≡ has_no_label text.now }
{
    !(has(b':', text)
        || has(b'\'', text)
        || has(b'"', text)
        || has(b'\\', text)
        || has(b'b', text)
        || has(b'B', text))
}

/// A text with spaces for the labels of its lines, character by character.
#[tactic(auto, unfolding(crate::specs::Labels::unlabelled))]
fn without_labels(alloc: Global, text: &[u8]) -> Result<Vec<u8>, HexFault>
    ensures ok { IfOk result (λ bytes. bytes.items ≡ unlabelled Part.Start text.now) }
    ensures err { IfErr result (λ fault. fault ≡ HexFault.Memory) }
{
    let mut bytes = Vec::new(alloc);
    let mut part = Part::Start;
    let mut rest = text;
    while let [c, tail @ ..] = rest {
        let here = part_at(part, rest);
        keep(&mut bytes, Some(shown_part(here, *c, tail)))?;
        part = next_part(here, *c);
        rest = tail;
    }
    Ok(bytes)
}

/// Whether a text begins with a label.
#[tactic(auto, unfolding(crate::specs::Labels::is_label))]
fn is_label(text: &[u8]) -> bool
    ensures { result ≡ is_label false text.now }
{
    let mut named = false;
    let mut rest = text;
    while let [c, tail @ ..] = rest {
        if *c == b':' {
            return named && begins_pairs(tail);
        }
        if *c == b'\n' || is_decimal(*c) {
            return false;
        }
        named = is_beyond_digits(*c) || named;
        rest = tail;
    }
    false
}

/// Whether the character is a letter and no digit.
fn is_beyond_digits(c: u8) -> bool
    ensures { result ≡ is_beyond_digits c }
{
    is_letter(c) && digit(c).is_none()
}

/// Whether two bytes are after blanks, or at once and with a comma between them.
fn begins_pairs(text: &[u8]) -> bool
    ensures { result ≡ begins_pairs text.now }
{
    (begins_blank(text) && are_pairs(after_blanks(text))) || are_listed(text)
}

/// Whether two bytes with a blank between them are at the start of a text.
pub(crate) fn are_pairs(text: &[u8]) -> bool
    ensures { result ≡ are_pairs is_blank text.now }
{
    match text {
        [a, b, c, rest @ ..] => {
            digit(*a).is_some() && digit(*b).is_some() && is_blank(*c) && begins_two_digits(rest)
        }
        _ => false,
    }
}

/// Whether two bytes with a comma between them are at the start of a text.
fn are_listed(text: &[u8]) -> bool
    ensures { result ≡ are_pairs is_comma text.now }
{
    match text {
        [a, b, c, rest @ ..] => {
            digit(*a).is_some() && digit(*b).is_some() && *c == b',' && begins_two_digits(rest)
        }
        _ => false,
    }
}

/// Whether two digits are at the start of a text.
pub(crate) fn begins_two_digits(text: &[u8]) -> bool
    ensures { result ≡ begins_two_digits text.now }
{
    match text {
        [a, b, ..] => digit(*a).is_some() && digit(*b).is_some(),
        _ => false,
    }
}

/// Whether a line begins with an assembler's directive for bytes.
fn is_directive(text: &[u8]) -> bool
    ensures { result ≡ is_directive text.now }
{
    names_bytes(after_dot(after_blanks(text))) && begins_hexadecimal(after_directive(text))
}

/// Whether a text begins with the name of such a directive, and a blank.
fn names_bytes(text: &[u8]) -> bool
    ensures { result ≡ names_bytes text.now }
{
    begins_name(&[b'd', b'b'], text)
        || begins_name(&[b'd', b'c', b'b'], text)
        || begins_name(&[b'd', b'c', b'.', b'b'], text)
        || begins_name(&[b'f', b'c', b'b'], text)
        || begins_name(&[b'b', b'y', b't', b'e'], text)
}

/// Whether a text begins with a name in letters of either case, and a blank.
fn begins_name(name: &[u8], text: &[u8]) -> bool
    ensures { result ≡ begins_name name.now text.now }
{
    match name {
        [] => begins_blank(text),
        [letter, name @ ..] => match text {
            [c, rest @ ..] => is_either_case(*letter, *c) && begins_name(name, rest),
            [] => false,
        },
    }
}

/// Whether the character is the letter, in lower or upper case.
fn is_either_case(letter: u8, c: u8) -> bool
    ensures { result ≡ is_either_case letter c }
{
    c == letter || u16::from(c) + 32 == u16::from(letter)
}

/// What is left after a dot, if there is one.
fn after_dot(text: &[u8]) -> &[u8]
    ensures { result.now ≡ after_dot text.now }
{
    match text {
        [b'.', rest @ ..] => rest,
        _ => text,
    }
}

/// What is left after the letters, dots and blanks of a directive.
#[tactic(auto, unfolding(crate::specs::Columns::after_all))]
fn after_directive(text: &[u8]) -> &[u8]
    ensures { result.now ≡ after_all is_in_directive text.now }
{
    let mut rest = text;
    while let [c, tail @ ..] = rest {
        if !is_in_directive(*c) {
            break;
        }
        rest = tail;
    }
    rest
}

/// Whether the character is a letter, a blank or a dot.
fn is_in_directive(c: u8) -> bool
    ensures { result ≡ is_in_directive c }
{
    is_letter(c) || is_blank(c) || c == b'.'
}

/// Whether a number with a prefix or a suffix is at the start of a text.
fn begins_hexadecimal(text: &[u8]) -> bool
    ensures { result ≡ begins_hexadecimal text.now }
{
    match text {
        [b'$', ..] => true,
        [c, ..] => is_decimal(*c) && begins_radix_letter(after_hex_digits(text)),
        [] => false,
    }
}

/// Whether a letter of `0x12` or of `12h` is at the start of a text.
fn begins_radix_letter(text: &[u8]) -> bool
    ensures { result ≡ is_radix_letter (slice_index text.now 0) }
{
    match text {
        [c, ..] => is_either_case(b'x', *c) || is_either_case(b'h', *c),
        [] => false,
    }
}

/// Whether a line begins with a declaration or a call before a string.
fn begins_declaration(text: &[u8]) -> bool
    ensures { result ≡ begins_declaration text.now }
{
    !begins_decimal(after_blanks(text)) && is_declaration(text)
}

/// Whether a decimal digit is at the start of a text.
pub(crate) fn begins_decimal(text: &[u8]) -> bool
    ensures { result ≡ is_decimal (slice_index text.now 0) }
{
    match text {
        [c, ..] => is_decimal(*c),
        [] => false,
    }
}

/// Whether a text goes on as a declaration before a string does.
#[tactic(auto, unfolding(crate::specs::Labels::is_declaration))]
fn is_declaration(text: &[u8]) -> bool
    ensures { result ≡ is_declaration false 32 text.now }
{
    let mut named = false;
    let mut last = b' ';
    let mut rest = text;
    while let [c, tail @ ..] = rest {
        if is_quote(*c) {
            return declares(named, last, tail);
        }
        if *c == b'\n' {
            return goes_on_below(named, last, tail);
        }
        if ends_declaration(*c) {
            return false;
        }
        named = is_beyond_digits(*c) || named;
        last = if is_blank(*c) { last } else { *c };
        rest = tail;
    }
    false
}

/// Whether the string of a declaration begins in the next line.
fn goes_on_below(named: bool, last: u8, rest: &[u8]) -> bool
    ensures { result ≡ goes_on_below named last rest.now }
{
    let start = after_blanks(rest);
    last == b'=' && begins_quote(start) && declares(named, last, after_one(start))
}

/// Whether what is before a string says that it is one.
fn declares(named: bool, last: u8, text: &[u8]) -> bool
    ensures { result ≡ declares named last text.now }
{
    (((named && last != b'[') || last == b'=') && begins_escape(text))
        || (last == b'(' && begins_two_digits(text))
}

/// Whether the character is in no declaration before a string.
pub(crate) fn ends_declaration(c: u8) -> bool
    ensures { result ≡ ends_declaration c }
{
    c == b'\\' || c == b',' || c == b'{'
}

/// What the first character of a line is in. Nothing begins in one of blanks.
#[tactic(auto, using(crate::proofs::EmptyLines::no_label))]
fn part_of_line(text: &[u8]) -> Part
    ensures { result ≡ part_of_line text.now }
{
    if begins_feed(after_blanks(text)) {
        Part::Bytes
    } else if is_label(text) {
        Part::Label
    } else if is_directive(text) {
        Part::Directive
    } else if begins_declaration(text) {
        Part::Declaration
    } else {
        Part::Bytes
    }
}

/// What the character at the start of a text is in.
fn part_at(part: Part, text: &[u8]) -> Part
    ensures { result ≡ part_at part text.now }
{
    match part {
        Part::Start => part_of_line(text),
        Part::Directive if begins_number(text) => Part::Bytes,
        Part::Declaration if begins_quote(text) => Part::Bytes,
        Part::Label | Part::Directive | Part::Declaration | Part::Bytes => part,
    }
}

/// Whether a number as after a directive is at the start of a text.
fn begins_number(text: &[u8]) -> bool
    ensures { result ≡ is_of_radix (slice_index text.now 0) }
{
    begins_decimal(text) || matches!(text, [b'$', ..])
}

/// Whether a quote is at the start of a text.
fn begins_quote(text: &[u8]) -> bool
    ensures { result ≡ is_quote (slice_index text.now 0) }
{
    match text {
        [c, ..] => is_quote(*c),
        [] => false,
    }
}

/// What the character after one of this part is in.
fn next_part(part: Part, c: u8) -> Part
    ensures { result ≡ next_part part c }
{
    match part {
        Part::Label if c == b':' => Part::Bytes,
        Part::Label | Part::Directive | Part::Declaration => part,
        Part::Start | Part::Bytes => { if c == b'\n' { Part::Start } else { Part::Bytes } }
    }
}

/// The character, or a space for one of a label and for a backslash at the end of a line.
fn shown_part(part: Part, c: u8, rest: &[u8]) -> u8
    ensures { result ≡ shown_part part c rest.now }
{
    match part {
        Part::Label | Part::Directive => b' ',
        Part::Declaration => { if c == b'\n' { b'\n' } else { b' ' } }
        Part::Start | Part::Bytes => {
            if c == b'\\' && begins_line_end(rest) {
                b' '
            } else {
                c
            }
        }
    }
}
