//! Texts without what is no code: comments, marks of quoted mail, fences and byte order marks.
ghost use Rattle.std.specs.Prelude.{◌≡◌};
ghost use Rattle.usb_hex.specs.Comments.{after, after_code, after_start, begins_comment, begins_line_comment, begins_word_of, chooses_lines, ends_comment, goes_on_below, is_code, is_code_here, is_unended, shown};
ghost use Rattle.usb_hex.specs.Columns.{is_before_line, is_fence, is_order_mark};
ghost use Rattle.std.specs.Prelude.{IfErr, IfOk};
ghost use Rattle.usb_hex.specs.Comments.{uncommented};
ghost use Rattle.usb_hex.specs.inside.Unmarked.{has_no_mark};

use crate::bracket::has;
use crate::column::after_blanks;
use crate::hex_text::HexFault;
use crate::reading::keep;
use crate::symbol::{begins_line_end, begins_word};
use std::alloc::Global;

/// What a character of a text is in.
#[derive(Clone, Copy, Debug, PartialEq, Eq, Hash)]
pub(crate) enum Place {
    /// Code, with nothing but white space and marks of quoted mail before it in its line.
    Start,
    /// Code.
    Code,
    /// A comment that ends with its line.
    LineComment,
    /// The second character of the mark that begins a comment.
    Opening,
    /// A comment that a mark ends.
    Comment,
    /// The second character of that mark.
    Closing,
}

/// A text with spaces for what is no code in it. Its lines and columns are those of the text. One without any mark of such is
/// copied at once.
#[tactic(auto, using(crate::proofs::Unmarked::all_code))]
pub(crate) fn uncommented(alloc: Global, text: &[u8]) -> Result<Vec<u8>, HexFault>
    ensures ok { IfOk result (λ code. code.items ≡ uncommented Place.Start text.now) }
    ensures err { IfErr result (λ fault. fault ≡ HexFault.Memory) }
{
    if has_no_mark(text) {
        copied(alloc, text)
    } else {
        without_comments(alloc, text)
    }
}

/// Whether no mark of a comment, a quoted mail or a fence is in a text, and no byte of a byte order mark.
fn has_no_mark(text: &[u8]) -> bool
    ensures { result ≡ has_no_mark text.now }
{
    !(has(b'/', text)
        || has(b'#', text)
        || has(b'`', text)
        || has(b'>', text)
        || has(0xef, text)
        || has(0xbb, text)
        || has(0xbf, text))
}

/// A copy of a text.
fn copied(alloc: Global, text: &[u8]) -> Result<Vec<u8>, HexFault>
    ensures ok { IfOk result (λ copy. copy.items ≡ text.now) }
    ensures err { IfErr result (λ fault. fault ≡ HexFault.Memory) }
{
    let mut copy = Vec::new(alloc);
    match copy.extend_from_slice(text) {
        Ok(()) => Ok(copy),
        Err(_) => Err(HexFault::Memory),
    }
}

/// A text with spaces for what is no code in it, character by character.
#[tactic(auto, unfolding(crate::specs::Comments::uncommented))]
fn without_comments(alloc: Global, text: &[u8]) -> Result<Vec<u8>, HexFault>
    ensures ok { IfOk result (λ code. code.items ≡ uncommented Place.Start text.now) }
    ensures err { IfErr result (λ fault. fault ≡ HexFault.Memory) }
{
    let mut code = Vec::new(alloc);
    let mut place = Place::Start;
    let mut rest = text;
    while let [c, tail @ ..] = rest {
        keep(&mut code, Some(shown(place, *c, tail)))?;
        place = after(place, *c, tail);
        rest = tail;
    }
    Ok(code)
}

/// Whether a text ends before its comment does.
fn is_unended(place: Place, rest: &[u8]) -> bool
    ensures { result ≡ is_unended place rest.now }
{
    match place {
        Place::Opening | Place::Comment => rest.is_empty(),
        Place::Start | Place::Code | Place::LineComment | Place::Closing => false,
    }
}

/// Whether a comment may go on in the next line: it ends with a backslash.
fn goes_on_below(place: Place, c: u8, rest: &[u8]) -> bool
    ensures { result ≡ goes_on_below place c rest.now }
{
    match place {
        Place::LineComment => c == b'\\' && begins_line_end(after_blanks(rest)),
        Place::Start | Place::Code | Place::Opening | Place::Comment | Place::Closing => false,
    }
}

/// The character, a space for one that is no code, or a star where a comment doesn't end with the text or its line.
fn shown(place: Place, c: u8, rest: &[u8]) -> u8
    ensures { result ≡ shown place c rest.now }
{
    if is_unended(place, rest) || goes_on_below(place, c, rest) {
        b'*'
    } else if c == b'\n' || is_code(place, c, rest) {
        c
    } else {
        b' '
    }
}

/// Whether the character is code.
fn is_code(place: Place, c: u8, rest: &[u8]) -> bool
    ensures { result ≡ is_code place c rest.now }
{
    match place {
        Place::Start => !(c == b'>' || is_fence(c, rest)) && is_code_here(c, rest),
        Place::Code => is_code_here(c, rest),
        Place::LineComment | Place::Opening | Place::Comment | Place::Closing => false,
    }
}

/// Whether the character is code, where code may be.
fn is_code_here(c: u8, rest: &[u8]) -> bool
    ensures { result ≡ is_code_here c rest.now }
{
    !(begins_line_comment(c, rest) || begins_comment(c, rest) || is_order_mark(c))
}

/// What the character after this one is in.
fn after(place: Place, c: u8, rest: &[u8]) -> Place
    ensures { result ≡ after place c rest.now }
{
    match place {
        Place::Start => after_start(c, rest),
        Place::Code => after_code(c, rest),
        Place::LineComment => {
            if c == b'\n' {
                Place::Start
            } else {
                Place::LineComment
            }
        }
        Place::Opening => Place::Comment,
        Place::Comment => {
            if ends_comment(c, rest) {
                Place::Closing
            } else {
                Place::Comment
            }
        }
        Place::Closing => Place::Code,
    }
}

/// The same where nothing of the line is before the character.
fn after_start(c: u8, rest: &[u8]) -> Place
    ensures { result ≡ after_start c rest.now }
{
    if is_before_line(c) {
        Place::Start
    } else if is_fence(c, rest) {
        Place::LineComment
    } else {
        after_code(c, rest)
    }
}

/// The same in code.
fn after_code(c: u8, rest: &[u8]) -> Place
    ensures { result ≡ after_code c rest.now }
{
    if c == b'\n' {
        Place::Start
    } else if begins_line_comment(c, rest) {
        Place::LineComment
    } else if begins_comment(c, rest) {
        Place::Opening
    } else {
        Place::Code
    }
}

/// Whether two slashes are here, or a number sign and a space that begin no directive.
#[inline(always)]
fn begins_line_comment(c: u8, rest: &[u8]) -> bool
    ensures { result ≡ begins_line_comment c rest.now }
{
    (c == b'/' && matches!(rest, [b'/', ..]))
        || (c == b'#' && matches!(rest, [b' ', ..]) && !chooses_lines(after_blanks(rest)))
}

/// Whether a directive of C that says which lines are code is at the start of a text.
fn chooses_lines(text: &[u8]) -> bool
    ensures { result ≡ chooses_lines text.now }
{
    begins_word_of(b"if", text)
        || begins_word_of(b"ifdef", text)
        || begins_word_of(b"ifndef", text)
        || begins_word_of(b"elif", text)
        || begins_word_of(b"else", text)
        || begins_word_of(b"endif", text)
        || begins_word_of(b"include", text)
}

/// Whether a text begins with a name.
fn begins_word_of(name: &[u8], text: &[u8]) -> bool
    ensures { result ≡ begins_word_of name.now text.now }
{
    match name {
        [] => !begins_word(text),
        [letter, name @ ..] => match text {
            [c, rest @ ..] => *c == *letter && begins_word_of(name, rest),
            [] => false,
        },
    }
}

/// Whether a slash and a star are here.
fn begins_comment(c: u8, rest: &[u8]) -> bool
    ensures { result ≡ begins_comment c rest.now }
{
    c == b'/' && matches!(rest, [b'*', ..])
}

/// Whether a star and a slash are here.
fn ends_comment(c: u8, rest: &[u8]) -> bool
    ensures { result ≡ ends_comment c rest.now }
{
    c == b'*' && matches!(rest, [b'/', ..])
}

/// Whether three back quotes are here.
pub(crate) fn is_fence(c: u8, rest: &[u8]) -> bool
    ensures { result ≡ is_fence c rest.now }
{
    c == b'`' && matches!(rest, [b'`', b'`', ..])
}

/// Whether the character is white space in a line, or may be before a line in a mail.
pub(crate) fn is_before_line(c: u8) -> bool
    ensures { result ≡ is_before_line c }
{
    matches!(c, b'\t' | b' ' | b'>') || is_order_mark(c)
}

/// Whether the character is a byte of UTF-8's byte order mark.
fn is_order_mark(c: u8) -> bool
    ensures { result ≡ is_order_mark c }
{
    matches!(c, 0xef | 0xbb | 0xbf)
}
