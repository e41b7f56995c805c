//! Hexadecimal texts in the forms in which people have bytes.
ghost use Rattle.std.specs.Prelude.{◌≡◌, ◌&&◌, slice_index, true};
ghost use Rattle.usb_hex.specs.Columns.{after_all, at_start, is_named};
ghost use Rattle.usb_hex.specs.HexItems.{is_gap};
ghost use Rattle.usb_hex.specs.inside.NoItems.{begins_no_item};
ghost use Rattle.usb_hex.specs.SourceItems.{is_decimal};
ghost use Rattle.std.specs.List.{list_all};
ghost use Rattle.usb_hex.specs.Hexadecimal.{array_style, bare_style, has_long_number, has_prefix, has_suffix, has_three_digits, is_of_decimals, is_of_source, is_source, line_style, number_style, style_of};
ghost use Rattle.std.specs.Prelude.{IfErr, IfOk, ◌⊎◌};
ghost use Rattle.usb_hex.specs.Literals.{literal_of};
ghost use Rattle.usb_hex.specs.Hexadecimal.{FaultyIn, HexIn, HexRefused, HexText, inner_of, layout_of, named_form, source_form, source_of};

use crate::bracket::{Bracket, bracket_of, has, within};
use crate::column::{at_start, column_form, columns_of};
use crate::comment::uncommented;
use crate::hex_digit::{digit, is_gap};
use crate::hex_text::{Form, HexFault, form_of};
use crate::label::unlabelled;
use crate::literal::literal_of;
use crate::named::is_named;
use crate::reading::read_in;
use crate::source_item::{Style, is_parting};
use crate::symbol::is_decimal;
use crate::two_readings::has_two_readings;
use std::alloc::Global;

/// The bytes of a hexadecimal text, one at least. Digits have either case. White space and commas may be between two
/// bytes, and `0x` or `\x` before one. Offsets and characters in the columns of dumps and debuggers are left out, and each
/// offset is the first one and the count of the bytes between.
///
/// Another text is read without comments and labels, and between its first bracket and the partner where it has brackets. Its bytes
/// are in strings (`"\x12\x01"`), have prefixes (`0x1`, `0X12`, `$12`), suffixes (`12h`, `0x12u`) or separators
/// (`12:01`, `12-01`), or are decimal numbers in brackets. Or it has literals of Python or Rust, as `b'\x12\x01 '`, in which a
/// printable character is its byte. A text that two readings would take differently is refused.
///
/// ```rust
/// assert_eq!(rt; parse(alloc, b"0x09, 0x02\n2200")?.as_slice(), [9, 2, 0x22, 0]);
/// assert_eq!(rt; parse(alloc, b"00000000: 0902 2200  ..\".\n")?.as_slice(), [9, 2, 0x22, 0]);
/// assert_eq!(rt; parse(alloc, b"x[] = { 0x9, /* 1 */ 0x02u };")?.as_slice(), [9, 2]);
/// assert_eq!(rt; parse(alloc, b"[9, 2, 134, 0]")?.as_slice(), [9, 2, 134, 0]);
/// ```
///
/// # Errors
///
/// `Text` with the line and the column of the first character that begins no byte and is nothing between bytes, as an odd
/// digit, or of the text's end where it has no byte; of a text that is read as a source, those of the source. `Memory`
/// when out of memory.
pub fn parse(alloc: Global, text: &[u8]) -> Result<Vec<u8>, HexFault>
    ensures ok { IfOk result (λ bytes. HexText text.now bytes.items) }
    ensures err { IfErr result (HexRefused text.now) }
{
    if begins_no_item(text) && is_source(text) {
        return read_at_once(alloc, text);
    }
    match read_in(alloc, form_of(text), text, text) {
        Ok(bytes) => Ok(bytes),
        Err(HexFault::Memory) => Err(HexFault::Memory),
        Err(fault) => {
            if is_source(text) {
                read_source(alloc, text)
            } else {
                Err(fault)
            }
        }
    }
}

/// The bytes of a source that no item begins, without a look at it as it is.
#[tactic(auto, using(crate::proofs::NoItems::read_at_once, crate::proofs::NoItems::refused_at_once))]
fn read_at_once(alloc: Global, text: &[u8]) -> Result<Vec<u8>, HexFault>
    requires item { begins_no_item text.now ≡ true }
    requires source { is_source text.now ≡ true }
    ensures ok { IfOk result (λ bytes. HexText text.now bytes.items) }
    ensures err { IfErr result (HexRefused text.now) }
{
    match read_source(alloc, text) {
        Ok(bytes) => Ok(bytes),
        Err(fault) => Err(fault),
    }
}

/// Whether a text begins with no item: neither a digit nor a backslash is after all gaps.
fn begins_no_item(text: &[u8]) -> bool
    ensures { result ≡ begins_no_item text.now }
{
    match after_gaps(text) {
        [c, ..] => !(digit(*c).is_some() || *c == b'\\'),
        [] => true,
    }
}

/// What is left after all leading gaps.
#[tactic(auto, unfolding(crate::specs::Columns::after_all))]
fn after_gaps(text: &[u8]) -> &[u8]
    ensures { result.now ≡ after_all is_gap text.now }
{
    let mut rest = text;
    while let [c, tail @ ..] = rest {
        if !is_gap(*c) {
            break;
        }
        rest = tail;
    }
    rest
}

/// The bytes of a source.
fn read_source(alloc: Global, text: &[u8]) -> Result<Vec<u8>, HexFault>
    ensures ok { IfOk result (λ bytes. HexIn (source_form text.now) (source_of text.now) bytes.items) }
    ensures err { IfErr result (λ fault. (fault ≡ HexFault.Memory) ⊎ FaultyIn (source_form text.now) text.now (source_of text.now) fault) }
{
    match layout_of(text) {
        Some(form) => read_in(alloc, form, text, text),
        None => {
            let code = uncommented(alloc, text)?;
            let code = unlabelled(alloc, code)?;
            let bracket = bracket_of(&code);
            let inner = inner_of(alloc, bracket, code)?;
            let form = if has_two_readings(text) {
                Form::Words
            } else {
                Form::Source(style_of(bracket, &inner))
            };
            read_in(alloc, form, text, &inner)
        }
    }
}

/// The form of a text with columns, a literal or a name, in which it is read as it is.
fn layout_of(text: &[u8]) -> Option<Form>
    ensures { result ≡ layout_of text.now }
{
    match columns_of(text) {
        Some(line) => Some(column_form(line)),
        None => named_form(text),
    }
}

/// The form of a text with a literal or a name.
pub(crate) fn named_form(text: &[u8]) -> Option<Form>
    ensures { result ≡ named_form text.now (literal_of text.now) }
{
    match literal_of(text) {
        Some(literal) => Some(Form::Literal(first_character(literal))),
        None => {
            if begins_named(text) {
                Some(Form::Named)
            } else {
                None
            }
        }
    }
}

/// Whether `Data (HexDump)` begins the first line of a text. Without its first letter none does.
#[tactic(auto, using(crate::proofs::Unmarked::not_named))]
fn begins_named(text: &[u8]) -> bool
    ensures { result ≡ is_named (at_start text.now) }
{
    has(b'D', text) && is_named(at_start(text))
}

/// The first character of a text.
fn first_character(text: &[u8]) -> u8
    ensures { result ≡ slice_index text.now 0 }
{
    match text {
        [c, ..] => *c,
        [] => 0,
    }
}

/// What is between the brackets of a text without comments, or all of it.
fn inner_of(alloc: Global, bracket: Option<Bracket>, code: Vec<u8>) -> Result<Vec<u8>, HexFault>
    ensures ok { IfOk result (λ inner. inner.items ≡ inner_of bracket code.items) }
    ensures err { IfErr result (λ fault. fault ≡ HexFault.Memory) }
{
    match bracket {
        None => Ok(code),
        Some(bracket) => within(alloc, bracket, &code),
    }
}

/// Whether the characters are those of a source.
pub(crate) fn is_source(text: &[u8]) -> bool
    ensures { result ≡ is_source text.now }
{
    text.iter().all(|c| is_of_source(*c))
}

/// All characters, those of no source as dots.
const SOURCES: [u8; 256] = *b".........##..#..................################################\
    ###############################################################.\
    ################################################################\
    ################################################################";

/// What a table says of a character. It is apart, since an index straight into the constant stalls the proof.
#[inline(always)]
fn at(kinds: &[u8; 256], c: u8) -> u8
    ensures { result ≡ slice_index kinds.now c }
{
    kinds[usize::from(c)]
}

/// Whether the character is printable, one beyond ASCII, a tab or the end of a line.
#[inline(always)]
#[tactic(auto, using(crate::proofs::Sources::says))]
fn is_of_source(c: u8) -> bool
    ensures { result ≡ is_of_source c }
{
    at(&SOURCES, c) == b'#'
}

/// How a text has its bytes.
fn style_of(bracket: Option<Bracket>, inner: &[u8]) -> Style
    ensures { result ≡ style_of bracket inner.now }
{
    if has(b'\\', inner) {
        Style::Escaped
    } else if has_prefix(inner) {
        Style::Prefixed
    } else {
        bare_style(bracket, inner)
    }
}

/// Whether a text has a character of a prefix.
fn has_prefix(inner: &[u8]) -> bool
    ensures { result ≡ has_prefix inner.now }
{
    has(b'x', inner) || has(b'X', inner) || has(b'$', inner)
}

/// Whether a text has a character of a suffix.
fn has_suffix(inner: &[u8]) -> bool
    ensures { result ≡ has_suffix inner.now }
{
    has(b'h', inner) || has(b'H', inner)
}

/// How a text has bytes without a prefix.
fn bare_style(bracket: Option<Bracket>, inner: &[u8]) -> Style
    ensures { result ≡ bare_style bracket inner.now }
{
    match bracket {
        None => line_style(inner),
        Some(bracket) => array_style(bracket, inner),
    }
}

/// The same of one without brackets.
fn line_style(inner: &[u8]) -> Style
    ensures { result ≡ line_style inner.now }
{
    if has(b':', inner) || has(b'-', inner) {
        Style::Separated
    } else if has_suffix(inner) {
        Style::Suffixed
    } else {
        Style::Pairs
    }
}

/// The same of one with brackets.
fn array_style(bracket: Bracket, inner: &[u8]) -> Style
    ensures { result ≡ array_style bracket inner.now }
{
    if has_suffix(inner) {
        Style::Suffixed
    } else if has_only_decimals(inner) {
        number_style(bracket, inner)
    } else {
        Style::Loose
    }
}

/// How an array has numbers without a letter.
fn number_style(bracket: Bracket, inner: &[u8]) -> Style
    ensures { result ≡ number_style bracket inner.now }
{
    let is_long = has_long_number(inner);
    match bracket {
        Bracket::Curly if is_long => Style::Decimals,
        Bracket::Curly => Style::Pairs,
        Bracket::Square if is_long && !has_three_digits(inner) => Style::Either,
        Bracket::Square => Style::Decimals,
    }
}

/// Whether a text has only decimal numbers.
fn has_only_decimals(text: &[u8]) -> bool
    ensures { result ≡ list_all is_of_decimals text.now }
{
    text.iter().all(|c| is_of_decimals(*c))
}

/// Whether the character may be in or between decimal numbers.
fn is_of_decimals(c: u8) -> bool
    ensures { result ≡ is_of_decimals c }
{
    is_decimal(c) || is_parting(c)
}

/// Whether two decimal digits are next to each other.
#[tactic(auto, unfolding(crate::specs::Hexadecimal::has_long_number))]
fn has_long_number(text: &[u8]) -> bool
    ensures { result ≡ has_long_number text.now }
{
    let mut rest = text;
    while let [c, tail @ ..] = rest {
        if is_decimal(*c) && begins_decimal(tail) {
            return true;
        }
        rest = tail;
    }
    false
}

/// Whether three decimal digits are next to each other.
#[tactic(auto, unfolding(crate::specs::Hexadecimal::has_three_digits))]
fn has_three_digits(text: &[u8]) -> bool
    ensures { result ≡ has_three_digits text.now }
{
    let mut rest = text;
    while let [c, tail @ ..] = rest {
        if is_decimal(*c) && begins_two_decimals(tail) {
            return true;
        }
        rest = tail;
    }
    false
}

/// Whether two decimal digits are at the start of a text.
fn begins_two_decimals(text: &[u8]) -> bool
    ensures { result ≡ (is_decimal (slice_index text.now 0) && is_decimal (slice_index text.now 1)) }
{
    match text {
        [c, d, ..] => is_decimal(*c) && is_decimal(*d),
        _ => false,
    }
}

/// Whether a decimal digit is at the start of a text.
fn begins_decimal(text: &[u8]) -> bool
    ensures { result ≡ is_decimal (slice_index text.now 0) }
{
    match text {
        [c, ..] => is_decimal(*c),
        [] => false,
    }
}
