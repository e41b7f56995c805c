//! The columns of a text that has them.
ghost use Rattle.std.specs.Prelude.{◌≡◌, ◌&&◌, ◌==◌, ◌<◌, ◌≤◌, IfSome, MatchOption, None, Some, length, not, slice_index, true};
ghost use Rattle.hex.specs.Hex.{is_hex_digit};
ghost use Rattle.usb_hex.specs.inside.Runs.{has_run};
ghost use Rattle.usb_hex.specs.Columns.{after_all, after_one, at_offset, at_start, begins_address, begins_byte_word, begins_columns, begins_fence, begins_gap, begins_marked_pair, begins_numbers, begins_pair, begins_row, begins_zeros, blank_form, byte_word, column_form, columns_of, has_bytes, has_next_offset, has_text, has_three_spaces, has_two_spaces, is_before_line, is_blank, is_empty_line, is_heading, is_in_line, is_too_long, is_zero, next_line, zeros_form};

use crate::comment::{is_before_line, is_fence};
use crate::hex_digit::{digit, is_gap};
use crate::hex_text::Form;
use crate::in_order::colon_form;
use crate::offset::{
    after_digits, after_mark, after_name, after_offset_of, ends_address, has_digits, is_offset,
    offset_value,
};
use memchr::memchr;

/// What is left after all leading zeros.
#[tactic(auto, unfolding(crate::specs::Columns::after_all))]
fn after_zeros(text: &[u8]) -> &[u8]
    ensures is { result.now ≡ after_all is_zero text.now }
    ensures within { length result.now ≤ length text.now }
{
    let mut rest = text;
    while let [b'0', tail @ ..] = rest {
        rest = tail;
    }
    rest
}

/// What is left after all leading hexadecimal digits.
#[tactic(auto, unfolding(crate::specs::Columns::after_all))]
pub(crate) fn after_hex_digits(text: &[u8]) -> &[u8]
    ensures is { result.now ≡ after_all is_hex_digit text.now }
    ensures within { length result.now ≤ length text.now }
{
    let mut rest = text;
    while let [c, tail @ ..] = rest {
        if digit(*c).is_none() {
            break;
        }
        rest = tail;
    }
    rest
}

/// What is left after all leading spaces and tabs.
#[tactic(auto, unfolding(crate::specs::Columns::after_all))]
pub(crate) fn after_blanks(text: &[u8]) -> &[u8]
    ensures is { result.now ≡ after_all is_blank text.now }
    ensures within { length result.now ≤ length text.now }
{
    let mut rest = text;
    while let [b' ' | b'\t', tail @ ..] = rest {
        rest = tail;
    }
    rest
}

/// What is left after the rest of a line, from its line feed on.
#[tactic(auto, using(crate::proofs::Feeds::feed_found, crate::proofs::Feeds::feed_nowhere))]
pub(crate) fn after_line(text: &[u8]) -> &[u8]
    ensures is { result.now ≡ after_all is_in_line text.now }
    ensures within { length result.now ≤ length text.now }
{
    match memchr(b'\n', text) {
        Some(length) => &text[length..],
        None => &[],
    }
}

/// What is left from the first character of a line on that is neither white space nor before a line in a mail.
#[tactic(auto, unfolding(crate::specs::Columns::after_all))]
pub(crate) fn at_start(text: &[u8]) -> &[u8]
    ensures is { result.now ≡ at_start text.now }
    ensures within { length result.now ≤ length text.now }
{
    let mut rest = text;
    while let [c, tail @ ..] = rest {
        if !is_before_line(*c) {
            break;
        }
        rest = tail;
    }
    rest
}

/// What is left after the first character.
pub(crate) fn after_one(text: &[u8]) -> &[u8]
    ensures is { result.now ≡ after_one text.now }
    ensures within { length result.now ≤ length text.now }
{
    match text {
        [_, rest @ ..] => rest,
        [] => text,
    }
}

/// Whether the character is a space or a tab.
pub(crate) fn is_blank(c: u8) -> bool
    ensures { result ≡ is_blank c }
{
    c == b' ' || c == b'\t'
}

/// Whether a text begins with four zeros or more as an offset.
pub(crate) fn begins_zeros(text: &[u8]) -> bool
    ensures { result ≡ begins_zeros text.now }
{
    let rest = after_zeros(text);
    is_offset(text, rest) && (ends_address(rest) || begins_blank(rest))
}

/// Whether a space or a tab is at the start of a text.
pub(crate) fn begins_blank(text: &[u8]) -> bool
    ensures { result ≡ is_blank (slice_index text.now 0) }
{
    matches!(text, [b' ' | b'\t', ..])
}

/// Whether a text begins with an address.
fn begins_address(text: &[u8]) -> bool
    ensures { result ≡ begins_address text.now }
{
    has_digits(text) && ends_address(after_name(after_digits(text)))
}

/// What is at the start of the line after this one.
pub(crate) fn next_line(text: &[u8]) -> &[u8]
    ensures is { result.now ≡ next_line text.now }
    ensures within { length result.now ≤ length text.now }
{
    at_start(after_one(after_line(text)))
}

/// Whether the line after this one begins with four zeros too.
fn has_next_offset(text: &[u8]) -> bool
    ensures { result ≡ has_next_offset text.now }
{
    let next = next_line(text);
    is_offset(next, after_zeros(next))
}

/// Whether a line has characters after two spaces, which don't begin with `>`.
#[tactic(auto, unfolding(crate::specs::Columns::has_text))]
fn has_text(text: &[u8]) -> bool
    ensures { result ≡ has_text text.now }
{
    let mut rest = text;
    while let [c, tail @ ..] = rest {
        if *c == b'\n' {
            return false;
        }
        if let [b' ', b' ', next, ..] = rest {
            if *next > 32 {
                return *next != b'>';
            }
        }
        rest = tail;
    }
    false
}

/// The form of a text that begins with an offset.
pub(crate) fn column_form(text: &[u8]) -> Form
    ensures { result ≡ column_form text.now }
{
    if begins_zeros(text) {
        zeros_form(text, after_zeros(text))
    } else {
        Form::Addresses(offset_value(16, after_mark(text)))
    }
}

/// The form that an offset of zeros and its end say.
fn zeros_form(text: &[u8], rest: &[u8]) -> Form
    requires { length rest.now ≤ length text.now }
    ensures { result ≡ zeros_form text.now rest.now }
{
    match rest {
        [b':', ..] => colon_form(text),
        [b' ', b' ', ..] => Form::Spaces,
        _ if begins_row(text, rest) => Form::Rows,
        _ => blank_form(rest),
    }
}

/// Whether sixteen zeros and one blank are at the start of a text.
fn begins_row(text: &[u8], rest: &[u8]) -> bool
    requires { length rest.now ≤ length text.now }
    ensures { result ≡ begins_row text.now rest.now }
{
    text.len() - rest.len() == 16 && !begins_blank(after_one(rest))
}

/// The form after one blank.
fn blank_form(rest: &[u8]) -> Form
    ensures { result ≡ blank_form rest.now }
{
    if has_text(rest) {
        Form::Groups
    } else if has_next_offset(rest) {
        Form::Addresses(0)
    } else {
        Form::Words
    }
}

/// Whether a text begins with an offset of zeros or an address.
fn begins_columns(text: &[u8]) -> bool
    ensures { result ≡ begins_columns text.now }
{
    begins_zeros(text) || begins_address(text)
}

/// Whether nothing is in the line.
fn is_empty_line(text: &[u8]) -> bool
    ensures { result ≡ is_empty_line text.now }
{
    matches!(text, [] | [b'\n' | b'\r', ..])
}

/// Whether a text begins with the numbers of columns.
pub(crate) fn begins_numbers(text: &[u8]) -> bool
    ensures { result ≡ begins_numbers text.now }
{
    matches!(text, [b'0', b'0', b' ', b'0', b'1', b' ', b'0', b'2', ..])
}

/// Whether a gap or nothing is at the start of a text.
pub(crate) fn begins_gap(text: &[u8]) -> bool
    ensures { result ≡ begins_gap text.now }
{
    match text {
        [c, ..] => is_gap(*c),
        [] => true,
    }
}

/// Whether two digits are at the start of a text, and a gap or nothing after them.
fn begins_pair(text: &[u8]) -> bool
    ensures { result ≡ begins_pair text.now }
{
    match text {
        [c, d, rest @ ..] => digit(*c).is_some() && digit(*d).is_some() && begins_gap(rest),
        _ => false,
    }
}

/// Whether a word that is a byte is at the start of a text: two digits, maybe after a mark.
fn begins_byte_word(text: &[u8]) -> bool
    ensures { result ≡ begins_byte_word text.now }
{
    begins_pair(text) || begins_marked_pair(text)
}

/// Whether a mark and two digits are at the start of a text, and a gap or nothing after them.
fn begins_marked_pair(text: &[u8]) -> bool
    ensures { result ≡ begins_marked_pair text.now }
{
    match text {
        [c, d, rest @ ..] => (*c == b'0' || *c == b'\\') && *d == b'x' && begins_pair(rest),
        _ => false,
    }
}

/// What is left of a line from its first word on that is a byte.
#[tactic(auto, unfolding(crate::specs::Columns::byte_word))]
fn byte_word(starts: bool, text: &[u8]) -> Option<&[u8]>
    ensures is { MatchOption result (byte_word starts text.now ≡ None) (λ rest. byte_word starts text.now ≡ Some rest.now) }
    ensures within { IfSome result (λ rest. length rest.now ≤ length text.now) }
{
    let mut starts_word = starts;
    let mut rest = text;
    while let [c, tail @ ..] = rest {
        if *c == b'\n' {
            return None;
        }
        if starts_word && begins_byte_word(rest) {
            return Some(rest);
        }
        starts_word = is_gap(*c);
        rest = tail;
    }
    None
}

/// Whether two words of a line or more are bytes, and don't number columns.
pub(crate) fn has_bytes(text: &[u8]) -> bool
    ensures { result ≡ has_bytes text.now }
{
    match byte_word(true, text) {
        None => false,
        Some(word) => !begins_numbers(word) && byte_word(false, after_one(word)).is_some(),
    }
}

/// Whether a line without an offset may be before the columns.
fn is_heading(text: &[u8]) -> bool
    ensures { result ≡ is_heading text.now }
{
    is_empty_line(text)
        || begins_numbers(text)
        || !(begins_gap(after_digits(text)) || has_bytes(text))
}

/// Whether a line is left out before the columns.
#[inline(always)]
#[tactic(auto, using(crate::proofs::ColumnLines::empty_is_left_out))]
fn is_left_out(text: &[u8]) -> bool
    ensures { result ≡ (not (begins_columns text.now) && is_heading text.now) }
{
    is_empty_line(text) || (!begins_columns(text) && is_heading(text))
}

/// What is left below a line. No search is begun for the end of an empty one.
#[inline(always)]
#[tactic(auto, unfolding(crate::specs::Columns::after_all))]
fn below(text: &[u8]) -> &[u8]
    ensures is { result.now ≡ after_one (after_all is_in_line text.now) }
    ensures less { 0 < length text.now → length result.now < length text.now }
{
    if begins_feed(text) {
        return after_one(text);
    }
    match after_line(text) {
        [_, rest @ ..] => rest,
        [] => &[],
    }
}

/// Whether a line feed is at the start of a text.
pub(crate) fn begins_feed(text: &[u8]) -> bool
    ensures { result ≡ (slice_index text.now 0 == 10) }
{
    matches!(text, [b'\n', ..])
}

/// Whether four digits are next to each other.
#[tactic(auto, unfolding(crate::specs::inside::Runs::has_run))]
fn has_run(text: &[u8]) -> bool
    ensures { result ≡ has_run text.now }
{
    let mut rest = text;
    while let [c, tail @ ..] = rest {
        if digit(*c).is_some() && begins_three_digits(tail) {
            return true;
        }
        rest = after_no_run(rest, tail);
    }
    false
}

/// What is left after four characters of which the last is no digit, since none of them begins four digits; else the tail.
#[inline(always)]
fn after_no_run<'a>(text: &'a [u8], tail: &'a [u8]) -> &'a [u8]
    requires tail { has_run tail.now ≡ has_run text.now }
    requires less { length tail.now < length text.now }
    ensures is { has_run result.now ≡ has_run text.now }
    ensures less { length result.now < length text.now }
{
    match text {
        [_, _, _, d, rest @ ..] if digit(*d).is_none() => rest,
        _ => tail,
    }
}

/// The text from its first offset on, where only headings are before that. Mostly the first line tells.
#[tactic(auto, using(crate::proofs::ColumnLines::begins_here), unfolding(crate::specs::Columns::columns_of))]
pub(crate) fn columns_of(text: &[u8]) -> Option<&[u8]>
    ensures is { MatchOption result (columns_of true text.now ≡ None) (λ line. columns_of true text.now ≡ Some line.now) }
    ensures within { IfSome result (λ line. length line.now ≤ length text.now) }
{
    if text.is_empty() {
        return None;
    }
    let line = at_start(text);
    if is_left_out(line) {
        columns_below(text)
    } else if begins_columns(line) {
        Some(line)
    } else {
        None
    }
}

/// The same, where the first line is a heading. No line is looked at in a text without four digits in a row.
#[tactic(auto, using(crate::proofs::Runs::no_columns))]
fn columns_below(text: &[u8]) -> Option<&[u8]>
    ensures is { MatchOption result (columns_of true text.now ≡ None) (λ line. columns_of true text.now ≡ Some line.now) }
    ensures within { IfSome result (λ line. length line.now ≤ length text.now) }
{
    if has_run(text) {
        columns_in(text)
    } else {
        None
    }
}

/// The same, line by line.
#[tactic(auto, using(crate::proofs::ColumnLines::begins_below, crate::proofs::ColumnLines::begins_here), unfolding(crate::specs::Columns::columns_of))]
fn columns_in(text: &[u8]) -> Option<&[u8]>
    ensures is { MatchOption result (columns_of true text.now ≡ None) (λ line. columns_of true text.now ≡ Some line.now) }
    ensures within { IfSome result (λ line. length line.now ≤ length text.now) }
{
    let mut rest = text;
    while !rest.is_empty() {
        let line = at_start(rest);
        if !is_left_out(line) {
            return if begins_columns(line) {
                Some(line)
            } else {
                None
            };
        }
        rest = below(rest);
    }
    None
}

/// Whether three back quotes are at the start of a line.
fn begins_fence(text: &[u8]) -> bool
    ensures { result ≡ begins_fence text.now }
{
    match text {
        [c, rest @ ..] => is_fence(*c, rest),
        [] => false,
    }
}

/// What is left after the offset of a line, where it is that of this place.
pub(crate) fn at_offset(place: u128, text: &[u8]) -> Option<&[u8]>
    ensures is { MatchOption result (at_offset place text.now ≡ None) (λ rest. at_offset place text.now ≡ Some rest.now) }
    ensures within { IfSome result (λ rest. length rest.now ≤ length text.now) }
{
    let line = at_start(text);
    match after_offset_of(place, line) {
        Some(rest) => Some(rest),
        None => {
            if is_empty_line(line) {
                Some(line)
            } else if begins_fence(line) {
                Some(after_line(line))
            } else {
                None
            }
        }
    }
}

/// Whether the group of a byte goes on after it for longer than the form has it.
#[inline(always)]
pub(crate) fn is_too_long(form: Form, rest: &[u8]) -> bool
    ensures { result ≡ is_too_long form rest.now }
{
    match form {
        Form::Plain | Form::Words | Form::Groups | Form::Literal(_) | Form::Source(_) => false,
        Form::Colons => begins_three_digits(rest),
        Form::Spaces | Form::Rows | Form::Addresses(_) | Form::Named => begins_digit(rest),
    }
}

/// Whether three digits are at the start of a text.
fn begins_three_digits(text: &[u8]) -> bool
    ensures { result ≡ (is_hex_digit (slice_index text.now 0) && is_hex_digit (slice_index text.now 1) && is_hex_digit (slice_index text.now 2)) }
{
    match text {
        [c, d, e, ..] => digit(*c).is_some() && digit(*d).is_some() && digit(*e).is_some(),
        _ => false,
    }
}

/// Whether a digit is at the start of a text.
pub(crate) fn begins_digit(text: &[u8]) -> bool
    ensures { result ≡ is_hex_digit (slice_index text.now 0) }
{
    match text {
        [c, ..] => digit(*c).is_some(),
        [] => false,
    }
}

/// Whether two spaces are at the start of a text.
pub(crate) fn has_two_spaces(text: &[u8]) -> bool
    ensures { result ≡ has_two_spaces text.now }
{
    matches!(text, [b' ', b' ', ..])
}

/// Whether three spaces are at the start of a text.
pub(crate) fn has_three_spaces(text: &[u8]) -> bool
    ensures { result ≡ has_three_spaces text.now }
{
    matches!(text, [b' ', b' ', b' ', ..])
}
