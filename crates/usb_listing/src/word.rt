//! The words that the lines of a listing begin with.
ghost use Rattle.std.specs.Prelude.{◌≡◌, ◌≢◌, ◌++◌, MatchOption, None, OnOk, Some};
ghost use Rattle.usb_listing.specs.Words.{first_word, word_text};
ghost use Rattle.usb_listing.specs.inside.Rows.{IsSplit, ends_word, likely_word, word_in, word_with};
ghost use Rattle.usb_listing.specs.Listing.{extra_line};
ghost use Rattle.usb_set.specs.declared.extra.Extra.TheVariants as extras;

use crate::line::put_line_with_tail;
use std::alloc::AllocError;
use usb_fields::Width;
use usb_set::{ASSOCIATION_WIDTHS, Association, Extra, Raw};
use usb_text::Text;

/// The first word of a line: which descriptor the line says.
#[derive(Clone, Copy, Debug, PartialEq, Eq)]
pub(crate) enum Word {
    /// The device descriptor.
    Device,
    /// The first descriptor of a set of the speed that the device runs at.
    Configuration,
    /// The first descriptor of a set of the other speed.
    OtherSpeed,
    /// An interface descriptor.
    Interface,
    /// An endpoint descriptor.
    Endpoint,
    /// A descriptor that belongs to the one before it.
    Extra(ExtraWord),
    /// The device qualifier descriptor.
    Qualifier,
    /// The language list.
    Languages,
    /// A string descriptor.
    String,
}

impl Word {
    /// The word that begins with the letter. No two begin with the same one.
    #[inline(always)]
    fn with_letter(letter: u8) -> Option<Word>
        ensures { result ≡ word_with letter }
    {
        match letter {
            b'a' => Some(Word::Extra(ExtraWord::Association)),
            b'c' => Some(Word::Configuration),
            b'd' => Some(Word::Device),
            b'e' => Some(Word::Endpoint),
            b'i' => Some(Word::Interface),
            b'l' => Some(Word::Languages),
            b'o' => Some(Word::OtherSpeed),
            b'q' => Some(Word::Qualifier),
            b'r' => Some(Word::Extra(ExtraWord::Raw)),
            b's' => Some(Word::String),
            _ => None,
        }
    }

    /// What is after the word, where it is the line's first. The length of each text is known, so that it is compared as
    /// integers.
    #[inline(always)]
    fn behind(self, line: &[u8]) -> Option<&[u8]>
        ensures { MatchOption result (first_word line.now ≢ word_text self) (λ rest. IsSplit line.now (word_text self) rest.now) }
    {
        match self {
            Word::Device => behind(b"device", line),
            Word::Configuration => behind(b"configuration", line),
            Word::OtherSpeed => behind(b"other_speed", line),
            Word::Interface => behind(b"interface", line),
            Word::Endpoint => behind(b"endpoint", line),
            Word::Extra(ExtraWord::Raw) => behind(b"raw", line),
            Word::Extra(ExtraWord::Association) => behind(b"association", line),
            Word::Qualifier => behind(b"qualifier", line),
            Word::Languages => behind(b"languages", line),
            Word::String => behind(b"string", line),
        }
    }
}

/// Whether a word ends before this: before nothing or a space.
#[inline(always)]
fn ends_word(rest: &[u8]) -> bool
    ensures { result ≡ ends_word rest.now }
{
    match rest {
        [] => true,
        [first, ..] => *first == b' ',
    }
}

/// What is after a word, where it is the line's first.
#[inline(always)]
#[tactic(auto, using(crate::proofs::WordLemmas::not_split))]
fn behind<'l, const N: usize>(word: &[u8; N], line: &'l [u8]) -> Option<&'l [u8]>
    ensures { MatchOption result (first_word line.now ≢ word.now) (λ rest. IsSplit line.now word.now rest.now) }
{
    let (first, rest) = line.split_first_chunk::<N>()?;
    if first != word {
        return None;
    }
    if ends_word(rest) { Some(rest) } else { None }
}

/// The only word that the line may begin with.
#[inline(always)]
fn likely_word(line: &[u8]) -> Option<Word>
    ensures { result ≡ likely_word line.now }
{
    match line {
        [] => None,
        [letter, ..] => Word::with_letter(*letter),
    }
}

/// The line's first word, and what is after it.
#[tactic(auto, using(crate::proofs::WordLemmas::split_is, crate::proofs::WordLemmas::none_likely, crate::proofs::WordLemmas::no_other))]
pub(crate) fn read_word(line: &[u8]) -> Option<(Word, &[u8])>
    ensures { MatchOption result (word_in (first_word line.now) ≡ None) (λ p. (word_in (first_word line.now) ≡ Some p.0) × (line.now ≡ first_word line.now ++ p.1.now)) }
{
    let Some(word) = likely_word(line) else {
        return None;
    };
    let Some(rest) = word.behind(line) else {
        return None;
    };
    Some((word, rest))
}

/// The word of a line whose descriptor belongs to the one before it.
#[derive(Clone, Copy, Debug, PartialEq, Eq)]
pub(crate) enum ExtraWord {
    /// `raw`, of a descriptor that is kept as it is.
    Raw,
    /// `association`, of an interface association descriptor.
    Association,
}

/// The widths of the fields that the line of a raw descriptor has before its body: bDescriptorType.
pub(crate) const RAW_WIDTHS: [Width; 1] = [Width::One];

/// Does one thing with what the lines of a word leave out, bLength counted as 0 among it, and with the widths of the fields
/// that they say.
///
/// ```rust
/// let fields = with_extra_row!(word, left_out, widths => left_out.len() + widths.len());
/// ```
#[macro_export]
macro_rules! with_extra_row {
    ($word:expr, $left_out:ident, $widths:ident => $work:expr) => {
        match $word {
            $crate::word::ExtraWord::Raw => {
                let ($left_out, $widths) = ([0], $crate::word::RAW_WIDTHS);
                $work
            }
            $crate::word::ExtraWord::Association => {
                let ($left_out, $widths) = (
                    [0, usb_fields::descriptor_type::INTERFACE_ASSOCIATION],
                    usb_set::ASSOCIATION_WIDTHS,
                );
                $work
            }
        }
    };
}

#[tactic(auto, unfolding(crate::specs::Listing::extra_line))]
fn put_raw(page: &mut Text, raw: &Raw) -> Result<(), AllocError>
    ensures { OnOk result (page.new ≡ page.old ++ extra_line (extras.Raw raw.now)) }
{
    put_line_with_tail(page, "raw", &RAW_WIDTHS, &[raw.kind], &raw.body)
}

#[tactic(auto, unfolding(crate::specs::Listing::extra_line))]
fn put_association(page: &mut Text, a: &Association) -> Result<(), AllocError>
    ensures { OnOk result (page.new ≡ page.old ++ extra_line (extras.Association a.now)) }
{
    let word = "association";
    put_line_with_tail(page, word, &ASSOCIATION_WIDTHS, &a.field_bytes(), &a.tail)
}

/// Puts the line of an extra at the end of the page.
pub(crate) fn put_extra(page: &mut Text, extra: &Extra) -> Result<(), AllocError>
    ensures { OnOk result (page.new ≡ page.old ++ extra_line extra.now) }
{
    match extra {
        Extra::Raw(raw) => put_raw(page, raw),
        Extra::Association(association) => put_association(page, association),
    }
}
