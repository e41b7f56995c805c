//! The strings that descriptors name, and which string is of which index and language.
ghost use Rattle.std.specs.Prelude.{◌≡◌, length, slice_index};
ghost use Rattle.usb_fields.specs.Marks.{is_marked};
ghost use Rattle.usb_walk.specs.NamedStrings.{indices_in, language_in, list_at, string_among, with_index};

use usb_fields::{after, byte_at, prefix, word_at};

/// The place of a string among those of a file.
#[derive(Clone, Copy, Debug, PartialEq, Eq, Hash)]
pub struct StringPlace {
    /// The index that names it.
    pub index: u8,
    /// Its language.
    pub language: u16,
}

pub(crate) const NO_STRING: StringPlace = StringPlace {
    index: 0,
    language: 0,
};

/// Sets the bit of an index.
pub(crate) fn name_string(words: &mut [u64; 4], index: u8)
    ensures { words.new ≡ with_index words.old index }
{
    words[usize::from(index) / 64] |= 1 << (index % 64);
}

#[tactic(auto, unfolding(usb_fields::specs::Marks::is_marked))]
fn is_named(words: &[u64; 4], index: u8) -> bool
    ensures { result ≡ is_marked words.now index }
{
    words[usize::from(index) / 64] >> (index % 64) & 1 == 1
}

/// How many strings are named.
fn count_named(words: &[u64; 4]) -> usize
    ensures { result ≡ length (indices_in words.now) }
{
    let [one, two, three, four] = *words;
    let all = one.count_ones() as usize
        + two.count_ones() as usize
        + three.count_ones() as usize
        + four.count_ones() as usize;
    if is_named(words, 0) {
        all.saturating_sub(1)
    } else {
        all
    }
}

/// The index of this number among those that are named, in ascending order.
#[tactic(auto, using(crate::proofs::Named::counted_more))]
fn named_at(words: &[u64; 4], number: usize) -> u8
    ensures { result ≡ slice_index (indices_in words.now) number }
{
    let mut left = number;
    for index in 1..256usize {
        if is_named(words, index as u8) {
            if left == 0 {
                return index as u8;
            }
            left -= 1;
        }
    }
    0
}

/// The index and the language of a string, by how many came before it, where the list of languages is at this place.
pub(crate) fn string_among(
    words: &[u64; 4],
    bytes: &[u8],
    languages_place: usize,
    number: usize,
) -> StringPlace
    ensures { result ≡ string_among (indices_in words.now) (list_at bytes.now languages_place) number }
{
    let count = count_named(words);
    if count == 0 {
        return NO_STRING;
    }
    StringPlace {
        index: named_at(words, number % count),
        language: language_in(list_at(bytes, languages_place), number / count),
    }
}

/// The bytes of the list of languages at a place.
fn list_at(bytes: &[u8], place: usize) -> &[u8]
    ensures { result.now ≡ list_at bytes.now place }
{
    let list = after(bytes, place);
    prefix(list, usize::from(byte_at(list, 0)))
}

fn language_in(list: &[u8], number: usize) -> u16
    ensures { result ≡ language_in list.now number }
{
    if number < 126 {
        word_at(list, (2 + 2 * number) as u8)
    } else {
        0
    }
}
