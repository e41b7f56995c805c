//! The language list and the strings, and indices of strings.
ghost use Rattle.std.specs.Prelude.{◌≡◌, map, IsTrue, OnOk};
ghost use Rattle.std.specs.Option.{option_copied};
ghost use Rattle.usb_text.specs.Characters.{units_in};
ghost use Rattle.usb_text.specs.Shown.{Number, showing_all};
ghost use Rattle.usb_text.specs.Written.{is_words};
ghost use Rattle.usb_explain.specs.Sets.{languages_shown, string_place_shown, string_shown};
ghost use Rattle.usb_explain.specs.StringNames.{index_shown, units_shown};

use crate::string_names::{Missing, Names};
use std::alloc::AllocError;
use usb_fields::after;
use usb_text::Page;
use usb_walk::StringPlace;

/// Puts the words of the language list's heading (USB 2.0, 9.6.7).
pub(crate) fn put_languages_words<P: Page>(page: &mut P, b: &[u8]) -> Result<(), AllocError>
    ensures { OnOk result (P.seen page.new ≡ showing_all P.showing (languages_shown b.now) (P.seen page.old)) }
{
    page.put("languages")?;
    put_languages(page, after(b, 2))
}

fn put_languages<P: Page>(page: &mut P, b: &[u8]) -> Result<(), AllocError>
    ensures { OnOk result (P.seen page.new ≡ showing_all P.showing (map Number (units_in b.now)) (P.seen page.old)) }
{
    match b {
        [low, high, rest @ ..] => {
            page.put(" ")?;
            page.put_word_code(u16::from_le_bytes([*low, *high]))?;
            put_languages(page, rest)
        }
        _ => Ok(()),
    }
}

/// Puts the words of a string's heading.
#[tactic(auto, using(usb_text::proofs::ShownLines::showing_joined))]
pub(crate) fn put_string_words<P: Page>(
    page: &mut P,
    place: Option<StringPlace>,
    b: &[u8],
) -> Result<(), AllocError>
    ensures { OnOk result (P.seen page.new ≡ showing_all P.showing (string_shown place b.now) (P.seen page.old)) }
{
    page.put("string")?;
    put_string_place(page, place)?;
    page.put(" \"")?;
    page.put_units_in(after(b, 2))?;
    page.put("\"")
}

fn put_string_place<P: Page>(page: &mut P, place: Option<StringPlace>) -> Result<(), AllocError>
    ensures { OnOk result (P.seen page.new ≡ showing_all P.showing (string_place_shown place) (P.seen page.old)) }
{
    match place {
        None => Ok(()),
        Some(place) => {
            page.put(" ")?;
            page.put_decimal(u64::from(place.index))?;
            page.put(" in ")?;
            page.put_word_code(place.language)?;
            page.put(":")
        }
    }
}

/// Puts the index of a string: `0 (none)`, or the number and the string that it names.
#[inline(always)]
#[tactic(auto, unfolding(crate::specs::StringNames::index_shown))]
pub(crate) fn put_index<P: Page>(page: &mut P, names: &Names, index: u8) -> Result<(), AllocError>
    ensures { OnOk result (P.seen page.new ≡ showing_all P.showing (index_shown names.now index) (P.seen page.old)) }
{
    page.put_decimal(u64::from(index))?;
    if index == 0 {
        return page.put(" (none)");
    }
    put_name(page, names, names.units(index))
}

fn put_name<P: Page>(page: &mut P, names: &Names, units: Option<&[u16]>) -> Result<(), AllocError>
    ensures { OnOk result (P.seen page.new ≡ showing_all P.showing (units_shown (option_copied units.entry)) (P.seen page.old)) }
{
    match units {
        None => page.put(missing_words(names.missing())),
        Some(units) => {
            page.put(" \"")?;
            page.put_units(units)?;
            page.put("\"")
        }
    }
}

fn missing_words(missing: Missing) -> &'static str
    ensures { IsTrue (is_words result.now) }
{
    match missing {
        Missing::NotInInput => " (not in the input)",
        Missing::NotRead => " (not read)",
    }
}
