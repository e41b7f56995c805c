//! The strings that indices name.
ghost use Rattle.std.specs.Prelude.{◌≡◌, IfOk, option_map};
ghost use Rattle.std.specs.Option.{option_copied};
ghost use Rattle.usb_explain.specs.StringNames.{names_of, named_units, no_names, units_in_first_language};
ghost use Rattle.std.specs.Prelude.{◌≡◌, length};
ghost use Rattle.usb_explain.specs.Subjects.{place_among, place_by};

use std::alloc::Global;
use std::marker::Model;
use usb_file_data::{DescriptorFile, NoMemory, Strings, named};
use usb_walk::StringPlace;

/// Why the string of an index isn't there.
#[derive(Clone, Copy, Debug, PartialEq, Eq, Hash)]
pub(crate) enum Missing {
    /// The input has no strings.
    NotInInput,
    /// The input is broken, and its strings aren't read.
    NotRead,
}

/// The strings of an input by their indices, in its first language.
#[derive(Debug, Drop)]
pub(crate) struct Names<'f> {
    strings: Option<&'f Strings>,
    named: Vec<u8>,
    missing: Missing,
    utf8: bool,
}

impl<'f> Model for Names<'f> {
    ghost use Rattle.std.specs.Prelude.{option_map};
    ghost use Rattle.usb_explain.specs.StringNames.{StringNames};

    ghost Value = { StringNames };

    ghost view = { λ n. record { strings = option_map (λ s. s.now) n.strings; named = n.named.items; missing = n.missing; utf8 = n.utf8 } };
}

impl<'f> Names<'f> {
    /// Those of a file, with `utf8` with their characters beyond ASCII.
    ///
    /// # Errors
    ///
    /// Out of memory.
    pub(crate) fn of(
        alloc: Global,
        f: &'f DescriptorFile,
        utf8: bool,
    ) -> Result<Names<'f>, NoMemory>
        ensures { IfOk result (λ names. names ≡ names_of utf8 f.now) }
    {
        Ok(Names {
            strings: f.strings.as_ref(),
            named: named(alloc, f)?,
            missing: Missing::NotInInput,
            utf8,
        })
    }

    /// Those of an input whose strings aren't there.
    pub(crate) fn none(alloc: Global, missing: Missing) -> Names<'f>
        ensures { result ≡ no_names missing }
    {
        Names {
            strings: None,
            named: Vec::new(alloc),
            missing,
            utf8: false,
        }
    }

    /// The strings, of all languages.
    pub(crate) fn strings(&self) -> Option<&'f Strings>
        ensures { option_map (λ s. s.now) result ≡ self.now.strings }
    {
        self.strings
    }

    /// The indices that are named, ascending.
    pub(crate) fn indices(&self) -> &[u8]
        ensures { result.now ≡ self.now.named }
    {
        &self.named
    }

    /// Why there is no string of an index that has none.
    pub(crate) fn missing(&self) -> Missing
        ensures { result ≡ self.now.missing }
    {
        self.missing
    }

    /// Whether characters beyond ASCII are written.
    pub(crate) fn utf8(&self) -> bool
        ensures { result ≡ self.now.utf8 }
    {
        self.utf8
    }

    /// The units of the string of this index.
    pub(crate) fn units(&self, index: u8) -> Option<&[u16]>
        ensures { option_copied result ≡ named_units self.now index }
    {
        match self.strings {
            Some(strings) => units_in_first_language(&self.named, index, strings),
            None => None,
        }
    }
}

fn units_in_first_language<'s>(named: &[u8], index: u8, strings: &'s Strings) -> Option<&'s [u16]>
    ensures { option_copied result ≡ units_in_first_language named.now index strings.now }
{
    match strings.languages.first() {
        Some(language) => strings.units_at(named, index, *language),
        None => None,
    }
}

/// The place of the string of this number, in a file that names these indices: strings are language by language, one
/// for each index in ascending order.
pub(crate) fn string_place(strings: &Strings, named: &[u8], number: usize) -> Option<StringPlace>
    ensures { result ≡ place_among (length named.now) named.now strings.now number }
{
    let count = named.len();
    if count == 0 {
        return None;
    }
    place_by(
        strings.languages.get(number / count).copied(),
        named.get(number % count).copied(),
    )
}

fn place_by(language: Option<u16>, index: Option<u8>) -> Option<StringPlace>
    ensures { result ≡ place_by language index }
{
    match (language, index) {
        (Some(language), Some(index)) => Some(StringPlace { index, language }),
        _ => None,
    }
}
