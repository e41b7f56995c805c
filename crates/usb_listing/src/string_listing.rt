//! The listing of a device's languages and strings.
ghost use Rattle.std.specs.Prelude.{◌≡◌, ◌++◌, map, OnErr, OnOk};
ghost use Rattle.std.specs.List.{flat_map};
ghost use Rattle.usb_text.specs.Output.{AppendsLess};
ghost use Rattle.usb_text.specs.inside.Pages.{Puts};
ghost use Rattle.usb_listing.specs.Table.{written_field};
ghost use Rattle.usb_text.specs.Characters.{two_bytes};
ghost use Rattle.usb_listing.specs.Listing.{languages_line, string_line, strings_lines};

use crate::line::put_number;
use crate::listing::{Listed, list_all};
use std::alloc::AllocError;
use std::io::Write;
use usb_file_data::Strings;
use usb_set::Sequence;
use usb_text::{OutFault, Text, put_units};

/// Puts the languages' line and those of the strings, if there are any.
pub(crate) fn list_strings<W: Write>(
    page: &mut Text,
    strings: &Option<Strings>,
    w: &mut W,
) -> Result<(), OutFault>
    ensures ok { OnOk result (Puts (W.contents w.old) (W.contents w.new) page.old page.new (strings_lines strings.now)) }
    ensures err { OnErr result (AppendsLess (W.contents w.old) (W.contents w.new) (page.old ++ strings_lines strings.now)) }
{
    match strings {
        None => Ok(()),
        Some(strings) => {
            put_languages(page, &strings.languages)?;
            list_all(page, &strings.texts, w)
        }
    }
}

impl Listed for Sequence<u16> {
    ghost use Rattle.usb_listing.specs.Listing.{string_line};

    ghost lines = { string_line };

    fn list<W: Write>(&self, page: &mut Text, w: &mut W) -> Result<(), OutFault> {
        put_string(page, &self)?;
        page.pass_on(w)
    }
}

fn put_string(page: &mut Text, units: &[u16]) -> Result<(), AllocError>
    ensures { OnOk result (page.new ≡ page.old ++ string_line units.now) }
{
    if units.is_empty() {
        return page.put("string \"\"\n");
    }
    page.put("string \"")?;
    put_units(page, false, units)?;
    page.put("\"\n")
}

fn put_languages(page: &mut Text, languages: &[u16]) -> Result<(), AllocError>
    ensures { OnOk result (page.new ≡ page.old ++ languages_line languages.now) }
{
    page.put("languages")?;
    put_numbers(page, languages)?;
    page.put("\n")
}

fn put_numbers(page: &mut Text, numbers: &[u16]) -> Result<(), AllocError>
    ensures { OnOk result (page.new ≡ page.old ++ flat_map written_field (map two_bytes numbers.now)) }
{
    for number in numbers {
        put_number(page, *number)?;
    }
    Ok(())
}
