//! Headings.
ghost use Rattle.std.specs.Prelude.{◌≡◌, option_map, OnOk};
ghost use Rattle.usb_names.specs.Shown.{row_of};
ghost use Rattle.usb_text.specs.Shown.{showing_all};
ghost use Rattle.usb_explain.specs.Descriptors.{formats_shown, heading, heading_shown};
ghost use Rattle.usb_explain.specs.Headers.{row_in};
ghost use Rattle.usb_remarks.specs.Outline.{described};

mod format_words;
mod raw;
mod set;
pub(crate) mod string;

use crate::form::endpoint::put_endpoint_words;
use crate::heading::format_words::put_format_words;
use crate::heading::raw::{put_device_words, put_qualifier_words, put_row_words};
use crate::heading::set::{put_association_words, put_configuration_words, put_interface_words};
use crate::heading::string::{put_languages_words, put_string_words};
use crate::line::put_place;
use crate::subject::Subject;
use std::alloc::AllocError;
use usb_fields::byte_at;
use usb_names::ClassRow;
use usb_remarks::Descriptor;
use usb_text::Page;
use usb_walk::Role;

/// Puts the heading of a descriptor that has this row, as `    interface 0 alternate 0, HID / boot interface / keyboard, 1 endpoint @27+9`.
///
/// # Errors
///
/// Out of memory.
#[tactic(auto, using(usb_text::proofs::ShownLines::showing_joined), unfolding(crate::specs::Descriptors::heading))]
pub(crate) fn put_heading<P: Page>(
    page: &mut P,
    subject: &Subject,
    d: &Descriptor<'_>,
    row: Option<ClassRow>,
) -> Result<(), AllocError>
    requires { option_map (λ found. row_of found.row.now) row ≡ row_in d.now.role d.now.interface d.now.bytes.now }
    ensures { OnOk result (P.seen page.new ≡ showing_all P.showing (heading subject.now (described d.now)) (P.seen page.old)) }
{
    page.put_indent(2 * usize::from(d.depth))?;
    put_words(page, subject, d, row)?;
    put_place(page, subject.manner().look, d.at, d.bytes.len())?;
    page.end_line()
}

#[tactic(auto, using(usb_text::proofs::ShownLines::showing_joined), unfolding(crate::specs::Descriptors::heading_shown, crate::specs::Headers::raw_shown))]
fn put_words<P: Page>(
    page: &mut P,
    subject: &Subject,
    d: &Descriptor<'_>,
    row: Option<ClassRow>,
) -> Result<(), AllocError>
    requires { option_map (λ found. row_of found.row.now) row ≡ row_in d.now.role d.now.interface d.now.bytes.now }
    ensures { OnOk result (P.seen page.new ≡ showing_all P.showing (heading_shown d.now.role subject.now (described d.now)) (P.seen page.old)) }
{
    match d.role {
        Role::Device => put_device_words(page, d.bytes),
        Role::Qualifier => put_qualifier_words(page, d.bytes),
        Role::Configuration => put_configuration_words(page, d.speed, d.bytes),
        Role::Association => put_association_words(page, d.associations as u64, d.bytes),
        Role::Interface => put_interface_words(page, d.association, d.bytes),
        Role::Endpoint => put_endpoint_words(page, d.speed, d.bytes),
        Role::Raw => {
            put_row_words(page, byte_at(d.bytes, 1), row)?;
            put_formats(page, subject, d)
        }
        Role::Languages => put_languages_words(page, d.bytes),
        Role::Text => put_string_words(page, subject.place(d.string), d.bytes),
    }
}

/// Puts what tells a format of a class from others, where that is asked for.
#[tactic(auto, unfolding(crate::specs::Descriptors::formats_shown))]
fn put_formats<P: Page>(
    page: &mut P,
    subject: &Subject,
    d: &Descriptor<'_>,
) -> Result<(), AllocError>
    ensures { OnOk result (P.seen page.new ≡ showing_all P.showing (formats_shown subject.now (described d.now)) (P.seen page.old)) }
{
    if subject.manner().look.formats {
        put_format_words(page, d.interface, d.bytes)
    } else {
        Ok(())
    }
}
