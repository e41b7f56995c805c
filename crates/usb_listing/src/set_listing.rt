//! The listing of a set, a line for each descriptor.
ghost use Rattle.std.specs.Prelude.{◌≡◌, ◌++◌, OnErr, OnOk};
ghost use Rattle.std.specs.Io.KnownBytes.{Appends};
ghost use Rattle.usb_listing.specs.Listing.{configuration_line, endpoint_line, endpoint_lines, extra_line, interface_line, set_lines, setting_lines, set_word};
ghost use Rattle.usb_text.specs.Output.{AppendsLess};
ghost use Rattle.usb_text.specs.inside.Pages.{Puts};

use crate::line::{ROOM, put_line_with_tail};
use crate::listing::{Listed, list_all};
use crate::word::put_extra;
use std::alloc::{AllocError, Global};
use std::io::Write;
use usb_set::{
    CONFIGURATION_WIDTHS, Configuration, ENDPOINT_WIDTHS, Endpoint, Extra, INTERFACE_WIDTHS,
    SetKind, Setting,
};
use usb_text::{OutFault, Text, write_all};

/// Writes the listing of the set: a line for each descriptor, in the order of its bytes.
///
/// ```rust
/// list_set(alloc, &set, &mut rt.stdout())?;
/// // configuration 00 01 00 80 32 -
/// ```
///
/// # Errors
///
/// `Write` where the writer failed, `Memory` when out of memory. A prefix of the listing is
/// written then, and not all of it.
pub fn list_set<W: Write>(alloc: Global, c: &Configuration, w: &mut W) -> Result<(), OutFault>
    ensures ok { OnOk result (Appends (W.contents w.old) (W.contents w.new) (set_lines c.now)) }
    ensures err { OnErr result (AppendsLess (W.contents w.old) (W.contents w.new) (set_lines c.now)) }
{
    let mut page = Text::with_capacity(alloc, ROOM)?;
    c.list(&mut page, w)?;
    write_all(w, page.as_bytes())
}

impl Listed for Configuration {
    ghost use Rattle.usb_listing.specs.Listing.{set_lines};

    ghost lines = { set_lines };

    fn list<W: Write>(&self, page: &mut Text, w: &mut W) -> Result<(), OutFault> {
        list_header(page, self, w)?;
        list_all(page, &self.extras, w)?;
        list_all(page, &self.settings, w)
    }
}

fn list_header<W: Write>(page: &mut Text, c: &Configuration, w: &mut W) -> Result<(), OutFault>
    ensures ok { OnOk result (Puts (W.contents w.old) (W.contents w.new) page.old page.new (configuration_line c.now)) }
    ensures err { OnErr result (AppendsLess (W.contents w.old) (W.contents w.new) (page.old ++ configuration_line c.now)) }
{
    put_configuration(page, c)?;
    page.pass_on(w)
}

impl Listed for Setting {
    ghost use Rattle.usb_listing.specs.Listing.{setting_lines};

    ghost lines = { setting_lines };

    fn list<W: Write>(&self, page: &mut Text, w: &mut W) -> Result<(), OutFault> {
        put_interface(page, self)?;
        list_all(page, &self.extras, w)?;
        list_all(page, &self.endpoints, w)?;
        page.pass_on(w)
    }
}

impl Listed for Endpoint {
    ghost use Rattle.usb_listing.specs.Listing.{endpoint_lines};

    ghost lines = { endpoint_lines };

    fn list<W: Write>(&self, page: &mut Text, w: &mut W) -> Result<(), OutFault> {
        put_endpoint(page, self)?;
        list_all(page, &self.extras, w)?;
        page.pass_on(w)
    }
}

impl Listed for Extra {
    ghost use Rattle.usb_listing.specs.Listing.{extra_line};

    ghost lines = { extra_line };

    fn list<W: Write>(&self, page: &mut Text, w: &mut W) -> Result<(), OutFault> {
        put_extra(page, self)?;
        page.pass_on(w)
    }
}

#[tactic(auto, unfolding(crate::specs::Listing::configuration_line))]
fn put_configuration(page: &mut Text, c: &Configuration) -> Result<(), AllocError>
    ensures { OnOk result (page.new ≡ page.old ++ configuration_line c.now) }
{
    let word = set_word(c.kind);
    put_line_with_tail(page, word, &CONFIGURATION_WIDTHS, &c.field_bytes(), &c.tail)
}

fn set_word(kind: SetKind) -> &'static str
    ensures { result.now ≡ set_word kind }
{
    match kind {
        SetKind::Configuration => "configuration",
        SetKind::OtherSpeed => "other_speed",
    }
}

#[tactic(auto, unfolding(crate::specs::Listing::interface_line))]
fn put_interface(page: &mut Text, s: &Setting) -> Result<(), AllocError>
    ensures { OnOk result (page.new ≡ page.old ++ interface_line s.now) }
{
    put_line_with_tail(
        page,
        "interface",
        &INTERFACE_WIDTHS,
        &s.field_bytes(),
        &s.tail,
    )
}

#[tactic(auto, unfolding(crate::specs::Listing::endpoint_line))]
fn put_endpoint(page: &mut Text, e: &Endpoint) -> Result<(), AllocError>
    ensures { OnOk result (page.new ≡ page.old ++ endpoint_line e.now) }
{
    put_line_with_tail(
        page,
        "endpoint",
        &ENDPOINT_WIDTHS,
        &e.field_bytes(),
        &e.tail,
    )
}
