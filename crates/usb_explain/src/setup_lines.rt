//! The lines of a setup packet.
ghost use Rattle.std.specs.Prelude.{◌≡◌, ◌∷◌, [], IsTrue, OnOk};
ghost use Rattle.usb_text.specs.Shown.{Number, showing_all};
ghost use Rattle.usb_text.specs.Written.{is_words};
ghost use Rattle.usb_explain.specs.Fragments.{is_setup, is_standard, request_shown, setup_field, setup_fields, setup_heading, setup_lines};

use crate::line::{NAME_WIDTH, put_place};
use crate::manner::Look;
use std::alloc::AllocError;
use usb_fields::{byte_at, word_at};
use usb_text::Page;

/// Whether the bytes are a setup packet: eight, of which the first names a recipient (USB 2.0, table 9-2), and the second of a
/// standard request is one of table 9-4.
pub(crate) fn is_setup(b: &[u8]) -> bool
    ensures { result ≡ is_setup b.now }
{
    b.len() == 8 && byte_at(b, 0) % 32 <= 3 && (!is_standard(b) || byte_at(b, 1) <= 12)
}

/// Whether it is of a standard request.
fn is_standard(b: &[u8]) -> bool
    ensures { result ≡ is_standard b.now }
{
    byte_at(b, 0) / 32 % 4 == 0
}

/// Puts the lines of a setup packet: its heading, and its fields where they are shown.
#[tactic(auto, using(usb_text::proofs::ShownLines::showing_joined))]
pub(crate) fn put_setup<P: Page>(page: &mut P, look: Look, b: &[u8]) -> Result<(), AllocError>
    ensures { OnOk result (P.seen page.new ≡ showing_all P.showing (setup_lines look b.now) (P.seen page.old)) }
{
    put_setup_heading(page, look, b)?;
    if look.brief {
        Ok(())
    } else {
        put_setup_fields(page, b)
    }
}

#[tactic(auto, using(usb_text::proofs::ShownLines::showing_joined), unfolding(crate::specs::Fragments::setup_heading))]
fn put_setup_heading<P: Page>(page: &mut P, look: Look, b: &[u8]) -> Result<(), AllocError>
    ensures { OnOk result (P.seen page.new ≡ showing_all P.showing (setup_heading look b.now) (P.seen page.old)) }
{
    page.put_indent(0)?;
    page.put("setup packet, ")?;
    put_request(page, b)?;
    put_place(page, look, 0, b.len())?;
    page.end_line()
}

/// Puts the name of a standard request, or the number of another one.
fn put_request<P: Page>(page: &mut P, b: &[u8]) -> Result<(), AllocError>
    ensures { OnOk result (P.seen page.new ≡ showing_all P.showing (request_shown b.now) (P.seen page.old)) }
{
    if is_standard(b) {
        page.put(request_name(byte_at(b, 1)))
    } else {
        page.put(type_name(byte_at(b, 0) / 32 % 4))?;
        page.put(" request ")?;
        page.put_byte_code(byte_at(b, 1))
    }
}

/// Puts its fields (USB 2.0, table 9-2).
#[tactic(auto, using(usb_text::proofs::ShownLines::showing_joined), unfolding(crate::specs::Fragments::setup_fields))]
fn put_setup_fields<P: Page>(page: &mut P, b: &[u8]) -> Result<(), AllocError>
    ensures { OnOk result (P.seen page.new ≡ showing_all P.showing (setup_fields b.now) (P.seen page.old)) }
{
    put_type_field(page, "bmRequestType", byte_at(b, 0))?;
    put_number_field(page, "bRequest", u16::from(byte_at(b, 1)))?;
    put_code_field(page, "wValue", word_at(b, 2))?;
    put_code_field(page, "wIndex", word_at(b, 4))?;
    put_number_field(page, "wLength", word_at(b, 6))
}

#[tactic(auto, using(usb_text::proofs::ShownLines::showing_joined), unfolding(crate::specs::Fragments::setup_field))]
fn put_type_field<P: Page>(page: &mut P, name: &'static str, kind: u8) -> Result<(), AllocError>
    requires { IsTrue (is_words name.now) }
    ensures { OnOk result (P.seen page.new ≡ showing_all P.showing (setup_field name.now kind) (P.seen page.old)) }
{
    page.put_indented_column(4, name, NAME_WIDTH)?;
    put_request_type(page, kind)?;
    page.end_line()
}

#[tactic(auto, using(usb_text::proofs::ShownLines::showing_joined), unfolding(crate::specs::Fragments::setup_field))]
fn put_code_field<P: Page>(page: &mut P, name: &'static str, value: u16) -> Result<(), AllocError>
    requires { IsTrue (is_words name.now) }
    ensures { OnOk result (P.seen page.new ≡ showing_all P.showing (setup_field name.now value) (P.seen page.old)) }
{
    page.put_indented_column(4, name, NAME_WIDTH)?;
    page.put_word_code(value)?;
    page.end_line()
}

#[tactic(auto, using(usb_text::proofs::ShownLines::showing_joined), unfolding(crate::specs::Fragments::setup_field))]
fn put_number_field<P: Page>(page: &mut P, name: &'static str, value: u16) -> Result<(), AllocError>
    requires { IsTrue (is_words name.now) }
    ensures { OnOk result (P.seen page.new ≡ showing_all P.showing (setup_field name.now value) (P.seen page.old)) }
{
    page.put_indented_column(4, name, NAME_WIDTH)?;
    page.put_decimal(u64::from(value))?;
    page.end_line()
}

/// Puts bmRequestType with its meaning.
fn put_request_type<P: Page>(page: &mut P, kind: u8) -> Result<(), AllocError>
    ensures { OnOk result (P.seen page.new ≡ showing_all P.showing (Number kind ∷ []) (P.seen page.old)) }
{
    page.put_byte_code(kind)?;
    page.put(if kind >= 0x80 { " (IN, " } else { " (OUT, " })?;
    page.put(type_name(kind / 32 % 4))?;
    page.put(", ")?;
    page.put(recipient_name(kind % 32))?;
    page.put(")")
}

fn type_name(kind: u8) -> &'static str
    ensures { IsTrue (is_words result.now) }
{
    match kind {
        0 => "standard",
        1 => "class",
        2 => "vendor",
        _ => "reserved",
    }
}

fn recipient_name(recipient: u8) -> &'static str
    ensures { IsTrue (is_words result.now) }
{
    match recipient {
        0 => "device",
        1 => "interface",
        2 => "endpoint",
        _ => "other",
    }
}

/// The name of a standard request (USB 2.0, table 9-4).
fn request_name(request: u8) -> &'static str
    ensures { IsTrue (is_words result.now) }
{
    match request {
        0 => "GET_STATUS",
        1 => "CLEAR_FEATURE",
        3 => "SET_FEATURE",
        5 => "SET_ADDRESS",
        6 => "GET_DESCRIPTOR",
        7 => "SET_DESCRIPTOR",
        8 => "GET_CONFIGURATION",
        9 => "SET_CONFIGURATION",
        10 => "GET_INTERFACE",
        11 => "SET_INTERFACE",
        12 => "SYNCH_FRAME",
        _ => "reserved request",
    }
}
