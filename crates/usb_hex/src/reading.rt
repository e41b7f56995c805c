//! Hexadecimal texts of a form, read item by item.
ghost use Rattle.std.specs.Prelude.{◌≡◌, ◌≤◌, ◌++◌, ◌⊎◌, IfErr, IfOk, OnOk, length};
ghost use Rattle.usb_hex.specs.HexText.{bytes_of, in_line};
ghost use Rattle.usb_hex.specs.Hexadecimal.{FaultyIn, HexIn, ReadsText};

use crate::column::columns_of;
use crate::hex_text::{Form, HexFault, fault_at, item};
use crate::literal::after_opening;
use crate::named::after_label;
use crate::offset::after_offset;
use crate::source_item::Style;
use std::alloc::Global;

/// What is left after the start of the first line with bytes.
fn in_line(form: Form, text: &[u8]) -> &[u8]
    ensures is { result.now ≡ in_line form text.now }
    ensures within { length result.now ≤ length text.now }
{
    match form {
        Form::Plain | Form::Words | Form::Source(_) => text,
        Form::Named => after_label(text),
        Form::Literal(_) => after_opening(text),
        Form::Colons | Form::Spaces | Form::Rows | Form::Groups | Form::Addresses(_) => {
            match columns_of(text) {
                None => text,
                Some(line) => after_offset(line),
            }
        }
    }
}

/// The bytes of what is read of a text in a form, one at least. Reading is compiled apart for the forms that most texts have.
pub(crate) fn read_in(
    alloc: Global,
    form: Form,
    text: &[u8],
    shown: &[u8],
) -> Result<Vec<u8>, HexFault>
    ensures ok { IfOk result (λ bytes. HexIn form shown.now bytes.items) }
    ensures err { IfErr result (λ fault. (fault ≡ HexFault.Memory) ⊎ FaultyIn form text.now shown.now fault) }
{
    match form {
        Form::Plain => read_items(alloc, Form::Plain, text, shown),
        Form::Colons => read_items(alloc, Form::Colons, text, shown),
        Form::Spaces => read_items(alloc, Form::Spaces, text, shown),
        Form::Source(Style::Pairs) => { read_items(alloc, Form::Source(Style::Pairs), text, shown) }
        Form::Source(style) => read_items(alloc, Form::Source(style), text, shown),
        _ => read_items(alloc, form, text, shown),
    }
}

/// The bytes of a text in a form, item by item.
#[inline(always)]
#[tactic(auto, using(crate::proofs::Items::leads_from, crate::proofs::Items::leads_on, crate::proofs::Items::leads_to))]
fn read_items(alloc: Global, form: Form, text: &[u8], shown: &[u8]) -> Result<Vec<u8>, HexFault>
    ensures ok { IfOk result (λ bytes. HexIn form shown.now bytes.items) }
    ensures err { IfErr result (λ fault. (fault ≡ HexFault.Memory) ⊎ FaultyIn form text.now shown.now fault) }
{
    let mut bytes = Vec::new(alloc);
    let mut rest = in_line(form, shown);
    'items: loop {
        match item(form, bytes.len(), rest) {
            Some((byte, tail)) => {
                keep(&mut bytes, byte)?;
                rest = tail;
            }
            None => return ended(form, text, shown, rest, bytes),
        }
    }
}

/// Adds the byte of an item, if it is one.
pub(crate) fn keep(bytes: &mut Vec<u8>, byte: Option<u8>) -> Result<(), HexFault>
    ensures ok { OnOk result (bytes.new.items ≡ bytes.old.items ++ bytes_of byte) }
    ensures err { IfErr result (λ fault. fault ≡ HexFault.Memory) }
{
    match byte {
        None => Ok(()),
        Some(byte) => match bytes.push(byte) {
            Ok(()) => Ok(()),
            Err(_) => Err(HexFault::Memory),
        },
    }
}

/// What is answered where no item is left: the bytes, if nothing else is left and there are some.
fn ended(
    form: Form,
    text: &[u8],
    shown: &[u8],
    rest: &[u8],
    bytes: Vec<u8>,
) -> Result<Vec<u8>, HexFault>
    requires read { ReadsText form shown.now bytes.items rest.now }
    requires within { length rest.now ≤ length shown.now }
    ensures ok { IfOk result (λ bytes. HexIn form shown.now bytes.items) }
    ensures err { IfErr result (FaultyIn form text.now shown.now) }
{
    if rest.is_empty() && !bytes.is_empty() {
        Ok(bytes)
    } else {
        Err(fault_at(text, shown.len() - rest.len()))
    }
}
