//! What the bytes of a field say, by the form of its number.
ghost use Rattle.std.specs.Prelude.{◌≡◌, ◌∷◌, [], ◌-◌, slice_index, OnOk};
ghost use Rattle.usb_text.specs.Shown.{Number, showing_all};
ghost use Rattle.usb_explain.specs.Forms.{decimal_shown, form_shown, hexadecimal_shown, packet_size_shown, release_shown};

mod bits;
pub(crate) mod endpoint;
pub(crate) mod frame_interval;
mod interval;
pub(crate) mod value;

use crate::field::Field;
use crate::form::bits::put_bits;
use crate::form::endpoint::{
    put_address, put_attributes_value, put_interval_value, put_size_value,
};
use crate::form::frame_interval::put_frame_interval;
use crate::form::value::{
    put_packet_value, put_power_value, put_release_value, put_set_attributes,
};
use crate::heading::string::put_index;
use crate::names::{
    put_class, put_function_class, put_guid, put_protocol, put_subclass, put_terminal,
};
use crate::string_names::Names;
use std::alloc::AllocError;
use usb_fields::byte_at;
use usb_names::{
    Form, abstract_control_bits, audio_terminals, call_management_bits, firmware_upgrade_bits,
    video_terminals,
};
use usb_remarks::SetSpeed;
use usb_text::Page;

/// The place of bmAttributes in an endpoint descriptor (USB 2.0, 9.6.6).
const ATTRIBUTES: usize = 3;

/// Puts the words of a field of a descriptor of these bytes.
#[inline(always)]
#[tactic(auto, unfolding(crate::specs::Forms::form_shown))]
pub(crate) fn put_form<P: Page>(
    page: &mut P,
    speed: SetSpeed,
    names: &Names,
    field: &Field,
    b: &[u8],
) -> Result<(), AllocError>
    ensures { OnOk result (P.seen page.new ≡ showing_all P.showing (form_shown speed names.now field.now.form field.now.value.now b.now field.now.place) (P.seen page.old)) }
{
    let value = field.value;
    let byte = byte_at(b, field.place);
    match field.form {
        Form::Decimal => put_number(page, value),
        Form::Hexadecimal => put_code(page, value),
        Form::Release => put_release_words(page, value),
        Form::ReportType => put_report_words(page, byte),
        Form::Index => put_index(page, names, byte),
        Form::FrameInterval => put_frame_interval(page, value),
        Form::Guid => put_guid(page, value),
        Form::AudioTerminal => put_terminal(page, &audio_terminals(), value),
        Form::VideoTerminal => put_terminal(page, &video_terminals(), value),
        Form::AbstractControl => put_bits(page, &abstract_control_bits(), byte),
        Form::CallManagement => put_bits(page, &call_management_bits(), byte),
        Form::FirmwareUpgrade => put_bits(page, &firmware_upgrade_bits(), byte),
        Form::Class => put_class(page, byte),
        Form::FunctionClass => put_function_class(page, byte_at(b, 1), byte),
        Form::Subclass => put_subclass(page, byte_before(b, field.place, 1), byte),
        Form::Protocol => {
            put_protocol(
                page,
                byte_before(b, field.place, 2),
                byte_before(b, field.place, 1),
                byte,
            )
        }
        Form::DevicePacket => put_packet_value(page, speed, byte),
        Form::Supply => put_set_attributes(page, byte),
        Form::Power => put_power_value(page, speed, byte),
        Form::Address => put_address(page, byte_at(b, ATTRIBUTES), byte),
        Form::Transfer => put_attributes_value(page, byte),
        Form::PacketSize => put_packet_size(page, speed, byte_at(b, ATTRIBUTES), value),
        Form::Interval => put_interval_value(page, speed, byte_at(b, ATTRIBUTES), byte),
        Form::Bytes => page.put_digits(value),
    }
}

/// The byte `count` before a place.
fn byte_before(b: &[u8], place: usize, count: usize) -> u8
    ensures { result ≡ slice_index b.now (place - count) }
{
    byte_at(b, place.saturating_sub(count))
}

/// Puts a number of one to four bytes in decimal digits.
#[inline(always)]
pub(crate) fn put_number<P: Page>(page: &mut P, value: &[u8]) -> Result<(), AllocError>
    ensures { OnOk result (P.seen page.new ≡ showing_all P.showing (decimal_shown value.now) (P.seen page.old)) }
{
    match value {
        [a] => page.put_decimal(u64::from(*a)),
        [a, b] => page.put_decimal(u64::from(*a) + 256 * u64::from(*b)),
        [a, b, c] => {
            page.put_decimal(u64::from(*a) + 256 * (u64::from(*b) + 256 * u64::from(*c)))
        }
        [a, b, c, d] => page.put_decimal(
            u64::from(*a) + 256 * (u64::from(*b) + 256 * (u64::from(*c) + 256 * u64::from(*d))),
        ),
        _ => page.put_digits(value),
    }
}

/// Puts a number of one, two or four bytes as a code.
#[inline(always)]
fn put_code<P: Page>(page: &mut P, value: &[u8]) -> Result<(), AllocError>
    ensures { OnOk result (P.seen page.new ≡ showing_all P.showing (hexadecimal_shown value.now) (P.seen page.old)) }
{
    match value {
        [a] => page.put_byte_code(*a),
        [a, b] => page.put_word_code(u16::from_le_bytes([*a, *b])),
        [a, b, c, d] => {
            page.put("0x")?;
            page.put_digits(&[*d, *c, *b, *a])
        }
        _ => page.put_digits(value),
    }
}

#[inline(always)]
fn put_release_words<P: Page>(page: &mut P, value: &[u8]) -> Result<(), AllocError>
    ensures { OnOk result (P.seen page.new ≡ showing_all P.showing (release_shown value.now) (P.seen page.old)) }
{
    match value {
        [low, high] => put_release_value(page, u16::from_le_bytes([*low, *high])),
        _ => page.put_digits(value),
    }
}

#[inline(always)]
fn put_packet_size<P: Page>(
    page: &mut P,
    speed: SetSpeed,
    attributes: u8,
    value: &[u8],
) -> Result<(), AllocError>
    ensures { OnOk result (P.seen page.new ≡ showing_all P.showing (packet_size_shown speed attributes value.now) (P.seen page.old)) }
{
    match value {
        [low, high] => put_size_value(page, speed, attributes, u16::from_le_bytes([*low, *high])),
        _ => page.put_digits(value),
    }
}

/// Puts the type of a class descriptor of HID (HID 1.11, 7.1).
#[inline(always)]
fn put_report_words<P: Page>(page: &mut P, descriptor_type: u8) -> Result<(), AllocError>
    ensures { OnOk result (P.seen page.new ≡ showing_all P.showing (Number descriptor_type ∷ []) (P.seen page.old)) }
{
    page.put_byte_code(descriptor_type)?;
    match descriptor_type {
        0x22 => page.put(" (report)"),
        0x23 => page.put(" (physical)"),
        _ => Ok(()),
    }
}
