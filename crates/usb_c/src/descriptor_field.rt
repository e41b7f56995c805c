//! A field of a descriptor as numbers.
ghost use Rattle.std.specs.Prelude.{◌≡◌, ◌≤◌, ◌<◌, ◌+◌, ◌^◌, IfSome, is_some, length, option_map, slice_get, unwrap_or};
ghost use Rattle.std.specs.Option.{option_copied};
ghost use Rattle.usb_explain.specs.Fields.{fields_of, placed_of};
ghost use Rattle.usb_c.specs.DescriptorFields.{bytes_in, field_at, field_of, field_numbers, name_in_place, number_of};

use crate::buffer::fill;
use usb_explain::{ClassCodes, Field, Fields};
use usb_fields::{after, byte_at, prefix};
use usb_walk::{Role, WalkedDescriptor, role_in};

/// A field of a descriptor as numbers: the struct `nzg_field` of nozzlegorse.h.
#[repr(C)]
#[derive(Clone, Copy, Drop)]
pub struct NzgField {
    /// The place of its first byte.
    pub place: usize,
    /// Its number where it has at most eight bytes, the low one first; else 0.
    pub value: u64,
    /// How many bytes it has.
    pub width: u8,
    /// How many characters its name has.
    pub name_length: u8,
    /// Its name in ASCII, and zeros after it.
    pub name: [u8; 62],
}

/// The field of this number of a descriptor, from 0 on. False where it has none, or where the struct is no descriptor of these
/// bytes: nothing changes then.
#[unsafe(no_mangle)]
pub extern "C" fn nzg_field(
    bytes: &[u8],
    descriptor: &WalkedDescriptor,
    number: usize,
    field: &mut NzgField,
) -> bool
    ensures moved { field.new ≡ unwrap_or (field_of bytes.now descriptor.now number) field.old }
    ensures found { result ≡ is_some (field_of bytes.now descriptor.now number) }
{
    match field_of(bytes, descriptor, number) {
        Some(found) => {
            *field = found;
            true
        }
        None => false,
    }
}

fn field_of(bytes: &[u8], descriptor: &WalkedDescriptor, number: usize) -> Option<NzgField>
    ensures { result ≡ field_of bytes.now descriptor.now number }
{
    match role_in(descriptor.role) {
        None => None,
        Some(role) => match bytes_in(bytes, descriptor) {
            None => None,
            Some(d) => field_at(descriptor, number, role, d),
        },
    }
}

fn field_at(descriptor: &WalkedDescriptor, number: usize, role: Role, d: &[u8]) -> Option<NzgField>
    requires least { 2 ≤ length d.now }
    requires few { length d.now < 256 }
    requires room { descriptor.now.place + length d.now < 2 ^ 64 }
    ensures { result ≡ field_at descriptor.now number role d.now }
{
    let interface = descriptor.position.codes();
    match nth_field(role, interface, d, number) {
        None => None,
        Some(field) => Some(field_numbers(descriptor.place, &field)),
    }
}

/// The field of this number of a descriptor of these bytes.
fn nth_field<'d>(
    role: Role,
    interface: Option<ClassCodes>,
    d: &'d [u8],
    number: usize,
) -> Option<Field<'d>>
    requires { 2 ≤ length d.now }
    ensures field { option_map placed_of result ≡ slice_get (fields_of role interface d.now) number }
    ensures within { IfSome result (λ f. f.place + length f.value.now ≤ length d.now) }
{
    Fields::of(role, interface, d).nth(number)
}

pub(crate) fn field_numbers(place: usize, field: &Field<'_>) -> NzgField
    requires width { length field.now.value.now < 256 }
    requires place { place + field.now.place < 2 ^ 64 }
    ensures { result ≡ field_numbers place (placed_of field.now) }
{
    NzgField {
        place: place + field.place,
        value: number_of(field.value),
        width: field.value.len() as u8,
        name_length: field.name.len() as u8,
        name: name_in_place(field.name),
    }
}

fn name_in_place(name: &str) -> [u8; 62]
    requires { length name.now ≤ 62 }
    ensures { result ≡ name_in_place name.now }
{
    let mut place = [0; 62];
    fill(name.as_bytes(), &mut place);
    place
}

fn number_of(value: &[u8]) -> u64
    ensures { result ≡ number_of value.now }
{
    if value.len() > 8 {
        return 0;
    }
    u64::from_le_bytes([
        byte_at(value, 0),
        byte_at(value, 1),
        byte_at(value, 2),
        byte_at(value, 3),
        byte_at(value, 4),
        byte_at(value, 5),
        byte_at(value, 6),
        byte_at(value, 7),
    ])
}

/// The bytes of a descriptor, where it is one of these.
pub(crate) fn bytes_in<'b>(bytes: &'b [u8], d: &WalkedDescriptor) -> Option<&'b [u8]>
    ensures bytes { option_copied result ≡ bytes_in bytes.now d.now }
    ensures least { IfSome result (λ it. 2 ≤ length it.now) }
    ensures few { IfSome result (λ it. length it.now < 256) }
    ensures room { IfSome result (λ it. d.now.place + length it.now < 2 ^ 64) }
{
    let ahead = after(bytes, d.place);
    let length = usize::from(d.length);
    if length >= 2
        && length <= ahead.len()
        && byte_at(ahead, 0) == d.length
        && byte_at(ahead, 1) == d.kind
    {
        Some(prefix(ahead, length))
    } else {
        None
    }
}
