//! All fields of a descriptor as numbers, and one by its name.
ghost use Rattle.std.specs.Prelude.{◌≡◌, ◌≤◌, ◌<◌, ◌+◌, ◌^◌, ◌++◌, drop, is_some, length, map, unwrap_or};
ghost use Rattle.usb_explain.specs.Fields.{fields_of};
ghost use Rattle.usb_walk.specs.Surroundings.{codes_of};
ghost use Rattle.usb_c.specs.Answers.{AnswersOn, Puts};
ghost use Rattle.usb_c.specs.FieldLists.{field_named, fields_at, fields_in, first_named};
ghost use Rattle.usb_c.specs.declared.answer.Verdict.TheVariants as verdicts;

use crate::answer::{Answer, Verdict};
use crate::descriptor_field::{NzgField, bytes_in, field_numbers};
use usb_explain::{ClassCodes, Fields};
use usb_walk::{Role, WalkedDescriptor, role_in};

/// Puts all fields of a descriptor into the buffer, in the order of the bytes. There are none where the struct is no descriptor of
/// these bytes.
#[unsafe(no_mangle)]
pub extern "C" fn nzg_fields(
    bytes: &[u8],
    descriptor: &WalkedDescriptor,
    fields: &mut [NzgField],
) -> Answer
    ensures { AnswersOn (Puts verdicts.Done (fields_in bytes.now descriptor.now) fields.old fields.new) result }
{
    put_fields(bytes, descriptor, fields).answer()
}

fn put_fields(bytes: &[u8], descriptor: &WalkedDescriptor, out: &mut [NzgField]) -> Verdict
    ensures { Puts verdicts.Done (fields_in bytes.now descriptor.now) out.old out.new result }
{
    let (Some(role), Some(d)) = (role_in(descriptor.role), bytes_in(bytes, descriptor)) else {
        return Verdict::Done(0);
    };
    put_fields_of(descriptor, role, d, out)
}

#[tactic(auto, using(crate::proofs::FieldLists::as_many))]
fn put_fields_of(
    descriptor: &WalkedDescriptor,
    role: Role,
    d: &[u8],
    out: &mut [NzgField],
) -> Verdict
    requires least { 2 ≤ length d.now }
    requires few { length d.now < 256 }
    requires room { descriptor.now.place + length d.now < 2 ^ 64 }
    ensures { Puts verdicts.Done (fields_at descriptor.now role d.now) out.old out.new result }
{
    let count = count_fields(role, descriptor.position.codes(), d);
    if out.len() < count {
        return Verdict::NoRoom(count);
    }
    put_all(descriptor, role, d, out);
    Verdict::Done(count)
}

fn count_fields(role: Role, interface: Option<ClassCodes>, d: &[u8]) -> usize
    requires least { 2 ≤ length d.now }
    requires few { length d.now < 256 }
    ensures { result ≡ length (fields_of role interface d.now) }
{
    Fields::of(role, interface, d).count()
}

fn put_all(descriptor: &WalkedDescriptor, role: Role, d: &[u8], out: &mut [NzgField])
    requires least { 2 ≤ length d.now }
    requires few { length d.now < 256 }
    requires place { descriptor.now.place + length d.now < 2 ^ 64 }
    requires room { length (fields_at descriptor.now role d.now) ≤ length out.old }
    ensures { out.new ≡ fields_at descriptor.now role d.now ++ drop (length (fields_at descriptor.now role d.now)) out.old }
{
    let mut filled = 0;
    for field in Fields::of(role, descriptor.position.codes(), d) {
        out[filled] = field_numbers(descriptor.place, &field);
        filled += 1;
    }
}

/// The first field of this name in the standard. False where the descriptor has none, or where the struct is no descriptor of these
/// bytes: nothing changes then.
#[unsafe(no_mangle)]
pub extern "C" fn nzg_field_named(
    bytes: &[u8],
    descriptor: &WalkedDescriptor,
    name: &[u8],
    field: &mut NzgField,
) -> bool
    ensures moved { field.new ≡ unwrap_or (field_named bytes.now descriptor.now name.now) field.old }
    ensures found { result ≡ is_some (field_named bytes.now descriptor.now name.now) }
{
    match field_named(bytes, descriptor, name) {
        Some(found) => {
            *field = found;
            true
        }
        None => false,
    }
}

fn field_named(bytes: &[u8], descriptor: &WalkedDescriptor, name: &[u8]) -> Option<NzgField>
    ensures { result ≡ field_named bytes.now descriptor.now name.now }
{
    let (Some(role), Some(d)) = (role_in(descriptor.role), bytes_in(bytes, descriptor)) else {
        return None;
    };
    first_named(descriptor, role, d, name)
}

fn first_named(descriptor: &WalkedDescriptor, role: Role, d: &[u8], name: &[u8]) -> Option<NzgField>
    requires least { 2 ≤ length d.now }
    requires few { length d.now < 256 }
    requires room { descriptor.now.place + length d.now < 2 ^ 64 }
    ensures { result ≡ first_named name.now (fields_at descriptor.now role d.now) }
{
    for field in Fields::of(role, descriptor.position.codes(), d) {
        if field.name.as_bytes() == name {
            return Some(field_numbers(descriptor.place, &field));
        }
    }
    None
}
