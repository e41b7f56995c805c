//! A file as its bytes.
ghost use Rattle.std.specs.Prelude.{◌≡◌, ◌++◌, ℕ, List, IfErr, IfOk, IfSome, None, OnOk, OnSome, false};
ghost use Rattle.std.specs.List.{list_any};
ghost use Rattle.usb_file_data.specs.File.{File, WriteRefused, file_bytes, has_no_layout, other_bytes, sets_bytes, strings_bytes, each_string_bytes, whole_set, write_refusal, other_sets};
ghost use Rattle.usb_file.specs.WithoutStrings.{HasParts, WithoutStrings, WithoutStringsRefused};

use std::alloc::Global;
use usb_fields::{UnitFault, known_bytes, write_units_onto};
use usb_file_data::{
    DescriptorFile, Other, Strings, WriteFault, are_wrong_strings, count_named, has_wrong_count,
    has_wrong_kind, write_refusal,
};
use usb_set::{Configuration, EncodeFault, Sequence, encode_onto};

/// The bytes of a file: its parts one after another, each judged and written once (USB 2.0, 9.4.3 and 9.6).
///
/// ```rust
/// let bytes = write_file(alloc, &file)?;
/// assert_eq!(rt; read_file(alloc, &bytes)?, file);
/// ```
///
/// # Errors
///
/// `Count`, `Kind`, `Layout` or `Texts`, the first that applies, exactly where the file has no bytes;
/// `Memory` where it has bytes, when out of memory.
pub fn write_file(alloc: Global, f: &DescriptorFile) -> Result<Vec<u8>, WriteFault>
    ensures ok { IfOk result (λ b. File f.now b.items) }
    ensures err { IfErr result (λ fault. WriteRefused f.now fault) }
    // A file with a reason has no bytes.
    ensures only { (b : List ℕ) → File f.now b → write_refusal f.now ≡ None }
{
    match file_of(alloc, f) {
        Some(out) => {
            known_bytes(&out);
            Ok(out)
        }
        None => Err(first_reason(f)),
    }
}

/// The bytes of a file without its strings, whether or not it names some: the parts before them.
///
/// ```rust
/// let sets = write_without_strings(alloc, &file)?;
/// ```
///
/// # Errors
///
/// `Count`, `Kind` or `Layout`, the first that applies, exactly where one of these parts has no bytes;
/// `Memory` where they have bytes, when out of memory.
pub fn write_without_strings(alloc: Global, f: &DescriptorFile) -> Result<Vec<u8>, WriteFault>
    ensures ok { IfOk result (λ b. WithoutStrings f.now b.items) }
    ensures err { IfErr result (λ fault. WithoutStringsRefused f.now fault) }
{
    match parts_of(alloc, f) {
        Some(out) => {
            known_bytes(&out);
            Ok(out)
        }
        None => Err(first_reason_of_parts(f)),
    }
}

/// The first reason why the file isn't written.
#[cold]
fn first_reason(f: &DescriptorFile) -> WriteFault
    ensures { WriteRefused f.now result }
{
    match write_refusal(f) {
        Some(fault) => fault,
        None => WriteFault::Memory,
    }
}

/// The first reason why its parts before the strings aren't written.
#[cold]
fn first_reason_of_parts(f: &DescriptorFile) -> WriteFault
    ensures { WithoutStringsRefused f.now result }
{
    match write_refusal(f) {
        Some(WriteFault::Texts) | None => WriteFault::Memory,
        Some(fault) => fault,
    }
}

/// The bytes of a file, or `None` where it has none or out of memory.
fn file_of(alloc: Global, f: &DescriptorFile) -> Option<Vec<u8>>
    ensures bytes { IfSome result (λ b. b.items ≡ file_bytes f.now) }
    ensures allowed { OnSome result (write_refusal f.now ≡ None) }
{
    if are_wrong_strings(count_named(f), &f.strings) {
        return None;
    }
    let mut out = parts_of(alloc, f)?;
    put_strings(&mut out, &f.strings).ok()?;
    Some(out)
}

/// The bytes of its parts before the strings, or `None` where one has none or out of memory.
fn parts_of(alloc: Global, f: &DescriptorFile) -> Option<Vec<u8>>
    ensures bytes { IfSome result (λ b. b.items ≡ file_bytes (record f.now { strings = None })) }
    ensures allowed { OnSome result (HasParts f.now) }
{
    if has_wrong_count(f) || has_wrong_kind(f) {
        return None;
    }
    let mut out = Vec::new(alloc);
    out.extend_from_slice(&f.device.to_bytes()).ok()?;
    put_sets(&mut out, &f.sets).ok()?;
    put_other(&mut out, &f.other).ok()?;
    Some(out)
}

fn put_other(out: &mut Vec<u8>, other: &Option<Other>) -> Result<(), EncodeFault>
    ensures bytes { OnOk result (out.new.items ≡ out.old.items ++ other_bytes other.now) }
    ensures allowed { OnOk result (list_any has_no_layout (other_sets other.now) ≡ false) }
{
    match other {
        None => Ok(()),
        Some(other) => {
            out.extend_from_slice(&other.qualifier.to_bytes())?;
            put_sets(out, &other.sets)
        }
    }
}

fn put_sets(out: &mut Vec<u8>, sets: &[Configuration]) -> Result<(), EncodeFault>
    ensures bytes { OnOk result (out.new.items ≡ out.old.items ++ sets_bytes sets.now) }
    ensures allowed { OnOk result (list_any has_no_layout sets.now ≡ false) }
{
    for c in sets {
        put_set(out, c)?;
    }
    Ok(())
}

#[tactic(auto, unfolding(usb_file_data::specs::File::whole_set))]
fn put_set(out: &mut Vec<u8>, c: &Configuration) -> Result<(), EncodeFault>
    ensures bytes { OnOk result (out.new.items ≡ out.old.items ++ whole_set c.now) }
    ensures allowed { OnOk result (has_no_layout c.now ≡ false) }
{
    encode_onto(c, out)
}

fn put_strings(out: &mut Vec<u8>, strings: &Option<Strings>) -> Result<(), UnitFault>
    ensures { OnOk result (out.new.items ≡ out.old.items ++ strings_bytes strings.now) }
{
    match strings {
        None => Ok(()),
        Some(strings) => {
            write_units_onto(&strings.languages, out)?;
            put_each_string(out, &strings.texts)
        }
    }
}

fn put_each_string(out: &mut Vec<u8>, strings: &[Sequence<u16>]) -> Result<(), UnitFault>
    ensures { OnOk result (out.new.items ≡ out.old.items ++ each_string_bytes strings.now) }
{
    for string in strings {
        write_units_onto(string, out)?;
    }
    Ok(())
}
