//! A set as its bytes.
ghost use Rattle.std.specs.Prelude.{◌≡◌, ◌≢◌, ◌+◌, ◌++◌, ℕ, length, take, List, IfErr, IfOk, None, OnErr, OnOk, Some};
ghost use Rattle.usb_set.specs.Layout.{Refuses, refusal_of, set_length, Layout, set_bytes};
ghost use Rattle.usb_set.specs.inside.Trees.{HasLength};

use crate::fault::EncodeFault;
use crate::lengths::{has_long_descriptor, has_typed_raw, set_len};
use crate::parts::put_set;
use crate::tree::Configuration;
use std::alloc::{AllocError, Global};
use usb_fields::known_bytes;

/// How many zeros are filled in at once. From 2,048 bytes on the C library's `memset` uses an instruction that took
/// twice the time where it was measured.
const STRETCH: usize = 1984;

/// The bytes of a set, exactly where it has a layout, with their count as wTotalLength (USB 2.0, 9.6.3). Its count of
/// interfaces and those of endpoints are written as declared.
///
/// ```rust
/// let (set, used) = read_set(alloc, &[9, 2, 9, 0, 0, 1, 0, 0x80, 0x32])?;
/// assert_eq!(rt; encode(alloc, &set)?.as_slice(), &[9, 2, 9, 0, 0, 1, 0, 0x80, 0x32]);
/// ```
///
/// # Errors
///
/// `Tail`, `RawKind` or `TooLong`, the first that applies, exactly where the set has no bytes;
/// `Memory` where it has bytes, when out of memory.
pub fn encode(alloc: Global, c: &Configuration) -> Result<Vec<u8>, EncodeFault>
    ensures ok { IfOk result (λ b. Layout c.now b.items) }
    ensures err { IfErr result (λ fault. Refuses c.now fault) }
    // A set with a reason has no layout.
    ensures only { (b : List ℕ) → Layout c.now b → refusal_of c.now ≡ None }
{
    let total = total_length(c)?;
    let mut out = Vec::with_capacity(alloc, usize::from(total))?;
    add_set(&mut out, c, total)?;
    known_bytes(&out);
    Ok(out)
}

/// Adds the bytes of a set at the end of a list, as [`encode`] gives them. The set is judged once, and nothing is
/// copied, so that sets can be written one after another.
///
/// ```rust
/// let (set, used) = read_set(alloc, &[9, 2, 9, 0, 0, 1, 0, 0x80, 0x32])?;
/// let mut out = Vec::from_slice(alloc, &[0xff])?;
/// encode_onto(&set, &mut out)?;
/// assert_eq!(rt; out.as_slice(), &[0xff, 9, 2, 9, 0, 0, 1, 0, 0x80, 0x32]);
/// ```
///
/// # Errors
///
/// Those of [`encode`]. The list then has the elements that it had.
pub fn encode_onto(c: &Configuration, out: &mut Vec<u8>) -> Result<(), EncodeFault>
    ensures ok { OnOk result (out.new.items ≡ out.old.items ++ set_bytes c.now (set_length c.now)) }
    // Only a set that has bytes is written.
    ensures written { OnOk result (refusal_of c.now ≡ None) }
    ensures err { IfErr result (λ fault. Refuses c.now fault) }
    ensures kept { OnErr result (out.new.items ≡ out.old.items) }
{
    let total = total_length(c)?;
    add_set(out, c, total)?;
    Ok(())
}

/// Adds the bytes of a set, of which there are `total`.
fn add_set(out: &mut Vec<u8>, c: &Configuration, total: u16) -> Result<(), AllocError>
    requires { HasLength c.now total }
    ensures ok { OnOk result (out.new.items ≡ out.old.items ++ set_bytes c.now total) }
    ensures err { OnErr result (out.new.items ≡ out.old.items) }
{
    let start = out.len();
    add_zeros(out, usize::from(total))?;
    put_set(out, start, c, total);
    Ok(())
}

/// Adds `count` zeros, filled in a stretch at a time.
fn add_zeros(out: &mut Vec<u8>, count: usize) -> Result<(), AllocError>
    ensures ok { OnOk result (length out.new.items ≡ length out.old.items + count) }
    ensures front { take (length out.old.items) out.new.items ≡ out.old.items }
    ensures err { OnErr result (out.new.items ≡ out.old.items) }
{
    out.reserve(count)?;
    let end = out.len() + count;
    while out.len() < end {
        let next = end.min(out.len() + STRETCH);
        out.resize(next, 0)?;
    }
    Ok(())
}

/// The first reason other than memory for which [`encode`] rejects the set, if there is one. Allocates nothing.
pub fn refusal(c: &Configuration) -> Option<EncodeFault>
    ensures { result ≡ refusal_of c.now }
{
    total_length(c).err()
}

/// wTotalLength of the set, or why it has no bytes.
fn total_length(c: &Configuration) -> Result<u16, EncodeFault>
    ensures ok { IfOk result (HasLength c.now) }
    ensures err { IfErr result (λ fault. refusal_of c.now ≡ Some fault) }
{
    match set_len(c) {
        Some(total) => Ok(total as u16),
        None => Err(reason(c)),
    }
}

/// The first reason why the set has no bytes, of which there is one.
#[cold]
fn reason(c: &Configuration) -> EncodeFault
    requires { refusal_of c.now ≢ None }
    ensures { refusal_of c.now ≡ Some result }
{
    if has_long_descriptor(c) {
        return EncodeFault::Tail;
    }
    if has_typed_raw(c) {
        return EncodeFault::RawKind;
    }
    EncodeFault::TooLong
}
