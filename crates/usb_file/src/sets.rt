//! The sets of a file, read one after another.
ghost use Rattle.std.specs.Prelude.{◌≡◌, ◌+◌, ◌<◌, ◌≤◌, ◌^◌, [], IfErr, IfOk, drop, length};
ghost use Rattle.usb_file.specs.inside.Reading.{Behind, ReadsNextSet, ReadsSet, ReadsSets, SetRefused, SetsRefused, set_refusal};

use crate::file_reader::rest;
use std::alloc::Global;
use usb_file_data::{FileFault, FileWhy, is_other_kind};
use usb_set::{Configuration, Sequence, SetKind, SetWhy, read_set};

/// Reads as many sets of this kind as are declared, and answers where they end.
pub(crate) fn read_sets(
    alloc: Global,
    b: &[u8],
    place: usize,
    kind: SetKind,
    declared: u8,
    sets: &mut Sequence<Configuration>,
) -> Result<usize, FileFault>
    requires none { sets.old ≡ [] }
    requires within { place ≤ length b.now }
    ensures ok { IfOk result (λ end. ReadsSets kind b.now place sets.new end) }
    ensures all { IfOk result (λ end. length sets.new ≡ declared) }
    ensures err { IfErr result (λ fault. SetsRefused kind declared b.now place sets.new fault.at fault.why) }
{
    let mut end = place;
    'sets: while sets.len() < usize::from(declared) {
        end = read_next_set(alloc, b, end, kind, sets)?;
    }
    Ok(end)
}

/// Reads the next set of this kind, and answers where it ends.
fn read_next_set(
    alloc: Global,
    b: &[u8],
    place: usize,
    kind: SetKind,
    sets: &mut Sequence<Configuration>,
) -> Result<usize, FileFault>
    requires within { place ≤ length b.now }
    ensures ok { IfOk result (λ end. ReadsNextSet kind b.now place sets.old sets.new end) }
    ensures err { IfErr result (λ fault. Behind place (λ n. SetRefused kind (drop place b.now) n fault.why) fault.at) }
    ensures same { IfErr result (λ fault. sets.new ≡ sets.old) }
{
    match read_one_set(alloc, kind, rest(b, place)) {
        Ok((c, used)) => match sets.push(c) {
            Ok(()) => Ok(place + used),
            Err(_) => Err(FileFault::new(place, FileWhy::Memory)),
        },
        Err(fault) => Err(fault.moved(place)),
    }
}

/// The set of this kind that the bytes begin with, and how many bytes it has; or a fault, its place
/// counted from the first of these bytes.
fn read_one_set(
    alloc: Global,
    kind: SetKind,
    rest: &[u8],
) -> Result<(Configuration, usize), FileFault>
    ensures ok { IfOk result (λ p. ReadsSet kind rest.now p.0 p.1) }
    ensures err { IfErr result (λ fault. SetRefused kind rest.now fault.at fault.why) }
    ensures small { IfErr result (λ fault. fault.at < 2 ^ 32) }
{
    match read_set(alloc, rest) {
        Ok((c, used)) => {
            if is_other_kind(&c, kind) {
                return Err(FileFault::new(1, FileWhy::SetKind));
            }
            Ok((c, used))
        }
        Err(fault) => Err(set_refusal(fault.why, fault.at)),
    }
}

/// The fault of a set as one of the file, its place counted from the set's start: *out of memory* is
/// reported there.
fn set_refusal(why: SetWhy, at: u32) -> FileFault
    ensures is { result ≡ set_refusal why at }
    ensures small { result.at < 2 ^ 32 }
{
    match why {
        SetWhy::Memory => FileFault::new(0, FileWhy::Memory),
        SetWhy::Truncated => FileFault::new(at as usize, FileWhy::Truncated),
        why => FileFault::new(at as usize, FileWhy::Set(why)),
    }
}
