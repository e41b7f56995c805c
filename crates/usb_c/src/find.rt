//! Whole sets and device descriptors among any bytes.
ghost use Rattle.std.specs.Prelude.{ℕ};
ghost use Rattle.usb_find.specs.Found.{Finds, FindsIn};

use std::alloc::Global;
use usb_find::{Found, find, find_all};

/// The first whole set or device descriptor from a place on. False where none stands there: nothing changes then.
#[unsafe(no_mangle)]
pub extern "C" fn nzg_find(alloc: Global, bytes: &[u8], start: usize, found: &mut Found) -> bool
    ensures { Finds bytes.now start found.old found.new result }
{
    find(alloc, bytes, start, found)
}

/// What stands from a place on, one after another, as much as there is room for. Gives how many these are: fewer are all.
#[unsafe(no_mangle)]
pub extern "C" fn nzg_find_all(
    alloc: Global,
    bytes: &[u8],
    start: usize,
    found: &mut [Found],
) -> usize
    ensures { (end : ℕ) × FindsIn bytes.now start found.old found.new result end }
{
    find_all(alloc, bytes, start, found).0
}
