//! How long a file can be, and that a copy of a file is that file. Each law is the contract of a function.
ghost use Rattle.std.specs.Prelude.{◌≡◌, ◌≤◌, ℕ, List, length, IfOk};
ghost use Rattle.usb_file_data.specs.File.{File};

use crate::file::{DescriptorFile, Other, Strings};
use std::alloc::AllocError;

/// The most bytes that a file has: the device descriptor, 255 sets of either speed, the qualifier, the
/// language list, and a string for each of 126 languages and 255 indices, each as long as it can be.
pub const FILE_LIMIT: usize = 18 + 2 * 255 * 65_535 + 10 + 254 + 126 * 255 * 254;

/// No file has more bytes than the limit.
pub fn longest_file()
    ensures { (f : DescriptorFile) (b : List ℕ) → File f b → length b ≤ FILE_LIMIT }
{}

/// A copy of a file is that file: `clone` leaves out nothing of its tree, the other speed and the strings
/// with it, and changes nothing.
///
/// # Errors
///
/// Out of memory.
pub fn a_copy_is_its_original(f: &DescriptorFile) -> Result<DescriptorFile, AllocError>
    ensures { IfOk result (λ copy. copy ≡ f.now) }
{
    f.clone()
}

/// A copy of what a device is at its other speed is that.
///
/// # Errors
///
/// Out of memory.
pub fn a_copied_other_is_its_original(other: &Other) -> Result<Other, AllocError>
    ensures { IfOk result (λ copy. copy ≡ other.now) }
{
    other.clone()
}

/// A copy of strings is these strings.
///
/// # Errors
///
/// Out of memory.
pub fn copied_strings_are_their_originals(strings: &Strings) -> Result<Strings, AllocError>
    ensures { IfOk result (λ copy. copy ≡ strings.now) }
{
    strings.clone()
}
