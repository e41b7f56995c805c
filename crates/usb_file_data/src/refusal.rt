//! What keeps a file from having bytes.
ghost use Rattle.std.specs.Prelude.{◌≡◌, ◌≤◌};
ghost use Rattle.usb_file_data.specs.Numbers.{write_number};
ghost use Rattle.std.specs.List.{list_any};
ghost use Rattle.usb_file_data.specs.File.{other_sets, are_wrong_strings, has_wrong_count, has_wrong_kind, is_long_string, is_other_kind, is_other_miscounted, has_no_layout, has_wrong_layout, write_refusal};

use crate::file::{DescriptorFile, Other, Strings};
use crate::string::count_named;
use thiserror::Error;
use usb_fields::MOST_UNITS;
use usb_set::{Configuration, Sequence, SetKind, refusal};

/// Why a file has no bytes. Of several that apply the first is reported, and `Memory` only where none of the
/// others does.
///
/// ```rust
/// assert_eq!(rt; WriteFault::Kind.number(), 2);
/// ```
#[derive(Clone, Copy, Debug, Drop, Error, PartialEq, Eq, Hash)]
pub enum WriteFault {
    /// The sets of the device, or those of its other speed, are not as many as bNumConfigurations says.
    #[error("the sets are not as many as declared")]
    Count,
    /// An other-speed set among the sets of the device, or the other way round.
    #[error("a set of the other kind")]
    Kind,
    /// A set has no bytes: `usb_set::refusal` has the reason.
    #[error("a set has no bytes")]
    Layout,
    /// The strings are not those that the file names: strings where no index is named, none where one
    /// is, no language or over 126, not one string for each language and named index, or a string of over
    /// 126 units.
    #[error("the strings are not those that the file names")]
    Texts,
    /// Out of memory.
    #[error("out of memory")]
    Memory,
}

impl WriteFault {
    /// The fault's number, from 1 to 5, in the order in which the cases are taken.
    pub fn number(self) -> u8
        ensures { result ≡ write_number self }
    {
        self as u8 + 1
    }
}

/// Whether the sets are not as many as bNumConfigurations says: [`WriteFault::Count`](crate::WriteFault::Count).
///
/// ```rust
/// file.device.configurations += 1;
/// assert!(rt; has_wrong_count(&file));
/// ```
pub fn has_wrong_count(f: &DescriptorFile) -> bool
    ensures { result ≡ has_wrong_count f.now }
{
    f.sets.len() != usize::from(f.device.configurations) || is_other_miscounted(&f.other)
}

fn is_other_miscounted(other: &Option<Other>) -> bool
    ensures { result ≡ is_other_miscounted other.now }
{
    match other {
        None => false,
        Some(other) => other.sets.len() != usize::from(other.qualifier.configurations),
    }
}

/// Whether a set is of the kind that belongs to the other speed: [`WriteFault::Kind`](crate::WriteFault::Kind).
///
/// ```rust
/// file.sets.at_mut(0).kind = SetKind::OtherSpeed;
/// assert!(rt; has_wrong_kind(&file));
/// ```
pub fn has_wrong_kind(f: &DescriptorFile) -> bool
    ensures { result ≡ has_wrong_kind f.now }
{
    any_other_kind(&f.sets, SetKind::Configuration)
        || any_other_kind(sets_of(&f.other), SetKind::OtherSpeed)
}

/// The sets of the other speed.
fn sets_of(other: &Option<Other>) -> &[Configuration]
    ensures { result.now ≡ other_sets other.now }
{
    match other {
        None => &[],
        Some(other) => &other.sets,
    }
}

fn any_other_kind(sets: &[Configuration], kind: SetKind) -> bool
    ensures { result ≡ list_any (is_other_kind kind) sets.now }
{
    sets.iter().any(|c| is_other_kind(c, kind))
}

/// Whether the set is of the other kind than this one.
///
/// ```rust
/// let (set, _) = read_set(alloc, &[9, 7, 9, 0, 0, 1, 0, 0x80, 0x32])?;
/// assert!(rt; is_other_kind(&set, SetKind::Configuration));
/// ```
pub fn is_other_kind(c: &Configuration, kind: SetKind) -> bool
    ensures { result ≡ is_other_kind kind c.now }
{
    c.kind.descriptor_type() != kind.descriptor_type()
}

/// Whether the strings are not those of this many named indices, of which there can be 255: [`WriteFault::Texts`](crate::WriteFault::Texts).
///
/// ```rust
/// // A file that names no string has none.
/// assert!(rt; !are_wrong_strings(0, &None));
/// ```
///
/// # Requires
///
/// `count` is at most 255.
pub fn are_wrong_strings(count: usize, strings: &Option<Strings>) -> bool
    requires { count ≤ 255 }
    ensures { result ≡ are_wrong_strings count strings.now }
{
    match strings {
        None => count != 0,
        Some(strings) => {
            count == 0
                || strings.languages.is_empty()
                || is_long_string(&strings.languages)
                || any_long_string(&strings.texts)
                || strings.texts.len() != strings.languages.len() * count
        }
    }
}

fn any_long_string(strings: &[Sequence<u16>]) -> bool
    ensures { result ≡ list_any is_long_string strings.now }
{
    strings.iter().any(|string| is_long_string(string))
}

fn is_long_string(string: &Sequence<u16>) -> bool
    ensures { result ≡ is_long_string string.now }
{
    string.len() > MOST_UNITS
}

/// The first reason other than memory for which the file has no bytes, if it has none. Allocates nothing.
///
/// ```rust
/// file.device.configurations += 1;
/// assert_eq!(rt; write_refusal(&file), Some(WriteFault::Count));
/// ```
pub fn write_refusal(f: &DescriptorFile) -> Option<WriteFault>
    ensures { result ≡ write_refusal f.now }
{
    if has_wrong_count(f) {
        return Some(WriteFault::Count);
    }
    if has_wrong_kind(f) {
        return Some(WriteFault::Kind);
    }
    if has_wrong_layout(f) {
        return Some(WriteFault::Layout);
    }
    if are_wrong_strings(count_named(f), &f.strings) {
        return Some(WriteFault::Texts);
    }
    None
}

fn has_wrong_layout(f: &DescriptorFile) -> bool
    ensures { result ≡ has_wrong_layout f.now }
{
    let is_other_wrong = match &f.other {
        None => false,
        Some(other) => any_without_layout(&other.sets),
    };
    any_without_layout(&f.sets) || is_other_wrong
}

fn any_without_layout(sets: &[Configuration]) -> bool
    ensures { result ≡ list_any has_no_layout sets.now }
{
    sets.iter().any(|c| has_no_layout(c))
}

fn has_no_layout(c: &Configuration) -> bool
    ensures { result ≡ has_no_layout c.now }
{
    refusal(c).is_some()
}
