//! Whether a device can be made of a descriptor file, and why not.
ghost use Rattle.std.specs.Prelude.{◌≡◌, ◌≤◌, length, OnOk, IfErr, false};
ghost use Rattle.usb_file_data.specs.File.{named_indices};
ghost use Rattle.usb_device.specs.Accepted.{broken_words, has_early_second_speed, has_other_packets, has_wrong_sets, has_wrong_speed, has_wrong_strings, repeats, repeats_language, is_among, Accepted, Refuses};

use std::alloc::{AllocError, Global};
use std::{error, fmt};
use usb_fields::{Speed, USB_2_0};
use usb_file_data::{
    DescriptorFile, Finding, Rule, Strings, WriteFault, are_wrong_strings, check, write_refusal,
};

/// Why a descriptor file is no description of a device. They are tested in the order `Unwritable`,
/// `Finding`, `Texts`, `Speed`, and the first that applies is reported; `Memory` only when out of memory.
///
/// ```rust
/// // At high speed endpoint zero has packets of 64 bytes.
/// let file = read_file(rt.alloc(), &bytes)?;
/// assert_eq!(rt; file.device.packet, 8);
/// let fault = Description::new(rt.alloc(), file, Speed::High).err();
/// assert_eq!(rt; fault, Some(DescriptionFault::Speed));
/// ```
#[derive(Clone, Copy, Debug, Drop, PartialEq, Eq, Hash)]
pub enum DescriptionFault {
    /// A rule is broken: what [`usb_file_data::check`] finds first.
    Finding(Finding),
    /// The strings are not those that the file names, or a language is twice in the language list.
    Texts,
    /// No device of this speed has such descriptors: at low speed a packet size other than 8 or a second
    /// speed, at high speed a packet size other than 64, or a second speed with bcdUSB below 0200
    /// hexadecimal.
    Speed,
    /// Out of memory.
    Memory,
    /// The sets are not as many as declared or of another kind, or one of them has no bytes.
    Unwritable,
}

impl DescriptionFault {
    ghost use Rattle.usb_device.specs.Accepted.{fault_message, fault_number};

    /// The fault's number, from 1 to 5.
    pub fn number(self) -> u8
        ensures { result ≡ fault_number self }
    {
        match self {
            DescriptionFault::Finding(_) => 1,
            DescriptionFault::Texts => 2,
            DescriptionFault::Speed => 3,
            DescriptionFault::Memory => 4,
            DescriptionFault::Unwritable => 5,
        }
    }

    /// What the fault means, for people; of a finding what breaks its rule.
    ///
    /// ```rust
    /// assert_eq!(rt; DescriptionFault::Speed.message(), "no device of this speed has such descriptors");
    /// ```
    pub fn message(self) -> &'static str
        ensures { result.now ≡ fault_message self }
    {
        match self {
            DescriptionFault::Finding(finding) => broken_words(finding.rule()),
            DescriptionFault::Texts => {
                "the strings are not those that the file names, or a language stands twice"
            }
            DescriptionFault::Speed => "no device of this speed has such descriptors",
            DescriptionFault::Memory => "out of memory",
            DescriptionFault::Unwritable => "a set has no bytes, or the sets are not as declared",
        }
    }
}

/// What breaks a rule, if it is one.
fn broken_words(rule: Option<Rule>) -> &'static str
    ensures { result.now ≡ broken_words rule }
{
    match rule {
        Some(rule) => rule.message(),
        None => "",
    }
}

/// The finding with its place, and of another fault its message.
impl fmt::Display for DescriptionFault {
    fn fmt<W: fmt::Write>(&self, f: &mut fmt::Formatter<W>) -> fmt::Result {
        match self {
            DescriptionFault::Finding(finding) => write!(f, "{finding}"),
            fault => f.write_str(fault.message()),
        }
    }
}

impl error::Error for DescriptionFault {}

impl From<AllocError> for DescriptionFault {
    ghost use Rattle.usb_device.specs.declared.acceptance.DescriptionFault.TheVariants.{Memory};

    ghost from_gives = { λ _ fault. fault ≡ Memory };

    fn from(_refused: AllocError) -> Self {
        Self::Memory
    }
}

/// Rejects a file that is no description of a device of this speed. Its sets have bytes, and it names this many strings.
pub(crate) fn examine(
    alloc: Global,
    f: &DescriptorFile,
    count: usize,
    speed: Speed,
) -> Result<(), DescriptionFault>
    requires sets { has_wrong_sets f.now ≡ false }
    requires count { count ≡ length (named_indices f.now) }
    requires most { count ≤ 255 }
    ensures ok { OnOk result (Accepted f.now speed) }
    ensures err { IfErr result (λ fault. Refuses f.now speed fault) }
{
    let findings = check(alloc, f)?;
    if let Some(first) = findings.first() {
        return Err(DescriptionFault::Finding(*first));
    }
    if has_wrong_strings(f, count) {
        return Err(DescriptionFault::Texts);
    }
    if has_wrong_speed(f, speed) {
        return Err(DescriptionFault::Speed);
    }
    Ok(())
}

/// Whether the sets have no bytes, or are not as declared.
#[tactic(auto, unfolding(crate::specs::Accepted::has_wrong_sets))]
pub(crate) fn has_wrong_sets(f: &DescriptorFile) -> bool
    ensures { result ≡ has_wrong_sets f.now }
{
    match write_refusal(f) {
        Some(WriteFault::Count | WriteFault::Kind | WriteFault::Layout) => true,
        Some(WriteFault::Texts | WriteFault::Memory) | None => false,
    }
}

/// Whether the strings are not those of this many named indices, or are not distinct.
#[tactic(auto, unfolding(crate::specs::Accepted::has_wrong_strings))]
fn has_wrong_strings(f: &DescriptorFile, count: usize) -> bool
    requires count { count ≡ length (named_indices f.now) }
    requires most { count ≤ 255 }
    ensures { result ≡ has_wrong_strings f.now }
{
    are_wrong_strings(count, &f.strings) || repeats_language(&f.strings)
}

/// Whether a language is twice in the language list.
fn repeats_language(strings: &Option<Strings>) -> bool
    ensures { result ≡ repeats_language strings.now }
{
    match strings {
        Some(strings) => repeats(&strings.languages),
        None => false,
    }
}

/// Whether a number is twice in the list.
fn repeats(numbers: &[u16]) -> bool
    ensures { result ≡ repeats numbers.now }
{
    match numbers {
        [] => false,
        [first, rest @ ..] => is_among(rest, *first) || repeats(rest),
    }
}

fn is_among(numbers: &[u16], n: u16) -> bool
    ensures { result ≡ is_among numbers.now n }
{
    numbers.iter().any(|other| *other == n)
}

/// Whether the speed and the descriptors contradict each other.
fn has_wrong_speed(f: &DescriptorFile, speed: Speed) -> bool
    ensures { result ≡ has_wrong_speed f.now speed }
{
    has_other_packets(f, speed) || has_early_second_speed(f)
}

fn has_other_packets(f: &DescriptorFile, speed: Speed) -> bool
    ensures { result ≡ has_other_packets f.now speed }
{
    match speed {
        Speed::Low => f.device.packet != 8 || f.other.is_some(),
        Speed::Full => false,
        Speed::High => f.device.packet != 64,
    }
}

fn has_early_second_speed(f: &DescriptorFile) -> bool
    ensures { result ≡ has_early_second_speed f.now }
{
    f.other.is_some() && f.device.usb < USB_2_0
}
