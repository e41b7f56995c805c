//! A file in the making.
ghost use Rattle.std.specs.Prelude.{◌≡◌, ◌<◌, ◌*◌, [], None, length};
ghost use Rattle.usb_host.specs.Order.{declared_sets, index_due as index_after, language_due as language_after, sets_of};
ghost use Rattle.std.specs.Prelude.{◌≡◌, ◌<◌, OnOk, length};
ghost use Rattle.usb_file_data.specs.Front.{with_set};
ghost use Rattle.usb_host.specs.Order.{declared_sets, first_value, sets_of, is_first_zero as cannot_be_selected};

use std::alloc::Global;
use usb_fields::{DeviceDescriptor, Sequence};
use usb_file_data::{DescriptorFile, NoMemory, Strings};
use usb_set::{Configuration, SetKind};

/// What a draft has while no device descriptor was read.
const NO_DEVICE: DeviceDescriptor = DeviceDescriptor {
    usb: 0,
    class: 0,
    subclass: 0,
    protocol: 0,
    packet: 0,
    vendor: 0,
    product: 0,
    release: 0,
    maker_text: 0,
    product_text: 0,
    serial_text: 0,
    configurations: 0,
};

/// What was read so far. It is changed where it lies: what comes next says which of it counts.
#[derive(Debug, Drop)]
pub struct Draft {
    /// The file, as far as it is read.
    pub file: DescriptorFile,
    /// The languages, and the strings so far. Once all are there they belong to the file.
    pub strings: Strings,
    /// The indices of strings that are named.
    pub named: Sequence<u8>,
}

impl Draft {
    /// With nothing read.
    pub(crate) fn new(alloc: Global) -> Draft {
        Draft {
            file: new_file(alloc, NO_DEVICE),
            strings: no_strings(alloc),
            named: Sequence::new(alloc),
        }
    }
}

/// The file of which the device descriptor alone was read.
pub(crate) fn new_file(alloc: Global, device: DeviceDescriptor) -> DescriptorFile
    ensures { result ≡ record { device = device; sets = []; other = None; strings = None } }
{
    DescriptorFile {
        device,
        sets: Sequence::new(alloc),
        other: None,
        strings: None,
    }
}

/// Without languages.
pub(crate) fn no_strings(alloc: Global) -> Strings {
    Strings {
        languages: Sequence::new(alloc),
        texts: Sequence::new(alloc),
    }
}

/// The index of the next set of this kind, of those that the device declares.
pub(crate) fn index_of(kind: SetKind, file: &DescriptorFile) -> u8
    requires { length (sets_of kind file.now) < declared_sets kind file.now }
    ensures { result ≡ length (sets_of kind file.now) }
{
    let _declared = count_declared(kind, file);
    count_sets(kind, file) as u8
}

/// The index of the next string, of those that are due.
#[tactic(auto, using(crate::proofs::PlaceLemmas::column_below))]
pub(crate) fn index_due(strings: &Strings, named: &[u8]) -> u8
    requires { length strings.now.texts < length strings.now.languages * length named.now }
    ensures { result ≡ index_after named.now (length strings.now.texts) }
{
    named[strings.texts.len() % named.len()]
}

/// The language of the next string, of those that are due.
#[tactic(auto, using(crate::proofs::PlaceLemmas::row_below))]
pub(crate) fn language_due(strings: &Strings, named: &[u8]) -> u16
    requires { length strings.now.texts < length strings.now.languages * length named.now }
    ensures { result ≡ language_after strings.now.languages named.now (length strings.now.texts) }
{
    strings.languages[strings.texts.len() / named.len()]
}

/// How many sets of this kind are there so far.
pub(crate) fn count_sets(kind: SetKind, file: &DescriptorFile) -> usize
    ensures { result ≡ length (sets_of kind file.now) }
{
    match kind {
        SetKind::Configuration => file.sets.len(),
        SetKind::OtherSpeed => match &file.other {
            Some(other) => other.sets.len(),
            None => 0,
        },
    }
}

/// How many sets of this kind the device declares, bNumConfigurations.
pub(crate) fn count_declared(kind: SetKind, file: &DescriptorFile) -> u8
    ensures { result ≡ declared_sets kind file.now }
{
    match kind {
        SetKind::Configuration => file.device.configurations,
        SetKind::OtherSpeed => match &file.other {
            Some(other) => other.qualifier.configurations,
            None => 0,
        },
    }
}

/// bConfigurationValue of the first set, 0 where there is none.
pub(crate) fn value_of_first(sets: &[Configuration]) -> u8
    ensures { result ≡ first_value sets.now }
{
    match sets {
        [first, ..] => first.value,
        [] => 0,
    }
}

/// Whether the set would be the device's first one, and can't be selected: its value is 0.
pub(crate) fn is_first_zero(kind: SetKind, file: &DescriptorFile, set: &Configuration) -> bool
    ensures { result ≡ cannot_be_selected kind (sets_of kind file.now) set.now }
{
    match kind {
        SetKind::Configuration => match file.sets.as_slice() {
            [] => set.value == 0,
            [_, ..] => false,
        },
        SetKind::OtherSpeed => false,
    }
}

/// Adds a set of this kind to the file.
pub(crate) fn add_set(
    file: &mut DescriptorFile,
    kind: SetKind,
    set: Configuration,
) -> Result<(), NoMemory>
    ensures { OnOk result (file.new ≡ with_set kind set file.old) }
{
    let added = match kind {
        SetKind::Configuration => file.sets.push(set).is_ok(),
        SetKind::OtherSpeed => match &mut file.other {
            Some(other) => other.sets.push(set).is_ok(),
            None => true,
        },
    };
    if added { Ok(()) } else { Err(NoMemory) }
}
