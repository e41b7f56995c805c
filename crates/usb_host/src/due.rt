//! What a host reads next.
ghost use Rattle.std.specs.Prelude.{◌≡◌, ◌<◌, ◌*◌, IfSome, length as list_length};
ghost use Rattle.usb_set.specs.Descriptors.{type_number};
ghost use Rattle.usb_host.specs.Read.{get_descriptor};
ghost use Rattle.usb_host.specs.Order.{declared_sets, header_step as step_of_header, index_due as index_after, language_due as language_after, set_step as step_of_set, sets_of};
ghost use Rattle.usb_host.specs.declared.draft.Draft.{Draft as DraftView};

use crate::draft::{Draft, index_due, index_of, language_due, value_of_first};
use crate::request::{Request, addressing, configuring, getting};
use crate::step::{Step, Trouble};
use crate::why::Why;
use usb_fields::{Setup, descriptor_length, descriptor_type};
use usb_file_data::{DescriptorFile, Strings};
use usb_set::SetKind;

/// The packet size of endpoint zero while it is not known: every device can take packets of 8 bytes (5.5.3).
const LEAST_PACKET: u8 = 8;

/// How much of a set is read first: its first descriptor, without a tail.
const HEADER: u16 = descriptor_length::CONFIGURATION as u16;

/// The length of a device descriptor.
const DEVICE: u16 = descriptor_length::DEVICE as u16;

/// The length of a device qualifier.
const QUALIFIER: u16 = descriptor_length::DEVICE_QUALIFIER as u16;

/// The most bytes that a string descriptor can have.
const LONGEST_STRING: u16 = descriptor_length::LONGEST as u16;

/// What is read next, or the end. What was read so far is beside it, in a [`Draft`].
#[derive(Clone, Copy, Debug)]
pub enum Due {
    /// The first eight bytes of the device descriptor.
    First,
    /// SET_ADDRESS, after these bytes.
    Address { first: [u8; 8] },
    /// The device descriptor, which begins with these bytes.
    Device { first: [u8; 8] },
    /// The first nine bytes of the next set of this kind.
    Header { kind: SetKind },
    /// That set, of this many bytes.
    Set { kind: SetKind, total: u16 },
    /// The device qualifier.
    Qualifier,
    /// The language list.
    Languages,
    /// The next string.
    Text,
    /// SET_CONFIGURATION: the file is whole.
    Configure,
    /// All was read, and the device is configured.
    Reported,
    /// The end without success.
    Stopped { trouble: Trouble },
}

impl Due {
    ghost use Rattle.usb_host.specs.inside.Sound.{IsGood};
    ghost use Rattle.usb_host.specs.inside.Places.{place_of, is_bus_trouble as is_bus_trouble_at, is_end as is_end_at, requested};
    ghost use Rattle.usb_host.specs.Order.{asks, is_of_strings as is_of_strings_at, step_of, stopped};

    /// Whether the enumeration has ended.
    #[inline(always)]
    pub(crate) fn is_end(&self) -> bool
        ensures { (draft : DraftView) → result ≡ is_end_at (place_of self.now draft) }
    {
        match self {
            Due::Reported | Due::Stopped { .. } => true,
            _ => false,
        }
    }

    /// Whether the enumeration has ended by trouble for which the bus is to blame.
    pub(crate) fn is_bus_trouble(&self) -> bool
        ensures { (draft : DraftView) → result ≡ is_bus_trouble_at (place_of self.now draft) }
    {
        match self {
            Due::Stopped { trouble } => match trouble.why {
                Why::NoAnswer | Why::Busy => true,
                Why::Stalled | Why::TooLong | Why::Unexpected | Why::Malformed | Why::Memory =>
                    false,
            },
            _ => false,
        }
    }

    /// Whether strings are read.
    pub(crate) fn is_of_strings(&self) -> bool
        ensures { (draft : DraftView) → result ≡ is_of_strings_at (place_of self.now draft) }
    {
        match self {
            Due::Languages | Due::Text => true,
            _ => false,
        }
    }

    /// The current step.
    pub(crate) fn step(&self, draft: &Draft) -> Step
        requires { IsGood (place_of self.now draft.now) }
        ensures { result ≡ step_of (place_of self.now draft.now) }
    {
        match *self {
            Due::First => Step::First,
            Due::Address { .. } => Step::Address,
            Due::Device { .. } => Step::Device,
            Due::Header { kind } => header_step(kind, index_of(kind, &draft.file)),
            Due::Set { kind, .. } => set_step(kind, index_of(kind, &draft.file)),
            Due::Qualifier => Step::Qualifier,
            Due::Languages => Step::Languages,
            Due::Text => Step::Text {
                language: language_due(&draft.strings, &draft.named),
                index: index_due(&draft.strings, &draft.named),
            },
            Due::Configure | Due::Reported => Step::Configure,
            Due::Stopped { trouble } => trouble.step,
        }
    }

    /// The end here, for a reason.
    pub(crate) fn stop(&self, draft: &Draft, why: Why) -> Due
        requires { IsGood (place_of self.now draft.now) }
        ensures { (after : DraftView) → place_of result after ≡ stopped (place_of self.now draft.now) why }
    {
        Due::Stopped {
            trouble: Trouble {
                step: self.step(draft),
                why,
            },
        }
    }

    /// The next transfer, where the device gets this address; after the end there is none.
    pub(crate) fn request(&self, draft: &Draft, address: u8) -> Option<Request>
        requires { IsGood (place_of self.now draft.now) }
        ensures value { result ≡ requested (asks address (place_of self.now draft.now)) }
        ensures packet { IfSome result (λ r. 0 < r.packet) }
    {
        let file = &draft.file;
        let request = match *self {
            Due::First => Request {
                address: 0,
                packet: LEAST_PACKET,
                setup: getting(descriptor_type::DEVICE, 0, 0, u16::from(LEAST_PACKET)),
            },
            Due::Address { first } => Request {
                address: 0,
                packet: first[7],
                setup: addressing(address),
            },
            Due::Device { first } => Request {
                address,
                packet: first[7],
                setup: getting(descriptor_type::DEVICE, 0, 0, DEVICE),
            },
            Due::Header { kind } => request_to(file, address, getting_set(kind, file, HEADER)),
            Due::Set { kind, total } => request_to(file, address, getting_set(kind, file, total)),
            Due::Qualifier => request_to(
                file,
                address,
                getting(descriptor_type::DEVICE_QUALIFIER, 0, 0, QUALIFIER),
            ),
            Due::Languages => request_to(
                file,
                address,
                getting(descriptor_type::STRING, 0, 0, LONGEST_STRING),
            ),
            Due::Text => request_to(file, address, getting_text(&draft.strings, &draft.named)),
            Due::Configure => request_to(file, address, configuring(value_of_first(&file.sets))),
            Due::Reported | Due::Stopped { .. } => return None,
        };
        Some(request)
    }
}

/// A request to a device whose device descriptor was read.
fn request_to(file: &DescriptorFile, address: u8, setup: Setup) -> Request
    ensures { result ≡ record { address = address; packet = file.now.device.packet; setup = setup } }
{
    Request {
        address,
        packet: file.device.packet,
        setup,
    }
}

/// GET_DESCRIPTOR of the next set of this kind, of at most `length` bytes.
fn getting_set(kind: SetKind, file: &DescriptorFile, length: u16) -> Setup
    requires { list_length (sets_of kind file.now) < declared_sets kind file.now }
    ensures { result ≡ get_descriptor (type_number kind) (list_length (sets_of kind file.now)) 0 length }
{
    getting(kind.descriptor_type(), index_of(kind, file), 0, length)
}

/// GET_DESCRIPTOR of the next string, of those that are due.
fn getting_text(strings: &Strings, named: &[u8]) -> Setup
    requires { list_length strings.now.texts < list_length strings.now.languages * list_length named.now }
    ensures { result ≡ get_descriptor 3 (index_after named.now (list_length strings.now.texts)) (language_after strings.now.languages named.now (list_length strings.now.texts)) 255 }
{
    let index = index_due(strings, named);
    let language = language_due(strings, named);
    getting(descriptor_type::STRING, index, language, LONGEST_STRING)
}

/// The step of the first descriptor of a set.
fn header_step(kind: SetKind, index: u8) -> Step
    ensures { result ≡ step_of_header kind index }
{
    match kind {
        SetKind::Configuration => Step::Header(index),
        SetKind::OtherSpeed => Step::OtherHeader(index),
    }
}

/// The step of a set.
fn set_step(kind: SetKind, index: u8) -> Step
    ensures { result ≡ step_of_set kind index }
{
    match kind {
        SetKind::Configuration => Step::Set(index),
        SetKind::OtherSpeed => Step::OtherSet(index),
    }
}
