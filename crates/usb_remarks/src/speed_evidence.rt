//! Evidence of the speed of a set, in its descriptors.
ghost use Rattle.std.specs.Prelude.{◌≡◌, false, slice_index};
ghost use Rattle.usb_remarks.specs.SetSpeeds.{evidence_of, has_multiple, is_above_low, is_full, is_high, is_hub_interface, is_slow, is_within};
ghost use Rattle.usb_walk.specs.Trees.{descriptors};
ghost use Rattle.usb_remarks.specs.inside.Walking.{collected};

use usb_fields::{byte_at, descriptor_type, word_at};
use usb_set::TransferType;
use usb_walk::{first_descriptor, is_endpoint, is_interface};

/// The type of a SuperSpeed endpoint companion (USB 3.2, 9.6.7).
const COMPANION: u8 = 48;

/// Evidence of a set's speed: for each kind, whether a descriptor shows it.
#[derive(Clone, Copy, Debug, PartialEq, Eq, Hash)]
pub(crate) struct Evidence {
    /// A SuperSpeed endpoint companion.
    pub(crate) companion: bool,
    /// An endpoint that only high speed has.
    pub(crate) high: bool,
    /// An endpoint that only full speed has.
    pub(crate) full: bool,
    /// An endpoint or an interface that low speed can't have.
    pub(crate) above_low: bool,
    /// An interval that hints at low or full speed.
    pub(crate) slow: bool,
}

impl Evidence {
    /// Before the first descriptor.
    pub(crate) fn none() -> Evidence
        ensures { result ≡ record { companion = false; high = false; full = false; above_low = false; slow = false } }
    {
        Evidence {
            companion: false,
            high: false,
            full: false,
            above_low: false,
            slow: false,
        }
    }

    /// What these descriptors say together, as far as they go.
    pub(crate) fn of(sets: &[u8]) -> Evidence
        ensures { result ≡ evidence_of (descriptors sets.now) }
    {
        let mut evidence = Evidence::none();
        let mut rest = sets;
        while let Some((d, behind)) = first_descriptor(rest) {
            evidence.add(d);
            rest = behind;
        }
        evidence
    }

    /// Adds what a descriptor says.
    #[inline(always)]
    pub(crate) fn add(&mut self, d: &[u8])
        ensures { self.new ≡ collected d.now self.old }
    {
        match byte_at(d, 1) {
            descriptor_type::ENDPOINT => self.add_endpoint(d),
            descriptor_type::INTERFACE => self.above_low = self.above_low || is_hub_interface(d),
            COMPANION => self.companion = true,
            _ => {}
        }
    }

    /// The same of a descriptor of an endpoint's type.
    fn add_endpoint(&mut self, d: &[u8])
        requires { slice_index d.now 1 ≡ 5 }
        ensures { self.new ≡ collected d.now self.old }
    {
        if is_endpoint(d) {
            let transfer = TransferType::of(byte_at(d, 3));
            let max_packet = word_at(d, 4);
            self.high = self.high || is_high(transfer, max_packet);
            self.full = self.full || is_full(transfer, max_packet);
            self.above_low = self.above_low || is_above_low(transfer, max_packet);
            self.slow = self.slow || is_slow(transfer, byte_at(d, 6));
        }
    }
}

/// An interface of a hub, which is never of low speed (USB 2.0, chapter 11).
fn is_hub_interface(d: &[u8]) -> bool
    ensures { result ≡ is_hub_interface d.now }
{
    is_interface(d) && byte_at(d, 5) == 9
}

fn is_high(transfer: TransferType, max_packet: u16) -> bool
    ensures { result ≡ is_high transfer max_packet }
{
    let size = max_packet % 2048;
    match transfer {
        TransferType::Control => false,
        TransferType::Bulk => size == 512,
        TransferType::Interrupt => size > 64,
        TransferType::Isochronous => size > 1023 || has_multiple(max_packet),
    }
}

/// Whether a microframe has more than one packet of this size (9.6.6, table 9-14).
pub fn has_multiple(max_packet: u16) -> bool
    ensures { result ≡ has_multiple max_packet }
{
    let size = max_packet % 2048;
    match max_packet / 2048 % 4 {
        1 => is_within(513, 1024, size),
        2 => is_within(683, 1024, size),
        _ => false,
    }
}

fn is_within(least: u16, most: u16, size: u16) -> bool
    ensures { result ≡ is_within least most size }
{
    least <= size && size <= most
}

fn is_full(transfer: TransferType, max_packet: u16) -> bool
    ensures { result ≡ is_full transfer max_packet }
{
    match transfer {
        TransferType::Bulk => max_packet % 2048 <= 64,
        _ => false,
    }
}

fn is_above_low(transfer: TransferType, max_packet: u16) -> bool
    ensures { result ≡ is_above_low transfer max_packet }
{
    match transfer {
        TransferType::Isochronous | TransferType::Bulk => true,
        TransferType::Control | TransferType::Interrupt => max_packet % 2048 > 8,
    }
}

fn is_slow(transfer: TransferType, interval: u8) -> bool
    ensures { result ≡ is_slow transfer interval }
{
    match transfer {
        TransferType::Interrupt => interval > 16,
        _ => false,
    }
}
