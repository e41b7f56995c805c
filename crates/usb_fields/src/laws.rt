//! Laws of the formats and of `==`.
//!
//! For each format reading and writing undo each other on exactly the legal bytes. The functions of these laws
//! do nothing: their contracts are the laws.
ghost use Rattle.std.specs.Prelude.{◌≡◌, ◌<◌, ◌≤◌, ◌↔◌, ℕ, List, length, None, IsTrue};
ghost use Rattle.usb_fields.specs.Bytes.{AreBytes};
ghost use Rattle.usb_fields.specs.Fields.{widths};
ghost use Rattle.usb_fields.specs.Device.{device_bytes, device_fault, device_fields, qualifier_bytes, qualifier_fault, qualifier_fields};
ghost use Rattle.usb_fields.specs.Packets.{reply_of, sent_of, joined, kept, packets, repeated};
ghost use Rattle.usb_fields.specs.Setup.{setup_bytes, setup_of};
ghost use Rattle.usb_fields.specs.Units.{unit_fault, units_bytes};
ghost use Rattle.usb_fields.specs.declared.device.DeviceDescriptor.{DeviceDescriptor};
ghost use Rattle.usb_fields.specs.declared.packet.Toggle.TheVariants.{Data1};
ghost use Rattle.usb_fields.specs.declared.qualifier.Qualifier.{Qualifier};
ghost use Rattle.usb_fields.specs.declared.setup.Setup.{Setup};

use crate::device::DEVICE_WIDTHS;
use crate::packet::{Answer, Transaction};
use crate::qualifier::QUALIFIER_WIDTHS;

/// The widths that the code has are those of the standard's fields.
pub fn widths_are_the_standards()
    ensures device { DEVICE_WIDTHS ≡ widths device_fields }
    ensures qualifier { QUALIFIER_WIDTHS ≡ widths qualifier_fields }
{}

/// [`Setup::from_bytes`](crate::Setup::from_bytes) and [`Setup::to_bytes`](crate::Setup::to_bytes) undo each
/// other on all lists of eight bytes.
pub fn setup_round_trip()
    // What was written is read as what it was written from, so packets with the same bytes are the same.
    ensures read_back { (s : Setup) → setup_of (setup_bytes s) ≡ s }

    // Eight bytes, whatever they are, are written again as they were read.
    ensures written_back { (b : List ℕ) → AreBytes b → length b ≡ 8 → setup_bytes (setup_of b) ≡ b }
{}

/// The bytes that [`DeviceDescriptor::read`](crate::DeviceDescriptor::read) takes are those that
/// [`to_bytes`](crate::DeviceDescriptor::to_bytes) writes, and they are those of one descriptor.
pub fn device_descriptor_round_trip()
    // What is written has no fault, no two descriptors are written alike, and bytes without a fault are written.
    ensures taken { (d : DeviceDescriptor) → device_fault (device_bytes d) ≡ None }
    ensures one_descriptor { (d e : DeviceDescriptor) → device_bytes d ≡ device_bytes e → d ≡ e }
    ensures written { (b : List ℕ) → AreBytes b → device_fault b ≡ None → (d : DeviceDescriptor) × (device_bytes d ≡ b) }
{}

/// The bytes that [`Qualifier::read`](crate::Qualifier::read) takes are those that
/// [`to_bytes`](crate::Qualifier::to_bytes) writes, and they are those of one qualifier.
pub fn qualifier_round_trip()
    // What is written has no fault, no two qualifiers are written alike, and bytes without a fault are written.
    ensures taken { (q : Qualifier) → qualifier_fault (qualifier_bytes q) ≡ None }
    ensures one_qualifier { (q r : Qualifier) → qualifier_bytes q ≡ qualifier_bytes r → q ≡ r }
    ensures written { (b : List ℕ) → AreBytes b → qualifier_fault b ≡ None → (q : Qualifier) × (qualifier_bytes q ≡ b) }
{}

/// The bytes that [`read_units`](crate::read_units) takes are those that [`write_units`](crate::write_units)
/// writes, and they are those of one list of units.
pub fn units_round_trip()
    // What is written has no fault, no two lists are written alike, and bytes without a fault are written.
    ensures taken { (u : List ℕ) → unit_fault (units_bytes u) ≡ None }
    ensures one_list { (u v : List ℕ) → units_bytes u ≡ units_bytes v → u ≡ v }
    ensures written { (b : List ℕ) → AreBytes b → unit_fault b ≡ None → (u : List ℕ) × (length u ≤ 126) × (units_bytes u ≡ b) }
{}

/// The packets of a data stage join to its bytes, where these are at most wLength; and of packets that come once or
/// more each, in order, a receiver keeps each once (USB 2.0, 8.5.3 and 8.6).
pub fn packets_of_a_data_stage()
    // The packets join to the bytes that they were cut from.
    ensures join { (bytes : List ℕ) (size limit : ℕ) → 0 < size → length bytes ≤ limit → joined (packets bytes size limit) ≡ bytes }

    // Where each packet comes once or more, in order, each is kept once.
    ensures kept_once { (bytes : List ℕ) (size limit : ℕ) (again : List ℕ) → kept (repeated (packets bytes size limit) Data1 again) Data1 ≡ packets bytes size limit }
{}

/// Two answers are equal exactly where they say the same, wherever their bytes lie.
pub fn equal_answers_say_the_same(a: &Answer<'_>, b: &Answer<'_>) -> bool
    ensures { IsTrue result ↔ (reply_of a.now ≡ reply_of b.now) }
{
    a == b
}

/// Two transactions are equal exactly where they send the same to the same address, wherever their bytes lie.
pub fn equal_transactions_send_the_same(t: &Transaction<'_>, u: &Transaction<'_>) -> bool
    ensures { IsTrue result ↔ (sent_of t.now ≡ sent_of u.now) }
{
    t == u
}
