//! An enumeration over a bus of bytes on which given bits change.
ghost use Rattle.std.specs.Prelude.{◌≡◌, ◌<◌, ◌+◌, ◌^◌, IfSome, IsNone};
ghost use Rattle.usb_host.specs.Cost.{left_to_ask};
ghost use Rattle.usb_device.specs.Accepted.{Accepted};
ghost use Rattle.usb_bus.specs.DamagedLaws.{IsSlight, IsSlightFrom};
ghost use Rattle.usb_bus.specs.DamagedRuns.{AreSlight, IsDamagedEnumeration, IsDamagedRunFrom, IsDamagedStep, counts_of};
ghost use Rattle.usb_bus.specs.Asked.{asked_of};
ghost use Rattle.usb_bus.specs.Enumerate.{NoneIsLeft, both, chosen_pair};
ghost use Rattle.usb_bus.specs.inside.Addresses.{AsksWithin};
ghost use Rattle.usb_bus.specs.inside.Seeing.{IsSeenStep};

use crate::enumeration::Run;
use crate::fate::Fate;
use crate::lemmas::all_is_asked;
use crate::steps::{Nobody, Observer};
use crate::wire::change::BitChange;
use crate::wire::exchange::exchange_bytes;
use crate::wire::receive::Damages;
use crate::wire::slight_damage_ends_well;
use std::alloc::Global;
use usb_device::{Description, Device, Encoded};
use usb_host::{Action, Choice, Host, Limits};

/// What the bus does to transactions: what it loses, and which bits it changes.
#[derive(Clone, Copy)]
pub(crate) struct Wire<'w> {
    pub(crate) fates: &'w [Fate],
    pub(crate) changes: &'w [BitChange],
}

/// One step of an enumeration over a bus of bytes, as [`step`](crate::step) is one under fates.
#[tactic(auto, using(crate::proofs::EnumerateLemmas::take_falls, crate::proofs::EnumerateLemmas::reset_falls, crate::proofs::AddressLemmas::reset_within))]
pub(crate) fn step_bytes<O: Observer>(
    host: &mut Host,
    device: &mut Device<'_>,
    wire: Wire<'_>,
    transactions: u64,
    observer: &mut O,
) -> Option<u64>
    requires few { transactions + left_to_ask host.old < 2 ^ 64 }
    requires within { AsksWithin host.old }
    requires accepted { Accepted device.old.description.file device.old.description.speed }
    ensures made { IfSome result (IsDamagedStep device.old.description.file wire.entry.fates.now wire.entry.changes.now (both host.old device.old.device) transactions (both host.new device.new.device)) }
    ensures none { IsNone result → NoneIsLeft (both host.old device.old.device) (both host.new device.new.device) }
    ensures seen { IfSome result (λ now. IsSeenStep O.sees device.old.description.file wire.entry.fates.now wire.entry.changes.now (both host.old device.old.device) transactions (both host.new device.new.device) now observer.old observer.new) }
    ensures unseen { IsNone result → observer.new ≡ observer.old }
    ensures within { AsksWithin host.new }
    ensures description { device.new.description ≡ device.old.description }
{
    match host.next() {
        Action::Reset => {
            device.reset();
            host.reset_done();
            Some(transactions)
        }
        Action::Send(t) => {
            let before = u128::from(transactions);
            let fate = Fate::at(wire.fates, before);
            let damages = Damages {
                changes: wire.changes,
                transaction: before + 1,
            };
            exchange_bytes(host, device, &t, fate, damages, observer);
            Some(transactions + 1)
        }
        Action::Ended => None,
    }
}

/// Enumerates a device with this description as [`enumerate`](crate::enumerate) does, over a bus of bytes: each packet is
/// written from its PID to its CRC, these bits change in it, and whoever receives it reads it, or ignores it where it is no
/// packet (USB 2.0, 8.7.1). What its fate loses of a transaction doesn't arrive.
///
/// A damage that no check finds arrives as what it became. Two changed bits make a NAK of an ACK.
///
/// ```rust
/// // A bit of the data of the first SETUP: its CRC finds that, so the host receives nothing, and asks again.
/// let changes = [BitChange {
///     transaction: 1,
///     packet: 2,
///     bit: 20,
/// }];
/// let limits = Limits::new(1, 16, 3)?;
/// let run = enumerate_on_the_wire(alloc, &description, limits, &[], &changes);
/// assert_eq!(rt; run, enumerate(alloc, &description, limits, &[Fate::LostDown]));
/// ```
pub fn enumerate_on_the_wire(
    alloc: Global,
    d: &Description,
    limits: Limits,
    fates: &[Fate],
    changes: &[BitChange],
) -> Run
    ensures run { IsDamagedEnumeration d.now.file d.now.speed limits fates.now changes.now result }

    // Where each change is slight, it is an enumeration over a bus that changes few bits of packets: a success has read the
    // description and configured the device, any other end has its cause, and the limits are kept.
    ensures slight { AreSlight changes.now → IsSlight d.now.file d.now.speed limits (counts_of fates.now changes.now result.transactions) result }
{
    enumerate_encoded_on_the_wire(alloc, d.encoded(), limits, fates, changes)
}

/// The same [`enumerate_on_the_wire`] of a description without its tree.
pub fn enumerate_encoded_on_the_wire(
    alloc: Global,
    d: &Encoded,
    limits: Limits,
    fates: &[Fate],
    changes: &[BitChange],
) -> Run
    ensures run { IsDamagedEnumeration d.now.file d.now.speed limits fates.now changes.now result }
    ensures slight { AreSlight changes.now → IsSlight d.now.file d.now.speed limits (counts_of fates.now changes.now result.transactions) result }
{
    all_is_asked(d);
    enumerate_on_the_wire_with(alloc, d, limits, Choice::everything(), fates, changes)
}

/// The same by a host that asks for so much, as [`enumerate_with`](crate::enumerate_with) does.
pub fn enumerate_on_the_wire_with(
    alloc: Global,
    d: &Encoded,
    limits: Limits,
    choice: Choice,
    fates: &[Fate],
    changes: &[BitChange],
) -> Run
    ensures run { IsDamagedRunFrom (chosen_pair limits d.now.speed choice) d.now.file fates.now changes.now result }
    ensures slight { AreSlight changes.now → IsSlightFrom (chosen_pair limits d.now.speed choice) d.now.file (asked_of choice d.now.file) limits (counts_of fates.now changes.now result.transactions) result }
{
    // For the proof alone: what holds of a description, of limits and of every such run.
    d.known();
    limits.known();
    slight_damage_ends_well();
    run_bytes(alloc, d, limits, choice, fates, changes)
}

/// Makes the steps of an enumeration from a new host and a new device to its outcome.
fn run_bytes(
    alloc: Global,
    d: &Encoded,
    limits: Limits,
    choice: Choice,
    fates: &[Fate],
    changes: &[BitChange],
) -> Run
    ensures { IsDamagedRunFrom (chosen_pair limits d.now.speed choice) d.now.file fates.now changes.now result }
{
    // For the proof alone: what holds of a description and of limits.
    d.known();
    limits.known();
    let wire = Wire { fates, changes };
    let mut host = Host::with_choice(alloc, limits, d.speed(), choice);
    let mut device = Device::of(d);
    let mut transactions = 0u64;
    while let Some(now) = step_bytes(&mut host, &mut device, wire, transactions, &mut Nobody) {
        transactions = now;
    }
    let attempts = host.attempts();
    match host.into_outcome() {
        Some(outcome) => Run {
            outcome,
            attempts,
            transactions,
            state: device.state(),
        },
        None => unreachable!(),
    }
}
