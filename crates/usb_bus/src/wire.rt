//! What holds of two ends over a bus of bytes, which loses packets and changes few bits of others: all that holds under fates.
//!
//! Slightly damaged is a packet in which one bit of the PID is changed, or after it one or two bits of a token, up to three bits
//! of a data packet or any that lie among 16 in a row. A handshake has a PID alone: two changed bits make an ACK of a NAK,
//! and no law can help there.
ghost use Rattle.usb_bus.specs.DamagedLaws.{AnySlightDamageEndsWell, SingleChangesAreSlight, SlightDamageEndsWell};
ghost use Rattle.usb_bus.specs.WireLaws.{AttemptsHaveFates, DamagedPacketsAreLost, EnumerationsHaveFates, EnumerationsOnTheWireEndWell, RunsFromHaveFates, RunsHaveFates, TalksOnTheWireHaveCauses, TransactionsHaveFates};

mod change;
mod enumeration;
mod exchange;
mod log;
mod packet_lines;
mod receive;

use crate::laws::{a_talk_has_causes, an_enumeration_ends_well, no_owner_changes_an_enumeration};
use crate::lemmas::all_that_is_there_is_asked;
pub use change::BitChange;
pub use enumeration::{
    enumerate_encoded_on_the_wire, enumerate_on_the_wire, enumerate_on_the_wire_with,
};
pub use log::{Logging, enumerate_encoded_on_the_wire_logged, enumerate_on_the_wire_logged_with};

/// A packet that arrives as it was sent, or slightly damaged, or not at all, is received as it was sent, or not at all.
pub fn a_damaged_packet_is_a_lost_one()
    ensures { DamagedPacketsAreLost }
{}

/// A transaction over such a bus is one under a fate, to the same reply and with the same device, but that one may wait
/// for an ACK where the other doesn't; no later transaction tells the two apart. Only where a packet is damaged or lost
/// the fate loses something.
#[tactic(auto, using(crate::proofs::WireFates::fated))]
pub fn a_transaction_on_the_wire_has_a_fate()
    ensures { TransactionsHaveFates }
{}

/// So are the transactions of a transfer, one after another.
#[tactic(auto, using(crate::proofs::WireFates::runs_fated))]
pub fn a_transfer_on_the_wire_has_fates()
    ensures { RunsHaveFates }
{}

/// So are transfers by a plan, with no bus reset between them.
pub fn an_attempt_on_the_wire_has_fates()
    ensures { AttemptsHaveFates }
{}

/// A talk over such a bus that stops has a cause, and one that doesn't has all replies of the device's table.
pub fn a_talk_on_the_wire_has_causes()
    ensures { TalksOnTheWireHaveCauses }
{
    a_talk_has_causes();
    an_attempt_on_the_wire_has_fates();
}

/// An enumeration over such a bus is one under fates, with the same outcome and the same state.
#[tactic(auto, using(crate::proofs::WireRunLemmas::enumerations_fated, crate::proofs::WireRunLemmas::runs_from_fated))]
pub fn an_enumeration_on_the_wire_has_fates()
    ensures everything { EnumerationsHaveFates }
    ensures any_choice { RunsFromHaveFates }
{}

/// The main theorem over such a bus: an enumeration of a device with accepted descriptors has read just these and configured
/// the device, or has a cause, and no attempt and no transaction too many, whatever the device's owner answers.
pub fn an_enumeration_on_the_wire_ends_well()
    ensures { EnumerationsOnTheWireEndWell }
{
    an_enumeration_on_the_wire_has_fates();
    no_owner_changes_an_enumeration();
}

/// So does one on which given bits change, each packet's slightly.
pub fn slight_damage_ends_well()
    ensures ends_well { SlightDamageEndsWell }
    ensures any_choice { AnySlightDamageEndsWell }
    // At most one changed bit in each packet is slight.
    ensures single { SingleChangesAreSlight }
{
    an_enumeration_on_the_wire_has_fates();
    an_enumeration_ends_well();
    all_that_is_there_is_asked();
}
