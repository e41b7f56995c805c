//! An enumeration over a bus of bytes that is logged.
ghost use Rattle.std.specs.Prelude.{◌≡◌, ◌<◌, ◌+◌, ◌^◌, IfErr, IfOk, IfSome, IsNone, OnOk};
ghost use Rattle.usb_fields.specs.Packets.{reply_of};
ghost use Rattle.usb_host.specs.Cost.{left_to_ask};
ghost use Rattle.usb_device.specs.Accepted.{Accepted};
ghost use Rattle.usb_bus.specs.DamagedLaws.{IsSlight, IsSlightFrom};
ghost use Rattle.usb_bus.specs.DamagedRuns.{AreSlight, IsDamagedEnumeration, IsDamagedRunFrom, counts_of};
ghost use Rattle.usb_bus.specs.Asked.{asked_of};
ghost use Rattle.usb_bus.specs.Enumerate.{NoneIsLeft, both, chosen_pair};
ghost use Rattle.usb_bus.specs.LogOnWire.{WritesWireLog, WritesWireLogFrom, WritesWireLogLess, WritesWireLogLessFrom, WritesWireStepsLess};
ghost use Rattle.usb_bus.specs.inside.Addresses.{AsksWithin};
ghost use Rattle.usb_bus.specs.inside.Seeing.{HasSeenPackets, LogsStep, LogsStepLess, WalksLogged};

use crate::enumeration::Run;
use crate::fate::Fate;
use crate::lemmas::all_is_asked;
use crate::log::Log;
use crate::step_lines::{Before, Turn};
use crate::steps::Observer;
use crate::tally::write_tally;
use crate::wire::change::BitChange;
use crate::wire::enumeration::{Wire, step_bytes};
use crate::wire::packet_lines::{Made, put_packets_below};
use crate::wire::receive::Damages;
use crate::wire::slight_damage_ends_well;
use std::alloc::{AllocError, Global};
use std::io::Write;
use usb_device::{Device, Encoded};
use usb_fields::Answer;
use usb_host::{Choice, Host, Limits};
use usb_text::{OutFault, write_all};

/// What happens on a bus of bytes, and what a log shows of it.
#[derive(Clone, Copy, Debug)]
pub struct Logging<'w> {
    /// What the bus does to each transaction; after the last one all arrives.
    pub fates: &'w [Fate],
    /// The bits that change.
    pub changes: &'w [BitChange],
    /// Whether lines of data are left out.
    pub brief: bool,
    /// Whether each packet is shown, and not those alone in which bits change.
    pub packets: bool,
}

/// The lines of a step over a bus of bytes, while they are put.
#[derive(Drop)]
struct WireLog<'w, const BRIEF: bool> {
    log: Log<BRIEF>,
    logging: Logging<'w>,
}

impl<'w, const BRIEF: bool> WireLog<'w, BRIEF> {
    /// Puts what is known of a transaction once the host has taken what came of this answer, and the lines of packets.
    fn put_answered(
        &mut self,
        answer: Answer<'_>,
        came: Answer<'_>,
        host: &Host,
    ) -> Result<(), AllocError>
        ensures seen { OnOk result (HasSeenPackets BRIEF self.old.logging.packets self.old.log.turn.number self.old.log.turn.fate self.old.logging.changes.now self.old.log.before.step self.old.log.before.transfer (reply_of answer.entry) (reply_of came.entry) host.now.phase self.old.log.lines self.new.log.lines self.new.log.below self.new.log.cause) }
        ensures same { self.new.logging ≡ self.old.logging }
    {
        let turn = self.log.turn;
        let sent = self.log.before.sent();
        let damages = Damages {
            changes: self.logging.changes,
            transaction: u128::from(turn.number),
        };
        self.log.put_answered(answer, came, host)?;
        let made = Made { sent, answer, came };
        put_packets_below(
            &mut self.log.below,
            self.logging.packets,
            damages,
            turn,
            made,
        )
    }

    /// Makes a step, and writes its lines.
    fn step<W: Write>(
        &mut self,
        host: &mut Host,
        device: &mut Device<'_>,
        transactions: u64,
        w: &mut W,
    ) -> Result<Option<u64>, OutFault>
        requires few { transactions + left_to_ask host.old < 2 ^ 64 }
        requires within { AsksWithin host.old }
        requires accepted { Accepted device.old.description.file device.old.description.speed }
        ensures made { IfOk result (λ o. IfSome o (LogsStep BRIEF self.old.logging.packets device.old.description.file self.old.logging.fates.now self.old.logging.changes.now (both host.old device.old.device) transactions (both host.new device.new.device) (W.contents w.old) (W.contents w.new))) }
        ensures none { IfOk result (λ o. IsNone o → NoneIsLeft (both host.old device.old.device) (both host.new device.new.device) × (w.new ≡ w.old)) }
        ensures err { IfErr result (LogsStepLess BRIEF self.old.logging.packets device.old.description.file self.old.logging.fates.now self.old.logging.changes.now (both host.old device.old.device) transactions (both host.new device.new.device) (W.contents w.old) (W.contents w.new)) }
        ensures within { AsksWithin host.new }
        ensures description { device.new.description ≡ device.old.description }
        ensures same { self.new.logging ≡ self.old.logging }
    {
        let before = Before::of(host);
        let wire = Wire {
            fates: self.logging.fates,
            changes: self.logging.changes,
        };
        let turn = Turn {
            number: transactions.saturating_add(1),
            fate: Fate::at(wire.fates, u128::from(transactions)),
        };
        let is_transaction = before.transfer.is_some();
        self.log.begin(before, turn);
        let Some(now) = step_bytes(host, device, wire, transactions, self) else {
            return Ok(None);
        };
        if !self.log.is_whole {
            return Err(OutFault::Memory);
        }
        self.log.put_done(is_transaction, host, device)?;
        write_all(w, self.log.lines.as_bytes())?;
        Ok(Some(now))
    }
}

impl<'w, const BRIEF: bool> Observer for WireLog<'w, BRIEF> {
    ghost use Rattle.std.specs.Prelude.{◌≡◌, true};
    ghost use Rattle.usb_bus.specs.inside.Seeing.{HasSeenPackets};

    ghost sees = { λ old answer came host new. (new.logging ≡ old.logging) × (new.log.is_whole ≡ true → HasSeenPackets BRIEF old.logging.packets old.log.turn.number old.log.turn.fate old.logging.changes.now old.log.before.step old.log.before.transfer answer came host.phase old.log.lines new.log.lines new.log.below new.log.cause) };

    fn answered(&mut self, answer: Answer<'_>, came: Answer<'_>, host: &Host) {
        self.log.is_whole = self.put_answered(answer, came, host).is_ok();
    }
}

/// Enumerates a device with this description as [`enumerate_on_the_wire`](crate::enumerate_on_the_wire) does, and writes a log of it:
/// that of [`enumerate_logged`](crate::enumerate_logged), but below the line of a transaction and its data are lines of its packets. They show
/// a packet's bytes, which bits have changed, and as what [`Damage`](usb_wire::Damage) it was refused. Damage that no check finds is
/// followed by a line of the packet that arrives.
///
/// ```rust
/// // Two bits of the ACK of the first SETUP: it arrives as a NAK.
/// let change = BitChange { transaction: 1, packet: 3, bit: 3 };
/// let changes = [change, BitChange { bit: 7, ..change }];
/// let logging = Logging { fates: &[], changes: &changes, brief: true, packets: false };
/// let mut log = Vec::new(alloc);
/// enumerate_encoded_on_the_wire_logged(alloc, description.encoded(), limits, logging, &mut log)?;
/// ```
///
/// # Errors
///
/// Those of [`enumerate_logged`](crate::enumerate_logged).
pub fn enumerate_encoded_on_the_wire_logged<W: Write>(
    alloc: Global,
    d: &Encoded,
    limits: Limits,
    logging: Logging<'_>,
    w: &mut W,
) -> Result<Run, OutFault>
    ensures log { IfOk result (WritesWireLog logging.entry.brief logging.entry.packets d.now.file logging.entry.fates.now logging.entry.changes.now d.now.speed limits (W.contents w.old) (W.contents w.new)) }
    ensures err { IfErr result (WritesWireLogLess logging.entry.brief logging.entry.packets d.now.file logging.entry.fates.now logging.entry.changes.now d.now.speed limits (W.contents w.old) (W.contents w.new)) }

    // What `enumerate_on_the_wire` promises of the run.
    ensures run { IfOk result (IsDamagedEnumeration d.now.file d.now.speed limits logging.entry.fates.now logging.entry.changes.now) }
    ensures slight { AreSlight logging.entry.changes.now → IfOk result (λ run. IsSlight d.now.file d.now.speed limits (counts_of logging.entry.fates.now logging.entry.changes.now run.transactions) run) }
{
    all_is_asked(d);
    enumerate_on_the_wire_logged_with(alloc, d, limits, Choice::everything(), logging, w)
}

/// The same by a host that asks for so much, as [`enumerate_with`](crate::enumerate_with) does.
///
/// # Errors
///
/// Those of [`enumerate_logged`](crate::enumerate_logged).
pub fn enumerate_on_the_wire_logged_with<W: Write>(
    alloc: Global,
    d: &Encoded,
    limits: Limits,
    choice: Choice,
    logging: Logging<'_>,
    w: &mut W,
) -> Result<Run, OutFault>
    ensures log { IfOk result (WritesWireLogFrom logging.entry.brief logging.entry.packets d.now.file logging.entry.fates.now logging.entry.changes.now (chosen_pair limits d.now.speed choice) (W.contents w.old) (W.contents w.new)) }
    ensures err { IfErr result (WritesWireLogLessFrom logging.entry.brief logging.entry.packets d.now.file logging.entry.fates.now logging.entry.changes.now (chosen_pair limits d.now.speed choice) (W.contents w.old) (W.contents w.new)) }

    // What `enumerate_on_the_wire_with` promises of the run.
    ensures run { IfOk result (IsDamagedRunFrom (chosen_pair limits d.now.speed choice) d.now.file logging.entry.fates.now logging.entry.changes.now) }
    ensures slight { AreSlight logging.entry.changes.now → IfOk result (λ run. IsSlightFrom (chosen_pair limits d.now.speed choice) d.now.file (asked_of choice d.now.file) limits (counts_of logging.entry.fates.now logging.entry.changes.now run.transactions) run) }
{
    // For the proof alone: what holds of a description, of limits and of every such run.
    d.known();
    limits.known();
    slight_damage_ends_well();
    match logging.brief {
        true => write_log::<true, W>(alloc, d, limits, choice, logging, w),
        false => write_log::<false, W>(alloc, d, limits, choice, logging, w),
    }
}

fn write_log<const BRIEF: bool, W: Write>(
    alloc: Global,
    d: &Encoded,
    limits: Limits,
    choice: Choice,
    logging: Logging<'_>,
    w: &mut W,
) -> Result<Run, OutFault>
    ensures log { IfOk result (WritesWireLogFrom BRIEF logging.entry.packets d.now.file logging.entry.fates.now logging.entry.changes.now (chosen_pair limits d.now.speed choice) (W.contents w.old) (W.contents w.new)) }
    ensures err { IfErr result (WritesWireLogLessFrom BRIEF logging.entry.packets d.now.file logging.entry.fates.now logging.entry.changes.now (chosen_pair limits d.now.speed choice) (W.contents w.old) (W.contents w.new)) }
{
    let mut log = WireLog {
        log: Log::<BRIEF>::new(alloc),
        logging,
    };
    let run = run_logged(alloc, d, limits, choice, &mut log, w)?;
    write_tally(alloc, logging.fates, run.transactions, w)?;
    Ok(run)
}

/// Makes the steps of an enumeration from a new host and a new device to its outcome, and writes the lines of each.
fn run_logged<const BRIEF: bool, W: Write>(
    alloc: Global,
    d: &Encoded,
    limits: Limits,
    choice: Choice,
    log: &mut WireLog<'_, BRIEF>,
    w: &mut W,
) -> Result<Run, OutFault>
    ensures walks { IfOk result (WalksLogged BRIEF log.old.logging.packets d.now.file log.old.logging.fates.now log.old.logging.changes.now (chosen_pair limits d.now.speed choice) (W.contents w.old) (W.contents w.new)) }
    ensures err { IfErr result (WritesWireStepsLess BRIEF log.old.logging.packets d.now.file log.old.logging.fates.now log.old.logging.changes.now (chosen_pair limits d.now.speed choice) (W.contents w.old) (W.contents w.new)) }
{
    // For the proof alone: what holds of a description and of limits.
    d.known();
    limits.known();
    let mut host = Host::with_choice(alloc, limits, d.speed(), choice);
    let mut device = Device::of(d);
    let mut transactions = 0u64;
    while let Some(now) = log.step(&mut host, &mut device, transactions, w)? {
        transactions = now;
    }
    let attempts = host.attempts();
    match host.into_outcome() {
        Some(outcome) => Ok(Run {
            outcome,
            attempts,
            transactions,
            state: device.state(),
        }),
        None => unreachable!(),
    }
}
