//! An enumeration, from a new host and a new device to its outcome.
ghost use Rattle.std.specs.Prelude.{◌≡◌, ◌≢◌, ◌<◌, ◌+◌, ◌^◌, IfSome, IsNone};
ghost use Rattle.usb_fields.specs.Packets.{Sent};
ghost use Rattle.usb_device.specs.Requests.{answer};
ghost use Rattle.usb_bus.specs.Bus.{carried};
ghost use Rattle.usb_bus.specs.Run.{fate_at};
ghost use Rattle.usb_host.specs.Cost.{left_to_ask};
ghost use Rattle.usb_host.specs.Steps.{WantsSent, wanted};
ghost use Rattle.usb_bus.specs.Asked.{asked_of};
ghost use Rattle.usb_bus.specs.Enumerate.{EndsWell, IsChosenEnumeration, IsEnumeration, IsStep, NoneIsLeft, answered, both};

use crate::exchange::exchange;
use crate::fate::Fate;
use crate::lemmas::all_is_asked;
use crate::steps::{Nobody, Observer, run_with};
use std::alloc::Global;
use usb_device::{Description, Device, Encoded, State};
use usb_file_data::DescriptorFile;
use usb_host::{Action, Choice, Host, Limits, Trouble};

/// What came of an enumeration.
#[derive(Clone, Debug, Drop, PartialEq, Eq, Hash)]
pub struct Run {
    /// The file that was read, or why there is none.
    pub outcome: Result<DescriptorFile, Trouble>,
    /// How many attempts were begun, each by a bus reset.
    pub attempts: u8,
    /// How many transactions there were, in all attempts.
    pub transactions: u64,
    /// The state that the device is in then.
    pub state: State,
}

/// One step of an enumeration: what the host wants next, done at both ends. That is a bus reset, which has no fate, or
/// transaction `transactions` + 1, under its fate. Answers how many transactions there were then, or `None` where the
/// host wants nothing more.
///
/// [`enumerate`] goes on by this from a new host and a new device to the end. A caller that does the same walks that
/// run, and sees both ends before and after each step.
///
/// ```rust
/// let (mut host, mut device) = (Host::new(alloc, limits, description.speed()), Device::new(&description));
/// assert_eq!(rt; step(&mut host, &mut device, &[Fate::LostDown], 0), Some(0));
/// assert_eq!(rt; host.attempts(), 1);
/// assert_eq!(rt; step(&mut host, &mut device, &[Fate::LostDown], 0), Some(1));
/// ```
///
/// # Requires
///
/// The transactions so far and those that the host may still ask for are fewer than 2^64. For a new host, with none so
/// far, they are.
pub fn step(
    host: &mut Host,
    device: &mut Device<'_>,
    fates: &[Fate],
    transactions: u64,
) -> Option<u64>
    requires few { transactions + left_to_ask host.old < 2 ^ 64 }
    ensures made { IfSome result (IsStep device.old.description.file fates.now (both host.old device.old.device) transactions (both host.new device.new.device)) }
    ensures none { IsNone result → NoneIsLeft (both host.old device.old.device) (both host.new device.new.device) }
    ensures description { device.new.description ≡ device.old.description }
{
    step_seen(host, device, fates, transactions, &mut Nobody)
}

/// The same [`step`], with an observer. Where the step is a transaction, it sees what the device answers, what came of it, and the
/// host that has taken that; at a bus reset and at the end it sees nothing.
#[tactic(auto, using(crate::proofs::EnumerateLemmas::take_falls, crate::proofs::EnumerateLemmas::reset_falls))]
pub fn step_seen<O: Observer>(
    host: &mut Host,
    device: &mut Device<'_>,
    fates: &[Fate],
    transactions: u64,
    observer: &mut O,
) -> Option<u64>
    requires few { transactions + left_to_ask host.old < 2 ^ 64 }
    ensures made { IfSome result (IsStep device.old.description.file fates.now (both host.old device.old.device) transactions (both host.new device.new.device)) }
    ensures none { IsNone result → NoneIsLeft (both host.old device.old.device) (both host.new device.new.device) }
    ensures description { device.new.description ≡ device.old.description }
    ensures seen { (sent : Sent) → wanted host.old.phase ≡ WantsSent sent → O.sees observer.old (answered device.old.description.file device.old.device sent (fate_at fates.now transactions)) (carried (answer device.old.description.file) device.old.description.file.device.packet device.old.device sent (fate_at fates.now transactions)).reply host.new observer.new }
    ensures unseen { ((sent : Sent) → wanted host.old.phase ≢ WantsSent sent) → observer.new ≡ observer.old }
{
    match host.next() {
        Action::Reset => {
            device.reset();
            host.reset_done();
            Some(transactions)
        }
        Action::Send(t) => {
            let fate = Fate::at(fates, u128::from(transactions));
            exchange(host, device, &t, fate, observer);
            Some(transactions + 1)
        }
        Action::Ended => None,
    }
}

/// Enumerates a device with this description, over a bus with these fates: a host with these limits reads all its
/// descriptors, gives it the limits' address and configures it (USB 2.0, 9.1.2).
///
/// Both ends are new. The k-th transaction of all attempts has the k-th fate, and after the list's end all pass. A bus
/// reset is no transaction: it has no fate, and reaches the device. Where an attempt fails for the bus's sake, the host
/// begins again with a reset, as often as the limits allow. There are at most attempts * (NAKs + 3) * 5,273,453
/// transactions.
///
/// What was read, or why there is none, is the [`Run`]'s outcome. So is *out of memory*, which ends an
/// enumeration at once.
///
/// ```rust
/// // The ACK of the address's status stage is lost: the host asks at address 1, where no device is yet.
/// let fates = [Fate::Pass, Fate::Pass, Fate::Pass, Fate::Pass, Fate::LostAck];
/// let run = enumerate(alloc, &description, Limits::new(1, 16, 3)?, &fates);
/// assert_eq!(rt; run.outcome, Ok(file));
/// assert_eq!(rt; run.attempts, 2);
/// ```
pub fn enumerate(alloc: Global, d: &Description, limits: Limits, fates: &[Fate]) -> Run
    ensures run { IsEnumeration d.now.file d.now.speed limits fates.now result }

    // A success has read the description and configured the device, any other end has its cause, and the limits are kept.
    ensures ends_well { EndsWell d.now.file limits fates.now result }
{
    enumerate_encoded(alloc, d.encoded(), limits, fates)
}

/// The same [`enumerate`] of a description without its tree: the one that the host reads is the only one then.
pub fn enumerate_encoded(alloc: Global, d: &Encoded, limits: Limits, fates: &[Fate]) -> Run
    ensures run { IsEnumeration d.now.file d.now.speed limits fates.now result }
    ensures ends_well { EndsWell d.now.file limits fates.now result }
{
    all_is_asked(d);
    enumerate_with(alloc, d, limits, Choice::everything(), fates)
}

/// The same by a host that asks for so much: a report is of the description what was asked for, each string by its index and its
/// language, and the host has passed over nothing.
///
/// ```rust
/// let choice = Choice { strings: NamedStrings::Skipped, other_speed: false };
/// let run = enumerate_with(alloc, description.encoded(), limits, choice, &[]);
/// let asked = DescriptorFile { other: None, strings: None, ..file };
/// assert_eq!(rt; run.outcome, Ok(asked));
/// ```
pub fn enumerate_with(
    alloc: Global,
    d: &Encoded,
    limits: Limits,
    choice: Choice,
    fates: &[Fate],
) -> Run
    ensures run { IsChosenEnumeration d.now.file d.now.speed limits choice fates.now result }
    ensures ends_well { EndsWell (asked_of choice d.now.file) limits fates.now result }
{
    match run_with(alloc, d, limits, choice, fates, &mut Nobody, &mut ()) {
        Ok(run) => run,
        Err(never) => match never {},
    }
}
