//! The loop of an enumeration, and who sees what a device answers on the way.
ghost use Rattle.std.specs.Prelude.{IfErr, IfOk};
ghost use Rattle.usb_bus.specs.Asked.{asked_of};
ghost use Rattle.usb_bus.specs.Enumerate.{EndsWell, IsChosenEnumeration, chosen_pair};
ghost use Rattle.usb_bus.specs.inside.Running.{Breaks, Walks};

use crate::enumeration::{Run, step};
use crate::fate::Fate;
use crate::laws::an_enumeration_ends_well;
use std::alloc::Global;
use std::convert::Infallible;
use usb_device::{Device, Encoded};
use usb_fields::Answer;
use usb_host::{Choice, Host, Limits};

/// Sees what passes over the bus in an enumeration.
pub trait Observer {
    ghost use Rattle.usb_fields.specs.Packets.{Reply, reply_of};
    ghost use Rattle.usb_host.specs.Steps.{HostView};

    /// What it was before this answer, of which this came and left the host so, and what it is then.
    ghost sees: { Self → Reply → Reply → HostView → Self → Type 0 };

    /// The device has answered this in a transaction, silence where it received nothing, and the host has taken what came of it
    /// over the bus.
    fn answered(&mut self, answer: Answer<'_>, came: Answer<'_>, host: &Host)
        ensures { sees self.old (reply_of answer.entry) (reply_of came.entry) host.now self.new };
}

/// An observer that sees nothing.
#[derive(Clone, Copy, Debug)]
pub(crate) struct Nobody;

impl Observer for Nobody {
    ghost sees = { λ _ _ _ _ _. Unit {0} };

    #[inline(always)]
    fn answered(&mut self, _answer: Answer<'_>, _came: Answer<'_>, _host: &Host) {}
}

/// Makes the steps of an enumeration, and does something to a `W` at each.
pub(crate) trait Steps<W> {
    ghost use Rattle.std.specs.Prelude.{◌≡◌, ◌<◌, ◌+◌, ◌^◌, ℕ, List, IfErr, IfOk, IfSome, IsNone};
    ghost use Rattle.usb_file_data.specs.declared.file.DescriptorFile.{DescriptorFile};
    ghost use Rattle.usb_bus.specs.declared.fate.Fate.{Fate};
    ghost use Rattle.usb_host.specs.Cost.{left_to_ask};
    ghost use Rattle.usb_bus.specs.Enumerate.{Pair, IsStep, Moves, NoneIsLeft, both};

    /// Why a step may end the enumeration.
    type Fault;

    /// What is done at a step from one pair to the next, after which there were this many transactions: the `W` was
    /// this, and is that then.
    ghost does: { DescriptorFile → List Fate → Pair → Pair → ℕ → W → W → Type 0 };

    /// What is done at a step that ends the enumeration for this reason.
    ghost breaks: { DescriptorFile → List Fate → Pair → Pair → ℕ → W → W → Self.Fault → Type 0 };

    /// One [`step`].
    fn step(
        &mut self,
        host: &mut Host,
        device: &mut Device<'_>,
        fates: &[Fate],
        transactions: u64,
        w: &mut W,
    ) -> Result<Option<u64>, Self::Fault>
        requires few { transactions + left_to_ask host.old < 2 ^ 64 }
        ensures made { IfOk result (λ o. IfSome o (IsStep device.old.description.file fates.now (both host.old device.old.device) transactions (both host.new device.new.device))) }
        ensures does { IfOk result (λ o. IfSome o (λ now. does device.old.description.file fates.now (both host.old device.old.device) (both host.new device.new.device) now w.old w.new)) }
        ensures none { IfOk result (λ o. IsNone o → NoneIsLeft (both host.old device.old.device) (both host.new device.new.device) × (w.new ≡ w.old)) }
        ensures description { device.new.description ≡ device.old.description }
        ensures breaks { IfErr result (λ fault. (now : ℕ) × Moves device.old.description.file fates.now (both host.old device.old.device) transactions (both host.new device.new.device) now × breaks device.old.description.file fates.now (both host.old device.old.device) (both host.new device.new.device) now w.old w.new fault) };
}

/// Nothing is done at a step.
impl Steps<()> for Nobody {
    type Fault = Infallible;

    ghost does = { λ _ _ _ _ _ _ _. Unit {0} };

    ghost breaks = { λ _ _ _ _ _ _ _ _. Unit {0} };

    #[inline(always)]
    fn step(
        &mut self,
        host: &mut Host,
        device: &mut Device<'_>,
        fates: &[Fate],
        transactions: u64,
        _w: &mut (),
    ) -> Result<Option<u64>, Infallible> {
        Ok(step(host, device, fates, transactions))
    }
}

/// Enumerates a device with this description by these steps, both ends being new, by a host that asks for so much.
#[inline(always)]
pub(crate) fn run_with<W, S: Steps<W>>(
    alloc: Global,
    d: &Encoded,
    limits: Limits,
    choice: Choice,
    fates: &[Fate],
    steps: &mut S,
    w: &mut W,
) -> Result<Run, S::Fault>
    ensures walks { IfOk result (Walks d.now.file (chosen_pair limits d.now.speed choice) fates.now (S.does d.now.file fates.now) w.old w.new) }
    ensures ends_well { IfOk result (EndsWell (asked_of choice d.now.file) limits fates.now) }
    ensures run { IfOk result (IsChosenEnumeration d.now.file d.now.speed limits choice fates.now) }
    ensures breaks { IfErr result (λ fault. Breaks d.now.file (chosen_pair limits d.now.speed choice) fates.now (S.does d.now.file fates.now) (λ x y n from to. S.breaks d.now.file fates.now x y n from to fault) w.old w.new) }
{
    // For the proof alone: what holds of a description, of limits and of every run.
    d.known();
    limits.known();
    an_enumeration_ends_well();
    let mut host = Host::with_choice(alloc, limits, d.speed(), choice);
    let mut device = Device::of(d);
    let mut transactions = 0u64;
    while let Some(now) = steps.step(&mut host, &mut device, fates, transactions, w)? {
        transactions = now;
    }
    let attempts = host.attempts();
    match host.into_outcome() {
        Some(outcome) => Ok(Run {
            outcome,
            attempts,
            transactions,
            state: device.state(),
        }),
        None => unreachable!(),
    }
}
