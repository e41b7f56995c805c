//! The host.
ghost use Rattle.std.specs.Prelude.{◌≡◌, ◌<◌, ◌≤◌, ◌&&◌, nat_lt, IsSome};
ghost use Rattle.usb_fields.specs.Packets.{Sent, reply_of};
ghost use Rattle.usb_host.specs.Cost.{BringsBytes};
ghost use Rattle.usb_host.specs.inside.Places.{is_bus_trouble};
ghost use Rattle.usb_host.specs.inside.Reads.{place_in};

use crate::choice::{Choice, Terms};
use crate::current_read::{CurrentRead, begin};
use crate::draft::Draft;
use crate::due::Due;
use crate::limits::Limits;
use crate::step::{Action, Step, Trouble};
use crate::transfer::Transfer;
use std::alloc::Global;
use std::marker::Model;
use usb_fields::{Answer, Speed, known_bytes};
use usb_file_data::DescriptorFile;

/// A host that reads all descriptors of one device, and configures it (USB 2.0, 9.1.2 and 9.4).
///
/// The caller does what [`Host::next`] says. It reports a bus reset by [`Host::reset_done`], and hands what a
/// transaction brought to [`Host::take`]. Once the action is `Ended`, there is an outcome, and nothing changes any more.
///
/// ```rust
/// let mut host = Host::new(alloc, Limits::new(1, 16, 3)?, Speed::Full);
/// loop {
///     match host.next() {
///         Action::Reset => {
///             reset_port();
///             host.reset_done();
///         }
///         Action::Send(transaction) => host.take(send(&transaction)),
///         Action::Ended => break,
///     }
/// }
/// let file = host.into_outcome();
/// ```
#[derive(Debug, Drop)]
pub struct Host {
    alloc: Global,
    limits: Limits,
    terms: Terms,
    resets: u8,
    reset_due: bool,
    reading: CurrentRead,
}

impl Model for Host {
    ghost use Rattle.usb_host.specs.Steps.{HostView};
    ghost use Rattle.usb_host.specs.inside.Reads.{IsHost, view_of};

    ghost Value = { HostView };

    ghost view = { view_of };

    ghost invariant = { λ h. IsHost (view_of h) };
}

impl Host {
    ghost use Rattle.usb_host.specs.Steps.{Takes, WantsNothing, WantsReset, WantsSent, chosen_host, lent_outcome, new_host, outcome_of, reset, step_in, transfer_in, wanted, wanted_by};
    ghost use Rattle.usb_host.specs.Cost.{left_to_ask};

    /// A host that has done nothing, and asks for all that a descriptor file has. The limits of its retries, and the
    /// address that it gives, are in `limits`.
    pub fn new(alloc: Global, limits: Limits, speed: Speed) -> Host
        ensures { result ≡ new_host limits speed }
    {
        Host::with_choice(alloc, limits, speed, Choice::everything())
    }

    /// A host that has done nothing, and asks for so much.
    ///
    /// Where strings may be missing, trouble at one is passed over and listed by [`Host::forgiven`]; what is reported has
    /// a stand-in for it. Where the strings are skipped, a report has none though indices are named.
    ///
    /// ```rust
    /// let choice = Choice { strings: NamedStrings::Wanted, other_speed: false };
    /// let mut host = Host::with_choice(alloc, Limits::new(1, 16, 3)?, Speed::Full, choice);
    /// ```
    pub fn with_choice(alloc: Global, limits: Limits, speed: Speed, choice: Choice) -> Host
        ensures { result ≡ chosen_host limits speed choice }
    {
        let _attempts = limits.attempts();
        Host {
            alloc,
            limits,
            terms: Terms { speed, choice },
            resets: 0,
            reset_due: true,
            reading: begin(alloc, &limits),
        }
    }

    /// What is to be done next. Once nothing is, there is an outcome.
    ///
    /// ```rust
    /// assert_eq!(rt; Host::new(alloc, Limits::new(1, 16, 3)?, Speed::Full).next(), Action::Reset);
    /// ```
    #[inline(always)]
    pub fn next(&self) -> Action
        ensures action { wanted_by result ≡ wanted self.now.phase }
        ensures ended { wanted_by result ≡ WantsNothing → IsSome (outcome_of self.now.phase) }
    {
        if self.reset_due {
            return Action::Reset;
        }
        if self.reading.due.is_end() {
            return Action::Ended;
        }
        match self.reading.transfer.next() {
            Some(transaction) => Action::Send(transaction),
            None => Action::Ended,
        }
    }

    /// The bus was reset: the device has no address and no configuration. Where no reset is requested, nothing changes. No reset
    /// adds to what may still be asked for, nor to the attempts past their limit.
    pub fn reset_done(&mut self)
        ensures reset { self.new ≡ reset self.old }
        ensures fewer { left_to_ask self.new ≤ left_to_ask self.old }
        ensures within { wanted self.old.phase ≡ WantsReset → self.new.resets ≤ self.old.limits.attempts }
    {
        if !self.reset_due {
            return;
        }
        self.reset_due = false;
        self.resets += 1;
        self.reading = begin(self.alloc, &self.limits);
    }

    /// Takes what the requested transaction brought: the current read goes on, or the next one begins, or there is
    /// an outcome. Where no transaction is requested, nothing changes.
    ///
    /// After `NoAnswer` or `Busy` a bus reset is requested while attempts are left, and what was read counts no more: it is
    /// dropped with the reset. This is the only call that allocates: if an allocation fails, the outcome is `Memory`. What
    /// was read is judged first: where it is `Malformed`, that is the outcome.
    ///
    /// ```rust
    /// host.take(Answer::Ack);
    /// ```
    #[inline(always)]
    pub fn take(&mut self, answer: Answer<'_>)
        ensures taken { Takes self.old (reply_of answer.entry) self.new }
        ensures fewer { (sent : Sent) → wanted self.old.phase ≡ WantsSent sent → left_to_ask self.new < left_to_ask self.old }
    {
        if self.reset_due || self.reading.due.is_end() {
            return;
        }
        known_answer(answer);
        match self.reading.take_answer(answer) {
            Some(ending) => {
                self.reading
                    .go_on(self.alloc, &self.limits, &self.terms, ending);
                self.reset_due = may_try_again(&self.reading, self.resets, &self.limits);
            }
            None => {}
        }
    }

    /// How often the bus was reset: the attempts so far, at most the limit.
    ///
    /// ```rust
    /// assert_eq!(rt; host.attempts(), 1);
    /// ```
    pub fn attempts(&self) -> u8
        ensures { result ≡ self.now.resets }
    {
        self.resets
    }

    /// The current step, if there is one.
    ///
    /// ```rust
    /// assert_eq!(rt; host.step(), Some(Step::First));
    /// ```
    pub fn step(&self) -> Option<Step>
        ensures { result ≡ step_in self.now.phase }
    {
        if self.reading.due.is_end() || self.reset_due {
            return None;
        }
        Some(self.reading.due.step(&self.reading.draft))
    }

    /// The current transfer, if there is one: a copy, which no further answer changes.
    ///
    /// ```rust
    /// if let Some(transfer) = host.transfer() {
    ///     println!(rt; "{} of {} bytes", transfer.kept(), transfer.request().length)?;
    /// }
    /// ```
    pub fn transfer(&self) -> Option<Transfer>
        ensures { result ≡ transfer_in self.now.phase }
    {
        if self.reading.due.is_end() || self.reset_due {
            return None;
        }
        Some(self.reading.transfer)
    }

    /// The troubles that were passed over in this attempt, in order: of strings that the device refused or that were none,
    /// where they may be missing. In what is reported stand-ins are in their place. A bus reset empties the list.
    ///
    /// ```rust
    /// for trouble in host.forgiven() {
    ///     println!(rt; "{trouble}")?;
    /// }
    /// ```
    pub fn forgiven(&self) -> &[Trouble]
        ensures { result.now ≡ self.now.forgiven }
    {
        self.reading.forgiven.as_slice()
    }

    /// The outcome, once there is one: the file that was read, or the trouble with its step and its reason. Then nothing
    /// more is asked for.
    ///
    /// ```rust
    /// if let Some(Ok(file)) = host.outcome() {
    ///     println!(rt; "{} configurations", file.sets.len())?;
    /// }
    /// ```
    pub fn outcome(&self) -> Option<Result<&DescriptorFile, Trouble>>
        ensures outcome { lent_outcome result ≡ outcome_of self.now.phase }
        ensures ended { IsSome result → wanted self.now.phase ≡ WantsNothing }
    {
        if self.reset_due {
            return None;
        }
        match self.reading.due {
            Due::Reported => Some(Ok(&self.reading.draft.file)),
            Due::Stopped { trouble } => Some(Err(trouble)),
            _ => None,
        }
    }

    /// The outcome, as [`Host::outcome`] has it, with the file handed over.
    ///
    /// ```rust
    /// match host.into_outcome() {
    ///     Some(Ok(file)) => use_file(file),
    ///     Some(Err(trouble)) => println!(rt; "{}", trouble.step)?,
    ///     None => println!(rt; "not ended")?,
    /// }
    /// ```
    #[tactic(auto, using(crate::proofs::StandLemmas::outcome_there))]
    pub fn into_outcome(self) -> Option<Result<DescriptorFile, Trouble>>
        ensures { result ≡ outcome_of self.phase }
    {
        let Host {
            alloc: _,
            limits: _,
            terms: _,
            resets: _,
            reset_due,
            reading,
        } = self;
        let CurrentRead {
            due,
            transfer: _,
            draft,
            held: _,
            forgiven: _,
        } = reading;
        let Draft {
            file,
            strings: _,
            named: _,
        } = draft;
        if reset_due {
            return None;
        }
        match due {
            Due::Reported => Some(Ok(file)),
            Due::Stopped { trouble } => Some(Err(trouble)),
            _ => None,
        }
    }
}

/// Whether the bus is to blame for the end of a read, and attempts are left.
#[inline(always)]
fn may_try_again(reading: &CurrentRead, resets: u8, limits: &Limits) -> bool
    ensures { result ≡ (is_bus_trouble (place_in reading.now) && nat_lt resets limits.now.attempts) }
{
    reading.due.is_bus_trouble() && resets < limits.attempts()
}

/// For the proof of a caller: the data of an answer are bytes.
#[inline(always)]
fn known_answer(answer: Answer<'_>)
    ensures { BringsBytes (reply_of answer.entry) }
{
    if let Answer::Data(_, bytes) = answer {
        known_bytes(bytes);
    }
}
