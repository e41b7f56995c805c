//! A current read.
ghost use Rattle.std.specs.Prelude.{◌≡◌, ◌<◌, true, [], Err};
ghost use Rattle.usb_fields.specs.Packets.{reply_of};
ghost use Rattle.usb_host.specs.Transfer.{left, taken};
ghost use Rattle.usb_host.specs.Keeping.{nothing_kept, Kept};
ghost use Rattle.usb_host.specs.Place.{First, Stopped};
ghost use Rattle.usb_host.specs.declared.why.Why.TheVariants.{Memory};
ghost use Rattle.usb_host.specs.Cost.{BringsBytes};
ghost use Rattle.usb_host.specs.inside.Sound.{FitsPlace, IsGood, KeepsBytes};
ghost use Rattle.usb_host.specs.Steps.{enter};
ghost use Rattle.usb_host.specs.Order.{forgives as forgives_at};
ghost use Rattle.usb_host.specs.declared.draft.Draft.{Draft as DraftView};
ghost use Rattle.usb_host.specs.inside.Places.{PassesOver, Settles, place_of};
ghost use Rattle.usb_host.specs.inside.Reads.{GoesOn, TakesProgress, IsReading, LeadsOn, kept_in, place_in, standing, stands};

use crate::choice::{NamedStrings, Terms};
use crate::draft::Draft;
use crate::due::Due;
use crate::held::Held;
use crate::limits::Limits;
use crate::next_place::{lead_completed, lead_refused, stand_in};
use crate::request::getting;
use crate::step::{Step, Trouble};
use crate::transfer::{Heard, Transfer};
use crate::why::Why;
use std::alloc::Global;
use usb_fields::{Answer, Sequence};

/// How a read ended.
#[derive(Clone, Copy, Debug)]
pub enum Ending {
    /// Its transfer has completed.
    Completed,
    /// It failed, or memory was wanting.
    Failed(Why),
}

/// The current read: what comes next, what was read so far, the transfer, and what is held of its bytes. All of it stays
/// where it is, and is changed there.
#[derive(Debug, Drop)]
pub struct CurrentRead {
    pub due: Due,
    pub transfer: Transfer,
    pub draft: Draft,
    pub held: Held,
    /// The troubles that were passed over in this attempt.
    pub forgiven: Sequence<Trouble>,
}

impl CurrentRead {
    /// Takes an answer into the transfer, and keeps what is new. How the read ended, if it did.
    #[inline(always)]
    #[tactic(auto, using(crate::proofs::TakeLemmas::room, crate::proofs::TakeLemmas::receives_steady, crate::proofs::StandLemmas::going_due))]
    pub(crate) fn take_answer(&mut self, answer: Answer<'_>) -> Option<Ending>
        requires reading { IsReading (place_in self.old) self.old.transfer (kept_in self.old) }
        requires bytes { BringsBytes (reply_of answer) }
        ensures place { place_in self.new ≡ place_in self.old }
        ensures fits { FitsPlace (place_in self.new) (kept_in self.new) }
        ensures bytes { KeepsBytes (kept_in self.new) }
        ensures forgiven { self.new.forgiven ≡ self.old.forgiven }
        ensures fewer { left (taken self.old.transfer (reply_of answer.entry)).transfer < left self.old.transfer }
        ensures received { TakesProgress (kept_in self.old) (taken self.old.transfer (reply_of answer.entry)) self.new.transfer (kept_in self.new) result }
    {
        match self.transfer.take(answer) {
            Heard::Again => None,
            Heard::Bytes(bytes) => {
                if self.held.add(&self.due, bytes) {
                    Some(Ending::Failed(Why::Memory))
                } else {
                    None
                }
            }
            Heard::Complete => Some(Ending::Completed),
            Heard::Failed(why) => Some(Ending::Failed(why)),
        }
    }

    /// Begins the read that follows one that has ended.
    #[inline(never)]
    pub(crate) fn go_on(&mut self, alloc: Global, limits: &Limits, terms: &Terms, ending: Ending)
        requires good { IsGood (place_in self.old) }
        requires fits { FitsPlace (place_in self.old) (kept_in self.old) }
        requires bytes { KeepsBytes (kept_in self.old) }
        ensures { GoesOn limits.now terms.now (place_in self.old) self.old.transfer (kept_in self.old) ending (place_in self.new) (stands self.new) self.old.forgiven self.new.forgiven }
    {
        let due = self.lead(alloc, *terms, ending);
        self.held.restart(alloc, due);
        self.transfer = transfer_at(limits, &due, &self.draft);
        self.due = due;
    }

    /// What comes next after a read that has ended, or the end when out of memory.
    fn lead(&mut self, alloc: Global, terms: Terms, ending: Ending) -> Due
        requires good { IsGood (place_in self.old) }
        ensures { LeadsOn terms (place_in self.old) self.old.transfer (kept_in self.old) ending (place_of result self.new.draft) self.old.forgiven self.new.forgiven }
    {
        match ending {
            Ending::Completed => {
                let step = self.due.step(&self.draft);
                let next = lead_completed(
                    alloc,
                    terms,
                    self.due,
                    &mut self.draft,
                    &self.transfer,
                    &mut self.held,
                );
                self.settle(alloc, terms.choice.strings, step, next)
            }
            Ending::Failed(Why::Stalled) => {
                let step = self.due.step(&self.draft);
                let next = lead_refused(alloc, terms, self.due, &mut self.draft);
                self.settle(alloc, terms.choice.strings, step, next)
            }
            Ending::Failed(why) => self.due.stop(&self.draft, why),
        }
    }

    /// What comes next after a read of this step. One that is refused ends the enumeration, or is passed over.
    #[inline(always)]
    fn settle(
        &mut self,
        alloc: Global,
        strings: NamedStrings,
        step: Step,
        next: Result<Due, Why>,
    ) -> Due
        requires { (why : Why) → next ≡ Err why → forgives_at strings (place_in self.old) why ≡ true → IsGood (place_in self.old) }
        ensures { Settles strings (place_in self.old) step next self.old.draft result self.new.draft self.old.forgiven self.new.forgiven }
    {
        match next {
            Ok(due) => due,
            Err(why) => {
                let trouble = Trouble { step, why };
                if forgives(strings, &self.due, why) {
                    self.pass_over(alloc, trouble)
                } else {
                    Due::Stopped { trouble }
                }
            }
        }
    }

    /// Lists the trouble of a read of strings, and goes on with a stand-in. Or the end when out of memory.
    #[inline(never)]
    fn pass_over(&mut self, alloc: Global, trouble: Trouble) -> Due
        requires { IsGood (place_in self.old) }
        ensures { PassesOver (place_in self.old) trouble (place_of result self.new.draft) self.old.forgiven self.new.forgiven }
    {
        match stand_in(alloc, self.due, &mut self.draft) {
            Ok(due) => match self.forgiven.push(trouble) {
                Ok(()) => due,
                Err(_) => out_of_memory(trouble.step),
            },
            Err(_) => out_of_memory(trouble.step),
        }
    }
}

/// Whether trouble at what comes next is passed over.
fn forgives(strings: NamedStrings, due: &Due, why: Why) -> bool
    ensures { (draft : DraftView) → result ≡ forgives_at strings (place_of due.now draft) why }
{
    strings.may_be_missing() && (due.is_of_strings() && why.lacks_string())
}

/// The end at a step when out of memory.
fn out_of_memory(step: Step) -> Due
    ensures { (draft : DraftView) → place_of result draft ≡ Stopped (record { step = step; why = Memory }) }
{
    Due::Stopped {
        trouble: Trouble {
            step,
            why: Why::Memory,
        },
    }
}

/// The transfer that begins with what comes next; at an end it is one that nobody asks for.
fn transfer_at(limits: &Limits, due: &Due, draft: &Draft) -> Transfer
    requires { IsGood (place_of due.now draft.now) }
    ensures { (k : Kept) → k ≡ nothing_kept (place_of due.now draft.now) → standing (place_of due.now draft.now) result k ≡ enter limits.now (place_of due.now draft.now) }
{
    let (address, packet, setup) = match due.request(draft, limits.address()) {
        Some(request) => (request.address, request.packet, request.setup),
        None => (0, 1, getting(0, 0, 0, 0)),
    };
    Transfer::new(address, packet, limits.naks(), setup)
}

/// The first read.
pub(crate) fn begin(alloc: Global, limits: &Limits) -> CurrentRead
    ensures stands { stands result ≡ enter limits.now First }
    ensures forgiven { result.forgiven ≡ [] }
{
    let draft = Draft::new(alloc);
    let transfer = transfer_at(limits, &Due::First, &draft);
    CurrentRead {
        due: Due::First,
        transfer,
        draft,
        held: Held::new(alloc),
        forgiven: Sequence::new(alloc),
    }
}
