//! What a walk over an input finds.
ghost use Rattle.std.specs.Prelude.{◌≡◌, ◌<◌, ◌++◌, ◌∷◌, [], OnOk, vec_capacity, vec_len};

use crate::cause::{Cause, Found};
use crate::finding::Finding;
use crate::place::Place;
use std::alloc::{AllocError, Global};
use std::marker::Model;

/// For how many findings room is made at once: seldom are there more.
const ROOM: usize = 16;

/// What is found, in the order of the walk: with the causes, where they are asked for, and else without.
#[derive(Drop)]
pub(crate) struct Report {
    has_causes: bool,
    /// Empty where no causes are asked for.
    found: Vec<Found>,
    /// Empty where they are.
    findings: Vec<Finding>,
    /// The number of the descriptor that the walk is at, where causes are asked for, and else 0.
    descriptor: usize,
}

impl Model for Report {
    ghost use Rattle.usb_file_data.specs.inside.Reports.{Reported};

    ghost Value = { Reported };

    ghost view = { λ r. record { has_causes = r.has_causes; found = r.found.items; findings = r.findings.items; descriptor = r.descriptor } };
}

impl Report {
    ghost use Rattle.usb_file_data.specs.Places.{when};
    ghost use Rattle.usb_file_data.specs.inside.Reports.{none_reported, passed, reported};
    ghost use Rattle.usb_file_data.specs.inside.Walk.{broken};

    /// Nothing yet.
    pub(crate) fn new(alloc: Global, has_causes: bool) -> Report
        ensures { result ≡ none_reported has_causes }
    {
        Report {
            has_causes,
            found: Vec::new(alloc),
            findings: Vec::new(alloc),
            descriptor: 0,
        }
    }

    /// Goes on to the descriptor that comes this many later. Only what is found with its cause needs the number.
    #[inline(always)]
    #[tactic(auto, using(crate::proofs::Reporting::passed_with, crate::proofs::Reporting::passed_without))]
    pub(crate) fn pass(&mut self, count: usize) -> Result<(), AllocError>
        ensures { OnOk result (self.new ≡ passed count self.old) }
    {
        if self.has_causes {
            // No memory holds so many descriptors that this is refused.
            self.descriptor = self.descriptor.checked_add(count).ok_or(AllocError)?;
        }
        Ok(())
    }

    /// Reports that the descriptor breaks a rule at the place by the cause, where the test holds.
    #[inline(always)]
    #[tactic(auto, using(crate::proofs::Reporting::reported_none))]
    pub(crate) fn report(
        &mut self,
        cause: Cause,
        holds: bool,
        place: Place,
    ) -> Result<(), AllocError>
        ensures { OnOk result (self.new ≡ reported self.old (when holds (broken cause place))) }
    {
        if holds {
            self.tell(cause, place)?;
        }
        Ok(())
    }

    /// Reports that a rule is broken.
    #[inline(always)]
    #[tactic(auto, using(crate::proofs::Reporting::reported_with, crate::proofs::Reporting::reported_without))]
    fn tell(&mut self, cause: Cause, place: Place) -> Result<(), AllocError>
        ensures { OnOk result (self.new ≡ reported self.old (broken cause place ∷ [])) }
    {
        if self.has_causes {
            return self.keep(place.found(cause, self.descriptor));
        }
        make_room(&mut self.findings)?;
        self.findings.push_reserved(place.finding(cause.rule()));
        Ok(())
    }

    /// Keeps what is found with its cause.
    #[cold]
    #[inline(never)]
    fn keep(&mut self, found: Found) -> Result<(), AllocError>
        ensures { OnOk result (self.new ≡ record self.old { found = self.old.found ++ found ∷ [] }) }
    {
        self.found.push(found)?;
        Ok(())
    }

    /// What was found with causes, in the order of the walk.
    pub(crate) fn into_found(self) -> Vec<Found>
        ensures { result.items ≡ self.found }
    {
        self.found
    }

    /// What was found without causes, in the order of the walk.
    pub(crate) fn into_findings(self) -> Vec<Finding>
        ensures { result.items ≡ self.findings }
    {
        self.findings
    }
}

/// Makes room for a finding more, where there is none.
#[inline(always)]
fn make_room(findings: &mut Vec<Finding>) -> Result<(), AllocError>
    ensures items { findings.new.items ≡ findings.old.items }
    ensures room { OnOk result (vec_len findings.new < vec_capacity findings.new) }
{
    if findings.len() < findings.capacity() {
        return Ok(());
    }
    grow(findings)
}

/// The same, apart from what is inlined.
#[cold]
#[inline(never)]
fn grow(findings: &mut Vec<Finding>) -> Result<(), AllocError>
    ensures items { findings.new.items ≡ findings.old.items }
    ensures room { OnOk result (vec_len findings.new < vec_capacity findings.new) }
{
    findings.reserve(ROOM)
}
