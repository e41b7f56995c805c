//! What devices said of themselves, and what their next answers show.
ghost use Rattle.std.specs.Prelude.{◌≡◌, ◌≤◌, ◌+◌, ◌∷◌, [], List, IfOk, OnErr, OnOk, filter, find, vec_capacity, vec_len};
ghost use Rattle.std.specs.List.{list_any, range_with_len};
ghost use Rattle.std.specs.Option.{option_copied};
ghost use Rattle.usb_capture.specs.declared.control_transfer.ControlTransfer.{ControlTransfer};
ghost use Rattle.usb_capture.specs.Conversations.{Knows, adds, held_after, held_of, holds_in, is_of, said_now, state_of, still_held, without};
ghost use Rattle.usb_capture.specs.Findings.{asked_of, beside, is_counted, is_named, is_named_string, is_required, names, refuses_unsaid};
ghost use Rattle.usb_capture.specs.TransferFindings.{all_findings, findings};

use crate::answer::{
    differ, gives, has_more_than_asked, has_other_length, has_other_type, refuses_descriptor,
    refuses_status,
};
use crate::asked::Asked;
use crate::change::may_change;
use crate::compared::{asks_for_status, changes_feature, is_of_setting};
use crate::configured::{reads_configuration, refuses_address};
use crate::control_transfer::ControlTransfer;
use crate::finding::Finding;
use crate::known_states::KnownStates;
use crate::named_strings::{device_names, has_language, names, names_any};
use crate::said::Said;
use std::alloc::{AllocError, Global};
use usb_device::State;
use usb_fields::{Sequence, after, byte_at};

/// wValue for the device descriptor (USB 2.0, 9.4.3 and table 9-5).
pub(crate) const DEVICE: u16 = 0x0100;

/// wValue for configuration 0.
pub(crate) const CONFIGURATION: u16 = 0x0200;

/// wValue for the language list.
pub(crate) const LANGUAGES: u16 = 0x0300;

/// wValue for the qualifier.
pub(crate) const QUALIFIER: u16 = 0x0600;

/// wValue for configuration 0 at the other speed.
pub(crate) const OTHER_SPEED: u16 = 0x0700;

/// Takes the control transfers of a recording, in order, and finds in each what USB 2.0 forbids.
///
/// It holds what each device said of its descriptors (USB 2.0, 9.6) since it may have been reset, the state to which its transfers led
/// it (9.1.1), and nothing else.
///
/// ```rust
/// let mut conversations = Conversations::new(alloc);
/// for finding in &conversations.take(&transfer)? {
///     println!(rt; "{} ({})", finding.message(), finding.section())?;
/// }
/// ```
#[derive(Debug, Drop)]
pub struct Conversations {
    alloc: Global,
    held: Vec<Said>,
    states: KnownStates,
}

impl Conversations {
    /// One that has taken no transfer.
    pub fn new(alloc: Global) -> Conversations
        ensures { Knows [] result }
    {
        Conversations {
            alloc,
            held: Vec::new(alloc),
            states: KnownStates::new(alloc),
        }
    }

    /// Takes a transfer, and gives what is found in it, in the order of [`Finding::ALL`].
    ///
    /// # Errors
    ///
    /// Out of memory.
    pub fn take(&mut self, transfer: &ControlTransfer) -> Result<Vec<Finding>, AllocError>
        ensures ok { IfOk result (λ found. (earlier : List ControlTransfer) → Knows earlier self.old
            → (found.items ≡ findings earlier transfer.now) × Knows (transfer.now ∷ earlier) self.new) }
    {
        let found = self.findings(transfer)?;
        let next = self.next_state(transfer);
        // One transfer adds a state or bytes of a descriptor, so at most one of these can fail.
        self.states.change(transfer, next)?;
        self.take_answer(transfer)?;
        Ok(found)
    }

    /// What the device of this address said of a descriptor since it may have been reset: its first bytes, or none.
    pub fn said(&self, asked: Asked) -> &[u8]
        ensures { result.now ≡ held_of self.now.held.items asked }
    {
        match self.find(asked) {
            Some(one) => one.bytes.as_slice(),
            None => &[],
        }
    }

    /// The state of the device that has this descriptor.
    pub(crate) fn state(&self, asked: Asked) -> Option<&State>
        ensures { option_copied result ≡ state_of self.now.states.held.items asked }
    {
        self.states.get(asked)
    }

    /// What is held of a descriptor.
    fn find(&self, asked: Asked) -> Option<&Said>
        ensures { option_copied result ≡ find (is_of asked) self.now.held.items }
    {
        self.held.iter().find(|one| one.asked.is_same(asked))
    }

    /// What is found in a transfer.
    fn findings(&self, transfer: &ControlTransfer) -> Result<Vec<Finding>, AllocError>
        ensures { IfOk result (λ found. found.items ≡ filter (λ finding. holds_in finding (held_of self.now.held.items) (state_of self.now.states.held.items (asked_of transfer.now)) transfer.now) all_findings) }
    {
        Finding::ALL
            .iter()
            .copied()
            .filter(|finding| self.holds(*finding, transfer))
            .collect(self.alloc)
    }

    /// Whether a finding holds of a transfer.
    fn holds(&self, finding: Finding, transfer: &ControlTransfer) -> bool
        ensures { result ≡ holds_in finding (held_of self.now.held.items) (state_of self.now.states.held.items (asked_of transfer.now)) transfer.now }
    {
        let asked = Asked::of(transfer);
        match finding {
            Finding::MoreThanAsked => has_more_than_asked(transfer),
            Finding::OtherType => has_other_type(transfer),
            Finding::OtherLength => has_other_length(transfer),
            Finding::OtherBytes => {
                gives(transfer) && differ(transfer.data.as_slice(), self.said(asked))
            }
            Finding::RefusesGiven => refuses_descriptor(transfer) && !self.said(asked).is_empty(),
            Finding::RefusesRequired => self.refuses_unsaid(transfer) && is_required(asked),
            Finding::RefusesCounted => self.refuses_unsaid(transfer) && self.is_counted(asked),
            Finding::RefusesNamed => self.refuses_unsaid(transfer) && self.is_named_string(asked),
            Finding::RefusesStatus => refuses_status(transfer),
            Finding::RefusesAddress => refuses_address(transfer),
            Finding::RefusesConfiguration => self.refuses_configuration(transfer),
            Finding::TakesConfiguration => self.takes_configuration(transfer),
            Finding::OtherConfiguration => self.has_other_configuration(transfer),
            Finding::GivesUncounted => gives(transfer) && self.is_uncounted(asked),
            Finding::OtherValue => {
                reads_configuration(&transfer.setup)
                    && !self.has_other_configuration(transfer)
                    && self.answers_otherwise(transfer)
            }
            Finding::OtherStatus => {
                asks_for_status(&transfer.setup)
                    && !refuses_status(transfer)
                    && self.answers_otherwise(transfer)
            }
            Finding::OtherFeature => {
                changes_feature(&transfer.setup) && self.answers_otherwise(transfer)
            }
            Finding::OtherSetting => {
                is_of_setting(&transfer.setup) && self.answers_otherwise(transfer)
            }
        }
    }

    /// Whether a descriptor is refused of which the device said nothing before.
    fn refuses_unsaid(&self, transfer: &ControlTransfer) -> bool
        ensures { result ≡ refuses_unsaid (held_of self.now.held.items) transfer.now }
    {
        refuses_descriptor(transfer) && self.said(Asked::of(transfer)).is_empty()
    }

    /// Whether bNumConfigurations counts this configuration.
    fn is_counted(&self, asked: Asked) -> bool
        ensures { result ≡ is_counted (held_of self.now.held.items) asked }
    {
        let kind = asked.value / 256;
        let number = asked.value % 256;
        let device = self.said(asked.beside(DEVICE));
        let qualifier = self.said(asked.beside(QUALIFIER));
        asked.index == 0
            && ((kind == 2 && number > 0 && number < u16::from(byte_at(device, 17)))
                || (kind == 7 && number < u16::from(byte_at(qualifier, 8))))
    }

    /// Whether a descriptor names this string, or any where it is the language list.
    #[tactic(auto, unfolding(crate::specs::Findings::is_named_string))]
    fn is_named_string(&self, asked: Asked) -> bool
        ensures { result ≡ is_named_string (held_of self.now.held.items) asked }
    {
        if asked.value == LANGUAGES {
            return asked.index == 0 && names_any(self.said(asked.beside(DEVICE)));
        }
        asked.value / 256 == 3
            && has_language(asked.index, self.said(asked.beside(LANGUAGES)))
            && self.is_named(asked, asked.value % 256)
    }

    /// Whether the device's descriptor or one of its configurations names a string.
    fn is_named(&self, asked: Asked, index: u16) -> bool
        ensures { result ≡ is_named (held_of self.now.held.items) asked index }
    {
        let device = self.said(asked.beside(DEVICE));
        device_names(index, device) || self.is_named_in(asked, index, byte_at(device, 17))
    }

    /// Whether one of this many configurations names a string.
    fn is_named_in(&self, asked: Asked, index: u16, count: u8) -> bool
        ensures { result ≡ list_any (λ i. names index (held_of self.now.held.items (beside asked (512 + i)))) (range_with_len 0 count) }
    {
        (0..count).any(|i| names(index, self.said(asked.beside(CONFIGURATION + u16::from(i)))))
    }

    /// Holds what a transfer says, and no longer what may have changed by it.
    fn take_answer(&mut self, transfer: &ControlTransfer) -> Result<(), AllocError>
        ensures held { OnOk result (self.new.held.items ≡ held_after transfer.now self.old.held.items) }
        ensures states { OnOk result (self.new.states ≡ self.old.states) }
        ensures err { OnErr result (self.new.held.items ≡ self.old.held.items) }
    {
        if !adds(transfer) {
            self.forget_changed(transfer);
            return Ok(());
        }
        let said = self.said_now(transfer)?;
        self.held.reserve(1)?;
        self.forget_changed(transfer);
        self.forget(said.asked);
        self.held.push_reserved(said);
        Ok(())
    }

    /// What is said of a descriptor with a transfer that gives bytes of it.
    fn said_now(&self, transfer: &ControlTransfer) -> Result<Said, AllocError>
        ensures { IfOk result (λ said. said ≡ said_now transfer.now self.now.held.items) }
    {
        let asked = Asked::of(transfer);
        let mut bytes = Vec::from_slice(self.alloc, transfer.data.as_slice())?;
        bytes.extend_from_slice(after(self.said(asked), transfer.data.len()))?;
        Ok(Said {
            asked,
            bytes: Sequence::from_vec(bytes),
        })
    }

    /// Forgets what may have changed by a transfer.
    fn forget_changed(&mut self, transfer: &ControlTransfer)
        ensures held { self.new.held.items ≡ still_held transfer.now self.old.held.items }
        ensures bound { vec_len self.new.held ≤ vec_len self.old.held }
        ensures capacity { vec_capacity self.new.held ≡ vec_capacity self.old.held }
        ensures states { self.new.states ≡ self.old.states }
    {
        self.held.retain(|one| !may_change(transfer, one.asked));
    }

    /// Forgets a descriptor.
    fn forget(&mut self, asked: Asked)
        ensures held { self.new.held.items ≡ without asked self.old.held.items }
        ensures bound { vec_len self.new.held ≤ vec_len self.old.held }
        ensures capacity { vec_capacity self.new.held ≡ vec_capacity self.old.held }
        ensures states { self.new.states ≡ self.old.states }
    {
        self.held.retain(|one| !one.asked.is_same(asked));
    }
}

/// Whether a transfer says what isn't changed by it.
fn adds(transfer: &ControlTransfer) -> bool
    ensures { result ≡ adds transfer.now }
{
    gives(transfer) && !may_change(transfer, Asked::of(transfer))
}

/// Whether all devices have this descriptor (USB 2.0, 9.4.3).
fn is_required(asked: Asked) -> bool
    ensures { result ≡ is_required asked }
{
    (asked.value == DEVICE || asked.value == CONFIGURATION) && asked.index == 0
}
