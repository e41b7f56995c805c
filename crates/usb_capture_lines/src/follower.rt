//! What is known of the frames of a recording so far.
ghost use Rattle.std.specs.Prelude.{◌≡◌, ◌++◌, ◌∷◌, [], List, Some, IfOk, OnOk, length};
ghost use Rattle.std.specs.Option.{option_to_list};
ghost use Rattle.usb_capture.specs.declared.control_transfer.ControlTransfer.{ControlTransfer};
ghost use Rattle.usb_capture.specs.declared.frame.Frame.{Frame};
ghost use Rattle.usb_capture.specs.Conversations.{Knows};
ghost use Rattle.usb_capture.specs.DeviceReadings.{HasCurrent};
ghost use Rattle.usb_capture.specs.TransferFindings.{findings};
ghost use Rattle.usb_capture_lines.specs.Following.{Follows, FollowsOn, Shows, found_in};
ghost use Rattle.usb_capture_lines.specs.Observations.{Observed};
ghost use Rattle.usb_capture_lines.specs.Recordings.{address_of, met, met_in};

use crate::completed::Completed;
use crate::observer::Observer;
use crate::seen_device::{SeenDevice, meet, meet_all};
use crate::selection::DeviceAddress;
use crate::shown::Shown;
use crate::tally::one_more;
use std::alloc::{AllocError, Global};
use usb_capture::{ControlTransfer, Conversations, DeviceReadings, Finding, Frame};
use usb_fields::Sequence;

/// Takes the frames of a recording one by one, in order, and gives what each shows. It keeps what a [`crate::Teller`] keeps, and
/// writes nothing.
#[derive(Debug, Drop)]
pub(crate) struct Follower {
    alloc: Global,
    pub(crate) observer: Observer,
    conversations: Conversations,
    pub(crate) readings: DeviceReadings,
    pub(crate) devices: Vec<SeenDevice>,
    frames: u64,
}

impl Follower {
    /// One that has taken no frame.
    pub(crate) fn new(alloc: Global) -> Follower
        ensures { Follows [] [] result }
    {
        Follower {
            alloc,
            observer: Observer::new(alloc),
            conversations: Conversations::new(alloc),
            readings: DeviceReadings::new(alloc),
            devices: Vec::new(alloc),
            frames: 0,
        }
    }

    /// Takes a frame, if there is one, and gives what it shows.
    ///
    /// # Errors
    ///
    /// Out of memory; what is known isn't said then.
    pub(crate) fn follow(&mut self, frame: Option<Frame>) -> Result<Shown, AllocError>
        ensures { IfOk result (λ shown. (frames : List Frame) (observed : List Observed) → Follows frames observed self.old → FollowsOn frames observed frame self.new shown) }
    {
        match frame {
            Some(frame) => self.take(&frame),
            None => Ok(Shown::nothing(self.alloc)),
        }
    }

    fn take(&mut self, frame: &Frame) -> Result<Shown, AllocError>
        ensures { IfOk result (λ shown. (frames : List Frame) (observed : List Observed) → Follows frames observed self.old
            → (x : Observed) × Follows (frame.now ∷ frames) (x ∷ observed) self.new × Shows observed x shown) }
    {
        self.frames = one_more(self.frames);
        let completed = self.observer.take(self.frames, frame)?;
        let Completed {
            transfer,
            found: in_packets,
        } = completed;
        let found = self.take_transfer(&transfer)?;
        meet_all(&mut self.devices, &in_packets)?;
        Ok(Shown {
            transfer,
            found,
            in_packets,
        })
    }

    /// Takes a transfer that is over, if one is, and gives what is found in it.
    fn take_transfer(&mut self, over: &Option<ControlTransfer>) -> Result<Vec<Finding>, AllocError>
        ensures found { IfOk result (λ found. (earlier : List ControlTransfer) → Knows earlier self.old.conversations → Knows (option_to_list over.now ++ earlier) self.new.conversations
            × (self.new.devices.items ≡ met_in earlier over.now self.old.devices.items) × (found.items ≡ found_in earlier over.now)) }
        ensures read { OnOk result ((transfers : List ControlTransfer) → HasCurrent transfers self.old.readings → HasCurrent (transfers ++ option_to_list over.now) self.new.readings) }
        ensures observer { self.new.observer ≡ self.old.observer }
        ensures frames { self.new.frames ≡ self.old.frames }
    {
        match over {
            Some(transfer) => self.take_over(transfer),
            None => Ok(Vec::new(self.alloc)),
        }
    }

    /// Takes a transfer that is over, and gives what is found in it.
    fn take_over(&mut self, transfer: &ControlTransfer) -> Result<Vec<Finding>, AllocError>
        ensures found { IfOk result (λ found. (earlier : List ControlTransfer) → Knows earlier self.old.conversations → Knows (transfer.now ∷ earlier) self.new.conversations
            × (self.new.devices.items ≡ met (Some (address_of transfer.now)) (length (findings earlier transfer.now)) self.old.devices.items)
            × (found.items ≡ findings earlier transfer.now)) }
        ensures read { OnOk result ((transfers : List ControlTransfer) → HasCurrent transfers self.old.readings → HasCurrent (transfers ++ transfer.now ∷ []) self.new.readings) }
        ensures observer { self.new.observer ≡ self.old.observer }
        ensures frames { self.new.frames ≡ self.old.frames }
    {
        let copy = copy_of(self.alloc, transfer)?;
        let found = self.conversations.take(transfer)?;
        let device = Some(DeviceAddress::of(transfer));
        meet(&mut self.devices, device, found.len())?;
        self.readings.take(copy)?;
        Ok(found)
    }
}

/// The same transfer once more.
fn copy_of(alloc: Global, transfer: &ControlTransfer) -> Result<ControlTransfer, AllocError>
    ensures { IfOk result (λ copy. copy ≡ transfer.now) }
{
    Ok(ControlTransfer {
        bus: transfer.bus,
        device: transfer.device,
        begun: transfer.begun,
        setup: transfer.setup,
        data: Sequence::from_vec(Vec::from_slice(alloc, transfer.data.as_slice())?),
        length: transfer.length,
        is_cut: transfer.is_cut,
        ended: transfer.ended,
        ending: transfer.ending,
    })
}
