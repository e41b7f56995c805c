//! The stage of a device in a transfer, and what a request or a transaction is answered by.
ghost use Rattle.std.specs.Prelude.{◌≡◌};
ghost use Rattle.usb_device.specs.Stages.{toggle_at, toggle_number};

use usb_fields::{Answer, Toggle};

/// What a device answers to a transaction, with the bytes left out.
#[derive(Clone, Copy, Debug, PartialEq, Eq, Hash)]
pub enum Reaction {
    /// ACK: the data was taken.
    Ack,
    /// NAK: not now.
    Nak,
    /// STALL: the request is rejected.
    Stall,
    /// The next packet, [`EndpointZero::packet`](crate::EndpointZero::packet), with this toggle.
    Packet(Toggle),
    /// The empty packet of the status stage.
    Empty,
    /// Nothing: the device has another address.
    Silence,
}

impl Reaction {
    ghost use Rattle.usb_fields.specs.Packets.{reply_of};
    ghost use Rattle.usb_device.specs.View.{reply_with};

    /// The answer, where these are the bytes of the next packet.
    #[inline(always)]
    pub fn answer(self, packet: &[u8]) -> Answer<'_>
        ensures { reply_of result ≡ reply_with packet.entry.now self }
    {
        match self {
            Reaction::Ack => Answer::Ack,
            Reaction::Nak => Answer::Nak,
            Reaction::Stall => Answer::Stall,
            Reaction::Packet(toggle) => Answer::Data(toggle, packet),
            Reaction::Empty => Answer::Data(Toggle::Data1, &[]),
            Reaction::Silence => Answer::Silence,
        }
    }
}

/// What a request changes in the state.
#[derive(Clone, Copy)]
pub(crate) enum Change {
    Address(u8),
    /// Selects a configuration, or none.
    Configuration(u8),
    /// Enables or disables remote wakeup.
    Wakeup(bool),
    /// Halts the endpoint with this address, or ends its halt.
    Halt(u8, bool),
    /// Chooses an interface's alternate setting. None of its endpoints is halted from then on.
    Alternate(u8, u8),
}

/// What the device does about a request.
// A few bytes, which are cheap to hand on: a descriptor is looked for where it is sent.
#[derive(Clone, Copy)]
pub(crate) enum Decision {
    /// What the image has for GET_DESCRIPTOR, cut to wLength.
    Descriptor,
    /// One byte.
    Byte(u8),
    /// The two bytes of a status, of which the second is 0.
    Status(u8),
    /// No data stage: the status stage follows, and this is done.
    Done(Change),
    /// STALL.
    Refused,
}

/// The stage of a device in a transfer.
// Those of a read stand side by side, so that an OUT there is found by one comparison.
#[derive(Clone, Copy, Debug, PartialEq, Eq, Hash)]
pub enum Stage {
    /// In no transfer.
    Idle,
    /// In a data stage.
    Sending,
    /// In the status stage after a data stage.
    StatusOut,
    /// Past that status stage.
    Over,
    /// In one that it rejects.
    Halted,
    /// In the status stage of a request without a data stage, or of a write.
    StatusIn,
    /// In the data stage of a write.
    Receiving,
    /// Past that data stage: the owner is to say whether the data are good.
    Written,
}

impl Stage {
    ghost use Rattle.usb_device.specs.Stages.{stage_at};

    /// The stage of this number, in the order above from 0 on, and `Idle` of a number that no stage has.
    #[tactic(auto, unfolding(crate::specs::Stages::stage_at))]
    #[inline(always)]
    pub fn of(number: u8) -> Stage
        ensures { result ≡ stage_at number }
    {
        match number {
            1 => Stage::Sending,
            2 => Stage::StatusOut,
            3 => Stage::Over,
            4 => Stage::Halted,
            5 => Stage::StatusIn,
            6 => Stage::Receiving,
            7 => Stage::Written,
            _ => Stage::Idle,
        }
    }

    /// Its number.
    #[tactic(auto, unfolding(crate::specs::Stages::stage_at))]
    #[inline(always)]
    pub fn number(self) -> u8
        ensures { stage_at result ≡ self }
    {
        self as u8
    }
}

/// Where the bytes of a data stage are.
#[derive(Clone, Copy)]
pub(crate) enum Source {
    /// In the device itself.
    Own,
    /// In the room.
    Room,
    /// In the image.
    Image,
}

impl Source {
    ghost use Rattle.usb_device.specs.Stages.{source_at};

    /// The source of this number, in the order above from 0 on, and `Own` of a number that no source has.
    #[tactic(auto, unfolding(crate::specs::Stages::source_at))]
    #[inline(always)]
    pub(crate) fn of(number: u8) -> Source
        ensures { result ≡ source_at number }
    {
        match number {
            1 => Source::Room,
            2 => Source::Image,
            _ => Source::Own,
        }
    }

    /// Its number.
    #[tactic(auto, unfolding(crate::specs::Stages::source_at))]
    #[inline(always)]
    pub(crate) fn number(self) -> u8
        ensures { source_at result ≡ self }
    {
        self as u8
    }
}

/// The toggle of this number: DATA0 of 0, and DATA1 of any other.
#[tactic(auto, unfolding(crate::specs::Stages::toggle_at))]
#[inline(always)]
pub(crate) fn toggle_at(number: u8) -> Toggle
    ensures { result ≡ toggle_at number }
{
    if number == 0 {
        Toggle::Data0
    } else {
        Toggle::Data1
    }
}

#[tactic(auto, unfolding(crate::specs::Stages::toggle_at))]
#[inline(always)]
pub(crate) fn toggle_number(toggle: Toggle) -> u8
    ensures number { result ≡ toggle_number toggle }
    ensures back { toggle_at result ≡ toggle }
{
    match toggle {
        Toggle::Data0 => 0,
        Toggle::Data1 => 1,
    }
}
