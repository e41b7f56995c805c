//! What a device descriptor and a device qualifier say of the speed of their sets.
ghost use Rattle.std.specs.Prelude.{◌≡◌};
ghost use Rattle.usb_remarks.specs.DeviceFacts.{facts_of_device, facts_of_qualifier};

use crate::set_speed::{release_hint, speed_of_device, speed_of_hub};
use crate::speed::SetSpeed;
use usb_fields::{byte_at, word_at};

/// What of a device descriptor or a qualifier the speed of its sets depends on.
#[derive(Clone, Copy)]
pub(crate) struct DeviceFacts {
    /// The speed of its sets, where it leaves no choice.
    pub(crate) speed: Option<SetSpeed>,
    /// bMaxPacketSize0.
    pub(crate) packet: u8,
    /// Whether it is of a hub.
    pub(crate) is_hub: bool,
    /// The speed at which bcdUSB hints.
    pub(crate) hinted: Option<SetSpeed>,
}

impl DeviceFacts {
    /// Those of a device descriptor, with which the bytes begin (USB 2.0, 9.6.1).
    #[tactic(auto, unfolding(crate::specs::DeviceFacts::facts_of_device))]
    pub(crate) fn of_device(d: &[u8]) -> DeviceFacts
        ensures { result ≡ facts_of_device d.now }
    {
        let usb = word_at(d, 2);
        let packet = byte_at(d, 7);
        DeviceFacts {
            speed: speed_of_device(usb, byte_at(d, 4), byte_at(d, 6), packet),
            packet,
            is_hub: byte_at(d, 4) == 9,
            hinted: release_hint(usb),
        }
    }

    /// Those of a qualifier, with which the bytes begin: it is of full or high speed, whatever its bcdUSB is (USB 2.0, 9.6.2).
    #[tactic(auto, unfolding(crate::specs::DeviceFacts::facts_of_qualifier))]
    pub(crate) fn of_qualifier(d: &[u8]) -> DeviceFacts
        ensures { result ≡ facts_of_qualifier d.now }
    {
        DeviceFacts {
            speed: speed_of_hub(byte_at(d, 4), byte_at(d, 6)),
            packet: byte_at(d, 7),
            is_hub: byte_at(d, 4) == 9,
            hinted: None,
        }
    }
}
