//! What is known of a descriptor at its place beside its bytes.
ghost use Rattle.std.specs.Prelude.{◌≡◌};
ghost use Rattle.usb_remarks.specs.Contexts.{is_super, one_speed_at, speed_of};

use crate::outline_state::OutlineState;
use crate::set_speed::{high_beside, high_side, is_super_device, one_speed};
use crate::set_start::other_speed_of;
use crate::speed::SetSpeed;
use usb_fields::{byte_at, word_at};
use usb_walk::Role;

impl OutlineState {
    /// The speed of the device, of the qualifier or of the set.
    pub(crate) fn speed(&self, running: Option<SetSpeed>, role: Role, d: &[u8]) -> SetSpeed
        ensures { result ≡ speed_of running self.now role d.now }
    {
        match role {
            Role::Device if is_super(running, word_at(d, 2), byte_at(d, 7)) => SetSpeed::Super,
            Role::Device => running
                .or(high_side(self.own_side))
                .unwrap_or(SetSpeed::FullOrHigh),
            Role::Qualifier => other_speed_of(running)
                .or(high_beside(self.own_side, self.other_side))
                .unwrap_or(SetSpeed::FullOrHigh),
            _ => self.speed,
        }
    }

    /// The speed that both sides of a device have, at its qualifier.
    pub(crate) fn one_speed(&self, role: Role) -> Option<SetSpeed>
        ensures { result ≡ one_speed_at self.now role }
    {
        match role {
            Role::Qualifier => one_speed(self.own_side, self.other_side),
            _ => None,
        }
    }
}

/// Whether a device of this bcdUSB and bMaxPacketSize0 is one of SuperSpeed.
fn is_super(running: Option<SetSpeed>, usb: u16, packet: u8) -> bool
    ensures { result ≡ is_super running usb packet }
{
    match running {
        None => is_super_device(usb, packet),
        Some(SetSpeed::Super) => true,
        Some(_) => false,
    }
}
