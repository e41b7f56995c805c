//! With what an outline goes on from descriptor to descriptor.
ghost use Rattle.std.specs.Prelude.{◌≡◌, ◌+◌, ◌<◌, ◌^◌, length};
ghost use Rattle.usb_remarks.specs.OutlineStates.{AreCounted, device_codes, kept, passed, start};

use crate::bindings::Bindings;
use crate::device_facts::DeviceFacts;
use crate::interface_numbers::InterfaceNumbers;
use crate::speed::SetSpeed;
use usb_fields::byte_at;
use usb_names::ClassCodes;
use usb_walk::{Position, Role};

/// Where an outline is, and what came before, as far as an explanation depends on it.
#[derive(Drop)]
pub(crate) struct OutlineState {
    /// Where it is, as numbers.
    pub(crate) position: Position,
    /// How many descriptors came.
    pub(crate) descriptors: usize,
    /// The device.
    pub(crate) device: Option<DeviceFacts>,
    /// The speed of the device's own sets, as far as they and the device descriptor say.
    pub(crate) own_speed: SetSpeed,
    /// The same by their own descriptors alone, where those prove it.
    pub(crate) own_side: Option<SetSpeed>,
    /// The device's other speed, where a qualifier comes.
    pub(crate) other_speed: Option<SetSpeed>,
    /// The same by the qualifier and the sets after it alone.
    pub(crate) other_side: Option<SetSpeed>,
    /// The qualifier.
    pub(crate) qualifier: Option<DeviceFacts>,
    /// The speed of the set, or of the last one before it.
    pub(crate) speed: SetSpeed,
    /// Which association of the whole set binds each interface.
    pub(crate) bindings: Bindings,
    /// The numbers of the interfaces of the whole set.
    pub(crate) interfaces: InterfaceNumbers,
    /// The numbers of those that came.
    pub(crate) before: InterfaceNumbers,
}

impl OutlineState {
    /// At the first byte of an input.
    #[tactic(auto, unfolding(crate::specs::OutlineStates::start))]
    pub(crate) fn start() -> OutlineState
        ensures start { result ≡ start }
        ensures counted { AreCounted result }
    {
        OutlineState {
            position: Position::start(),
            descriptors: 0,
            device: None,
            own_speed: SetSpeed::FullOrHigh,
            own_side: None,
            other_speed: None,
            other_side: None,
            qualifier: None,
            speed: SetSpeed::FullOrHigh,
            bindings: Bindings::new(),
            interfaces: InterfaceNumbers::new(),
            before: InterfaceNumbers::new(),
        }
    }

    /// Moves past a descriptor of this role.
    pub(crate) fn pass(&mut self, role: Role, d: &[u8])
        requires counted { AreCounted self.old }
        requires room { self.old.position.at + length d.now < 2 ^ 63 }
        ensures { self.new ≡ passed role d.now self.old }
    {
        self.keep(role, d);
        self.position.pass(role, d);
        self.descriptors += 1;
    }

    /// Keeps what a device and its qualifier say of the speeds of their sets, and the number of an interface.
    fn keep(&mut self, role: Role, d: &[u8])
        ensures { self.new ≡ kept role d.now self.old }
    {
        match role {
            Role::Device => self.device = Some(DeviceFacts::of_device(d)),
            Role::Qualifier => self.qualifier = Some(DeviceFacts::of_qualifier(d)),
            Role::Interface => self.before.mark(byte_at(d, 2)),
            _ => {}
        }
    }
}

/// Class, subclass and protocol of a device or of a qualifier.
pub(crate) fn device_codes(d: &[u8]) -> ClassCodes
    ensures { result ≡ device_codes d.now }
{
    ClassCodes {
        class: byte_at(d, 4),
        subclass: byte_at(d, 5),
        protocol: byte_at(d, 6),
    }
}
