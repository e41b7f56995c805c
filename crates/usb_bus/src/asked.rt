//! A request of a talk, with its data.
ghost use Rattle.std.specs.Prelude.{◌≡◌};
ghost use Rattle.usb_bus.specs.Converse.{asked_of, data_sent, without_data};

use usb_fields::{Direction, Setup};

/// A request, and the data that it brings to the device.
///
/// ```rust
/// // SET_REPORT: the first lamp of a keyboard.
/// let lamps = Asked {
///     setup: Setup::from_bytes(&[0x21, 9, 0, 2, 0, 0, 1, 0]),
///     data: &[1],
/// };
/// // SET_CONFIGURATION brings none.
/// let configure = Asked::from(Setup::from_bytes(&[0, 9, 1, 0, 0, 0, 0, 0]));
/// ```
#[derive(Clone, Copy, Debug, PartialEq, Eq, Hash)]
pub struct Asked<'a> {
    /// The setup packet.
    pub setup: Setup,
    /// wLength bytes, where they go to the device. Any others are not sent, so that a write without its data ends in a
    /// STALL.
    pub data: &'a [u8],
}

impl<'a> Asked<'a> {
    /// The data that are sent.
    pub(crate) fn data_sent(&self) -> &'a [u8]
        ensures { result.now ≡ data_sent (asked_of self.now) }
    {
        let length = usize::from(self.setup.length);
        if length != 0 && self.setup.direction() == Direction::Out && self.data.len() == length {
            self.data
        } else {
            &[]
        }
    }
}

/// A request without data to the device.
impl<'a> From<Setup> for Asked<'a> {
    ghost from_gives = { λ setup asked. asked_of asked ≡ without_data setup };

    fn from(setup: Setup) -> Asked<'a> {
        Asked { setup, data: &[] }
    }
}
