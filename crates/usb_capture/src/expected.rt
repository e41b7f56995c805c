//! What a device answers to a request, and whether a transfer shows it.
ghost use Rattle.std.specs.Prelude.{◌≡◌, ◌==◌, ◌&&◌, ◌∷◌, []};
ghost use Rattle.usb_capture.specs.DeviceStates.{are_like, is_like, shows};
ghost use Rattle.usb_capture.specs.Expected.{outcome_of};
ghost use Rattle.usb_capture.specs.Readings.{is_done};

use crate::answer::is_stall;
use crate::compared::asks_for_status;
use crate::control_transfer::ControlTransfer;
use crate::readings::is_done;
use usb_device::State;
use usb_fields::Setup;

/// An answer to a request that asks for no descriptor (USB 2.0, 9.4).
#[derive(Clone, Copy, Debug, Drop)]
pub(crate) enum Expected {
    /// A byte.
    Byte(u8),
    /// A status with this first byte, of which the other is 0.
    Status(u8),
    /// It is done, and leads to this state.
    Done(State),
    /// STALL.
    Refused,
}

impl Expected {
    /// Whether a transfer shows this answer to its request.
    pub(crate) fn is_shown_by(&self, transfer: &ControlTransfer) -> bool
        ensures { result ≡ shows (outcome_of self.now) transfer.now }
    {
        let data = transfer.data.as_slice();
        match self {
            Expected::Byte(byte) => {
                brings(transfer, 1)
                    && (transfer.is_cut || is_like_byte(&transfer.setup, data, *byte))
            }
            Expected::Status(first) => {
                brings(transfer, 2)
                    && (transfer.is_cut || is_like_status(&transfer.setup, data, *first))
            }
            Expected::Done(_) => is_done(transfer.ending),
            Expected::Refused => is_stall(transfer.ending),
        }
    }
}

/// Whether this many bytes came.
fn brings(transfer: &ControlTransfer, count: u32) -> bool
    ensures { result ≡ (is_done transfer.now.ending && transfer.now.length == count) }
{
    is_done(transfer.ending) && transfer.length == count
}

/// Whether the bytes that came are such a byte.
fn is_like_byte(setup: &Setup, data: &[u8], byte: u8) -> bool
    ensures { result ≡ are_like setup.now data.now (byte ∷ []) }
{
    match data {
        [came] => is_like(setup, *came, byte),
        _ => false,
    }
}

/// Whether the bytes that came are such a status.
fn is_like_status(setup: &Setup, data: &[u8], first: u8) -> bool
    ensures { result ≡ are_like setup.now data.now (first ∷ 0 ∷ []) }
{
    match data {
        [came, other] => is_like(setup, *came, first) && *other == 0,
        _ => false,
    }
}

/// Whether a first byte came that a device may answer for another one: that it is self-powered, or that it halted an endpoint by itself
/// (9.4.5).
fn is_like(setup: &Setup, came: u8, has: u8) -> bool
    ensures { result ≡ is_like setup.now came has }
{
    came == has
        || (asks_for_status(setup)
            && ((setup.request_type == 0x80 && came / 2 == has / 2)
                || (setup.request_type == 0x82 && came == 1)))
}
