//! What the owner of such a device has a say in.
ghost use Rattle.std.specs.Prelude.{◌≡◌, ◌⊎◌, ℕ, List, None, is_some, length};
ghost use Rattle.usb_device.specs.Beside.{carried_out_in, refused_in, rejected, unaccepted, unanswered, unfit_bytes, written_in, Gives, accepted, answered};
ghost use Rattle.usb_device.specs.Offers.{has_head, offer_in};
ghost use Rattle.usb_device.specs.Requests.{answer_to};
ghost use Rattle.usb_device.specs.View.{device_of, IsOf};
ghost use Rattle.usb_c.specs.Answers.{AnswersOn, answer_of};
ghost use Rattle.usb_c.specs.Devices.{Changes, TellsWrite, setup_reported, taken_or};

use crate::answer::{Answer, numbers};
use usb_device::{EndpointZero, Image};
use usb_fields::Setup;

/// The bytes of a request (USB 2.0, 9.3).
#[repr(C)]
pub struct NzgSetup {
    /// bmRequestType, bRequest, wValue, wIndex and wLength.
    pub bytes: [u8; 8],
}

/// The request that is rejected, and of whose rejection the host doesn't know yet. False where there is none.
#[unsafe(no_mangle)]
pub extern "C" fn nzg_device_refused(device: &EndpointZero, setup: &mut NzgSetup) -> bool
    ensures setup { (image : List ℕ) → (kept : List ℕ) → setup.new ≡ setup_reported (refused_in (device_of image kept device.now).stage) setup.old }
    ensures found { (image : List ℕ) → (kept : List ℕ) → result ≡ is_some (refused_in (device_of image kept device.now).stage) }
{
    tell_request(device.refused(), setup)
}

/// Answers that request by these bytes, cut to wLength, which the room then keeps.
#[unsafe(no_mangle)]
pub extern "C" fn nzg_device_answer_with(
    device: &mut EndpointZero,
    kept: &mut [u8],
    bytes: &[u8],
) -> Answer
    ensures device { (image : List ℕ) → IsOf image kept.old device.old → (device_of image kept.new device.new ≡ answered (length kept.old) (Gives bytes.now) (device_of image kept.old device.old)) × IsOf image kept.new device.new }
    ensures answer { (image : List ℕ) → result ≡ answer_of (taken_or (unanswered (unfit_bytes (length kept.old) bytes.now) (refused_in (device_of image kept.old device.old).stage))) }
    ensures same { (result ≡ answer_of (taken_or None)) ⊎ ((device.new ≡ device.old) × (kept.new ≡ kept.old)) }
{
    match device.answer_with(kept, bytes) {
        Ok(()) => numbers(0, 0, 0, 0),
        Err(why) => numbers(12, why.number(), 0, 0),
    }
}

/// Accepts that request, which has no data or brings some to the device; or the data of a write, once all have come. The room
/// has this many bytes.
#[unsafe(no_mangle)]
pub extern "C" fn nzg_device_accept(device: &mut EndpointZero, room_size: usize) -> Answer
    ensures device { (image : List ℕ) → (kept : List ℕ) → length kept ≡ room_size → IsOf image kept device.old → (device_of image kept device.new ≡ accepted room_size (device_of image kept device.old)) × IsOf image kept device.new }
    ensures answer { (image : List ℕ) → (kept : List ℕ) → result ≡ answer_of (taken_or (unaccepted room_size (device_of image kept device.old).stage)) }
    ensures same { (result ≡ answer_of (taken_or None)) ⊎ (device.new ≡ device.old) }
{
    match device.accept(room_size) {
        Ok(()) => numbers(0, 0, 0, 0),
        Err(why) => numbers(12, why.number(), 0, 0),
    }
}

/// The write whose data have all come, and that isn't answered yet: its request goes into the setup, and its data are this many of
/// the first bytes of the room. It is open where there is no such write.
#[unsafe(no_mangle)]
pub extern "C" fn nzg_device_written(
    device: &EndpointZero,
    kept: &[u8],
    setup: &mut NzgSetup,
) -> Answer
    ensures { AnswersOn (λ verdict. (image : List ℕ) → TellsWrite (written_in (device_of image kept.now device.now).stage) setup.old setup.new verdict) result }
{
    match device.written(kept) {
        Some((request, bytes)) => {
            setup.bytes = request.to_bytes();
            numbers(0, 0, 0, bytes.len())
        }
        None => numbers(1, 0, 0, 0),
    }
}

/// Refuses the request that the device's owner was to answer, or has answered or accepted, until the status stage was
/// answered. False where the bytes are no image: nothing changes then.
#[unsafe(no_mangle)]
pub extern "C" fn nzg_device_refuse(device: &mut EndpointZero, image: &[u8]) -> bool
    ensures done { result ≡ has_head image.now }
    ensures device { Changes (rejected (answer_to (offer_in image.now))) (has_head image.now) image.now device.old device.new }
{
    let image = Image { bytes: image };
    if !image.has_head() {
        return false;
    }
    device.refuse(image);
    true
}

/// The request that was carried out, in its status stage. False where there is none.
#[unsafe(no_mangle)]
pub extern "C" fn nzg_device_carried_out(device: &EndpointZero, setup: &mut NzgSetup) -> bool
    ensures setup { (image : List ℕ) → (kept : List ℕ) → setup.new ≡ setup_reported (carried_out_in (device_of image kept device.now).stage) setup.old }
    ensures found { (image : List ℕ) → (kept : List ℕ) → result ≡ is_some (carried_out_in (device_of image kept device.now).stage) }
{
    tell_request(device.carried_out(), setup)
}

fn tell_request(request: Option<Setup>, setup: &mut NzgSetup) -> bool
    ensures setup { setup.new ≡ setup_reported request setup.old }
    ensures found { result ≡ is_some request }
{
    match request {
        Some(request) => {
            setup.bytes = request.to_bytes();
            true
        }
        None => false,
    }
}
