//! A device as numbers, beside an image and a room that its calls are lent: its end of the bus.
ghost use Rattle.std.specs.Prelude.{◌≡◌, ℕ, List};
ghost use Rattle.usb_device.specs.Offers.{has_head};
ghost use Rattle.usb_device.specs.Step.{new_device};
ghost use Rattle.usb_device.specs.View.{acked_over, device_of};
ghost use Rattle.usb_c.specs.Answers.{AnswersOn};
ghost use Rattle.usb_c.specs.Devices.{Changes, PutsImage, PutsImageAt, Serves};
ghost use Rattle.usb_c.specs.Transactions.{sent_given, speed_given};

use crate::answer::{Answer, Verdict, refused_description, refused_file};
use crate::buffer::fill_done;
use crate::transaction::{NzgPacket, NzgTransaction, sent, speed_of, tell};
use std::alloc::Global;
use usb_device::{EndpointZero, Image, write_image};
use usb_fields::Speed;
use usb_file::read_file;

/// Puts the image of a descriptor file into the buffer: a device of this speed answers from it. It is the same at each speed.
#[unsafe(no_mangle)]
pub extern "C" fn nzg_device_image(
    alloc: Global,
    file: &[u8],
    speed: u8,
    image: &mut [u8],
) -> Answer
    ensures { AnswersOn (PutsImage file.now (speed_given speed) image.old image.new) result }
{
    put_image(alloc, file, speed, image).answer()
}

fn put_image(alloc: Global, file: &[u8], speed: u8, image: &mut [u8]) -> Verdict
    ensures { PutsImage file.now (speed_given speed) image.old image.new result }
{
    match speed_of(speed) {
        Some(speed) => put_image_at(alloc, file, speed, image),
        None => Verdict::BadArgument(3),
    }
}

#[tactic(auto, using(crate::proofs::Faults::no_file_puts, crate::proofs::Faults::no_description_puts))]
fn put_image_at(alloc: Global, bytes: &[u8], speed: Speed, image: &mut [u8]) -> Verdict
    ensures { PutsImageAt bytes.now speed image.old image.new result }
{
    let file = match read_file(alloc, bytes) {
        Ok(file) => file,
        Err(fault) => return refused_file(fault),
    };
    match write_image(alloc, &file, speed) {
        Ok(written) => fill_done(&written, image),
        Err(fault) => refused_description(fault),
    }
}

/// A bus reset: the numbers are those of a new device, which 0 everywhere are too.
#[unsafe(no_mangle)]
pub extern "C" fn nzg_device_reset(device: &mut EndpointZero)
    ensures { (image : List ℕ) → (kept : List ℕ) → device_of image kept device.new ≡ new_device }
{
    device.reset();
}

/// One transaction. False where the bytes are no image, or where the stage or the toggle has no meaning: nothing changes then.
#[tactic(auto, using(crate::proofs::DeviceLemmas::answer_fits, crate::proofs::DeviceLemmas::answer_is))]
#[unsafe(no_mangle)]
pub extern "C" fn nzg_device_serve(
    device: &mut EndpointZero,
    image: &[u8],
    kept: &mut [u8],
    transaction: &NzgTransaction,
    bytes: &[u8],
    ready: bool,
    packet: &mut NzgPacket,
) -> bool
    ensures { Serves (has_head image.now) (sent_given transaction.now bytes.now) image.now kept.old device.old ready packet.old kept.new device.new packet.new result }
{
    let image = Image { bytes: image };
    if !image.has_head() {
        return false;
    }
    let Some(transaction) = sent(transaction, bytes) else {
        return false;
    };
    let reaction = device.serve(image, kept, &transaction, ready);
    tell(reaction.answer(device.packet(image, kept)), packet);
    true
}

/// The host's ACK of the data packet that was answered right before. False where the bytes are no image: nothing changes then.
#[unsafe(no_mangle)]
pub extern "C" fn nzg_device_acked(device: &mut EndpointZero, image: &[u8]) -> bool
    ensures done { result ≡ has_head image.now }
    ensures device { Changes (acked_over image.now) (has_head image.now) image.now device.old device.new }
{
    let image = Image { bytes: image };
    if !image.has_head() {
        return false;
    }
    device.acked(image);
    true
}
