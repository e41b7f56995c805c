//! A recording in pieces, by a handle.
ghost use Rattle.std.specs.Prelude.{◌≡◌, None};
ghost use Rattle.usb_c.specs.Answers.{AnswersOn};
ghost use Rattle.usb_c.specs.Captures.{EndsAt, FeedsHeld, OpensReader, TellsDevice, TellsHeld, fed_so, wants_memory};

use crate::answer::{Answer, Verdict};
use crate::capture_handle::NzgCapture;
use crate::capture_item::{tell_device, tell_item};
use crate::recorded::NzgRecorded;
use std::alloc::Global;
use std::mem::replace;
use usb_capture::CaptureFault;
use usb_capture_lines::{DeviceAddress, RecordingReader};

/// Opens a reader that has taken no byte. One that is held already is freed.
#[unsafe(no_mangle)]
pub extern "C" fn nzg_capture_open(alloc: Global, capture: &mut NzgCapture) -> Answer
    ensures { AnswersOn (OpensReader capture.new.held) result }
{
    match Box::new(alloc, RecordingReader::new(alloc)) {
        Ok(held) => {
            *capture = NzgCapture::of(held);
            Verdict::Done(0).answer()
        }
        Err(_) => {
            *capture = NzgCapture::empty(alloc);
            Verdict::NoMemory.answer()
        }
    }
}

/// Feeds bytes from the beginning of the next piece, one at least if there is one, up to the end of a frame. Out of memory the
/// reader is freed; after another fault each piece has that fault, and what came before it is known.
#[unsafe(no_mangle)]
pub extern "C" fn nzg_capture_feed(alloc: Global, capture: &mut NzgCapture, piece: &[u8]) -> Answer
    ensures { AnswersOn (FeedsHeld capture.old.held piece.now capture.new.held) result }
{
    feed(alloc, capture, piece).answer()
}

fn feed(alloc: Global, capture: &mut NzgCapture, piece: &[u8]) -> Verdict
    ensures { FeedsHeld capture.old.held piece.now capture.new.held result }
{
    let Some(mut held) = replace(capture, NzgCapture::empty(alloc)).into_box() else {
        return Verdict::Closed;
    };
    let fed = held.feed(piece);
    if wants_memory(fed) {
        return Verdict::NoMemory;
    }
    let place = held.place();
    *capture = NzgCapture::of(held);
    tell(fed, place)
}

/// Whether memory was wanting.
fn wants_memory(fed: Result<usize, CaptureFault>) -> bool
    ensures { result ≡ wants_memory fed }
{
    match fed {
        Ok(_) => false,
        Err(why) => matches!(why, CaptureFault::Memory),
    }
}

fn tell(fed: Result<usize, CaptureFault>, place: u64) -> Verdict
    ensures { result ≡ fed_so fed place }
{
    match fed {
        Ok(used) => Verdict::Open(used),
        Err(why) => Verdict::Capture(why, place),
    }
}

/// Puts the thing with this number into the struct, and its data or its words into the buffer.
#[unsafe(no_mangle)]
pub extern "C" fn nzg_capture_get(
    alloc: Global,
    capture: &mut NzgCapture,
    kind: u8,
    number: usize,
    recorded: &mut NzgRecorded,
    out: &mut [u8],
) -> Answer
    ensures held { capture.new.held ≡ capture.old.held }
    ensures answer { AnswersOn (TellsHeld capture.old.held kind number recorded.old recorded.new out.old out.new) result }
{
    let Some(held) = replace(capture, NzgCapture::empty(alloc)).into_box() else {
        return Verdict::Closed.answer();
    };
    let verdict = tell_item(&held, kind, number, recorded, out);
    *capture = NzgCapture::of(held);
    verdict.answer()
}

/// Where the file ends here: how many bytes have come of a part that isn't whole, and its place.
#[unsafe(no_mangle)]
pub extern "C" fn nzg_capture_end(alloc: Global, capture: &mut NzgCapture) -> Answer
    ensures held { capture.new.held ≡ capture.old.held }
    ensures answer { AnswersOn (EndsAt capture.old.held) result }
{
    let Some(held) = replace(capture, NzgCapture::empty(alloc)).into_box() else {
        return Verdict::Closed.answer();
    };
    let verdict = Verdict::Due(held.place() as usize, held.pending() as usize);
    *capture = NzgCapture::of(held);
    verdict.answer()
}

/// Puts the descriptors of a device that came into the buffer: a descriptor file, or a dump where strings are missing.
#[unsafe(no_mangle)]
pub extern "C" fn nzg_capture_file(
    alloc: Global,
    capture: &mut NzgCapture,
    bus: u16,
    device: u16,
    bytes: &mut [u8],
) -> Answer
    ensures held { capture.new.held ≡ capture.old.held }
    ensures answer { AnswersOn (TellsDevice capture.old.held (record { bus = bus; device = device }) bytes.old bytes.new) result }
{
    let Some(held) = replace(capture, NzgCapture::empty(alloc)).into_box() else {
        return Verdict::Closed.answer();
    };
    let verdict = tell_device(&held, DeviceAddress { bus, device }, bytes);
    *capture = NzgCapture::of(held);
    verdict.answer()
}

/// Frees the reader, if one is held.
#[unsafe(no_mangle)]
pub extern "C" fn nzg_capture_close(alloc: Global, capture: &mut NzgCapture)
    ensures { capture.new.held ≡ None }
{
    let _old = replace(capture, NzgCapture::empty(alloc));
}
