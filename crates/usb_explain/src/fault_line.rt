//! The lines of the fault of a broken input: what is wrong, and what its bytes look like.
ghost use Rattle.std.specs.Prelude.{◌≡◌, ◌∷◌, [], OnOk};
ghost use Rattle.usb_text.specs.Shown.{Number, showing_all};
ghost use Rattle.usb_remarks.specs.FaultPlaces.{place_of_fault};
ghost use Rattle.usb_explain.specs.Faults.{fault_lines, fault_shown, likeness_line, likeness_shown, look_line, seen_likeness};
ghost use Rattle.usb_explain.specs.Containers.{container_of};

use crate::container::{container_of, put_container};
use crate::fault_words::FaultWords;
use std::alloc::AllocError;
use usb_file_data::{InputFault, Likeness, likeness_of};
use usb_text::Page;

/// The place of the fault in the input.
pub(crate) fn fault_place(fault: InputFault) -> usize
    ensures { result ≡ place_of_fault fault }
{
    match fault {
        InputFault::Set(fault) => fault.at as usize,
        InputFault::Trailing(at) => at,
        InputFault::File(fault) => fault.at,
    }
}

/// Puts the fault, and the likeness if there is one. `decoded`: the bytes came from hexadecimal text.
#[tactic(auto, using(usb_text::proofs::ShownLines::showing_joined), unfolding(crate::specs::Faults::fault_lines))]
pub(crate) fn put_fault_lines<P: Page>(
    page: &mut P,
    decoded: bool,
    fault: InputFault,
    bytes: &[u8],
) -> Result<(), AllocError>
    ensures { OnOk result (P.seen page.new ≡ showing_all P.showing (fault_lines decoded fault bytes.now) (P.seen page.old)) }
{
    page.put("  ! ")?;
    put_fault(page, fault)?;
    page.end_line()?;
    put_look(page, decoded, fault, bytes)
}

/// Puts the line of what bytes begin as, or else of what they look like.
fn put_look<P: Page>(
    page: &mut P,
    decoded: bool,
    fault: InputFault,
    bytes: &[u8],
) -> Result<(), AllocError>
    ensures { OnOk result (P.seen page.new ≡ showing_all P.showing (look_line decoded fault bytes.now (container_of bytes.now)) (P.seen page.old)) }
{
    match container_of(bytes) {
        None => put_likeness(page, seen_likeness(decoded, likeness_of(fault, bytes))),
        Some(container) => put_container(page, container, bytes),
    }
}

/// What bytes look like; those that were decoded from text are not called text.
fn seen_likeness(decoded: bool, likeness: Option<Likeness>) -> Option<Likeness>
    ensures { result ≡ seen_likeness decoded likeness }
{
    match likeness {
        Some(Likeness::Text) if decoded => None,
        _ => likeness,
    }
}

/// Puts the fault: its number, its place, and its words.
fn put_fault<P: Page>(page: &mut P, fault: InputFault) -> Result<(), AllocError>
    ensures { OnOk result (P.seen page.new ≡ showing_all P.showing (fault_shown fault) (P.seen page.old)) }
{
    put_fault_place(page, fault)?;
    page.put(": ")?;
    let words = FaultWords::of(fault);
    page.put(words.within)?;
    page.put(words.why)
}

/// Puts what kind of fault it is, its number, if it has one, and its place.
fn put_fault_place<P: Page>(page: &mut P, fault: InputFault) -> Result<(), AllocError>
    ensures { OnOk result (P.seen page.new ≡ showing_all P.showing (fault_shown fault) (P.seen page.old)) }
{
    match fault {
        InputFault::Set(fault) => {
            page.put("set fault ")?;
            put_numbered(page, fault.number(), fault.at as usize)
        }
        InputFault::Trailing(at) => {
            page.put("trailing bytes at ")?;
            page.put_decimal(at as u64)
        }
        InputFault::File(fault) => {
            page.put("file fault ")?;
            put_numbered(page, fault.number(), fault.at)
        }
    }
}

fn put_numbered<P: Page>(page: &mut P, number: u8, at: usize) -> Result<(), AllocError>
    ensures { OnOk result (P.seen page.new ≡ showing_all P.showing (Number number ∷ Number at ∷ []) (P.seen page.old)) }
{
    page.put_decimal(u64::from(number))?;
    page.put(" at ")?;
    page.put_decimal(at as u64)
}

/// Puts the line of what bytes look like, if they look like anything.
#[tactic(auto, using(usb_text::proofs::ShownLines::showing_joined))]
fn put_likeness<P: Page>(page: &mut P, likeness: Option<Likeness>) -> Result<(), AllocError>
    ensures { OnOk result (P.seen page.new ≡ showing_all P.showing (likeness_line likeness) (P.seen page.old)) }
{
    match likeness {
        None => Ok(()),
        Some(likeness) => {
            page.put("  ? ")?;
            put_likeness_words(page, likeness)?;
            page.end_line()
        }
    }
}

fn put_likeness_words<P: Page>(page: &mut P, likeness: Likeness) -> Result<(), AllocError>
    ensures { OnOk result (P.seen page.new ≡ showing_all P.showing (likeness_shown likeness) (P.seen page.old)) }
{
    match likeness {
        Likeness::Nothing => page.put("there are no bytes"),
        Likeness::Text => page.put(
            "this is text; explain reads the bytes of descriptors, or their hexadecimal digits",
        ),
        Likeness::DumpAndMore(count) => {
            page.put("the dump ends here, and ")?;
            page.put_count(count as u64, "byte")?;
            page.put(if count == 1 { " follows" } else { " follow" })
        }
        Likeness::UsbmonFrame(count) => {
            page.put("this looks like a frame of usbmon: a header, and ")?;
            page.put_count(count as u64, "byte")?;
            page.put(" at its end")
        }
        Likeness::Packet(count) => {
            page.put("this looks like a packet of the bus: a PID, ")?;
            page.put_count(u64::from(count), "byte")?;
            page.put(" and a CRC")
        }
        Likeness::Bos => page.put("this looks like a BOS descriptor alone"),
        Likeness::StringDescriptor => page.put("this looks like a string descriptor alone"),
        Likeness::Report => page.put("this looks like a report descriptor"),
        Likeness::Fragment => page.put(
            "this begins like a fragment of an input, or a setup packet; --loose explains it",
        ),
    }
}
