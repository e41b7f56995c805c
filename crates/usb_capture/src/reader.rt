//! A capture file, read from pieces of any length.
ghost use Rattle.std.specs.Prelude.{◌≡◌, ◌+◌, ◌-◌, ◌≤◌, ◌<◌, ◌++◌, ◌⊎◌, ℕ, List, [], min, length, take, drop, Err, IfOk, IfErr, IfSome, OnOk};
ghost use Rattle.usb_capture.specs.declared.fault.CaptureFault.TheVariants as faults;
ghost use Rattle.usb_capture.specs.declared.frame.Frame.{Frame};
ghost use Rattle.usb_capture.specs.Files.{IsRefusedAfter, next, whole};

use crate::content::{Content, Head};
use crate::fault::CaptureFault;
use crate::frame::{Frame, MOST_BYTES};
use crate::interface::Interface;
use crate::pcap::Form;
use crate::stage::{Stage, record_head};
use std::alloc::{AllocError, Global};
use usb_fields::{Sequence, after, prefix};

/// The most bytes that stand before a packet's data in a part.
const MOST_HEADER: usize = 28;

/// The most bytes that a reader holds of a part.
pub const MOST_HELD: usize = MOST_HEADER + MOST_BYTES;

/// What one call took.
#[derive(Clone, Debug, Drop)]
pub struct Step {
    /// How many bytes of the piece were taken.
    pub used: usize,
    /// The frame whose part of the file ended with them.
    pub frame: Option<Frame>,
}

/// Reads a capture file from pieces of any length: pcap, pcapng, or usbmon's text.
///
/// It takes a part of the file at a time, so a piece is fed until it is used up. A reader that failed answers the same
/// fault from then on.
///
/// ```rust
/// let mut reader = CaptureReader::new(alloc);
/// let mut rest = piece;
/// while !rest.is_empty() {
///     let step = reader.feed(rest)?;
///     rest = &rest[step.used..];
///     if let Some(frame) = step.frame {
///         println!(rt; "{} of {} bytes", frame.captured, frame.original)?;
///     }
/// }
/// ```
#[derive(Debug, Drop)]
pub struct CaptureReader {
    alloc: Global,
    failed: Option<CaptureFault>,
    stage: Stage,
    /// The interfaces of the section.
    interfaces: Vec<Interface>,
    /// The bytes of the part that have come: the first of them, at most [`MOST_HELD`].
    held: Vec<u8>,
    /// The last four of them.
    last: [u8; 4],
    /// How many have come.
    count: u64,
    /// How many came before the part.
    place: u64,
}

impl CaptureReader {
    ghost use Rattle.std.specs.Prelude.{◌^◌, None, Some};
    ghost use Rattle.usb_capture.specs.Files.{content, frame_list, frame_with, last_four};
    ghost use Rattle.usb_capture.specs.Reading.{IsFront, IsKept, IsRead, front_length, state_of};
    ghost use Rattle.std.specs.Option.{option_to_list};
    ghost use Rattle.usb_capture.specs.declared.stage.Stage.TheVariants.{Records};

    /// A reader that has taken no byte.
    pub fn new(alloc: Global) -> CaptureReader
        ensures read { IsRead [] [] result }
        ensures going { result.failed ≡ None }
    {
        CaptureReader {
            alloc,
            failed: None,
            stage: Stage::Start,
            interfaces: Vec::new(alloc),
            held: Vec::new(alloc),
            last: [0; 4],
            count: 0,
            place: 0,
        }
    }

    /// Takes bytes from the beginning of a piece, one at least if there is one, up to the end of a part of the file. The
    /// frame of a packet comes with the last byte of its part.
    ///
    /// # Errors
    ///
    /// The fault of the first part that has one, as soon as it is seen, or `Memory`; from then on the same.
    pub fn feed(&mut self, piece: &[u8]) -> Result<Step, CaptureFault>
        ensures within { IfOk result (λ step. step.used ≤ length piece.now) }
        ensures ok { IfOk result (λ step. (all : List ℕ) (frames : List Frame) → IsRead all frames self.old
            → IsRead (all ++ take step.used piece.now) (frames ++ option_to_list step.frame) self.new) }
        ensures goes_on { IfOk result (λ step. (all : List ℕ) (frames : List Frame) → IsRead all frames self.old
            → 0 < length piece.now → 0 < step.used) }
        ensures refused { IfErr result (λ fault. (all : List ℕ) (frames : List Frame) → IsRead all frames self.old → self.old.failed ≡ None
            → (fault ≡ faults.Memory) ⊎ ((place : ℕ) × IsRefusedAfter (all ++ piece.now) frames fault place × (self.new.place ≡ min place (2 ^ 64 - 1)))) }
        ensures going { OnOk result (self.new.failed ≡ None) }
        ensures failed { IfErr result (λ fault. self.new.failed ≡ Some fault) }
        ensures stays { (fault : CaptureFault) → self.old.failed ≡ Some fault → result ≡ Err fault }
    {
        if let Some(fault) = self.failed {
            return Err(fault);
        }
        match self.advance(piece) {
            Ok(step) => Ok(step),
            Err(fault) => {
                self.failed = Some(fault);
                Err(fault)
            }
        }
    }

    /// How many bytes have come of a part that isn't whole: where the file ends now, it is cut if this isn't 0.
    pub fn pending(&self) -> u64
        ensures { (all : List ℕ) (frames : List Frame) (read : IsRead all frames self.now) → result ≡ length read.1 }
    {
        self.count
    }

    /// Where the part begins that is being read or has the fault: how many bytes of the file are before it, or the greatest
    /// number of 64 bits.
    pub fn place(&self) -> u64
        ensures { result ≡ self.now.place }
    {
        self.place
    }

    /// The next step of a reader that hasn't failed.
    fn advance(&mut self, piece: &[u8]) -> Result<Step, CaptureFault>
        ensures within { IfOk result (λ step. step.used ≤ length piece.now) }
        ensures ok { IfOk result (λ step. (all : List ℕ) (frames : List Frame) → IsRead all frames self.old
            → IsRead (all ++ take step.used piece.now) (frames ++ option_to_list step.frame) self.new) }
        ensures goes_on { IfOk result (λ step. (all : List ℕ) (frames : List Frame) → IsRead all frames self.old
            → 0 < length piece.now → 0 < step.used) }
        ensures refused { IfErr result (λ fault. (all : List ℕ) (frames : List Frame) → IsRead all frames self.old
            → (fault ≡ faults.Memory) ⊎ ((place : ℕ) × IsRefusedAfter (all ++ piece.now) frames fault place × (self.new.place ≡ min place (2 ^ 64 - 1)))) }
        ensures going { self.new.failed ≡ self.old.failed }
    {
        if let Some(used) = self.front(piece) {
            return match self.stage {
                Stage::Records(form) => self.take_record(form, piece, used),
                _ => self.take_front(piece, used),
            };
        }
        let used = self.keep(piece)?;
        let frame = self.end_part()?;
        Ok(Step { used, frame })
    }

    /// How many bytes the part has that a piece begins with, where nothing of it came before and all of it is there.
    fn front(&self, piece: &[u8]) -> Option<usize>
        ensures length { result ≡ front_length self.now piece.now }
        ensures is { IfSome result (λ used. IsFront self.now piece.now used) }
    {
        if self.count > 0 {
            return None;
        }
        let whole = self.stage.whole(piece);
        if whole > piece.len() as u64 {
            return None;
        }
        Some(whole as usize)
    }

    /// Takes a whole part, which it reads where it lies in the piece.
    #[inline]
    fn take_front(&mut self, piece: &[u8], used: usize) -> Result<Step, CaptureFault>
        requires { IsFront self.old piece.now used }
        ensures within { IfOk result (λ step. step.used ≤ length piece.now) }
        ensures ok { IfOk result (λ step. (all : List ℕ) (frames : List Frame) → IsRead all frames self.old
            → IsRead (all ++ take step.used piece.now) (frames ++ option_to_list step.frame) self.new) }
        ensures goes_on { IfOk result (λ step. (all : List ℕ) (frames : List Frame) → IsRead all frames self.old
            → 0 < length piece.now → 0 < step.used) }
        ensures refused { IfErr result (λ fault. (all : List ℕ) (frames : List Frame) → IsRead all frames self.old
            → (fault ≡ faults.Memory) ⊎ ((place : ℕ) × IsRefusedAfter (all ++ piece.now) frames fault place × (self.new.place ≡ min place (2 ^ 64 - 1)))) }
        ensures going { self.new.failed ≡ self.old.failed }
    {
        let part = prefix(piece, used);
        let last = last_four([0; 4], part);
        let content = self
            .stage
            .content(&self.interfaces, part, used as u64, &last)?;
        let frame = self.frame_of(&content, part)?;
        self.go_on(content)?;
        self.place = self.place.saturating_add(used as u64);
        Ok(Step { used, frame })
    }

    /// Takes a whole record of pcap so. What any part may say takes longer to hand on than a record's head.
    #[inline(always)]
    fn take_record(&mut self, form: Form, piece: &[u8], used: usize) -> Result<Step, CaptureFault>
        requires front { IsFront self.old piece.now used }
        requires stage { self.old.stage ≡ Records form }
        ensures within { IfOk result (λ step. step.used ≤ length piece.now) }
        ensures ok { IfOk result (λ step. (all : List ℕ) (frames : List Frame) → IsRead all frames self.old
            → IsRead (all ++ take step.used piece.now) (frames ++ option_to_list step.frame) self.new) }
        ensures goes_on { IfOk result (λ step. (all : List ℕ) (frames : List Frame) → IsRead all frames self.old
            → 0 < length piece.now → 0 < step.used) }
        ensures memory { IfErr result (λ fault. fault ≡ faults.Memory) }
        ensures going { self.new.failed ≡ self.old.failed }
    {
        let part = prefix(piece, used);
        let frame = self.frame_with(&record_head(form, part), part)?;
        self.place = self.place.saturating_add(used as u64);
        Ok(Step {
            used,
            frame: Some(frame),
        })
    }

    /// How many bytes the part has, as far as those that are held tell.
    fn whole(&self) -> u64
        ensures { result ≡ whole self.now.stage self.now.held.items }
    {
        self.stage.whole(&self.held)
    }

    /// What the part says, which is whole.
    fn content(&self) -> Result<Content, CaptureFault>
        ensures { result ≡ content self.now.stage self.now.interfaces.items self.now.held.items self.now.count self.now.last }
    {
        self.stage
            .content(&self.interfaces, &self.held, self.count, &self.last)
    }

    /// Takes bytes of the part, and answers how many.
    fn keep(&mut self, piece: &[u8]) -> Result<usize, AllocError>
        ensures used { IfOk result (λ used. used ≡ min (length piece.now) (whole self.old.stage self.old.held.items - self.old.count)) }
        ensures held { IfOk result (λ used. self.new.held.items ≡ self.old.held.items ++ take (min used (65627 - length self.old.held.items)) piece.now) }
        ensures last { IfOk result (λ used. self.new.last ≡ drop used (self.old.last ++ take used piece.now)) }
        ensures count { IfOk result (λ used. self.new.count ≡ self.old.count + used) }
        ensures state { OnOk result (state_of self.new ≡ state_of self.old) }
        ensures place { OnOk result (self.new.place ≡ self.old.place) }
        ensures going { self.new.failed ≡ self.old.failed }
    {
        let open = self.whole().saturating_sub(self.count);
        let used = open.min(piece.len() as u64) as usize;
        let room = MOST_HELD.saturating_sub(self.held.len());
        let kept = used.min(room);
        self.held.extend_from_slice(&piece[..kept])?;
        self.last = last_four(self.last, prefix(piece, used));
        self.count += used as u64;
        Ok(used)
    }

    /// Goes on to the next part where this one is whole. The frame is that of a packet.
    #[inline(never)]
    fn end_part(&mut self) -> Result<Option<Frame>, CaptureFault>
        ensures ok { IfOk result (λ frame. (all : List ℕ) (frames : List Frame) → IsKept all frames self.old
            → IsRead all (frames ++ option_to_list frame) self.new) }
        ensures refused { IfErr result (λ fault. (all : List ℕ) (frames : List Frame) → IsKept all frames self.old
            → (fault ≡ faults.Memory) ⊎ ((place : ℕ) × IsRefusedAfter all frames fault place × (self.new.place ≡ min place (2 ^ 64 - 1)))) }
        ensures going { self.new.failed ≡ self.old.failed }
    {
        if self.count < self.whole() {
            return Ok(None);
        }
        let content = self.content()?;
        let frame = self.frame_of(&content, &self.held)?;
        self.go_on(content)?;
        self.clear();
        Ok(frame)
    }

    /// The frame of a part that begins with these bytes and says this.
    #[inline(always)]
    fn frame_of(&self, content: &Content, part: &[u8]) -> Result<Option<Frame>, AllocError>
        ensures { IfOk result (λ frame. option_to_list frame ≡ frame_list content.now part.now) }
    {
        match content {
            Content::Packet(head) => {
                let frame = self.frame_with(head, part)?;
                Ok(Some(frame))
            }
            Content::Line(line) => {
                let frame = line.to_frame(self.alloc)?;
                Ok(Some(frame))
            }
            _ => Ok(None),
        }
    }

    /// The frame of a packet that has this head.
    #[inline(always)]
    fn frame_with(&self, head: &Head, part: &[u8]) -> Result<Frame, AllocError>
        ensures { IfOk result (λ frame. frame ≡ frame_with head.now part.now) }
    {
        let data = after(part, head.layout.start());
        let kept = (head.captured as usize).min(MOST_BYTES);
        Ok(Frame {
            time: head.time,
            link: head.link,
            order: head.order,
            captured: head.captured,
            original: head.original,
            bytes: Sequence::from_vec(Vec::from_slice(self.alloc, prefix(data, kept))?),
        })
    }

    /// Knows what a part says.
    #[inline(always)]
    fn go_on(&mut self, content: Content) -> Result<(), CaptureFault>
        ensures state { OnOk result (state_of self.new ≡ next (state_of self.old) content) }
        ensures memory { IfErr result (λ fault. fault ≡ faults.Memory) }
        ensures held { self.new.held.items ≡ self.old.held.items }
        ensures last { self.new.last ≡ self.old.last }
        ensures count { self.new.count ≡ self.old.count }
        ensures place { self.new.place ≡ self.old.place }
        ensures going { self.new.failed ≡ self.old.failed }
    {
        match content {
            Content::Header(form) => {
                self.stage = Stage::Records(form);
                self.interfaces.clear();
            }
            Content::Section(order) => {
                self.stage = Stage::Blocks(order);
                self.interfaces.clear();
            }
            Content::Line(_) => {
                self.stage = Stage::Lines;
                self.interfaces.clear();
            }
            Content::Interface(interface) => self.interfaces.push(interface)?,
            Content::Packet(_) | Content::Other => {}
        }
        Ok(())
    }

    /// Holds nothing of the next part.
    fn clear(&mut self)
        ensures state { state_of self.new ≡ state_of self.old }
        ensures held { self.new.held.items ≡ [] }
        ensures last { self.new.last ≡ last_four [] }
        ensures count { self.new.count ≡ 0 }
        ensures place { self.new.place ≡ min (self.old.place + self.old.count) (2 ^ 64 - 1) }
        ensures going { self.new.failed ≡ self.old.failed }
    {
        self.place = self.place.saturating_add(self.count);
        self.held.clear();
        self.last = [0; 4];
        self.count = 0;
    }
}

/// The last four of these bytes and those that follow.
fn last_four(before: [u8; 4], bytes: &[u8]) -> [u8; 4]
    ensures { result ≡ drop (length bytes.now) (before ++ bytes.now) }
{
    let [_, b, c, d] = before;
    match bytes {
        [] => before,
        [e] => [b, c, d, *e],
        [e, f] => [c, d, *e, *f],
        [e, f, g] => [d, *e, *f, *g],
        [.., e, f, g, h] => [*e, *f, *g, *h],
    }
}
