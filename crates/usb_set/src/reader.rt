//! Reading a set descriptor by descriptor.
ghost use Rattle.std.specs.Prelude.{◌≡◌, ◌≤◌, ◌+◌, ◌<◌, [], ◌++◌, length, Ok, Err};
ghost use Rattle.arrayvec.specs.ArrayVec.{array_vec_len};
ghost use Rattle.usb_set.specs.inside.Reading.{first};
ghost use Rattle.usb_set.specs.inside.Stepping.{InWork, Keeps, Reads, Steps, current_of, ends_as, is_done};

use crate::decoder::Progress;
use crate::descriptor_check::split_descriptor;
use crate::fault::{SetFault, SetWhy};
use crate::partial::Partial;
use crate::tree::Configuration;
use arrayvec::ArrayVec;
use std::alloc::Global;
use std::marker::Model;

/// What the current descriptor met in the bytes that follow.
#[derive(Clone, Copy, Debug)]
pub(crate) enum Step {
    /// Its end, after this many of them.
    Took(u32),
    /// The end of the bytes.
    Cut,
    /// A fault, or out of memory.
    Refused(SetFault),
}

/// The descriptors read so far, and those bytes of the next one that earlier pieces brought.
#[derive(Debug, Drop)]
pub(crate) struct Reader {
    alloc: Global,
    partial: Partial,
    current: ArrayVec<u8, 255>,
}

impl Model for Reader {
    ghost use Rattle.std.specs.Prelude.{◌≡◌, [], true};
    ghost use Rattle.usb_set.specs.inside.Reading.{Reading};
    ghost use Rattle.usb_set.specs.inside.Stepping.{GoesOn, is_done, with_current};

    ghost Value = { Reading };

    ghost view = { λ r. with_current r.partial r.current.items };

    ghost invariant = { λ r. GoesOn (with_current r.partial r.current.items) × (is_done r.partial ≡ true → r.current.items ≡ []) };
}

/// Adds bytes of the current descriptor.
#[inline(always)]
fn keep(current: &mut ArrayVec<u8, 255>, bytes: &[u8])
    requires { array_vec_len current.old + length bytes.now ≤ 255 }
    ensures { current.new.items ≡ current.old.items ++ bytes.now }
{
    match bytes {
        [byte] => current.push(*byte),
        _ => {
            let _kept = current.try_extend_from_slice(bytes);
        }
    }
}

impl Reader {
    /// Nothing read yet.
    pub(crate) fn new(alloc: Global) -> Reader
        ensures { result ≡ first [] }
    {
        Reader {
            alloc,
            partial: Partial::new(),
            current: ArrayVec::new(),
        }
    }

    /// Whether the set is whole.
    pub(crate) fn is_done(&self) -> bool
        ensures { result ≡ is_done self.now }
    {
        self.partial.is_done()
    }

    /// Keeps a piece that ends before the current descriptor does, where it can show no fault: four
    /// bytes of that descriptor were there. So a single byte costs little. Of a whole set none are held.
    #[inline(always)]
    pub(crate) fn keeps(&mut self, piece: &[u8]) -> bool
        ensures { Keeps self.old piece.now result self.new }
    {
        let before = self.current.len();
        if before < 4 || usize::from(self.current[0]) <= before + piece.len() {
            return false;
        }
        keep(&mut self.current, piece);
        true
    }

    /// Reads on, to the set's end or to that of the piece.
    #[inline(always)]
    pub(crate) fn read(&mut self, piece: &[u8]) -> Result<Progress, SetFault>
        requires { InWork self.old }
        ensures { Reads self.old piece.now result self.new }
    {
        let mut used = 0;
        while used < piece.len() {
            match self.step(&piece[used..]) {
                Step::Took(count) => used += count as usize,
                Step::Cut => return Ok(Progress::More),
                Step::Refused(fault) => return Err(fault),
            }
            if self.is_done() {
                return Ok(Progress::Done { used });
            }
        }
        Ok(Progress::More)
    }

    /// Reads on, to the end of the current descriptor or to that of the bytes.
    #[inline(always)]
    fn step(&mut self, bytes: &[u8]) -> Step
        requires { InWork self.old }
        ensures { Steps self.old bytes.now result self.new }
    {
        if self.current.is_empty() {
            self.step_in_piece(bytes)
        } else {
            self.step_in_buffer(bytes)
        }
    }

    /// A descriptor of which no earlier piece had a byte is read in place.
    #[inline(always)]
    fn step_in_piece(&mut self, bytes: &[u8]) -> Step
        requires work { InWork self.old }
        requires empty { current_of self.old ≡ [] }
        ensures { Steps self.old bytes.now result self.new }
    {
        if let Some(fault) = self.partial.fault_in(bytes) {
            return Step::Refused(fault);
        }
        let Some((item, _)) = split_descriptor(bytes) else {
            keep(&mut self.current, bytes);
            return Step::Cut;
        };
        if self.partial.grow(self.alloc, item).is_err() {
            return Step::Refused(self.partial.out_of_memory());
        }
        Step::Took(item.len() as u32)
    }

    /// A descriptor that the end of an earlier piece cut is put together first.
    #[inline(always)]
    fn step_in_buffer(&mut self, bytes: &[u8]) -> Step
        requires work { InWork self.old }
        requires some { 0 < length (current_of self.old) }
        ensures { Steps self.old bytes.now result self.new }
    {
        let len = usize::from(self.current[0]);
        let before = self.current.len();
        let count = (len - before).min(bytes.len());
        keep(&mut self.current, &bytes[..count]);
        if let Some(fault) = self.partial.fault_in_more(before, &self.current) {
            self.current.clear();
            return Step::Refused(fault);
        }
        if self.current.len() < len {
            return Step::Cut;
        }
        let grown = self.partial.grow(self.alloc, &self.current);
        self.current.clear();
        if grown.is_err() {
            return Step::Refused(self.partial.out_of_memory());
        }
        Step::Took(count as u32)
    }

    /// Lets go of all that was read.
    pub(crate) fn clear(&mut self)
        ensures { self.new ≡ first [] }
    {
        self.partial = Partial::new();
        self.current.clear();
    }

    /// The set, or that the bytes ended before it was whole.
    #[inline(always)]
    pub(crate) fn finish(self) -> Result<Configuration, SetFault>
        ensures { result ≡ ends_as self }
    {
        let Reader {
            alloc: _,
            partial,
            current,
        } = self;
        let at = (partial.place() + current.len()) as u32;
        match partial.into_whole() {
            Some(c) => Ok(c),
            None => Err(SetFault {
                at,
                why: SetWhy::Truncated,
            }),
        }
    }
}
