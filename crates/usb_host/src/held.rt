//! What a host keeps of a read.
ghost use Rattle.std.specs.Prelude.{◌≡◌, ℕ, ◌+◌, ◌≤◌, List, [], ◌++◌, length};
ghost use Rattle.std.specs.Prelude.{◌≡◌, ◌+◌, ◌≤◌, length};
ghost use Rattle.usb_host.specs.declared.draft.Draft.{Draft as DraftView};

use crate::due::Due;
use arrayvec::ArrayVec;
use std::alloc::Global;
use std::marker::Model;
use std::mem;
use usb_set::{Configuration, Decoder, Progress, SetWhy};

/// The bytes of a read of at most 255 bytes, as far as they have come.
#[derive(Debug, Drop)]
pub struct KeptBytes {
    bytes: ArrayVec<u8, 255>,
}

impl Model for KeptBytes {
    ghost Value = { List ℕ };

    ghost view = { λ k. k.bytes.items };
}

impl KeptBytes {
    /// No byte.
    pub(crate) fn new() -> KeptBytes
        ensures { result ≡ [] }
    {
        KeptBytes {
            bytes: ArrayVec::new(),
        }
    }

    /// Lets all bytes go.
    pub(crate) fn clear(&mut self)
        ensures { self.new ≡ [] }
    {
        self.bytes.clear();
    }

    /// The bytes.
    pub(crate) fn as_slice(&self) -> &[u8]
        ensures { result.now ≡ self.now }
    {
        self.bytes.as_slice()
    }

    /// Adds new bytes. With those that are there they are at most 255.
    // Inlined, it has a host save registers at each answer.
    #[inline(never)]
    pub(crate) fn add(&mut self, bytes: &[u8])
        requires { length self.old + length bytes.now ≤ 255 }
        ensures { self.new ≡ self.old ++ bytes.now }
    {
        let _added = self.bytes.try_extend_from_slice(bytes);
    }
}

/// What is kept of the bytes of the current read. Which of it counts depends on what comes next.
#[derive(Debug, Drop)]
pub struct Held {
    /// The bytes of a short read.
    pub bytes: KeptBytes,
    /// Of a set its decoder.
    pub decoder: Decoder,
    /// Whether bytes came after the set's last.
    pub over: bool,
}

impl Held {
    ghost use Rattle.usb_host.specs.Keeping.{nothing_kept, set_kept};
    ghost use Rattle.usb_host.specs.inside.Places.{Adds, HasRoom, kept_of, kept_set, place_of};

    /// What the first read begins with.
    pub(crate) fn new(alloc: Global) -> Held
        ensures { (due : Due) (draft : DraftView) → kept_of due result ≡ nothing_kept (place_of due draft) }
    {
        Held {
            bytes: KeptBytes::new(),
            decoder: Decoder::new(alloc),
            over: false,
        }
    }

    /// Begins anew, for the next read.
    pub(crate) fn restart(&mut self, alloc: Global, due: Due)
        ensures { (draft : DraftView) → kept_of due self.new ≡ nothing_kept (place_of due draft) }
    {
        match due {
            Due::Set { .. } => {
                self.decoder = Decoder::new(alloc);
                self.over = false;
            }
            _ => self.bytes.clear(),
        }
    }

    /// Keeps new bytes: those of a set go to its decoder as they came. A fault of the set waits for the end of the
    /// read. Whether memory was wanting.
    #[inline(always)]
    pub(crate) fn add(&mut self, due: &Due, piece: &[u8]) -> bool
        requires { HasRoom (kept_of due.now self.old) (length piece.now) }
        ensures { Adds (kept_of due.now self.old) piece.now result (kept_of due.now self.new) }
    {
        match due {
            Due::Set { .. } => {
                if self.decoder.keeps(piece) {
                    return false;
                }
                self.feed(piece)
            }
            _ => {
                self.bytes.add(piece);
                false
            }
        }
    }

    /// Hands new bytes of a set to its decoder, where they may end a descriptor. Whether memory was wanting.
    // Inlined, it has a host save registers at each answer.
    #[inline(never)]
    fn feed(&mut self, piece: &[u8]) -> bool
        ensures { Adds (kept_set self.old) piece.now result (kept_set self.new) }
    {
        match self.decoder.feed(piece) {
            Ok(Progress::More) => false,
            Ok(Progress::Done { used }) => {
                self.over = self.over || used < piece.len();
                false
            }
            Err(fault) => fault.why == SetWhy::Memory,
        }
    }

    /// The set that was read, where no byte came after its end.
    pub(crate) fn take_set(&mut self, alloc: Global) -> Option<Configuration>
        ensures { result ≡ set_kept self.old.decoder self.old.over }
    {
        let decoder = mem::replace(&mut self.decoder, Decoder::new(alloc));
        match decoder.finish() {
            Ok(set) => { if self.over { None } else { Some(set) } }
            Err(_) => None,
        }
    }
}
