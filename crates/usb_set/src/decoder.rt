//! A set that comes in pieces, or as a prefix of some bytes.
ghost use Rattle.std.specs.Prelude.{◌≡◌, [], true, false, Ok};
ghost use Rattle.usb_set.specs.Decoding.{ReadsSet};

use crate::fault::SetFault;
use crate::reader::Reader;
use crate::tree::Configuration;
use std::alloc::Global;
use std::marker::Model;
use usb_fields::known_bytes;

/// How far a set was read.
#[derive(Clone, Copy, Debug, PartialEq, Eq, Hash)]
pub enum Progress {
    /// The whole piece was taken, and the set goes on.
    More,
    /// The set is whole.
    Done {
        /// How many bytes of this piece were taken, the last of them being the set's last.
        used: usize,
    },
}

/// Reads one configuration set from pieces of any length (USB 2.0, 9.4.3 and 9.6.3).
///
/// It takes exactly the bytes that wTotalLength counts, and rejects a set at the first byte that
/// shows a fault. What it answers depends on the join of all pieces so far and not on how they were
/// cut. A decoder that rejected answers the same fault from then on.
///
/// It holds the tree so far and the descriptor that the end of a piece has cut, and no other byte.
///
/// ```rust
/// let mut decoder = Decoder::new(alloc);
/// assert_eq!(rt; decoder.feed(&[9, 2, 9, 0, 0])?, Progress::More);
/// assert_eq!(rt; decoder.feed(&[1, 0, 0x80, 50, 0xff])?, Progress::Done { used: 4 });
/// let set = decoder.finish()?;
/// assert_eq!(rt; (set.value, set.attributes, set.power), (1, 0x80, 50));
/// ```
#[derive(Debug, Drop)]
pub struct Decoder {
    reader: Reader,
    fault: Option<SetFault>,
}

impl Model for Decoder {
    ghost use Rattle.usb_set.specs.Decoding.{Decoding};
    ghost use Rattle.usb_set.specs.inside.Holding.{HoldsSound, decoding_of};

    ghost Value = { Decoding };

    ghost view = { λ d. decoding_of d.fault d.reader };

    ghost invariant = { λ d. HoldsSound d.fault d.reader };
}

impl Decoder {
    ghost use Rattle.usb_set.specs.Decoding.{gathers, Answers, Finishes, IsNothingNew};
    ghost use Rattle.usb_set.specs.declared.decoder.Progress.TheVariants.{More};

    /// A decoder that has taken no byte.
    pub fn new(alloc: Global) -> Decoder
        ensures { result ≡ gathers [] }
    {
        Decoder {
            reader: Reader::new(alloc),
            fault: None,
        }
    }

    /// Parses the next bytes. Of all bytes so far, `Done { used }` comes exactly where a prefix is the layout of a set,
    /// which ends after `used` bytes of this piece, and `More` exactly where they are open: no layout and no fault.
    /// After `Done` every call answers `Done { used: 0 }`. An empty piece changes nothing.
    ///
    /// # Errors
    ///
    /// The fault that all bytes so far show, at its place, exactly where they show one; from then on the same. `Memory`
    /// at the place of a whole descriptor whose last byte is in this piece.
    #[inline(always)]
    pub fn feed(&mut self, piece: &[u8]) -> Result<Progress, SetFault>
        ensures answer { Answers self.old piece.now result self.new }
        ensures empty { IsNothingNew self.old piece.now result self.new }
    {
        if self.keeps(piece) {
            return Ok(Progress::More);
        }
        self.feed_on(piece)
    }

    /// Keeps a piece that neither ends the current descriptor nor can show a fault. So a short piece costs little. After the
    /// set's last byte, or a fault, no bytes are held: so neither is tested here.
    ///
    /// This is the first part of [`Decoder::feed`], for a caller that wants only it inline: where it answers false, nothing
    /// has changed, and the piece is still to be fed.
    ///
    /// ```rust
    /// let more = decoder.keeps(piece) || decoder.feed(piece)? == Progress::More;
    /// ```
    #[inline(always)]
    pub fn keeps(&mut self, piece: &[u8]) -> bool
        ensures kept { result ≡ true → Answers self.old piece.now (Ok More) self.new }
        ensures same { result ≡ false → self.new ≡ self.old }
    {
        known_bytes(piece);
        self.reader.keeps(piece)
    }

    /// Parses a piece of any kind.
    #[inline(always)]
    fn feed_on(&mut self, piece: &[u8]) -> Result<Progress, SetFault>
        ensures answer { Answers self.old piece.now result self.new }
        ensures empty { IsNothingNew self.old piece.now result self.new }
    {
        if let Some(fault) = self.fault {
            return Err(fault);
        }
        if self.reader.is_done() {
            return Ok(Progress::Done { used: 0 });
        }
        if piece.is_empty() {
            return Ok(Progress::More);
        }
        known_bytes(piece);
        match self.reader.read(piece) {
            Ok(progress) => Ok(progress),
            Err(fault) => {
                self.reader.clear();
                self.fault = Some(fault);
                Err(fault)
            }
        }
    }

    /// The set whose layout was read, where it was read to its end. Allocates nothing.
    ///
    /// # Errors
    ///
    /// The fault of an earlier [`Decoder::feed`], or `Truncated` at the count of bytes taken.
    #[inline(always)]
    pub fn finish(self) -> Result<Configuration, SetFault>
        ensures { Finishes self result }
    {
        let Decoder { reader, fault } = self;
        match fault {
            Some(fault) => Err(fault),
            None => reader.finish(),
        }
    }
}

/// The configuration set that the bytes begin with, and how many of them it has. What follows it is
/// not looked at.
///
/// ```rust
/// let (set, used) = read_set(alloc, &[9, 2, 9, 0, 0, 1, 0, 0x80, 0x32, 0xff])?;
/// assert_eq!(rt; (set.value, used), (1, 9));
/// ```
///
/// # Errors
///
/// The fault that the bytes show, `Truncated` at their count where they end before the set does, or
/// `Memory` at the place of a whole descriptor.
pub fn read_set(alloc: Global, bytes: &[u8]) -> Result<(Configuration, usize), SetFault>
    ensures { ReadsSet bytes.now result }
{
    let mut decoder = Decoder::new(alloc);
    let used = match decoder.feed(bytes)? {
        Progress::Done { used } => used,
        Progress::More => bytes.len(),
    };
    let c = decoder.finish()?;
    Ok((c, used))
}
