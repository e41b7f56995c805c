//! An input in pieces, and what can be done to them.
use crate::form::Form;
use crate::numbers::Numbers;
use std::alloc::{AllocError, Global};

/// The descriptors of an input, or its lines.
#[derive(Drop)]
pub(crate) struct Pieces {
    alloc: Global,
    pieces: Vec<Vec<u8>>,
}

impl Pieces {
    /// The pieces of these bytes.
    pub(crate) fn of(alloc: Global, form: Form, bytes: &[u8]) -> Result<Pieces, AllocError> {
        let mut pieces = Vec::new(alloc);
        let mut rest = bytes;
        for _ in 0..bytes.len() {
            if rest.is_empty() {
                break;
            }
            let length = form.piece_length(rest).min(rest.len());
            let (piece, behind) = rest.split_at(length);
            pieces.push(Vec::from_slice(alloc, piece)?)?;
            rest = behind;
        }
        Ok(Pieces { alloc, pieces })
    }

    /// All bytes, one piece after another.
    pub(crate) fn joined(&self) -> Result<Vec<u8>, AllocError> {
        let mut bytes = Vec::new(self.alloc);
        for piece in self.pieces.iter() {
            bytes.extend_from_slice(piece)?;
        }
        Ok(bytes)
    }

    /// One change: a byte is changed, the input is cut, a piece occurs twice, two are swapped, or one is dropped.
    pub(crate) fn change(
        &mut self,
        numbers: &mut Numbers,
        values: &[u8],
    ) -> Result<(), AllocError> {
        if self.pieces.is_empty() {
            return Ok(());
        }
        let kind = numbers.below(8);
        let at = numbers.below(self.pieces.len());
        let other = numbers.below(self.pieces.len());
        match kind {
            4 => self.cut(at, numbers),
            5 => {
                let piece = Vec::from_slice(
                    self.alloc,
                    self.pieces.get(at).map_or(&[], |piece| piece),
                )?;
                self.pieces.insert(at, piece)?;
            }
            6 => self.pieces.swap(at, other),
            7 => {
                let _ = self.pieces.remove(at);
            }
            _ => self.change_byte(at, numbers, values),
        }
        Ok(())
    }

    /// Changes a byte of the piece there: to any number, up or down by one, or to one of these values.
    fn change_byte(&mut self, at: usize, numbers: &mut Numbers, values: &[u8]) {
        let Some(piece) = self.pieces.get_mut(at) else {
            return;
        };
        if piece.is_empty() {
            return;
        }
        let place = numbers.below(piece.len());
        let (kind, number) = (numbers.below(4), numbers.below(256));
        let round = number.checked_rem(values.len()).unwrap_or(0);
        if let Some(byte) = piece.get_mut(place) {
            *byte = match kind {
                0 => number as u8,
                1 => byte.wrapping_add(1),
                2 => byte.wrapping_sub(1),
                _ => values.get(round).copied().unwrap_or(0),
            };
        }
    }

    /// Cuts the input in the piece there.
    fn cut(&mut self, at: usize, numbers: &mut Numbers) {
        let Some(piece) = self.pieces.get_mut(at) else {
            return;
        };
        if piece.is_empty() {
            return;
        }
        piece.truncate(numbers.below(piece.len()));
        self.pieces.truncate(at.saturating_add(1));
    }

    /// Writes into each configuration descriptor, as wTotalLength (USB 2.0, table 9-10), how many bytes there are up to
    /// the next descriptor that can't be in its set: a device, a configuration of either kind, a string or a qualifier
    /// (USB 2.0, table 9-5).
    pub(crate) fn mend(&mut self) {
        let mut total = 0usize;
        for piece in self.pieces.iter_mut().rev() {
            total = total.saturating_add(piece.len());
            if let [_, 2 | 7, low, high, ..] = piece.as_mut_slice() {
                let [first, second] = ((total % 65_536) as u16).to_le_bytes();
                *low = first;
                *high = second;
            }
            if matches!(piece.as_slice(), [_, 1 | 2 | 3 | 6 | 7, ..]) {
                total = 0;
            }
        }
    }
}
