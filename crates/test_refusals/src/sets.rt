//! Calls on the longest set.
use crate::answer::{Answer, Call, again, refused, right};
use crate::longest::{SET_LENGTH, SET_TEXT_LENGTH, fill_set, is_front_of_set_text};
use crate::onto::{Added, add_twice};
use std::alloc::Global;
use std::io::Cursor;
use usb_file::{OutFault, list_set};
use usb_set::{Configuration, Decoder, EncodeFault, SetFault, SetWhy, encode, read_set, refusal};

/// The calls on the longest set.
pub(crate) fn calls(alloc: Global) -> [Call; 5] {
    let mut bytes = [0u8; SET_LENGTH];
    fill_set(&mut bytes);
    let (decoded, set) = decode(alloc, &bytes);
    let Some(set) = &set else {
        return [("decode", Answer::Wrong); 5];
    };
    [
        ("decode", decoded),
        ("encode", again!(encode_to(alloc, set, &bytes))),
        ("encode_onto", add_twice(alloc, Added::Set(set), &bytes)),
        ("refusal", right(refusal(set).is_none())),
        ("list_set", list(alloc, set)),
    ]
}

/// Decodes a descriptor a piece. Where memory is wanting, it says so at the descriptor that it reads and from then on;
/// then the set is read once more.
fn decode(alloc: Global, bytes: &[u8]) -> (Answer, Option<Configuration>) {
    let mut decoder = Decoder::new(alloc);
    match feed_all(&mut decoder, bytes) {
        None => {
            let set = decoder.finish().ok();
            (right(set.is_some()), set)
        }
        Some((at, fault)) => {
            let there = fault.why == SetWhy::Memory && fault.at as usize == at;
            let stays = feed_fault(&mut decoder, bytes) == Some(fault)
                && feed_fault(&mut decoder, &[]) == Some(fault)
                && decoder.finish().err() == Some(fault);
            let set = read_set(alloc, bytes).ok().map(|read| read.0);
            (refused(stays && there), set)
        }
    }
}

/// Feeds a descriptor a piece, each with an empty piece before it. The place of the first that is refused, and its
/// fault; for an empty one a place where no descriptor is.
fn feed_all(decoder: &mut Decoder, bytes: &[u8]) -> Option<(usize, SetFault)> {
    let mut rest = bytes;
    let mut at = 0usize;
    for _ in 0..bytes.len() {
        let Some(length) = rest.first() else {
            break;
        };
        let (piece, after) = rest.split_at(rest.len().min(usize::from(*length)));
        if let Some(fault) = feed_fault(decoder, &[]) {
            return Some((bytes.len(), fault));
        }
        if let Some(fault) = feed_fault(decoder, piece) {
            return Some((at, fault));
        }
        at = at.saturating_add(piece.len());
        rest = after;
    }
    None
}

/// The fault of a piece.
fn feed_fault(decoder: &mut Decoder, piece: &[u8]) -> Option<SetFault> {
    decoder.feed(piece).err()
}

/// Encodes the set to these bytes.
pub(crate) fn encode_to(alloc: Global, set: &Configuration, bytes: &[u8]) -> Answer {
    match encode(alloc, set) {
        Ok(written) => right(written.as_slice() == bytes),
        Err(EncodeFault::Memory) => Answer::Memory,
        Err(_) => Answer::Wrong,
    }
}

/// Lists the set.
fn list(alloc: Global, set: &Configuration) -> Answer {
    let mut page = [0u8; SET_TEXT_LENGTH];
    let mut writer = Cursor::new(page.as_mut_slice());
    let outcome = list_set(alloc, set, &mut writer);
    let written = writer.position().min(SET_TEXT_LENGTH as u64) as usize;
    let is_front = is_front_of_set_text(&page[..written]);
    listed(outcome, is_front, written == SET_TEXT_LENGTH)
}

/// What a listing answered that wrote a prefix of the right text or not, and as many bytes or not. Where memory is
/// wanting, these are fewer.
pub(crate) fn listed(outcome: Result<(), OutFault>, is_front: bool, is_whole: bool) -> Answer {
    match outcome {
        Ok(()) => right(is_front && is_whole),
        Err(OutFault::Memory) => refused(is_front && !is_whole),
        Err(OutFault::Write) => Answer::Wrong,
    }
}
