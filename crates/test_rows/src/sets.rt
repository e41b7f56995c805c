//! Rows on configuration sets.
use crate::fields::fault;
use crate::tree::set_of;
use crate::words::bytes_of;
use anyhow::{Context, Result, ensure};
use std::alloc::Global;
use usb_set::{Configuration, Decoder, EncodeFault, Progress, SetFault, encode, read_set, refusal};

/// The lengths of the pieces in which each set is fed.
const LENGTHS: [usize; 8] = [1, 2, 3, 64, 254, 255, 256, 65_535];

/// A set of at most this many bytes is also cut in two at each place.
const SHORT: usize = 1000;

/// What is read of the pieces of a set: the set and its length, or a fault.
type Read = std::result::Result<(Configuration, usize), SetFault>;

/// How many bytes the set has that the bytes begin with, or their fault; whichever way they are cut. The set is encoded
/// to the same bytes.
pub(crate) fn set(alloc: Global, words: &[String]) -> Result<String> {
    let bytes = bytes_of(alloc, words)?;
    let whole = read(alloc, &bytes, bytes.len(), 1)?;
    for length in LENGTHS {
        ensure!(
            read(alloc, &bytes, 0, length)? == whole,
            "pieces of {length} bytes give another answer"
        );
    }
    if bytes.len() <= SHORT {
        cut_everywhere(alloc, &bytes, &whole)?;
    }
    match &whole {
        Ok((set, length)) => {
            let again = encoded(alloc, set)??;
            ensure!(
                bytes.get(..*length) == Some(again.as_slice()),
                "other bytes are written"
            );
            Ok(format!(in alloc; "done {length}")?)
        }
        Err(fault) => reported_fault(alloc, *fault),
    }
}

/// Reads the bytes in two pieces, cut at each place.
fn cut_everywhere(alloc: Global, bytes: &[u8], whole: &Read) -> Result<()> {
    for place in 0..=bytes.len() {
        ensure!(
            read(alloc, bytes, place, usize::MAX)? == *whole,
            "cut at {place} they give another answer"
        );
    }
    Ok(())
}

/// What is read of the bytes in a first piece of this many, and the rest in pieces of this length.
fn read(alloc: Global, bytes: &[u8], first: usize, length: usize) -> Result<Read> {
    let (front, rest) = bytes.split_at(first.min(bytes.len()));
    let mut reading = Reading {
        decoder: Decoder::new(alloc),
        length: 0,
        fault: None,
    };
    reading.take(front)?;
    for piece in rest.chunks(length.max(1)) {
        reading.take(piece)?;
    }
    reading.finish()
}

/// A fault and its place.
fn reported_fault(alloc: Global, fault: SetFault) -> Result<String> {
    Ok(format!(in alloc; "fault {} at {}", fault.why.number(), fault.at)?)
}

/// The set that the bytes are.
fn decoded(alloc: Global, bytes: &[u8]) -> Result<Configuration> {
    let (set, used) = read_set(alloc, bytes)?;
    ensure!(used == bytes.len(), "it has {used} bytes");
    Ok(set)
}

/// The bytes of the set, or why it has none, which `refusal` has as well.
fn encoded(
    alloc: Global,
    set: &Configuration,
) -> Result<std::result::Result<Vec<u8>, EncodeFault>> {
    let outcome = encode(alloc, set);
    ensure!(
        outcome.as_ref().err() == refusal(set).as_ref(),
        "another refusal is told"
    );
    Ok(outcome)
}

/// Reads the set that the bytes are, and encodes it to these bytes.
pub(crate) fn go_round(alloc: Global, bytes: &[u8]) -> Result<()> {
    let set = decoded(alloc, bytes)?;
    ensure!(
        encoded(alloc, &set)??.as_slice() == bytes,
        "other bytes are written"
    );
    Ok(())
}

/// A decoder with what it has answered so far.
#[derive(Drop)]
struct Reading {
    decoder: Decoder,
    length: usize,
    fault: Option<SetFault>,
}

impl Reading {
    /// Feeds a piece, and an empty one, which changes nothing. After a fault each is answered with it.
    fn take(&mut self, piece: &[u8]) -> Result<()> {
        let answer = self.decoder.feed(piece);
        ensure!(
            self.fault.is_none_or(|first| answer == Err(first)),
            "a fault is forgotten"
        );
        let settled = match answer {
            Ok(Progress::More) => {
                self.length = self.length.saturating_add(piece.len());
                answer
            }
            Ok(Progress::Done { used }) => {
                self.length = self.length.saturating_add(used);
                Ok(Progress::Done { used: 0 })
            }
            Err(fault) => {
                self.fault = Some(fault);
                answer
            }
        };
        ensure!(
            self.decoder.feed(&[]) == settled,
            "an empty piece is answered otherwise"
        );
        Ok(())
    }

    fn finish(self) -> Result<Read> {
        let length = self.length;
        let read = self.decoder.finish();
        if let Some(fault) = self.fault {
            ensure!(
                read.as_ref().err() == Some(&fault),
                "a fault is forgotten at the end"
            );
        }
        Ok(read.map(|set| (set, length)))
    }
}

/// What each piece is answered with, on a line; the first word is their length.
pub(crate) fn feed(alloc: Global, words: &[String]) -> Result<String> {
    let (length, words) = words.split_first().context("no length of the pieces")?;
    let length = length.parse::<usize>()?.max(1);
    let bytes = bytes_of(alloc, words)?;
    let mut decoder = Decoder::new(alloc);
    let mut answers = String::new(alloc);
    for piece in bytes.chunks(length) {
        let answer = match decoder.feed(piece) {
            Ok(Progress::More) => String::from_str(alloc, "more")?,
            Ok(Progress::Done { used }) => format!(in alloc; "done {used}")?,
            Err(fault) => reported_fault(alloc, fault)?,
        };
        answers.push_str(answer.as_str())?;
        answers.push_str("\n")?;
    }
    Ok(answers)
}

/// The bytes of the set that the lines say, from which it is read back, or why it has none.
pub(crate) fn encode_lines(alloc: Global, lines: &str) -> Result<String> {
    let set = set_of(alloc, lines)?;
    match encoded(alloc, &set)? {
        Ok(bytes) => {
            ensure!(decoded(alloc, &bytes)? == set, "another set is read back");
            Ok(hex::encode(alloc, &bytes)?)
        }
        Err(why) => fault(alloc, why.number()),
    }
}
