//! A file of answers beside a device's table: a line a request.
use crate::words::read_bytes;
use anyhow::Result;
use hex::FromHex;
use std::alloc::Global;
use std::str;
use usb_device::{Device, ROOM, is_open};
use usb_fields::{Direction, Setup};

/// The answers of a file, in the order of its lines.
#[derive(Drop)]
pub struct Answers {
    lines: Vec<AnswerLine>,
}

/// A line of it: requests, and how they are answered.
#[derive(Drop)]
struct AnswerLine {
    pattern: Pattern,
    reply: AnswerReply,
    /// What the last write that it took has brought.
    kept: Vec<u8>,
}

/// Requests by bmRequestType and bRequest, and by wValue and wIndex where these are looked at.
#[derive(Clone, Copy, PartialEq, Eq)]
struct Pattern {
    kind: [u8; 2],
    value: Option<[u8; 2]>,
    index: Option<[u8; 2]>,
}

/// How a request is answered.
#[derive(Drop)]
enum AnswerReply {
    /// `done`: without data, it is carried out.
    Done,
    /// `taken`: the data of a write are kept.
    Taken,
    /// `kept`: what the write of this line brought last, none before.
    Kept(Pattern),
    /// The bytes of a read.
    Bytes(Vec<u8>),
}

impl Answers {
    /// Reads the lines, or answers the number of the first that can't be carried out, from 1.
    pub fn read(alloc: Global, bytes: &[u8]) -> Result<Result<Answers, usize>> {
        let mut lines = Vec::new(alloc);
        for (before, line) in bytes.split(|byte| *byte == b'\n').enumerate() {
            match AnswerLine::read(alloc, line)? {
                Some(Some(line)) => lines.push(line)?,
                Some(None) => {}
                None => return Ok(Err(before.saturating_add(1))),
            }
        }
        Ok(Ok(Answers { lines }))
    }

    /// Answers the request that is refused, or the write whose data have all come, by the first line that fits. Where none
    /// does, or the line's answer is none to it, it stays as it is.
    pub fn answer(&mut self, alloc: Global, device: &mut Device<'_>) -> Result<()> {
        if let Some((request, bytes)) = device.written() {
            if self.keep(alloc, request, bytes)? {
                let _ = device.accept();
            }
            return Ok(());
        }
        let Some(request) = device.refused() else {
            return Ok(());
        };
        let Some(line) = self.lines.iter().find(|line| line.pattern.fits(request)) else {
            return Ok(());
        };
        let _ = match &line.reply {
            AnswerReply::Done if request.length == 0 => device.accept(),
            AnswerReply::Taken if request.length > 0 => device.accept(),
            AnswerReply::Done | AnswerReply::Taken => Ok(()),
            AnswerReply::Kept(of) => device.answer_with(self.kept_by(*of)),
            AnswerReply::Bytes(bytes) => device.answer_with(bytes),
        };
        Ok(())
    }

    /// Keeps the bytes of a write, if the first line that fits takes them.
    fn keep(&mut self, alloc: Global, request: Setup, bytes: &[u8]) -> Result<bool> {
        for line in self.lines.iter_mut() {
            if line.pattern.fits(request) {
                return line.keep(alloc, bytes);
            }
        }
        Ok(false)
    }

    /// What the last write that this line took has brought.
    fn kept_by(&self, of: Pattern) -> &[u8] {
        match self.lines.iter().find(|line| line.pattern == of) {
            Some(line) => line.kept.as_slice(),
            None => &[],
        }
    }
}

impl AnswerLine {
    /// The line with this text, or none within where it has only a comment, or none where it is no such line.
    fn read(alloc: Global, line: &[u8]) -> Result<Option<Option<AnswerLine>>> {
        let Ok(text) = str::from_utf8(line) else {
            return Ok(None);
        };
        let text = text.split_once('#').map_or(text, |(before, _)| before);
        let words = text.split_whitespace().collect::<Vec<&str>>(alloc)?;
        let Some((request, answer)) = words.split_first() else {
            return Ok(Some(None));
        };
        Ok(AnswerLine::of(alloc, request, answer).map(Some))
    }

    /// The line with these words, if such requests can be answered so.
    fn of(alloc: Global, request: &str, answer: &[&str]) -> Option<AnswerLine> {
        let pattern = Pattern::read(request)?;
        let example = pattern.example();
        if !is_open(example) {
            return None;
        }
        let reply = match answer {
            [word] if *word == "done" => AnswerReply::Done,
            [word] if *word == "taken" && example.direction() == Direction::Out =>
                AnswerReply::Taken,
            [word, of] if *word == "kept" && example.direction() == Direction::In => {
                let of = Pattern::read(of)?;
                if of.example().direction() == Direction::In {
                    return None;
                }
                AnswerReply::Kept(of)
            }
            [word] if example.direction() == Direction::In => {
                let bytes = read_bytes(alloc, word)?;
                if bytes.len() > ROOM {
                    return None;
                }
                AnswerReply::Bytes(bytes)
            }
            _ => return None,
        };
        Some(AnswerLine {
            pattern,
            reply,
            kept: Vec::new(alloc),
        })
    }

    /// Keeps the bytes of a write, if it takes them.
    fn keep(&mut self, alloc: Global, bytes: &[u8]) -> Result<bool> {
        if !matches!(self.reply, AnswerReply::Taken) {
            return Ok(false);
        }
        self.kept = Vec::from_slice(alloc, bytes)?;
        Ok(true)
    }
}

impl Pattern {
    /// The first six bytes of a setup packet in hexadecimal, with `****` for any wValue or wIndex.
    fn read(word: &str) -> Option<Pattern> {
        let [k0, k1, k2, k3, v0, v1, v2, v3, i0, i1, i2, i3] = word.as_bytes() else {
            return None;
        };
        Some(Pattern {
            kind: <[u8; 2] as FromHex>::from_hex([*k0, *k1, *k2, *k3]).ok()?,
            value: read_either([*v0, *v1, *v2, *v3])?,
            index: read_either([*i0, *i1, *i2, *i3])?,
        })
    }

    /// Whether it is for this request.
    fn fits(&self, request: Setup) -> bool {
        self.kind == [request.request_type, request.request]
            && self
                .value
                .is_none_or(|value| u16::from_le_bytes(value) == request.value)
            && self
                .index
                .is_none_or(|index| u16::from_le_bytes(index) == request.index)
    }

    /// A request that it fits: a type of descriptor that no file has, where any wValue will do.
    fn example(&self) -> Setup {
        let [kind, request] = self.kind;
        let [v0, v1] = self.value.unwrap_or([0, 0xff]);
        let [i0, i1] = self.index.unwrap_or([0, 0]);
        Setup::from_bytes(&[kind, request, v0, v1, i0, i1, 0, 0])
    }
}

/// Two bytes, or none where any will do.
fn read_either(digits: [u8; 4]) -> Option<Option<[u8; 2]>> {
    if digits == *b"****" {
        return Some(None);
    }
    <[u8; 2] as FromHex>::from_hex(digits).ok().map(Some)
}
