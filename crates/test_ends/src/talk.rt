//! Talks and enumerations over a bus that loses packets.
use crate::bench::Target;
use crate::host::end_text;
use crate::outcome::Outcome;
use crate::words::read_fates;
use anyhow::Result;
use hex::FromHex;
use std::alloc::{AllocError, Global};
use usb_bus::{Conversation, Fate, Reply, enumerate_logged};
use usb_device::Description;
use usb_fields::Setup;
use usb_host::Limits;

/// What a bus does to the talks that are made over it.
#[derive(Drop)]
pub struct Bus {
    naks: u16,
    fates: Vec<Fate>,
    /// The log of the enumeration that was made last.
    pub(crate) log: String,
}

impl Bus {
    /// A bus that loses nothing, on which 16 NAKs are retried.
    pub fn new(alloc: Global) -> Bus {
        Bus {
            naks: 16,
            fates: Vec::new(alloc),
            log: String::new(alloc),
        }
    }

    /// Forgets the fates.
    pub fn reset(&mut self) {
        self.fates.clear();
    }

    /// What comes of a step of a talk, if it is one.
    pub fn act(
        &mut self,
        alloc: Global,
        target: &mut Target<'_>,
        words: &[&str],
    ) -> Result<Option<Outcome>> {
        match words {
            [verb, number] if *verb == "naks" => {
                let Ok(naks) = number.parse::<u16>() else {
                    return Ok(None);
                };
                self.naks = naks;
            }
            [verb, letters] if *verb == "fates" => {
                let Some(fates) = read_fates(alloc, letters)? else {
                    return Ok(None);
                };
                self.fates = fates;
            }
            [verb, packet] if *verb == "request" => {
                let Ok(packet) = <[u8; 8] as FromHex>::from_hex(*packet) else {
                    return Ok(None);
                };
                return self.request(alloc, target, Setup::from_bytes(&packet));
            }
            [verb] if *verb == "end" => return self.end(alloc, target),
            [verb, letters] if *verb == "enumerate" => {
                let Some(fates) = read_fates(alloc, letters)? else {
                    return Ok(None);
                };
                return self.enumerate(alloc, target.description, &fates);
            }
            _ => return Ok(None),
        }
        Ok(Some(Outcome::Word("done")))
    }

    /// The current talk, or a new one.
    fn current_talk<'d>(&self, alloc: Global, target: &mut Target<'d>) -> Conversation<'d> {
        match target.conversation.take() {
            Some(conversation) => conversation,
            None => Conversation::new(alloc, target.description, self.naks),
        }
    }

    /// One more request.
    fn request(
        &self,
        alloc: Global,
        target: &mut Target<'_>,
        request: Setup,
    ) -> Result<Option<Outcome>> {
        let mut conversation = self.current_talk(alloc, target);
        let place = conversation.talk().replies.len();
        conversation.request(alloc, request, &self.fates)?;
        let outcome = reply_outcome(alloc, conversation.talk().replies.get(place))?;
        target.conversation = Some(conversation);
        Ok(Some(outcome))
    }

    /// The end of the talk, as in `5 transactions, address 0, configuration 0`; the reason goes first where it stopped.
    fn end(&mut self, alloc: Global, target: &mut Target<'_>) -> Result<Option<Outcome>> {
        let talk = self.current_talk(alloc, target).into_talk();
        self.reset();
        let transactions = talk.transactions;
        let (address, selected) = (talk.state.address, talk.state.selected);
        let text = format!(in alloc;
            "{transactions} transactions, address {address}, configuration {selected}"
        )?;
        Ok(Some(Outcome::Text(match talk.stopped {
            None => text,
            Some(why) => format!(in alloc; "{why}, {text}")?,
        })))
    }

    /// A whole enumeration of a new device under these fates, and how it ended: address 1, at most three attempts.
    fn enumerate(
        &mut self,
        alloc: Global,
        description: &Description,
        fates: &[Fate],
    ) -> Result<Option<Outcome>> {
        let limits = Limits::new(1, self.naks, 3)?;
        let mut log = Vec::new(alloc);
        let run = enumerate_logged(alloc, description, limits, fates, false, &mut log)?;
        self.log = String::from_utf8(log)?;
        let text = end_text(alloc, run.outcome.err(), run.attempts, run.transactions)?;
        Ok(Some(Outcome::Text(text)))
    }
}

/// What came of a request: the bytes in hexadecimal, `done`, `stall`, or `none` where the talk had stopped.
fn reply_outcome(alloc: Global, reply: Option<&Reply>) -> Result<Outcome, AllocError> {
    Ok(match reply {
        None => Outcome::Word("none"),
        Some(Reply::Done) => Outcome::Word("done"),
        Some(Reply::Refused) => Outcome::Word("stall"),
        Some(Reply::Bytes(bytes)) => Outcome::Bytes(Vec::from_slice(alloc, &bytes)?),
    })
}
