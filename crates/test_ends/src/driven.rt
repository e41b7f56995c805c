//! A device that is driven transaction by transaction.
use crate::answer::answer_text;
use crate::answers::Answers;
use crate::outcome::Outcome;
use crate::sent::Sent;
use crate::state::state_text;
use crate::words::read_bytes;
use anyhow::Result;
use std::alloc::Global;
use usb_device::{Description, Device, DeviceStage, Unanswered};
use usb_fields::{Answer, Setup, Transaction};

/// An address that no device has: a transaction to another endpoint than zero reaches this one no more than one to
/// another device, since it has no other.
const NOBODY: u8 = 128;

/// A device, where transactions go, and what is answered beside its table.
#[derive(Drop)]
pub struct Driven<'d> {
    device: Device<'d>,
    address: u8,
    endpoint: u8,
    /// The answers to what it refuses, if a file of them was read.
    pub answers: Option<Answers>,
}

impl<'d> Driven<'d> {
    /// A new device; transactions go to endpoint 0 at address 0.
    pub fn new(description: &'d Description) -> Driven<'d> {
        Driven {
            device: Device::new(description),
            address: 0,
            endpoint: 0,
            answers: None,
        }
    }

    /// What comes of a step with the device, if it is one.
    pub fn act(&mut self, alloc: Global, words: &[&str]) -> Result<Option<Outcome>> {
        match words {
            [verb] => self.act_alone(alloc, verb),
            [verb, word] if *verb == "address" => Ok(set(&mut self.address, word)),
            [verb, word] if *verb == "endpoint" => Ok(set(&mut self.endpoint, word)),
            [verb, word] if *verb == "answer" => match read_bytes(alloc, word) {
                Some(bytes) => Ok(Some(taken(alloc, self.device.answer_with(&bytes))?)),
                None => Ok(None),
            },
            [front @ .., last] if *last == "busy" => self.send(alloc, front, false),
            _ => self.send(alloc, words, true),
        }
    }

    /// What comes of a step of one word.
    fn act_alone(&mut self, alloc: Global, verb: &str) -> Result<Option<Outcome>> {
        Ok(Some(match verb {
            "reset" => {
                self.device.reset();
                Outcome::Word("done")
            }
            "acked" => {
                self.device.acked();
                Outcome::Word("done")
            }
            "state" => Outcome::Text(state_text(alloc, &self.device.state())?),
            "refused" => report(alloc, self.device.refused())?,
            "carried" => report(alloc, self.device.carried_out())?,
            "accept" => taken(alloc, self.device.accept())?,
            "written" => self.written(alloc)?,
            "refuse" => {
                self.device.refuse();
                Outcome::Word("done")
            }
            _ => return self.send(alloc, &[verb], true),
        }))
    }

    /// The write whose data have all come, as in `2109000200000100 02`, or `none`.
    fn written(&self, alloc: Global) -> Result<Outcome> {
        Ok(match self.device.written() {
            Some((request, bytes)) => {
                let (request, bytes) = (
                    hex::encode(alloc, request.to_bytes())?,
                    hex::encode(alloc, bytes)?,
                );
                Outcome::Text(format!(in alloc; "{request} {bytes}")?)
            }
            None => Outcome::Word("none"),
        })
    }

    /// A transaction with the device, which is ready or not. After a packet that it took, the answers are asked: they
    /// answer where a request is refused, or all data of a write have come.
    fn send(&mut self, alloc: Global, words: &[&str], ready: bool) -> Result<Option<Outcome>> {
        let Some(sent) = Sent::read(alloc, words) else {
            return Ok(None);
        };
        let address = if self.endpoint == 0 {
            self.address
        } else {
            NOBODY
        };
        let transaction = Transaction {
            address,
            stage: sent.stage(),
        };
        let answer = self.device.serve(&transaction, ready);
        let was_taken = matches!(&answer, Answer::Ack);
        let text = answer_text(alloc, &answer)?;
        if was_taken {
            if let Some(answers) = &mut self.answers {
                answers.answer(alloc, &mut self.device)?;
            }
        }
        Ok(Some(Outcome::Text(text)))
    }

    /// What the device holds: its state and its stage.
    pub fn trace(&self, alloc: Global) -> Result<String> {
        let state = state_text(alloc, &self.device.state())?;
        let stage = stage_word(self.device.stage());
        Ok(format!(in alloc; "{state} stage={stage}")?)
    }
}

/// Takes the number that the word is, if it is one.
fn set(number: &mut u8, word: &str) -> Option<Outcome> {
    *number = word.parse::<u8>().ok()?;
    Some(Outcome::Word("done"))
}

/// A request by its eight bytes, or `none`.
fn report(alloc: Global, request: Option<Setup>) -> Result<Outcome> {
    Ok(match request {
        Some(request) => Outcome::Text(hex::encode(alloc, request.to_bytes())?),
        None => Outcome::Word("none"),
    })
}

/// Whether an answer was taken, and if not the number of the reason.
fn taken(alloc: Global, answered: Result<(), Unanswered>) -> Result<Outcome> {
    Ok(match answered {
        Ok(()) => Outcome::Word("done"),
        Err(why) => Outcome::Text(format!(in alloc; "unanswered {}", why.number())?),
    })
}

fn stage_word(stage: DeviceStage) -> &'static str {
    match stage {
        DeviceStage::Idle => "idle",
        DeviceStage::Halted => "halted",
        DeviceStage::Sending => "data",
        DeviceStage::StatusOut => "status-out",
        DeviceStage::Over => "over",
        DeviceStage::StatusIn => "status-in",
        DeviceStage::Receiving => "receiving",
        DeviceStage::Written => "written",
    }
}
