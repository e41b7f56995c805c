//! All that steps are played with. Each part knows its own steps: a further one is a file of its own, and a line here.
use crate::answer::Said;
use crate::driven::Driven;
use crate::host::{HostInWork, HostWords};
use crate::outcome::Outcome;
use crate::steps::STEPS;
use crate::talk::Bus;
use crate::transfer::TransferInWork;
use anyhow::Result;
use std::alloc::Global;
use usb_bus::Conversation;
use usb_device::Description;

/// What steps are played with, but for a device.
#[derive(Drop)]
pub struct Bench {
    pub(crate) bus: Bus,
    pub(crate) work: Work,
    /// Whether what the ends hold is printed after each step.
    pub(crate) traces: bool,
}

/// Whom answers go to: a host or a transfer, whichever was begun last.
#[derive(Drop)]
pub(crate) enum Work {
    Nothing,
    Transfer(TransferInWork),
    Host(HostInWork),
}

/// A device that was made, and what it was made of.
#[derive(Drop)]
pub struct Target<'d> {
    pub(crate) description: &'d Description,
    pub(crate) driven: Driven<'d>,
    /// The talk with another device of that kind, once a request was made.
    pub(crate) conversation: Option<Conversation<'d>>,
}

impl Bench {
    /// What comes of a step, with the device if there is one. Where the words are no step, nothing changes.
    pub fn act(
        &mut self,
        alloc: Global,
        target: &mut Option<Target<'_>>,
        words: &[&str],
    ) -> Result<Outcome> {
        let verb = words.first().map_or("", |verb| *verb);
        let Some((_, form)) = STEPS.iter().find(|(word, _)| *word == verb) else {
            return Ok(Outcome::NoStep("no such step"));
        };
        let outcome = if is_hosts(words) {
            self.act_as_host(alloc, words)?
        } else {
            let Some(target) = target else {
                return Ok(Outcome::NoStep("no device"));
            };
            if verb == "reset" && words.len() == 1 {
                self.bus.reset();
                target.conversation = None;
            }
            match target.driven.act(alloc, words)? {
                Some(outcome) => Some(outcome),
                None => self.bus.act(alloc, target, words)?,
            }
        };
        Ok(outcome.unwrap_or(Outcome::NoStep(*form)))
    }

    /// What comes of a step that needs no device, if it is one.
    fn act_as_host(&mut self, alloc: Global, words: &[&str]) -> Result<Option<Outcome>> {
        match words {
            [verb, word] if *verb == "trace" => {
                if !matches!(*word, "on" | "off") {
                    return Ok(None);
                }
                self.traces = *word == "on";
                Ok(Some(Outcome::Word("done")))
            }
            [verb, rest @ ..] if *verb == "transfer" => self.begin_transfer(alloc, rest),
            [verb, rest @ ..] if *verb == "host" => self.begin_host(alloc, rest),
            _ => match &mut self.work {
                Work::Nothing => Ok(None),
                Work::Host(host) => host.act(alloc, words),
                Work::Transfer(transfer) => match Said::read(alloc, words) {
                    Some(said) => Ok(Some(transfer.take(alloc, &said)?)),
                    None => Ok(None),
                },
            },
        }
    }

    /// A new transfer in place of what was current, if the words say one.
    fn begin_transfer(&mut self, alloc: Global, words: &[&str]) -> Result<Option<Outcome>> {
        let Some(transfer) = TransferInWork::read(alloc, words) else {
            return Ok(None);
        };
        let due = transfer.due(alloc)?;
        self.work = Work::Transfer(transfer);
        Ok(Some(Outcome::Text(due)))
    }

    /// A new host in place of what was current, if the words say one and its limits are in their ranges.
    fn begin_host(&mut self, alloc: Global, words: &[&str]) -> Result<Option<Outcome>> {
        let Some(host) = HostWords::read(words) else {
            return Ok(None);
        };
        match host.limits {
            Ok(limits) => {
                self.work = Work::Host(HostInWork::new(alloc, limits, host.speed, host.choice));
                Ok(Some(Outcome::Word("reset")))
            }
            Err(fault) => {
                let number = fault.number();
                Ok(Some(Outcome::Text(format!(in alloc; "refused {number}")?)))
            }
        }
    }

    /// After a transaction, where traces are asked for: what the device or the host holds.
    pub fn traced(
        &self,
        alloc: Global,
        target: &Option<Target<'_>>,
        words: &[&str],
    ) -> Result<Option<String>> {
        let verb = words.first().map_or("", |verb| *verb);
        if !self.traces || matches!(verb, "trace" | "state" | "listing" | "forgiven") {
            return Ok(None);
        }
        if verb == "enumerate" {
            return Ok(Some(String::from_str(alloc, self.bus.log.as_str())?));
        }
        if is_hosts(words) {
            return match &self.work {
                Work::Host(host) => Ok(Some(host.state(alloc)?)),
                _ => Ok(None),
            };
        }
        if !matches!(verb, "setup" | "in" | "out" | "acked") {
            return Ok(None);
        }
        match target {
            Some(target) => Ok(Some(target.driven.trace(alloc)?)),
            None => Ok(None),
        }
    }
}

/// Whether words are of a step that needs no device.
fn is_hosts(words: &[&str]) -> bool {
    match words {
        [verb, _] if *verb == "state" => true,
        [verb, ..] => matches!(
            *verb,
            "trace"
                | "transfer"
                | "host"
                | "reset_done"
                | "listing"
                | "forgiven"
                | "ack"
                | "nak"
                | "stall"
                | "silence"
                | "data0"
                | "data1"
        ),
        [] => false,
    }
}
