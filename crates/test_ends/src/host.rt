//! A host that enumerates a device, answer by answer.
use crate::answer::Said;
use crate::outcome::Outcome;
use crate::sent::due_text;
use crate::words::read_speed;
use anyhow::Result;
use std::alloc::{AllocError, Global};
use usb_fields::Speed;
use usb_file::{DescriptorFile, list};
use usb_host::{Action, Choice, Host, LimitFault, Limits, NamedStrings, Trouble};

/// A host.
#[derive(Drop)]
pub struct HostInWork {
    host: Host,
    transactions: u64,
    /// The lines of the listing of what it read, once one was asked for.
    listing: Option<Vec<String>>,
}

impl HostInWork {
    /// A new host, which asks a device of this speed for so much.
    pub fn new(alloc: Global, limits: Limits, speed: Speed, choice: Choice) -> HostInWork {
        HostInWork {
            host: Host::with_choice(alloc, limits, speed, choice),
            transactions: 0,
            listing: None,
        }
    }

    /// What comes of a step of the host, if it is one.
    pub fn act(&mut self, alloc: Global, words: &[&str]) -> Result<Option<Outcome>> {
        match words {
            [verb] if *verb == "reset_done" => self.host.reset_done(),
            [verb, number] if *verb == "listing" => return self.line(alloc, number),
            [verb] if *verb == "forgiven" => {
                return Ok(Some(Outcome::Text(self.forgiven(alloc)?)));
            }
            [verb, word] if *verb == "state" && *word == "host" => {
                return Ok(Some(Outcome::Text(self.state(alloc)?)));
            }
            _ => {
                let Some(said) = Said::read(alloc, words) else {
                    return Ok(None);
                };
                // An answer is counted where it answers a transaction that came next.
                if matches!(self.host.next(), Action::Send(_)) {
                    self.transactions = self.transactions.saturating_add(1);
                }
                self.host.take(said.answer());
            }
        }
        Ok(Some(self.due(alloc)?))
    }

    /// What comes next, or how the host ended.
    pub fn due(&self, alloc: Global) -> Result<Outcome> {
        let (attempts, transactions) = (self.host.attempts(), self.transactions);
        Ok(match self.host.next() {
            Action::Reset => Outcome::Word("reset"),
            Action::Send(transaction) => Outcome::Text(due_text(alloc, &transaction)?),
            Action::Ended => match self.host.outcome() {
                Some(outcome) => {
                    let trouble = outcome.err();
                    Outcome::Text(end_text(alloc, trouble, attempts, transactions)?)
                }
                None => Outcome::Word("none"),
            },
        })
    }

    /// What the host holds: its attempts, and of the current transfer the losses and the NAKs in a row, the bytes that
    /// came, and the step; the last is `-` where none is current.
    pub fn state(&self, alloc: Global) -> Result<String, AllocError> {
        let attempts = self.host.attempts();
        let (Some(transfer), Some(step)) = (self.host.transfer(), self.host.step()) else {
            return format!(in alloc; "attempts={attempts} strikes=0 naks=0 kept=0 step=-");
        };
        let (strikes, naks, kept) = (transfer.strikes(), transfer.nak_count(), transfer.kept());
        format!(in alloc;
            "attempts={attempts} strikes={strikes} naks={naks} kept={kept} step={step}"
        )
    }

    /// The troubles that were passed over, each with its number and its step, or `none`.
    fn forgiven(&self, alloc: Global) -> Result<String, AllocError> {
        let mut text = String::new(alloc);
        for trouble in self.host.forgiven() {
            let (why, step) = (trouble.why.number(), trouble.step);
            if !text.is_empty() {
                text.push_str(", ")?;
            }
            text.push_str(&format!(in alloc; "{why} {step}")?)?;
        }
        if text.is_empty() {
            return String::from_str(alloc, "none");
        }
        Ok(text)
    }

    /// A line of the listing of what was read, counted from 1, or `none` where there is no such line.
    fn line(&mut self, alloc: Global, number: &str) -> Result<Option<Outcome>> {
        let Ok(number) = number.parse::<usize>() else {
            return Ok(None);
        };
        if self.listing.is_none() {
            if let Some(Ok(file)) = self.host.outcome() {
                self.listing = Some(listing_of(alloc, file)?);
            }
        }
        let line = match (&self.listing, number.checked_sub(1)) {
            (Some(lines), Some(place)) => lines.get(place),
            _ => None,
        };
        Ok(Some(match line {
            Some(line) => Outcome::Text(String::from_str(alloc, line.as_str())?),
            None => Outcome::Word("none"),
        }))
    }
}

/// What a host is made of.
#[derive(Clone, Copy, Debug)]
pub struct HostWords {
    pub speed: Speed,
    pub limits: Result<Limits, LimitFault>,
    pub choice: Choice,
}

impl HostWords {
    /// As in `full address 1 naks 16 attempts 3`, with `strings needed`, `wanted` or `skipped` and `other_speed yes` or
    /// `no` behind it where the host isn't to ask for everything.
    pub fn read(words: &[&str]) -> Option<HostWords> {
        let [
            speed,
            first,
            address,
            second,
            naks,
            third,
            attempts,
            rest @ ..,
        ] = words
        else {
            return None;
        };
        if *first != "address" || *second != "naks" || *third != "attempts" {
            return None;
        }
        let naks = naks.parse::<u16>().ok()?;
        Some(HostWords {
            speed: read_speed(speed)?,
            limits: Limits::new(read_limit(address)?, naks, read_limit(attempts)?),
            choice: read_choice(rest)?,
        })
    }
}

/// What a host is to ask for, in words: everything where there are none.
fn read_choice(words: &[&str]) -> Option<Choice> {
    let everything = Choice::everything();
    let (strings, words) = match words {
        [first, strings, rest @ ..] if *first == "strings" => (read_strings(strings)?, rest),
        _ => (everything.strings, words),
    };
    let other_speed = match words {
        [] => everything.other_speed,
        [first, other] if *first == "other_speed" => match *other {
            "yes" => true,
            "no" => false,
            _ => return None,
        },
        _ => return None,
    };
    Some(Choice {
        strings,
        other_speed,
    })
}

/// `needed`, `wanted` or `skipped`.
fn read_strings(word: &str) -> Option<NamedStrings> {
    match word {
        "needed" => Some(NamedStrings::Needed),
        "wanted" => Some(NamedStrings::Wanted),
        "skipped" => Some(NamedStrings::Skipped),
        _ => None,
    }
}

/// An address or a number of attempts. One past a byte is as far out of range as the greatest byte.
fn read_limit(word: &str) -> Option<u8> {
    let number = word.parse::<u64>().ok()?;
    Some(u8::try_from(number).unwrap_or(u8::MAX))
}

/// How a host ended, with its attempts and its transactions.
pub fn end_text(
    alloc: Global,
    trouble: Option<Trouble>,
    attempts: u8,
    transactions: u64,
) -> Result<String, AllocError> {
    let counts = format!(in alloc; "attempts {attempts} transactions {transactions}")?;
    match trouble {
        None => format!(in alloc; "success {counts}"),
        Some(trouble) => {
            let (why, step) = (trouble.why.number(), trouble.step);
            format!(in alloc; "trouble {why} {step} {counts}")
        }
    }
}

/// The lines of a file's listing.
fn listing_of(alloc: Global, file: &DescriptorFile) -> Result<Vec<String>> {
    let mut listing = Vec::new(alloc);
    list(alloc, file, &mut listing)?;
    let text = String::from_utf8(listing)?;
    let mut lines = Vec::new(alloc);
    for line in text.as_str().lines() {
        lines.push(String::from_str(alloc, line)?)?;
    }
    Ok(lines)
}
