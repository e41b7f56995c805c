//! Hosts that are answered by anything, or by a device that lies now and then; some of them at length.
use crate::answer::before;
use crate::example::Example;
use crate::numbers::Numbers;
use crate::tally::Tally;
use anyhow::Result;
use std::alloc::{AllocError, Global};
use usb_device::{Description, Device};
use usb_fields::{Answer, Speed, Toggle, Transaction};
use usb_file::{DescriptorFile, write_file};
use usb_host::{Action, Choice, Host, Limits, NamedStrings, Step};

/// How many hosts there are of each kind.
const HOSTS: u32 = 10_000;

/// How many answers a host is given once it has ended.
const MORE: u8 = 4;

/// How many hosts are answered at length.
const LISTS: u32 = 20;

/// How many resets and answers each of these is given, whether it has ended or not.
const LONG: usize = 10_000;

/// How many steps of progress an attempt has at most. Each has at most three transactions more than the limit of NAKs.
const STEPS: u64 = 5_273_453;

/// Hosts that are answered by anything. Packets begin as the bytes of the example do.
pub(crate) fn anything(example: &Example, tally: &mut Tally) -> Result<()> {
    let mut numbers = Numbers(1);
    for _ in 0..HOSTS {
        let mut answered = Answered::new(tally.alloc, &mut numbers)?;
        answered.go_on(&mut numbers, &example.bytes);
        answered.settle(&mut numbers, &example.bytes, tally)?;
    }
    Ok(())
}

/// Hosts that are answered by the device of the example, and now and then otherwise.
pub(crate) fn lied_to(example: &Example, tally: &mut Tally) -> Result<()> {
    let description = example.description()?;
    let mut numbers = Numbers(2);
    for _ in 0..HOSTS {
        lie_to_one(&description, &example.bytes, &mut numbers, tally)?;
    }
    Ok(())
}

fn lie_to_one(
    description: &Description,
    bytes: &[u8],
    numbers: &mut Numbers,
    tally: &mut Tally,
) -> Result<()> {
    let mut answered = Answered::new(tally.alloc, numbers)?;
    answered.ask(&mut Device::new(description), numbers)?;
    answered.settle(numbers, bytes, tally)
}

/// Hosts of all six choices, which are answered by the device of the example, and now and then otherwise where strings are
/// read.
pub(crate) fn choosing(example: &Example, tally: &mut Tally) -> Result<()> {
    let description = example.description()?;
    let mut numbers = Numbers(6);
    for number in 0..HOSTS {
        lie_about_strings(
            &description,
            &example.bytes,
            choice_of(number),
            &mut numbers,
            tally,
        )?;
    }
    Ok(())
}

/// The choice of this number among six.
fn choice_of(number: u32) -> Choice {
    Choice {
        strings: match number % 3 {
            0 => NamedStrings::Needed,
            1 => NamedStrings::Wanted,
            _ => NamedStrings::Skipped,
        },
        other_speed: number % 6 < 3,
    }
}

fn lie_about_strings(
    description: &Description,
    bytes: &[u8],
    choice: Choice,
    numbers: &mut Numbers,
    tally: &mut Tally,
) -> Result<()> {
    let mut answered = Answered::bearing(tally.alloc, 4, choice, numbers)?;
    answered.ask_for_strings(&mut Device::new(description), numbers)?;
    answered.settle(numbers, bytes, tally)
}

/// Hosts that are given long lists of answers: by the device of the example, which is not ready most of the time, and now
/// and then otherwise; and once they have ended by anything.
pub(crate) fn at_length(example: &Example, tally: &mut Tally) -> Result<()> {
    let description = example.description()?;
    let mut numbers = Numbers(5);
    for _ in 0..LISTS {
        ask_one_at_length(&description, &example.bytes, &mut numbers, tally)?;
    }
    Ok(())
}

fn ask_one_at_length(
    description: &Description,
    bytes: &[u8],
    numbers: &mut Numbers,
    tally: &mut Tally,
) -> Result<()> {
    let mut answered = Answered::patient(tally.alloc, numbers)?;
    let end = answered.ask_at_length(&mut Device::new(description), numbers, bytes)?;
    answered.close(end, tally)
}

/// Which lies a host is given, and how often: once in this many times, or never at 0. And how often the device is ready for it.
#[derive(Clone, Copy)]
struct Lies {
    kind: usize,
    times: usize,
    ready: usize,
}

/// How a host has ended: what it is counted as, and what it has read or at which step it has ended.
#[derive(Drop, PartialEq, Eq)]
struct End {
    kind: String,
    report: String,
}

impl End {
    /// The line of a host that has ended so.
    // Of what it has to say alone: a proof of a text made beside a host takes five minutes.
    fn line(&self, alloc: Global, attempts: u8, transactions: u64) -> Result<String> {
        let (kind, report) = (&self.kind, &self.report);
        Ok(format!(in alloc; "{kind} {report} attempts {attempts} transactions {transactions}\n")?)
    }
}

/// A host, how many transactions it may ask for, and how many it has asked for.
#[derive(Drop)]
struct Answered {
    alloc: Global,
    host: Host,
    most: u64,
    transactions: u64,
}

impl Answered {
    /// A host with few NAKs.
    fn new(alloc: Global, numbers: &mut Numbers) -> Result<Answered> {
        Answered::bearing(alloc, 4, Choice::everything(), numbers)
    }

    /// A host that may bear many NAKs.
    fn patient(alloc: Global, numbers: &mut Numbers) -> Result<Answered> {
        Answered::bearing(alloc, 4_096, Choice::everything(), numbers)
    }

    /// A host with an address of 1 to 127, fewer NAKs than these, and 1 to 8 attempts.
    fn bearing(
        alloc: Global,
        naks: u16,
        choice: Choice,
        numbers: &mut Numbers,
    ) -> Result<Answered> {
        let address = numbers.below(127).saturating_add(1) as u8;
        let naks = numbers.below(usize::from(naks).max(1)) as u16;
        let attempts = numbers.below(8).saturating_add(1) as u8;
        let limits = Limits::new(address, naks, attempts)?;
        Ok(Answered {
            alloc,
            host: Host::with_choice(alloc, limits, Speed::Full, choice),
            most: STEPS
                .saturating_mul(u64::from(naks).saturating_add(3))
                .saturating_mul(u64::from(attempts)),
            transactions: 0,
        })
    }

    /// Up to 63 resets and answers.
    fn go_on(&mut self, numbers: &mut Numbers, bytes: &[u8]) {
        for _ in 0..numbers.below(64) {
            match self.host.next() {
                Action::Reset => self.host.reset_done(),
                Action::Send(_) => {
                    self.transactions = self.transactions.saturating_add(1);
                    self.host.take(any_answer(numbers, bytes));
                }
                Action::Ended => {}
            }
        }
    }

    /// Up to 255 resets and answers of this device, among them lies of one kind.
    fn ask(&mut self, device: &mut Device<'_>, numbers: &mut Numbers) -> Result<()> {
        let steps = numbers.below(256);
        let kind = numbers.below(8);
        let times = numbers.below(32).saturating_add(2);
        let lies = Lies {
            kind,
            times,
            ready: 1,
        };
        for _ in 0..steps {
            self.go_on_by(device, lies, numbers)?;
        }
        Ok(())
    }

    /// Up to 511 resets and answers of this device, among them lies of one kind where strings are read.
    fn ask_for_strings(&mut self, device: &mut Device<'_>, numbers: &mut Numbers) -> Result<()> {
        let steps = numbers.below(512);
        let kind = numbers.below(8);
        let times = numbers.below(8).saturating_add(2);
        for _ in 0..steps {
            let times = match self.host.step() {
                Some(Step::Languages | Step::Text { .. }) => times,
                _ => 0,
            };
            let lies = Lies {
                kind,
                times,
                ready: 1,
            };
            self.go_on_by(device, lies, numbers)?;
        }
        Ok(())
    }

    /// A long list of resets and answers: of this device, which is ready once in up to 1,024 times, among them lies of one
    /// kind; after the end of anything, which the host is given as an answer and as a reset. How the host had ended at
    /// first, if it has.
    fn ask_at_length(
        &mut self,
        device: &mut Device<'_>,
        numbers: &mut Numbers,
        bytes: &[u8],
    ) -> Result<Option<End>> {
        let lies = Lies {
            kind: numbers.below(8),
            times: numbers.below(4_096).saturating_add(2),
            ready: numbers.below(1_024).saturating_add(1),
        };
        let mut end = None;
        for _ in 0..LONG {
            if self.go_on_by(device, lies, numbers)? {
                continue;
            }
            if end.is_none() {
                end = Some(self.end()?);
            }
            self.host.take(any_answer(numbers, bytes));
            self.host.reset_done();
        }
        Ok(end)
    }

    /// A reset, or a transaction with this device; or neither, once the host has ended. Whether it had not.
    fn go_on_by(
        &mut self,
        device: &mut Device<'_>,
        lies: Lies,
        numbers: &mut Numbers,
    ) -> Result<bool, AllocError> {
        match self.host.next() {
            Action::Reset => {
                device.reset();
                self.host.reset_done();
            }
            Action::Send(sent) => self.exchange(device, &sent, lies, numbers)?,
            Action::Ended => return Ok(false),
        }
        Ok(true)
    }

    /// A transaction: the host gets the device's answer, or a lie. The device receives the ACK of a data packet whose
    /// toggle is its own.
    fn exchange(
        &mut self,
        device: &mut Device<'_>,
        transaction: &Transaction<'_>,
        lies: Lies,
        numbers: &mut Numbers,
    ) -> Result<(), AllocError> {
        self.transactions = self.transactions.saturating_add(1);
        let is_lie = lies.times > 0 && numbers.below(lies.times) == 0;
        let is_ready = lies.ready <= 1 || numbers.below(lies.ready) == 0;
        let answer = device.serve(transaction, is_ready);
        let has_data = matches!(&answer, Answer::Data(_, _));
        if is_lie {
            self.lie(answer, lies.kind, numbers)?;
        } else {
            self.host.take(answer);
        }
        if has_data && !(is_lie && lies.kind <= 4) {
            device.acked();
        }
        Ok(())
    }

    /// Gives the host a lie of this kind: no data, or the packet with the other toggle, without its last byte, with one
    /// byte more or with one changed. Where there is no packet it is an empty one.
    fn lie(
        &mut self,
        answer: Answer<'_>,
        kind: usize,
        numbers: &mut Numbers,
    ) -> Result<(), AllocError> {
        match (kind, answer) {
            (0, _) => self.host.take(Answer::Ack),
            (1, _) => self.host.take(Answer::Nak),
            (2, _) => self.host.take(Answer::Stall),
            (3, _) => self.host.take(Answer::Silence),
            (4, Answer::Data(Toggle::Data0, bytes)) => self
                .host
                .take(Answer::Data(Toggle::Data1, bytes)),
            (4, Answer::Data(Toggle::Data1, bytes)) => self
                .host
                .take(Answer::Data(Toggle::Data0, bytes)),
            (_, Answer::Data(toggle, bytes)) => {
                let packet = other_packet(self.alloc, kind, bytes, numbers)?;
                self.host.take(Answer::Data(toggle, &packet));
            }
            _ => self.host.take(Answer::Data(Toggle::Data1, &[])),
        }
        Ok(())
    }

    /// Adds the line of this host, and whether it has ended as it had ended at first, if it had, within this many
    /// transactions as it may ask for.
    fn close(&self, first: Option<End>, tally: &mut Tally) -> Result<()> {
        let end = self.end()?;
        let line = end.line(self.alloc, self.host.attempts(), self.transactions)?;
        tally.begin(line.as_str())?;
        let is_kept = match &first {
            Some(first) => *first == end,
            None => self.host.outcome().is_none(),
        };
        if !is_kept {
            tally.count(format!(in self.alloc; "host, changed")?)
        } else if self.transactions > self.most {
            tally.count(format!(in self.alloc; "host, too many transactions")?)
        } else {
            tally.count(end.kind)
        }
    }

    /// Some more answers and resets, once it has ended.
    fn answer_more(&mut self, numbers: &mut Numbers, bytes: &[u8]) {
        if self.host.next() != Action::Ended {
            return;
        }
        for _ in 0..MORE {
            self.host.take(any_answer(numbers, bytes));
            self.host.reset_done();
        }
    }

    /// Adds the line of this host. One that has ended is answered some more, and must keep its outcome.
    fn settle(&mut self, numbers: &mut Numbers, bytes: &[u8], tally: &mut Tally) -> Result<()> {
        let end = self.end()?;
        let line = end.line(self.alloc, self.host.attempts(), self.transactions)?;
        tally.begin(line.as_str())?;
        self.answer_more(numbers, bytes);
        if self.end()? == end {
            tally.count(end.kind)
        } else {
            tally.count(format!(in self.alloc; "host, changed")?)
        }
    }

    /// What it has read: the bytes of a file, or that there is none without the strings; and what it has passed over.
    fn report(&self, file: &DescriptorFile) -> Result<String> {
        let alloc = self.alloc;
        let mut report = match write_file(alloc, file) {
            Ok(bytes) => hex::encode(alloc, bytes)?,
            Err(_) => format!(in alloc; "no file")?,
        };
        for trouble in self.host.forgiven() {
            let (why, step) = (trouble.why.number(), trouble.step);
            report.push_str(&format!(in alloc; ", {why} {step}")?)?;
        }
        Ok(report)
    }

    /// How it has ended, if it has.
    fn end(&self) -> Result<End> {
        let alloc = self.alloc;
        match self.host.outcome() {
            None => Ok(End {
                kind: format!(in alloc; "host, asking")?,
                report: String::new(alloc),
            }),
            Some(Ok(file)) => Ok(End {
                kind: format!(in alloc; "host, success")?,
                report: self.report(file)?,
            }),
            Some(Err(trouble)) => {
                let report = format!(in alloc; "{}", trouble.step)?;
                let step = before(report.as_str(), " ");
                let kind = format!(in alloc; "host, trouble {} {step}", trouble.why.number())?;
                Ok(End { kind, report })
            }
        }
    }
}

/// Any answer, of eight kinds: no data, or a data packet that begins as these bytes do.
fn any_answer<'b>(numbers: &mut Numbers, bytes: &'b [u8]) -> Answer<'b> {
    match numbers.below(8) {
        0 | 1 => Answer::Ack,
        2 => Answer::Nak,
        3 => Answer::Stall,
        4 => Answer::Silence,
        5 => Answer::Data(Toggle::Data1, &[]),
        6 => Answer::Data(
            Toggle::Data0,
            bytes.get(..numbers.below(65)).unwrap_or(bytes),
        ),
        _ => Answer::Data(
            Toggle::Data1,
            bytes.get(..numbers.below(65)).unwrap_or(bytes),
        ),
    }
}

/// Another packet: of kind 5 without its last byte, of kind 6 with one byte more, else with one byte changed.
fn other_packet(
    alloc: Global,
    kind: usize,
    bytes: &[u8],
    numbers: &mut Numbers,
) -> Result<Vec<u8>, AllocError> {
    let mut packet = Vec::from_slice(alloc, bytes)?;
    if kind == 5 {
        let _ = packet.pop();
    } else if kind == 6 {
        packet.push(0)?;
    } else {
        let place = numbers.below(bytes.len().max(1));
        let value = numbers.below(256);
        if let Some(byte) = packet.get_mut(place) {
            *byte = value as u8;
        }
    }
    Ok(packet)
}
