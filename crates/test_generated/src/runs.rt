//! A device over a bus that loses packets: talks, transfers that its owner answers, and enumerations with their log and
//! without it.
use crate::command::Command;
use crate::example::Example;
use crate::lists::Lists;
use crate::numbers::Numbers;
use crate::owners::make_all;
use crate::tally::Tally;
use crate::writes;
use anyhow::{Context, Result, bail};
use usb_bus::{Fate, converse};
use usb_device::Description;
use usb_fields::Setup;
use usb_host::Limits;

/// SET_ADDRESS 5, GET_DESCRIPTOR of the device, SET_CONFIGURATION 1.
const REQUESTS: [[u8; 8]; 3] = [
    [0x00, 0x05, 0x05, 0x00, 0x00, 0x00, 0x00, 0x00],
    [0x80, 0x06, 0x00, 0x01, 0x00, 0x00, 0x12, 0x00],
    [0x00, 0x09, 0x01, 0x00, 0x00, 0x00, 0x00, 0x00],
];

/// Runs under lists of fates. The words are the lists, how many NAKs are retried, and how many attempts there are.
#[derive(Clone, Copy)]
pub(crate) struct Runs {
    lists: Lists,
    limits: Limits,
}

impl Runs {
    /// The runs of these words.
    pub(crate) fn of(words: &str) -> Result<Runs> {
        let mut words = words.split('-');
        let lists = words.next().unwrap_or("");
        let naks = words.next().unwrap_or("").parse::<u16>()?;
        let attempts = words.next().unwrap_or("").parse::<u8>()?;
        Ok(Runs {
            lists: Lists::of(lists).context("no lists")?,
            limits: Limits::new(1, naks, attempts)?,
        })
    }

    /// Runs with the device of the example, as this word says: talks of three requests, also with data to the device, transfers
    /// that its owner answers, or enumerations by a command.
    pub(crate) fn all(&self, example: &Example, word: &str, tally: &mut Tally) -> Result<()> {
        let description = example.description()?;
        let is_command = Command::of(word).is_some();
        let mut numbers = Numbers(if is_command { 4 } else { 3 });
        for number in 0..self.lists.count() {
            if let Some(fates) = self.lists.list(example, number, &mut numbers)? {
                self.one(example, &description, word, fates, tally)?;
            }
        }
        Ok(())
    }

    /// A run under these fates.
    fn one(
        &self,
        example: &Example,
        description: &Description,
        word: &str,
        fates: Vec<Fate>,
        tally: &mut Tally,
    ) -> Result<()> {
        match Command::of(word) {
            Some(command) => {
                tally.begin("")?;
                let settings = command.settings(self.limits, fates);
                let _ = command.answer(&example.bytes, &settings, tally)?;
                Ok(())
            }
            None => self.transfers(description, word, &fates, tally),
        }
    }

    /// Transfers without a command.
    fn transfers(
        &self,
        description: &Description,
        word: &str,
        fates: &[Fate],
        tally: &mut Tally,
    ) -> Result<()> {
        let naks = self.limits.naks();
        match word {
            "talk" => self.talk(description, fates, tally),
            "answered" => make_all(description, naks, fates, tally),
            "written" => writes::make_talk(description, naks, fates, tally),
            _ => bail!("{word} is no run"),
        }
    }

    /// A talk, and what came of it.
    fn talk(&self, description: &Description, fates: &[Fate], tally: &mut Tally) -> Result<()> {
        let requests = REQUESTS.map(|bytes| Setup::from_bytes(&bytes));
        let talk = converse(
            tally.alloc,
            description,
            self.limits.naks(),
            &requests,
            fates,
        )?;
        let why = talk.stopped.map_or(0, |why| why.number());
        let (transactions, replies) = (talk.transactions, talk.replies.len());
        let (address, selected) = (talk.state.address, talk.state.selected);
        let kind = format!(in tally.alloc; "talk, trouble {why}")?;
        tally.begin(format!(in tally.alloc;
            "{kind} transactions {transactions} replies {replies} address {address} value {selected}\n"
        )?.as_str())?;
        tally.count(kind)
    }
}
