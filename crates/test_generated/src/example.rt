//! Examples, of which inputs are made.
use crate::form::Form;
use anyhow::{Context, Result};
use std::alloc::Global;
use usb_device::Description;
use usb_fields::Speed;
use usb_file::read_file;

/// A line of the file `examples`: what the example is, how inputs are made of it, and its bytes.
#[derive(Drop)]
pub(crate) struct Example {
    /// Where its inputs are made.
    pub alloc: Global,
    /// The number of its line, from 1.
    pub number: u32,
    /// Its kind and its name.
    pub name: String,
    /// The ways, parted by commas.
    pub ways: String,
    /// How its bytes are read.
    pub form: Form,
    /// Its bytes.
    pub bytes: Vec<u8>,
    /// What more a way needs, if it does.
    pub more: String,
}

impl Example {
    /// The example of this line.
    pub(crate) fn read(alloc: Global, number: u32, line: &str) -> Result<Example> {
        let mut words = line.split(' ');
        let kind = words.next().context("no kind")?;
        let name = words.next().context("no name")?;
        let ways = words.next().context("no ways")?;
        let digits = words.next().context("no bytes")?;
        Ok(Example {
            alloc,
            number,
            name: format!(in alloc; "{kind} {name}")?,
            ways: String::from_str(alloc, ways)?,
            form: if kind == "listing" {
                Form::Listing
            } else {
                Form::Descriptors
            },
            bytes: hex::decode(alloc, digits)?,
            more: String::from_str(alloc, words.next().unwrap_or(""))?,
        })
    }

    /// The full-speed device of these descriptors.
    pub(crate) fn description(&self) -> Result<Description> {
        let file = read_file(self.alloc, &self.bytes).context("no file")?;
        Description::new(self.alloc, file, Speed::Full).context("no device")
    }
}
