//! The descriptors of which devices are made.
use crate::outcome::Outcome;
use crate::words::read_speed;
use anyhow::Result;
use std::alloc::Global;
use std::fs;
use std::rt::Files;
use usb_device::{Description, DescriptionFault};
use usb_file::{DescriptorFile, read_file};

/// What the name of a file ends in. Any other word is bytes in hexadecimal.
const NAME_END: &str = ".file";

/// The descriptors that were read last.
#[derive(Drop)]
pub struct Descriptors {
    /// If some were.
    pub file: Option<DescriptorFile>,
}

/// What comes of `speed`.
#[derive(Drop)]
pub enum Made {
    /// A device can be made of this.
    Accepted(Description),
    /// None can, for this reason; or the words are no such step, or no descriptors were read.
    Refused(Outcome),
}

impl Descriptors {
    /// `file`: reads the descriptors that the word says, the name of a file or bytes in hexadecimal.
    pub fn load<H: Files + AllocGlobal>(&mut self, rt: &H, word: &str) -> Result<Outcome> {
        let alloc = rt.alloc();
        self.file = None;
        let (bytes, fault) = if word.ends_with(NAME_END) {
            (read_named(rt, "files", word)?, "no such file")
        } else {
            (hex::decode(alloc, word).ok(), "bad hexadecimal")
        };
        let Some(bytes) = bytes else {
            return Ok(Outcome::Word(fault));
        };
        match read_file(alloc, &bytes) {
            Ok(file) => {
                self.file = Some(file);
                Ok(Outcome::Word("read"))
            }
            Err(fault) => {
                let (number, place) = (fault.number(), fault.at);
                Ok(Outcome::Text(format!(in alloc; "file fault {number} at {place}")?))
            }
        }
    }

    /// `speed`: the description of a device at this speed, where it has no fault; else the number of the
    /// fault, and of a finding its line.
    pub fn describe(&self, alloc: Global, word: &str) -> Result<Made> {
        let (Some(file), Some(speed)) = (&self.file, read_speed(word)) else {
            return Ok(Made::Refused(Outcome::NoStep("speed low, full or high, after a file")));
        };
        let fault = match Description::new(alloc, file.clone()?, speed) {
            Ok(description) => return Ok(Made::Accepted(description)),
            Err(fault) => fault,
        };
        let number = fault.number();
        Ok(Made::Refused(Outcome::Text(match fault {
            DescriptionFault::Finding(first) => {
                let line = first.to_string(alloc)?;
                format!(in alloc; "refused {number} {line}")?
            }
            _ => format!(in alloc; "refused {number}")?,
        })))
    }
}

/// The bytes of the file of this name in a folder, which a name can't leave, if there is one.
pub fn read_named<H: Files + AllocGlobal>(
    rt: &H,
    folder: &str,
    name: &str,
) -> Result<Option<Vec<u8>>> {
    if name.contains('/') {
        return Ok(None);
    }
    Ok(fs::read(rt, format!(in rt.alloc(); "{folder}/{name}")?).ok())
}
