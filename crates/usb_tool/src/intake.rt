//! What is kept of an input while it is read: of a set a decoder and no byte, of a file all bytes.
ghost use Rattle.std.specs.Prelude.{◌≡◌, ◌+◌, ◌^◌, ◌<◌, ℕ, List, ◌++◌, length, IfErr, IfOk, OnOk};
ghost use Rattle.usb_tool.specs.Inputs.{IsSetOrFile, SetOrFileShows};
ghost use Rattle.usb_tool.specs.declared.fault.ToolFault.TheVariants.{Memory};
ghost use Rattle.std.specs.Prelude.{◌≡◌, true, ◌+◌, ◌^◌, ◌<◌, ℕ, List, [], ◌++◌, length, IfErr, IfOk, OnOk};
ghost use Rattle.usb_set.specs.Layout.{Layout};

use crate::fault::ToolFault;
use std::alloc::Global;
use usb_fields::descriptor_type::{CONFIGURATION, OTHER_SPEED_CONFIGURATION};
use usb_file::{Input, read_file};
use usb_set::{Configuration, Decoder, Progress, SetWhy};

/// An input, as far as it was read.
#[derive(Drop)]
pub(crate) enum Intake {
    /// One configuration set.
    Set(SetIntake),
    /// A descriptor file.
    File(Vec<u8>),
}

impl Intake {
    ghost use Rattle.usb_tool.specs.inside.Intake.{IsIntake};
    ghost use Rattle.usb_tool.specs.inside.Taking.{IsNone};

    /// The input that begins with these bytes. Two are enough to know what it is.
    ///
    /// # Errors
    ///
    /// `Memory` when out of memory.
    pub(crate) fn begin(alloc: Global, front: &[u8]) -> Result<Intake, ToolFault>
        ensures ok { IfOk result (λ intake. IsIntake intake front.now) }
        ensures err { IfErr result (λ fault. fault ≡ Memory) }
    {
        if let [_, CONFIGURATION | OTHER_SPEED_CONFIGURATION, ..] = front {
            let mut set = SetIntake::new(alloc);
            set.take(0, front)?;
            return Ok(Intake::Set(set));
        }
        Ok(Intake::File(Vec::from_slice(alloc, front)?))
    }

    /// Takes the next bytes, after `before` bytes.
    ///
    /// # Errors
    ///
    /// `Memory` when out of memory.
    pub(crate) fn take(&mut self, before: usize, piece: &[u8]) -> Result<(), ToolFault>
        requires { before + length piece.now < 2 ^ 64 }
        ensures ok { OnOk result ((b : List ℕ) → before ≡ length b → 1 < before → IsIntake self.old b → IsIntake self.new (b ++ piece.now)) }
        ensures err { IfErr result (λ fault. fault ≡ Memory) }
    {
        match self {
            Intake::Set(set) => set.take(before, piece),
            Intake::File(bytes) => {
                bytes.extend_from_slice(piece)?;
                Ok(())
            }
        }
    }

    /// The set or the file, if it is exactly `count` bytes long.
    ///
    /// # Errors
    ///
    /// `Set` with the fault that they show and `Trailing` where they go on after the set; else `File` with the fault of a
    /// file. `Memory` when out of memory.
    pub(crate) fn finish(self, alloc: Global, count: usize) -> Result<Input, ToolFault>
        ensures ok { IfOk result (λ input. (b : List ℕ) → count ≡ length b → IsIntake self b → IsSetOrFile input b) }
        ensures err { IfErr result (λ fault. (b : List ℕ) → count ≡ length b → IsIntake self b → IsNone SetOrFileShows b fault) }
    {
        match self {
            Intake::Set(set) => Ok(Input::Set(set.finish(count)?)),
            Intake::File(bytes) => Ok(Input::File(read_file(alloc, &bytes)?)),
        }
    }
}

/// A decoder, and where the set ended that it has read.
#[derive(Drop)]
pub(crate) struct SetIntake {
    decoder: Decoder,
    end: Option<usize>,
}

impl SetIntake {
    ghost use Rattle.usb_file_data.specs.Inputs.{is_one_set};
    ghost use Rattle.usb_tool.specs.Inputs.{SetOrFileShows};
    ghost use Rattle.usb_tool.specs.inside.Intake.{IsFed};
    ghost use Rattle.usb_tool.specs.inside.Taking.{IsNone};

    /// No byte was given yet.
    pub(crate) fn new(alloc: Global) -> SetIntake
        ensures { IsFed result [] }
    {
        SetIntake {
            decoder: Decoder::new(alloc),
            end: None,
        }
    }

    /// Gives the next bytes to the decoder, after `before` bytes. What follows the set, or a
    /// fault of it, changes nothing.
    ///
    /// # Errors
    ///
    /// `Memory` when out of memory.
    pub(crate) fn take(&mut self, before: usize, piece: &[u8]) -> Result<(), ToolFault>
        requires { before + length piece.now < 2 ^ 64 }
        ensures ok { OnOk result ((b : List ℕ) → before ≡ length b → IsFed self.old b → IsFed self.new (b ++ piece.now)) }
        ensures err { IfErr result (λ fault. fault ≡ Memory) }
    {
        match self.decoder.feed(piece) {
            Ok(Progress::More) => {}
            Ok(Progress::Done { used }) => {
                if self.end.is_none() {
                    self.end = Some(before + used);
                }
            }
            Err(fault) => {
                if fault.why == SetWhy::Memory {
                    return Err(ToolFault::Memory);
                }
            }
        }
        Ok(())
    }

    /// The set, if it is exactly `count` bytes long.
    ///
    /// # Errors
    ///
    /// `Set` with the fault that they show, or that they end too early; `Trailing` where they go on after
    /// the set.
    pub(crate) fn finish(self, count: usize) -> Result<Configuration, ToolFault>
        ensures ok { IfOk result (λ set. (b : List ℕ) → count ≡ length b → IsFed self b → Layout set b) }
        ensures err { IfErr result (λ fault. (b : List ℕ) → count ≡ length b → IsFed self b → is_one_set b ≡ true → IsNone SetOrFileShows b fault) }
    {
        let SetIntake { decoder, end } = self;
        let set = decoder.finish()?;
        // A set that was read has ended.
        let end = end.unwrap_or(count);
        if end < count {
            return Err(ToolFault::Trailing(end));
        }
        Ok(set)
    }
}
