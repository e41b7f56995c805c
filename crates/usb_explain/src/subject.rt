//! What is explained.
ghost use Rattle.std.specs.Prelude.{IfOk, ◌≡◌};
ghost use Rattle.usb_explain.specs.Fragments.{subject_alone};
ghost use Rattle.usb_explain.specs.Subjects.{names_in, place_of, subject_of};

use crate::manner::Manner;
use crate::string_names::{Missing, Names, string_place};
use std::alloc::{AllocError, Global};
use std::marker::Model;
use usb_file_data::{Input, InputFault};
use usb_walk::StringPlace;

/// What is explained, and what is known of the whole of it.
#[derive(Drop)]
pub(crate) struct Subject<'i> {
    /// How it is explained.
    manner: Manner,
    /// The strings that indices name.
    names: Names<'i>,
}

impl<'i> Model for Subject<'i> {
    ghost use Rattle.usb_explain.specs.Subjects.{Subject as Seen};

    ghost Value = { Seen };

    ghost view = { λ s. record { manner = s.manner; names = s.names } };
}

impl<'i> Subject<'i> {
    /// What was read of bytes.
    pub(crate) fn of(
        alloc: Global,
        manner: Manner,
        read: &'i Result<Input, InputFault>,
    ) -> Result<Subject<'i>, AllocError>
        ensures { IfOk result (λ subject. subject ≡ subject_of manner read.now) }
    {
        let names = match read {
            Ok(input) => names_in(alloc, manner.look.utf8, input)?,
            Err(_) => Names::none(alloc, Missing::NotRead),
        };
        Ok(Subject { manner, names })
    }

    /// Descriptors without an input, and so without strings.
    pub(crate) fn alone(alloc: Global, manner: Manner) -> Subject<'i>
        ensures { result ≡ subject_alone manner }
    {
        Subject {
            manner,
            names: Names::none(alloc, Missing::NotInInput),
        }
    }

    pub(crate) fn manner(&self) -> Manner
        ensures { result ≡ self.now.manner }
    {
        self.manner
    }

    pub(crate) fn names(&self) -> &Names<'i>
        ensures { result.now ≡ self.now.names }
    {
        &self.names
    }

    /// The place of the string of this number among those of a file.
    pub(crate) fn place(&self, number: usize) -> Option<StringPlace>
        ensures { result ≡ place_of self.now number }
    {
        match self.names.strings() {
            None => None,
            Some(strings) => string_place(strings, self.names.indices(), number),
        }
    }
}

/// The strings of a file, which other inputs haven't.
fn names_in(alloc: Global, utf8: bool, input: &Input) -> Result<Names<'_>, AllocError>
    ensures { IfOk result (λ names. names ≡ names_in utf8 input.now) }
{
    match input {
        Input::Set(_) | Input::Dump(_) => Ok(Names::none(alloc, Missing::NotInInput)),
        Input::File(file) => Ok(Names::of(alloc, file, utf8)?),
    }
}
