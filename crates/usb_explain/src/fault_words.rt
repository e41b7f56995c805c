//! What is wrong with an input, in words.
ghost use Rattle.std.specs.Prelude.{◌≡◌, ◌++◌, [], IsTrue};
ghost use Rattle.usb_text.specs.Written.{is_words};
ghost use Rattle.usb_explain.specs.FaultWords.{fault_words, file_words, innermost};

use usb_file_data::{FileWhy, InputFault};

/// What is wrong with an input, in words: these, one after the other.
///
/// ```rust
/// let words = FaultWords::of_file(FileWhy::Set(SetWhy::Over));
/// assert_eq!(rt; (words.within, words.why), ("in a set, ", "a descriptor ends past wTotalLength"));
/// ```
#[derive(Clone, Copy, Debug, PartialEq, Eq, Hash)]
pub struct FaultWords {
    /// Where it is a set of a file that is at fault, that it is one; else nothing.
    pub within: &'static str,
    /// What is wrong: of a set in a file with that.
    pub why: &'static str,
}

impl FaultWords {
    /// Those of the fault of an input.
    #[tactic(auto, using(crate::proofs::Messages::set_message_words))]
    pub fn of(fault: InputFault) -> FaultWords
        ensures words { result.within.now ++ result.why.now ≡ fault_words fault }
        ensures within { IsTrue (is_words result.within.now) }
        ensures why { IsTrue (is_words result.why.now) }
    {
        match fault {
            InputFault::Set(fault) => alone(fault.why.message()),
            InputFault::Trailing(_) => alone("bytes after the set"),
            InputFault::File(fault) => FaultWords::of_file(fault.why),
        }
    }

    /// Those of the fault of a file.
    #[tactic(auto, using(crate::proofs::Messages::set_message_words, crate::proofs::Messages::file_message_words))]
    pub fn of_file(why: FileWhy) -> FaultWords
        ensures words { result.within.now ++ result.why.now ≡ file_words why }
        ensures innermost { result.why.now ≡ innermost why }
        ensures within { IsTrue (is_words result.within.now) }
        ensures why { IsTrue (is_words result.why.now) }
    {
        match why {
            FileWhy::Set(why) => FaultWords {
                within: "in a set, ",
                why: why.message(),
            },
            why => alone(why.message()),
        }
    }
}

/// What is wrong, and not within a set of a file.
fn alone(why: &'static str) -> FaultWords
    ensures within { result.within.now ≡ [] }
    ensures why { result.why.now ≡ why.now }
{
    FaultWords { within: "", why }
}
