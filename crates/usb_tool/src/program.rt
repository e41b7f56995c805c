//! What the program does, from the words of its command line to its exit status.
ghost use Rattle.std.specs.IoError.{error_kind};
ghost use Rattle.std.specs.Prelude.{◌≡◌};
ghost use Rattle.usb_tool.specs.Faults.{words_line, words_status};
ghost use Rattle.usb_tool.specs.Runs.{Answers, Runs, line_status};
ghost use Rattle.usb_tool.specs.declared.audience.Audience.TheVariants.{Program};

use crate::audience::Audience;
use crate::command::carry_out;
use crate::invocation::Invocation;
use crate::reporting::tell;
use clap::error::ErrorKind;
use std::alloc::Global;
use std::io;
use std::io::{Read, Write};
use usb_command_line::read_line;
use usb_text::write_all;

/// The line that goes to standard error where the words of the command line could not be taken, and the exit
/// status: 2 where a word is no text (`InvalidData`), and else 3, out of memory.
///
/// ```rust
/// if let Err(error) = env::args(&rt) {
///     let (line, status) = refuse_words(&error);
///     rt.eprintln(line)?;
/// }
/// ```
pub fn refuse_words(error: &io::Error) -> (&'static str, u8)
    ensures line { result.0.now ≡ words_line (error_kind error.now) }
    ensures status { result.1 ≡ words_status (error_kind error.now) }
{
    match error.kind() {
        io::ErrorKind::InvalidData => ("usbdesc: a word of the command line is no text", 2),
        _ => ("usbdesc: out of memory", 3),
    }
}

/// The exit status of a command line that asks for nothing that the program does.
const USAGE: u8 = 2;

/// What is said where memory is wanting before there is a command, as `clap` has it.
const NO_MEMORY: &str = "error: out of memory\n";

/// Carries out what the words ask for, of which the first is the program's name: `r` is standard input, `w`
/// standard output and `e` standard error. The result is the exit status: 0 where the command did its work
/// or help was asked for, 1 where `check` did and has a line of a finding or a remark or `enumerate` did without success, 2 where the words
/// are no command or an option says nothing, and 3 where the command failed. The line of its fault is then written to `e`,
/// and nothing else ever is but what `clap` says of words that are no command. What cannot be written to `e` is lost.
///
/// ```rust
/// let words = vec![in alloc; String::from_str(alloc, "usbdesc")?, String::from_str(alloc, "build")?]?;
/// let mut listing: &[u8] = b"device 0200\n";
/// let (mut output, mut errors) = (Vec::new(alloc), Vec::new(alloc));
/// assert_eq!(rt; run(alloc, &words, &mut listing, &mut output, &mut errors), 3);
/// assert_eq!(rt; errors.as_slice(), b"usbdesc: listing fault 4 line 1\n");
/// ```
pub fn run<R: Read, W: Write, E: Write>(
    alloc: Global,
    words: &[String],
    r: &mut R,
    w: &mut W,
    e: &mut E,
) -> u8
    ensures { Runs Program words.now (R.remaining r.old) (R.remaining r.new) (W.contents w.old) (W.contents w.new) (E.contents e.old) (E.contents e.new) result }
{
    let invocation = Invocation {
        words,
        audience: Audience::Program,
    };
    run_for(alloc, &invocation, r, w, e)
}

/// Does what [`run`] does, for whoever reads standard error. For a person the line of a fault is followed
/// by one that says what the fault means, and where the input is at fault which option or command to try; after an enumeration
/// without success standard error has a line that says the same of that.
///
/// ```rust
/// let words = vec![in alloc; String::from_str(alloc, "usbdesc")?, String::from_str(alloc, "build")?]?;
/// let invocation = Invocation { words: &words, audience: Audience::Person };
/// let mut listing: &[u8] = b"usb\n";
/// let (mut output, mut errors) = (Vec::new(alloc), Vec::new(alloc));
/// assert_eq!(rt; run_for(alloc, &invocation, &mut listing, &mut output, &mut errors), 3);
/// assert_eq!(rt; errors.as_slice(), b"usbdesc: listing fault 2 line 1
/// no known word; --comments drops comments and empty lines
/// ");
/// ```
pub fn run_for<R: Read, W: Write, E: Write>(
    alloc: Global,
    invocation: &Invocation<'_>,
    r: &mut R,
    w: &mut W,
    e: &mut E,
) -> u8
    ensures { Runs invocation.now.audience invocation.now.words.now (R.remaining r.old) (R.remaining r.new) (W.contents w.old) (W.contents w.new) (E.contents e.old) (E.contents e.new) result }
{
    match read_line(alloc, invocation.words) {
        Ok(line) => tell(carry_out(alloc, &line, r, w), invocation.audience, e),
        Err(error) => match error.to_string(alloc) {
            Ok(text) => tell_refusal(error.kind(), text.as_str(), w, e),
            Err(_) => tell_refusal(ErrorKind::OutOfMemory, NO_MEMORY, w, e),
        },
    }
}

/// The exit status of a line that names no command, after what `clap` says of it.
fn tell_refusal<W: Write, E: Write>(kind: ErrorKind, text: &str, w: &mut W, e: &mut E) -> u8
    ensures status { result ≡ line_status kind }
    ensures text { Answers kind text.now (W.contents w.old) (W.contents w.new) (E.contents e.old) (E.contents e.new) }
{
    match kind {
        ErrorKind::DisplayHelp | ErrorKind::DisplayVersion => {
            let _ = write_all(w, text.as_bytes());
            0
        }
        _ => {
            let _ = write_all(e, text.as_bytes());
            USAGE
        }
    }
}
