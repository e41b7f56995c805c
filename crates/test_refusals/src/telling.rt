//! What is printed of calls.
use crate::answer::{Answer, Call};
use std::io;

/// Prints what came of the calls of a group: of all of them, or only of those without a right answer.
///
/// # Errors
///
/// Those of standard output.
pub(crate) fn tell<R: Print>(rt: &R, group: &str, all: bool, calls: &[Call]) -> io::Result<()> {
    for (name, answer) in calls {
        match answer {
            Answer::Right => if all {
                println!(rt; "{group} {name}: right")?;
            }
            Answer::Memory => println!(rt; "{group} {name}")?,
            Answer::Wrong => println!(rt; "{group} {name}: wrong")?,
        }
    }
    Ok(())
}
