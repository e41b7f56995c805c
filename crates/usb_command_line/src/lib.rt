//! What the words of a command line ask the program `usbdesc` for.
//!
//! [`read_line`] asks `clap` what the words ask for. Its [`Line`] is a command, with a variant of its own where an option is
//! given: [`Showing`], [`Checking`], [`Building`], [`Options`], [`Enumerating`], [`Explaining`] and [`Capturing`] have the options,
//! as texts that nothing was made of yet. Its contract is exact both ways: the line is that of `clap`'s function of the words, and
//! each fault is `clap`'s own (`specs/CommandLine.antt`).
#![tactic(auto)]

mod building;
mod capturing;
mod checking;
mod clap_command;
mod command_line;
mod enumerating;
mod explaining;
mod help;
mod options;
mod showing;

pub use building::Building;
pub use capturing::Capturing;
pub use checking::Checking;
pub use command_line::{Line, read_line};
pub use enumerating::Enumerating;
pub use explaining::Explaining;
pub use options::Options;
pub use showing::Showing;
