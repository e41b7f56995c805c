//! Plays files of lines: each says, a line a step, what is done to a device, asked over a bus or answered to a host, and
//! what must come of it.
//!
//! With no word on the command line all files that `list` names are played one after another. A word is the name of
//! one file. With the word `-` steps are read from standard input, and what comes of each is written at once, so that
//! another program can drive what is here.
//!
//! The lines are in `docs/testing.md`.
#![tactic(auto)]

mod answer;
mod answers;
mod bench;
mod descriptors;
mod driven;
mod host;
mod line;
mod outcome;
mod play;
mod score;
mod sent;
mod state;
mod steps;
mod talk;
mod transfer;
mod words;

use anyhow::{Context, Result, bail};
use play::play;
use std::io::BufReader;
use std::process::ExitCode;
use std::rt::{Env, Files};
use std::{env, fs};
use steps::STEPS;

/// The words that the program takes.
const USAGE: &str =
    "Usage: test_ends [NAME | - | --help]\n\nPlays all files that `list` names, the file NAME, or the steps of standard input.\n";

/// What the program is used wrongly by: an unknown word, a file that isn't there, text that is none.
const WRONG: u8 = 2;

fn main(rt: HostRuntime) -> ExitCode {
    let status = match run(&rt) {
        Ok(status) => status,
        Err(error) => {
            let _ = eprintln!(&rt; "test_ends: {error:#}");
            WRONG
        }
    };
    ExitCode::from(status)
}

/// Does what the words of the command line say.
fn run(rt: &HostRuntime) -> Result<u8> {
    let words = env::args(rt)?.collect::<Vec<String>>(rt.alloc())?;
    match words.as_slice() {
        [] | [_] => play_all(rt),
        [_, word] => match word.as_str() {
            "-" => play(rt, &mut BufReader::new(rt.alloc(), rt.reader())?, None),
            "--help" | "-h" => help(rt),
            name if name.starts_with('-') => bail!("no option {name}: test_ends --help"),
            name => play_file(rt, name),
        },
        _ => bail!("more than one word: test_ends --help"),
    }
}

/// Prints how the program is used, and each step.
fn help<R: Print + AllocGlobal>(rt: &R) -> Result<u8> {
    print!(rt; "{USAGE}\nSteps, of which docs/testing.md says what each does:\n")?;
    for (_, form) in STEPS.iter() {
        println!(rt; "    {form}")?;
    }
    Ok(0)
}

/// Plays all files of the list. The status is the worst of theirs.
fn play_all<R: Files + Print + AllocGlobal>(rt: &R) -> Result<u8> {
    let names = fs::read_to_string(rt, "list").context("list")?;
    let mut worst = 0;
    for name in names.as_str().lines() {
        let status = play_file(rt, name)?;
        worst = worst.max(status);
    }
    Ok(worst)
}

/// Plays a file, and prints how many steps it has, and each line that comes out differently.
fn play_file<R: Files + Print + AllocGlobal>(rt: &R, name: &str) -> Result<u8> {
    let text = fs::read(rt, name).context(format_args!("{name}"))?;
    play(rt, &mut text.as_slice(), Some(name)).context(format_args!("{name}"))
}
