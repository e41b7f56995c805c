//! Gives the commands of `usbdesc` inputs that a fixed generator makes of examples: changed, cut, with descriptors or
//! lines that occur twice, in another place or nowhere, and with each byte set to each of five values. And examples
//! over readers and writers that fail at each of their calls in turn; devices that are asked by hosts that keep no
//! rule, and hosts that are answered by anything; talks and enumerations over a bus that loses packets. For each example
//! and way it prints how many cases there were and the MD5 of all answers in them, and at the end how many answers there
//! were of each kind.
//!
//! What must come is worked out by second readings of the rules in Python, in `reading/`, which write the file `stdout`
//! beside it. Given the title of a line, the program prints the answers themselves.
#![tactic(auto)]

mod answer;
mod answering;
mod asking;
mod command;
mod example;
mod failing;
mod form;
mod host_end;
mod inputs;
mod lists;
mod numbers;
mod owners;
mod pieces;
mod plan;
mod runs;
mod stream;
mod tally;
mod writes;

use anyhow::{Context, Result, bail};
use command::Command;
use example::Example;
use failing::{End, Failing};
use runs::Runs;
use std::io::Write;
use std::rt::{Env, Files};
use std::{env, fs, io};
use tally::Tally;
use usb_host::Limits;
use usb_tool::read_fates;

/// What happens to the transactions of an enumeration whose log fails: the ACK of the address is lost.
const LOST: &str = "....a";

fn main(rt: HostRuntime) -> Result<()> {
    let wanted = wanted(&rt)?;
    let examples = fs::read_to_string(&rt, "examples")?;
    let mut tally = Tally::new(rt.alloc());
    let mut number = 0u32;
    for line in examples.as_str().lines() {
        number = number.saturating_add(1);
        let example = Example::read(rt.alloc(), number, line).context(format_args!(
            "line {number}"
        ))?;
        go_through(&mut io::writer(&rt), &example, &wanted, &mut tally)?;
    }
    if wanted.is_empty() {
        print!(rt; "{}", tally.kinds()?)?;
    }
    Ok(())
}

/// The words of the command line after the program's name, parted by spaces: the title of a line, or nothing.
fn wanted<R: Env + AllocGlobal>(rt: &R) -> Result<String> {
    let mut wanted = String::new(rt.alloc());
    for word in env::args(rt)?.skip(1) {
        if !wanted.is_empty() {
            wanted.push_str(" ")?;
        }
        wanted.push_str(word.as_str())?;
    }
    Ok(wanted)
}

/// Writes what comes of an example: a line for each way, or of the title that is wanted all answers.
fn go_through<W: Write>(
    w: &mut W,
    example: &Example,
    wanted: &String,
    tally: &mut Tally,
) -> Result<()> {
    for way in example.ways.as_str().split(',') {
        let title = format!(in example.alloc; "{way} {}", example.name)?;
        if wanted.is_empty() || *wanted == title {
            take(example, way, tally)?;
            w.write_all(&tally.end(title.as_str(), !wanted.is_empty())?)?;
        }
    }
    Ok(())
}

/// Takes the cases that are made of an example in this way.
fn take(example: &Example, way: &str, tally: &mut Tally) -> Result<()> {
    match (way, way.split_once('-')) {
        ("changed", _) => inputs::changed(example, tally),
        ("set", _) => inputs::set(example, tally),
        ("cut", _) => inputs::cut(example, tally),
        ("asked", _) => asking::asked(example, tally),
        ("anything", _) => answering::anything(example, tally),
        ("lies", _) => answering::lied_to(example, tally),
        ("long", _) => answering::at_length(example, tally),
        ("choices", _) => answering::choosing(example, tally),
        (_, Some((word, "readers"))) => take_failing(example, word, End::Reader, tally),
        (_, Some((word, "writers"))) => take_failing(example, word, End::Writer, tally),
        (_, Some((word, words))) => Runs::of(words)?.all(example, word, tally),
        _ => bail!("{way} is no way"),
    }
}

/// Takes those of a command whose reader or writer fails.
fn take_failing(example: &Example, word: &str, end: End, tally: &mut Tally) -> Result<()> {
    let fates = if word == "log" { LOST } else { "" };
    let command = Command::of(word).context("no command")?;
    let fates = read_fates(example.alloc, fates)?;
    let failing = Failing {
        command,
        settings: command.settings(Limits::new(1, 16, 3)?, fates),
        end,
    };
    failing.all(&example.bytes, tally)
}
