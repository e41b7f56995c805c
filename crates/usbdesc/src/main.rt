//! Lists, checks, builds, explains and enumerates USB 2.0 descriptors.
//!
//! What it reads is standard input, what it writes standard output; a fault goes to standard error. What it
//! does is `usb_tool::run_for`, for a person where standard error is a terminal; here it gets the words of its command line
//! and the three streams.
#![tactic(auto)]

use clap::error::ErrorKind;
use std::alloc::Global;
use std::io::IsTerminal;
use std::process::ExitCode;
use std::rt::Env;
use std::{env, io};
use usb_tool::{Audience, Invocation, read_line, refuse_words, run_for};

fn main(rt: HostRuntime) -> ExitCode {
    let alloc = rt.alloc();
    let status = match words(&rt) {
        Ok(words) => {
            let audience = audience(rt.stderr().is_terminal());
            if audience == Audience::Person
                && lacks_input(alloc, &words, rt.stdin().is_terminal())
            {
                let _ = rt.eprintln("usbdesc reads standard input: usbdesc COMMAND < FILE");
            }
            let (mut r, mut w) = (rt.reader(), io::writer(&rt));
            let invocation = Invocation {
                words: &words,
                audience,
            };
            run_for(alloc, &invocation, &mut r, &mut w, &mut rt.stderr())
        }
        Err(error) => {
            let (line, status) = refuse_words(&error);
            let _ = rt.eprintln(line);
            status
        }
    };
    ExitCode::from(status)
}

/// Who reads standard error, which is a terminal or not.
fn audience(is_terminal: bool) -> Audience {
    if is_terminal {
        Audience::Person
    } else {
        Audience::Program
    }
}

/// Whether a command would read a keyboard, or has a word too many that is no option, as the name of a file.
fn lacks_input(alloc: Global, words: &[String], is_keyboard: bool) -> bool {
    match read_line(alloc, words) {
        Ok(_) => is_keyboard,
        Err(error) => {
            error.kind() == ErrorKind::UnknownArgument
                && words.iter().skip(2).any(|word| !word.starts_with('-'))
        }
    }
}

/// The words of the command line, the program's name first.
fn words<R: Env + AllocGlobal>(rt: &R) -> io::Result<Vec<String>> {
    Ok(env::args(rt)?.collect::<Vec<String>>(rt.alloc())?)
}
