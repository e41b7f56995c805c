//! Fails each allocation in turn: each call of the libraries must succeed or report out of memory.
//! `.ci/refusals` plays it.
//!
//! The first line of the input is the name of a group of calls and the place of the refused request among those that the
//! group makes, as `sets 12`. [`begin`] makes as many requests first as are wanted so that this one is the [`REFUSED`]th
//! of the program. [`tell`] prints the name of each call that answers *out of memory* or something wrong; where no call
//! met the refusal, the group's name and `end` are printed.
//!
//! Without input nothing is refused, all answers are printed, and the calls on inputs past every round number are made
//! too.
//!
//! [`REFUSED`]: asked::REFUSED
#![tactic(auto)]

mod answer;
mod asked;
mod bus;
mod device;
mod enumeration;
mod files;
mod longest;
mod mixed;
mod onto;
mod plenty;
mod requests;
mod rules;
mod samples;
mod sets;
mod shapes;
mod talks;
mod telling;
mod units;
mod words;

use answer::again;
use asked::{LONGEST, begin, read_asked};
use bus::{LOSSES, talk};
use enumeration::{EVERYTHING_ONCE, ONCE, TWICE, enumerate_under};
use requests::make_each;
use samples::{EVERYTHING, MOUSE};
use std::io;
use telling::tell;
use usb_fields::Speed;

/// The groups of calls.
const GROUPS: [&str; 7] = [
    "sets",
    "mixed",
    "files",
    "words",
    "mouse",
    "everything",
    "plenty",
];

fn main(rt: HostRuntime) -> io::Result<()> {
    let mut buffer = [0u8; LONGEST];
    let Some(asked) = read_asked(&mut rt.reader(), &mut buffer)? else {
        for group in GROUPS {
            go_through(&rt, group, true)?;
        }
        return Ok(());
    };
    begin(rt.alloc(), asked.place);
    go_through(&rt, asked.group, false)?;
    if Box::new(rt.alloc(), 0u64).is_err() {
        println!(rt; "{group} end", group = asked.group)?;
    }
    Ok(())
}

/// Makes the calls of a group, and prints what came of them.
fn go_through<R: Print + AllocGlobal>(rt: &R, group: &str, all: bool) -> io::Result<()> {
    let alloc = rt.alloc();
    match group {
        "sets" => tell(rt, group, all, &sets::calls(alloc)),
        "mixed" => tell(rt, group, all, &mixed::calls(alloc)),
        "files" => {
            tell(rt, "files mouse", all, &files::calls(alloc, &files::SMALL))?;
            tell(rt, "files broken", all, &[files::broken_call(alloc)])?;
            tell(
                rt,
                "files everything",
                all,
                &files::calls(alloc, &files::LARGE),
            )?;
            tell(rt, "files dump", all, &files::dump_calls(alloc))?;
            tell(rt, "files units", all, &units::calls(alloc))
        }
        "words" => tell(rt, group, all, &words::calls(alloc)),
        "mouse" => tell_mouse(rt, all),
        "everything" => tell_everything(rt, all),
        _ => tell(rt, group, all, &plenty::calls(alloc)),
    }
}

/// The calls on a mouse as a device.
fn tell_mouse<R: Print + AllocGlobal>(rt: &R, all: bool) -> io::Result<()> {
    let alloc = rt.alloc();
    let (made, description) = device::describe(alloc, &MOUSE, Speed::Full);
    tell(rt, "mouse", all, &made)?;
    let Some(mouse) = &description else {
        return Ok(());
    };
    let calls = [
        ("Device and Transfer", device::drive(mouse)),
        ("converse", again!(talk(alloc, mouse, &[], 0))),
        (
            "converse with losses",
            again!(talk(alloc, mouse, &LOSSES, 3)),
        ),
        ("Host::take", enumeration::drive(alloc, mouse)),
        ("enumerate", enumerate_under(alloc, mouse, ONCE)),
        (
            "enumerate in two attempts",
            enumerate_under(alloc, mouse, TWICE),
        ),
    ];
    tell(rt, "mouse", all, &calls)
}

/// The calls on a mouse with a second speed and a string as a device at high speed.
fn tell_everything<R: Print + AllocGlobal>(rt: &R, all: bool) -> io::Result<()> {
    let alloc = rt.alloc();
    let (made, description) = device::describe(alloc, &EVERYTHING, Speed::High);
    tell(rt, "everything", all, &made)?;
    let Some(everything) = &description else {
        return Ok(());
    };
    let calls = [
        ("Description::descriptor", device::look_up(everything)),
        ("Device and Transfer by each request", make_each(everything)),
        ("Host::take", enumeration::drive(alloc, everything)),
        (
            "enumerate",
            enumerate_under(alloc, everything, EVERYTHING_ONCE),
        ),
    ];
    tell(rt, "everything", all, &calls)
}
