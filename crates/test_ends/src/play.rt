//! Playing lines.
use crate::answers::Answers;
use crate::bench::{Bench, Target, Work};
use crate::descriptors::{Descriptors, Made, read_named};
use crate::driven::Driven;
use crate::line::{Line, next_line};
use crate::outcome::Outcome;
use crate::score::Score;
use crate::talk::Bus;
use anyhow::Result;
use std::io::BufRead;
use std::rt::Files;
use usb_device::Description;

/// What all lines of a file have in common.
#[derive(Drop)]
struct Game<'n> {
    score: Score<'n>,
    descriptors: Descriptors,
    bench: Bench,
}

/// Plays lines to their end, and prints how they came out. `name` is that of their file.
pub fn play<H: Files + Print + AllocGlobal, R: BufRead>(
    rt: &H,
    lines: &mut R,
    name: Option<&str>,
) -> Result<u8> {
    let mut game = Game {
        score: Score::new(name),
        descriptors: Descriptors { file: None },
        bench: Bench {
            bus: Bus::new(rt.alloc()),
            work: Work::Nothing,
            traces: false,
        },
    };
    let status = play_game(rt, lines, name, &mut game);
    drop(game);
    status
}

/// The same, with what all lines have in common.
fn play_game<H: Files + Print + AllocGlobal, R: BufRead>(
    rt: &H,
    lines: &mut R,
    name: Option<&str>,
    game: &mut Game<'_>,
) -> Result<u8> {
    let mut made = play_with(rt, lines, game, None)?;
    for _ in 0..u64::MAX {
        let Some(description) = made else {
            break;
        };
        let target = Target {
            description: &description,
            driven: Driven::new(&description),
            conversation: None,
        };
        made = play_with(rt, lines, game, Some(target))?;
    }
    if name.is_some() {
        game.score.close(rt)?;
    }
    Ok(game.score.status)
}

/// Plays lines with a device, or with none, until another device is made.
fn play_with<H: Files + Print + AllocGlobal, R: BufRead>(
    rt: &H,
    lines: &mut R,
    game: &mut Game<'_>,
    mut target: Option<Target<'_>>,
) -> Result<Option<Description>> {
    for _ in 0..u64::MAX {
        let Some(line) = next_line(rt.alloc(), lines, game.score.line)? else {
            return Ok(None);
        };
        game.score.line = line.number;
        if let Some(description) = take_line(rt, game, &mut target, &line)? {
            return Ok(Some(description));
        }
    }
    Ok(None)
}

/// Plays a line. A device that is made takes the place of the one before.
fn take_line<H: Files + Print + AllocGlobal>(
    rt: &H,
    game: &mut Game<'_>,
    target: &mut Option<Target<'_>>,
    line: &Line,
) -> Result<Option<Description>> {
    let words = line
        .step
        .as_str()
        .split_whitespace()
        .collect::<Vec<&str>>(rt.alloc())?;
    let outcome = match words.as_slice() {
        [verb, word] if *verb == "file" => game.descriptors.load(rt, word)?,
        [verb, word] if *verb == "speed" => match game.descriptors.describe(rt.alloc(), word)? {
            Made::Accepted(description) => {
                game.bench.bus.reset();
                game.score.settle(rt, line, &Outcome::Word("accepted"))?;
                return Ok(Some(description));
            }
            Made::Refused(outcome) => outcome,
        },
        [verb, name] if *verb == "answers" => load_answers(rt, target, name)?,
        words => game.bench.act(rt.alloc(), target, words)?,
    };
    game.score.settle(rt, line, &outcome)?;
    tell_traces(rt, game, target, &outcome, &words)?;
    Ok(None)
}

/// `answers`: from then on the device's owner answers what the file of this name says.
fn load_answers<H: Files + AllocGlobal>(
    rt: &H,
    target: &mut Option<Target<'_>>,
    name: &str,
) -> Result<Outcome> {
    let Some(target) = target else {
        return Ok(Outcome::NoStep("no device"));
    };
    let Some(bytes) = read_named(rt, "answers", name)? else {
        return Ok(Outcome::Word("no such answers"));
    };
    match Answers::read(rt.alloc(), &bytes)? {
        Ok(answers) => {
            target.driven.answers = Some(answers);
            Ok(Outcome::Word("done"))
        }
        Err(number) => Ok(Outcome::Text(format!(in rt.alloc(); "bad answers at line {number}")?)),
    }
}

/// Prints what the ends hold after a step, where that is asked for.
fn tell_traces<H: Print + AllocGlobal>(
    rt: &H,
    game: &Game<'_>,
    target: &Option<Target<'_>>,
    outcome: &Outcome,
    words: &[&str],
) -> Result<()> {
    if matches!(outcome, Outcome::NoStep(_)) {
        return Ok(());
    }
    if let Some(trace) = game.bench.traced(rt.alloc(), target, words)? {
        for line in trace.as_str().lines() {
            println!(rt; "# {line}")?;
        }
    }
    Ok(())
}
