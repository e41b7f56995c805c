//! How inputs are made of an example.
use crate::command::Command;
use crate::example::Example;
use crate::form::Form;
use crate::numbers::Numbers;
use crate::pieces::Pieces;
use crate::tally::Tally;
use anyhow::Result;
use usb_host::Limits;

/// How many inputs are made of an example by changing it.
const CHANGED: u32 = 300;

/// What each byte of an example is set to.
const VALUES: [u8; 5] = [0x00, 0x01, 0x7f, 0x80, 0xff];

/// The example changed in one to three places, this many times over. Of descriptors every other input has its totals
/// mended.
pub(crate) fn changed(example: &Example, tally: &mut Tally) -> Result<()> {
    let mut numbers = Numbers(example.number);
    for _ in 0..CHANGED {
        let input = change(example, &mut numbers)?;
        take(&input, tally)?;
    }
    Ok(())
}

fn change(example: &Example, numbers: &mut Numbers) -> Result<Vec<u8>> {
    let mut pieces = Pieces::of(example.alloc, example.form, &example.bytes)?;
    let changes = numbers.below(3);
    for _ in 0..=changes {
        pieces.change(numbers, example.form.values())?;
    }
    if numbers.below(2) == 0 && example.form == Form::Descriptors {
        pieces.mend();
    }
    Ok(pieces.joined()?)
}

/// The example with each of its bytes set to each of the values.
pub(crate) fn set(example: &Example, tally: &mut Tally) -> Result<()> {
    for place in 0..example.bytes.len() {
        for value in VALUES {
            let mut input = example.bytes.clone()?;
            if let Some(byte) = input.get_mut(place) {
                *byte = value;
            }
            take(&input, tally)?;
        }
    }
    Ok(())
}

/// The example cut at each length below its own.
pub(crate) fn cut(example: &Example, tally: &mut Tally) -> Result<()> {
    for length in 0..example.bytes.len() {
        take(example.bytes.get(..length).unwrap_or(&[]), tally)?;
    }
    Ok(())
}

/// Takes the answers of the commands to an input, which are a case. What is listed of an input in any form is built again.
fn take(input: &[u8], tally: &mut Tally) -> Result<()> {
    let settings = Command::Enumerate.settings(Limits::new(1, 16, 3)?, Vec::new(tally.alloc));
    tally.begin("")?;
    let _ = Command::Show.answer(input, &settings, tally)?;
    let shown = Command::ShowAny.answer(input, &settings, tally)?;
    let _ = Command::Check.answer(input, &settings, tally)?;
    let _ = Command::CheckAny.answer(input, &settings, tally)?;
    let _ = Command::Explain.answer(input, &settings, tally)?;
    let listing = if shown.is_empty() { input } else { &shown };
    let _ = Command::Build.answer(listing, &settings, tally)?;
    let _ = Command::BuildCommented.answer(listing, &settings, tally)?;
    let _ = Command::Enumerate.answer(input, &settings, tally)?;
    Ok(())
}
