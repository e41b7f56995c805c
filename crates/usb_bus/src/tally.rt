//! The last line of a log: how often something was lost, and a device was not ready.
ghost use Rattle.std.specs.Prelude.{◌≡◌, ◌++◌, IfErr, IfOk, OnOk, take};
ghost use Rattle.std.specs.Io.KnownBytes.{Appends};
ghost use Rattle.usb_bus.specs.Bus.{busies, losses};
ghost use Rattle.usb_bus.specs.Lines.{tally_line};
ghost use Rattle.usb_bus.specs.Log.{CutsOff};
ghost use Rattle.usb_bus.specs.Run.{fates_used};

use crate::fate::Fate;
use crate::step_lines::put_numbered;
use std::alloc::{AllocError, Global};
use std::io::Write;
use usb_text::{OutFault, Text, write_all};

/// Writes the line of these transactions under these fates.
#[tactic(auto, using(crate::proofs::Tallies::cut_off, crate::proofs::Tallies::nothing_put))]
pub(crate) fn write_tally<W: Write>(
    alloc: Global,
    fates: &[Fate],
    transactions: u64,
    w: &mut W,
) -> Result<(), OutFault>
    ensures ok { OnOk result (Appends (W.contents w.old) (W.contents w.new) (tally_line (fates_used fates.now transactions))) }
    ensures err { IfErr result (λ fault. CutsOff fault (W.contents w.old) (W.contents w.new) (tally_line (fates_used fates.now transactions))) }
{
    match tally_text(alloc, fates, transactions) {
        Ok(line) => write_all(w, line.as_bytes()),
        Err(_) => Err(OutFault::Memory),
    }
}

fn tally_text(alloc: Global, fates: &[Fate], transactions: u64) -> Result<Text, AllocError>
    ensures { IfOk result (λ line. line ≡ tally_line (fates_used fates.now transactions)) }
{
    let mut line = Text::new(alloc);
    put_tally(&mut line, fates, transactions)?;
    Ok(line)
}

#[tactic(auto, unfolding(crate::specs::Lines::tally_line))]
fn put_tally(text: &mut Text, fates: &[Fate], transactions: u64) -> Result<(), AllocError>
    ensures { OnOk result (text.new ≡ text.old ++ tally_line (fates_used fates.now transactions)) }
{
    let (losses, busies) = tallied(fates, transactions);
    put_numbered(text, "fates: losses ", losses)?;
    put_numbered(text, ", busy ", busies)?;
    text.put("\n")
}

/// How many of these transactions have lost something, and in how many the device was not ready, by their fates.
#[tactic(auto, using(crate::proofs::Tallies::losses_of_used, crate::proofs::Tallies::busies_of_used))]
fn tallied(fates: &[Fate], transactions: u64) -> (u64, u64)
    ensures losses { result.0 ≡ losses (fates_used fates.now transactions) }
    ensures busies { result.1 ≡ busies (fates_used fates.now transactions) }
{
    counted(first(fates, transactions))
}

/// The fates of the first `transactions` transactions, but for those after the end of the list, which all pass.
fn first(fates: &[Fate], transactions: u64) -> &[Fate]
    ensures { result.now ≡ take transactions fates.now }
{
    if transactions < fates.len() as u64 {
        &fates[..transactions as usize]
    } else {
        fates
    }
}

/// How many of the fates lose something, and of how many the device is not ready.
fn counted(fates: &[Fate]) -> (u64, u64)
    ensures losses { result.0 ≡ losses fates.now }
    ensures busies { result.1 ≡ busies fates.now }
{
    let (mut losses, mut busies) = (0u64, 0u64);
    for fate in fates {
        losses += fate.lost();
        busies += fate.busy();
    }
    (losses, busies)
}
