//! Whether a set reaches its end, with a bound on the looks at all of them.
ghost use Rattle.std.specs.Prelude.{◌≡◌, ◌<◌, ◌≤◌, ◌+◌, ◌-◌, ◌*◌, ◌%◌, ◌^◌, IfOk, List, [], false, length};
ghost use Rattle.usb_find.specs.inside.Walks.{AreWays, nowhere, reaches, spot};
ghost use Rattle.usb_find.specs.inside.Bounds.{IsKept, paid};

use crate::looks::Looks;
use crate::walk::{Spot, reaches};
use crate::ways::{Ways, leads_to, make_ways};
use std::alloc::{AllocError, Global};
use std::sync::ledger::Ledger;

/// For how many places ways are kept: about twice as many as a set has at most.
const PLACES: usize = 131_000;

/// How many bytes are walked over before ways are kept, since these take memory and time.
const MOST_WALKED: usize = 1_048_576;

/// What is kept of some bytes.
#[derive(Drop)]
pub struct Kept {
    /// the first place of which ways are kept
    pub base: usize,
    /// those of this place and of the next ones, or none yet
    pub ways: Vec<Ways>,
    /// how many bytes were walked over
    pub walked: usize,
    /// whether there was no memory for ways
    pub refused: bool,
}

impl Kept {
    /// Nothing yet.
    pub fn new(alloc: Global, start: usize) -> Self
        ensures base { result.base ≡ start }
        ensures ways { result.ways.items ≡ [] }
        ensures walked { result.walked ≡ 0 }
        ensures refused { result.refused ≡ false }
    {
        Kept {
            base: start,
            ways: Vec::new(alloc),
            walked: 0,
            refused: false,
        }
    }
}

/// The ways from a place on.
fn ways_from<L: Ledger>(
    alloc: Global,
    bytes: &[u8],
    place: usize,
    looks: &mut Looks<L>,
) -> Result<Vec<Ways>, AllocError>
    requires { place ≤ length bytes.now }
    ensures ways { IfOk result (λ w. AreWays bytes.now place w.items 0) }
    ensures count { IfOk result (λ w. length w.items ≡ 131000) }
    ensures looks { looks.new ≤ looks.old + 524000 }
    ensures more { looks.old ≤ looks.new }
{
    let none = Ways {
        outside: None,
        inside: None,
    };
    let mut ways = vec![in alloc; none; PLACES]?;
    make_ways(bytes, place, &mut ways, looks);
    Ok(ways)
}

/// Keeps ways from a place on, where those that are kept end before another.
fn keep<L: Ledger>(
    alloc: Global,
    kept: &mut Kept,
    bytes: &[u8],
    from: usize,
    end: usize,
    looks: &mut Looks<L>,
)
    requires kept { IsKept bytes.now kept.old }
    requires base { kept.old.base ≤ from }
    requires end { (from ≤ end) × (end ≤ length bytes.now) × (end ≤ from + 65535) }
    ensures kept { IsKept bytes.now kept.new }
    ensures base { kept.new.base ≤ from }
    ensures covers { kept.new.refused ≡ false → end ≤ kept.new.base + length kept.new.ways.items }
    ensures refused { kept.new.refused ≡ false → kept.old.refused ≡ false }
    ensures looks { kept.new.refused ≡ false → looks.new + paid kept.old ≤ looks.old + paid kept.new }
    ensures more { looks.old ≤ looks.new }
{
    if end <= kept.base + kept.ways.len() {
        return;
    }
    match ways_from(alloc, bytes, from, looks) {
        Ok(ways) => {
            kept.base = from;
            kept.ways = ways;
        }
        Err(AllocError) => kept.refused = true,
    }
}

/// Whether descriptors lead from one place to another, by ways, or by a walk where there is no memory for them.
fn leads_by_ways<L: Ledger>(
    alloc: Global,
    kept: &mut Kept,
    bytes: &[u8],
    from: usize,
    end: usize,
    looks: &mut Looks<L>,
) -> bool
    requires kept { IsKept bytes.now kept.old }
    requires base { kept.old.base ≤ from }
    requires end { (from ≤ end) × (end ≤ length bytes.now) × (end ≤ from + 65535) }
    ensures value { result ≡ reaches bytes.now (spot from false) end }
    ensures kept { IsKept bytes.now kept.new }
    ensures base { kept.new.base ≤ from }
    ensures refused { kept.new.refused ≡ false → kept.old.refused ≡ false }
    ensures looks { kept.new.refused ≡ false → looks.new + paid kept.old ≤ looks.old + 570 + paid kept.new }
    ensures more { looks.old ≤ looks.new }
{
    keep(alloc, kept, bytes, from, end, looks);
    let spot = Spot {
        place: from,
        in_setting: false,
    };
    if kept.refused {
        reaches(bytes, spot, end, looks)
    } else {
        leads_to(bytes, kept.base, &kept.ways, spot, end, looks)
    }
}

/// Whether descriptors lead from the second one of a set to its end.
pub fn leads<L: Ledger>(
    alloc: Global,
    kept: &mut Kept,
    bytes: &[u8],
    from: usize,
    end: usize,
    looks: &mut Looks<L>,
) -> bool
    requires kept { IsKept bytes.now kept.old }
    requires base { kept.old.base ≤ from }
    requires end { (from ≤ end) × (end ≤ length bytes.now) × (end ≤ from + 65535) }
    ensures value { result ≡ reaches bytes.now (spot from false) end }
    ensures kept { IsKept bytes.now kept.new }
    ensures base { kept.new.base ≤ from }
    ensures refused { kept.new.refused ≡ false → kept.old.refused ≡ false }
    ensures looks { kept.new.refused ≡ false → looks.new + paid kept.old ≤ looks.old + 570 + paid kept.new }
    ensures more { looks.old ≤ looks.new }
{
    if kept.walked >= MOST_WALKED {
        return leads_by_ways(alloc, kept, bytes, from, end, looks);
    }
    kept.walked += end - from;
    let spot = Spot {
        place: from,
        in_setting: false,
    };
    reaches(bytes, spot, end, looks)
}
