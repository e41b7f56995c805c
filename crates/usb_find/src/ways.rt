//! Where descriptors lead out of a block of 1,000 bytes, kept for each place.
ghost use Rattle.std.specs.Prelude.{◌≡◌, ◌<◌, ◌≤◌, ◌+◌, ◌-◌, ◌*◌, ◌/◌, ◌%◌, ◌^◌, ◌||◌, IfSome, IfNone, false, length};
ghost use Rattle.usb_find.specs.inside.Walks.{AreWays, LeadsOut, edge_of, exit_of, next_spot, reaches, spot, spot_after, way_of};

use crate::looks::Looks;
use crate::walk::{Spot, next_spot, reaches};
use std::sync::ledger::Ledger;

/// How many bytes a block has.
const BLOCK: usize = 1000;

/// Where one leaves a block.
#[derive(Clone, Copy, Drop)]
pub struct Exit {
    /// how many bytes on
    pub ahead: u16,
    /// whether an interface came before
    pub in_setting: bool,
}

/// The ways from a place out of its block, where there are any.
#[derive(Clone, Copy, Drop)]
pub struct Ways {
    /// before an interface
    pub outside: Option<Exit>,
    /// after one
    pub inside: Option<Exit>,
}

fn exit_of(in_setting: bool, ways: Ways) -> Option<Exit>
    ensures { result ≡ exit_of in_setting ways }
{
    if in_setting {
        ways.inside
    } else {
        ways.outside
    }
}

fn spot_after(place: usize, exit: Option<Exit>) -> Option<Spot>
    requires { place < 2 ^ 63 + 2 ^ 20 }
    ensures { result ≡ spot_after place exit }
{
    let exit = exit?;
    Some(Spot {
        place: place + usize::from(exit.ahead),
        in_setting: exit.in_setting,
    })
}

/// Where a way leads that is kept.
fn way_of<L: Ledger>(base: usize, ways: &[Ways], spot: Spot, looks: &mut Looks<L>) -> Option<Spot>
    requires base { base ≤ spot.place }
    requires kept { spot.place < base + length ways.now }
    requires fits { spot.place < 2 ^ 63 + 2 ^ 20 }
    ensures value { result ≡ way_of base ways.now spot }
    ensures looks { looks.new ≡ looks.old + 1 }
{
    looks.count();
    spot_after(
        spot.place,
        exit_of(spot.in_setting, ways[spot.place - base]),
    )
}

/// The first spot from an edge on to which the descriptor before a spot leads.
#[tactic(auto, using(crate::proofs::Leading::leads_at_once, crate::proofs::Leading::leads_later))]
fn last_before<L: Ledger>(
    bytes: &[u8],
    base: usize,
    ways: &[Ways],
    edge: usize,
    spot: Spot,
    looks: &mut Looks<L>,
) -> Option<Spot>
    requires base { base ≤ spot.place }
    requires fits { base + length ways.now < 2 ^ 63 + 2 ^ 19 }
    requires edge { edge ≤ base + length ways.now }
    requires near { spot.place ≤ edge + 254 }
    requires out { spot.place < edge → LeadsOut bytes.now edge spot (way_of base ways.now spot) }
    ensures out { LeadsOut bytes.now edge spot result }
    ensures looks { looks.new ≤ looks.old + 1 }
    ensures more { looks.old ≤ looks.new }
{
    if spot.place < edge {
        way_of(base, ways, spot, looks)
    } else {
        Some(spot)
    }
}

/// The way from a place out of its block, where those from the places after it are known.
fn way_out<L: Ledger>(
    bytes: &[u8],
    base: usize,
    ways: &[Ways],
    index: usize,
    in_setting: bool,
    looks: &mut Looks<L>,
) -> Option<Exit>
    requires index { index < length ways.now }
    requires fits { base + length ways.now < 2 ^ 63 + 2 ^ 19 }
    requires block { edge_of index ≤ length ways.now }
    requires after { AreWays bytes.now base ways.now (index + 1) }
    ensures out { LeadsOut bytes.now (base + edge_of index) (spot (base + index) in_setting) (spot_after (base + index) result) }
    ensures looks { looks.new ≤ looks.old + 2 }
    ensures more { looks.old ≤ looks.new }
{
    let place = base + index;
    let edge = base + (index / BLOCK + 1) * BLOCK;
    let Some(next) = next_spot(bytes, Spot { place, in_setting }, looks) else {
        return None;
    };
    let Some(last) = last_before(bytes, base, ways, edge, next, looks) else {
        return None;
    };
    Some(Exit {
        ahead: (last.place - place) as u16,
        in_setting: last.in_setting,
    })
}

/// Makes the ways from one place more.
fn make_way<L: Ledger>(
    bytes: &[u8],
    base: usize,
    ways: &mut [Ways],
    index: usize,
    looks: &mut Looks<L>,
)
    requires index { index < length ways.old }
    requires fits { base + length ways.old < 2 ^ 63 + 2 ^ 19 }
    requires block { edge_of index ≤ length ways.old }
    requires after { AreWays bytes.now base ways.old (index + 1) }
    ensures ways { AreWays bytes.now base ways.new index }
    ensures looks { looks.new ≤ looks.old + 4 }
    ensures more { looks.old ≤ looks.new }
{
    let outside = way_out(bytes, base, ways, index, false, looks);
    let inside = way_out(bytes, base, ways, index, true, looks);
    ways[index] = Ways { outside, inside };
}

/// Makes the ways from each place on.
pub fn make_ways<L: Ledger>(bytes: &[u8], base: usize, ways: &mut [Ways], looks: &mut Looks<L>)
    requires blocks { length ways.old % 1000 ≡ 0 }
    requires fits { base + length ways.old < 2 ^ 63 + 2 ^ 19 }
    ensures ways { AreWays bytes.now base ways.new 0 }
    ensures looks { looks.new ≤ looks.old + 4 * length ways.old }
    ensures more { looks.old ≤ looks.new }
{
    let mut left = ways.len();
    while left > 0 {
        left -= 1;
        make_way(bytes, base, ways, left, looks);
    }
}

/// The spot in the block of a place, or after that place, to which descriptors lead from a spot.
fn near<L: Ledger>(
    bytes: &[u8],
    base: usize,
    ways: &[Ways],
    from: Spot,
    end: usize,
    looks: &mut Looks<L>,
) -> Option<Spot>
    requires base { base ≤ from.place }
    requires end { (base ≤ end) × (end ≤ base + length ways.now) }
    requires fits { base + length ways.now < 2 ^ 63 + 2 ^ 19 }
    requires ways { AreWays bytes.now base ways.now 0 }
    ensures some { IfSome result (λ s. reaches bytes.now from end ≡ reaches bytes.now s end) }
    ensures near { IfSome result (λ s. end < s.place + 1000) }
    ensures none { IfNone result (reaches bytes.now from end ≡ false) }
    ensures looks { looks.new ≤ looks.old + ((end - base) / 1000 - (from.place - base) / 1000) }
    ensures more { looks.old ≤ looks.new }
{
    let mut spot = from;
    while (spot.place - base) / BLOCK < (end - base) / BLOCK {
        match way_of(base, ways, spot, looks) {
            Some(next) => spot = next,
            None => return None,
        }
    }
    Some(spot)
}

/// Whether descriptors lead from a spot to a place, by the ways that are kept.
pub fn leads_to<L: Ledger>(
    bytes: &[u8],
    base: usize,
    ways: &[Ways],
    from: Spot,
    end: usize,
    looks: &mut Looks<L>,
) -> bool
    requires base { base ≤ from.place }
    requires end { (base ≤ end) × (end ≤ base + length ways.now) }
    requires near { end ≤ from.place + 65535 }
    requires within { end ≤ length bytes.now }
    requires fits { base + length ways.now < 2 ^ 63 + 2 ^ 19 }
    requires ways { AreWays bytes.now base ways.now 0 }
    ensures value { result ≡ reaches bytes.now from end }
    ensures looks { looks.new ≤ looks.old + 570 }
    ensures more { looks.old ≤ looks.new }
{
    match near(bytes, base, ways, from, end, looks) {
        Some(spot) => reaches(bytes, spot, end, looks),
        None => false,
    }
}
