//! All that stands among some bytes, with a bound on the looks at them.
ghost use Rattle.std.specs.Prelude.{◌≡◌, ◌<◌, ◌≤◌, ◌+◌, ◌-◌, ◌*◌, ◌^◌, false, length};
ghost use Rattle.usb_find.specs.Found.{FindsIn};
ghost use Rattle.usb_find.specs.inside.Bounds.{IsKept, paid};

use crate::kept::Kept;
use crate::looks::Looks;
use crate::search::{Found, next_found};
use std::alloc::Global;
use std::marker::Brand;
use std::sync::ledger::{Blank, Ledger};

/// Puts what stands from a place on into the buffer, as much as there is room for. Gives how many these are, and where the search
/// goes on. Fewer than there is room for are all.
pub fn find_all(alloc: Global, bytes: &[u8], start: usize, found: &mut [Found]) -> (usize, usize)
    ensures { FindsIn bytes.now start found.old found.new result.0 result.1 }
{
    find_with::<Brand>(alloc, Blank::new(1), bytes, start, found)
}

fn find_with<L: Ledger>(
    alloc: Global,
    blank: Blank,
    bytes: &[u8],
    start: usize,
    found: &mut [Found],
) -> (usize, usize)
    requires name { blank.name ≡ L.name }
    requires parts { blank.parts ≡ L.parts }
    requires some { 0 < blank.parts }
    ensures { FindsIn bytes.now start found.old found.new result.0 result.1 }
{
    let mut looks = Looks::<L>::new(blank);
    let mut kept = Kept::new(alloc, start);
    find_counted(alloc, &mut kept, bytes, start, found, &mut looks)
}

/// [`find_all`], with the looks that it takes: no more than 600 for each byte and 2,097,152 beside, unless memory was refused.
pub fn find_counted<L: Ledger>(
    alloc: Global,
    kept: &mut Kept,
    bytes: &[u8],
    start: usize,
    found: &mut [Found],
    looks: &mut Looks<L>,
) -> (usize, usize)
    requires kept { IsKept bytes.now kept.old }
    requires base { kept.old.base ≡ start }
    requires none { paid kept.old ≡ 9 * start }
    ensures found { FindsIn bytes.now start found.old found.new result.0 result.1 }
    ensures looks { kept.new.refused ≡ false → looks.new ≤ looks.old + 600 * (result.1 - start) + 2 ^ 21 }
{
    let mut count = 0;
    let mut place = start;
    while count < found.len() {
        match next_found(alloc, kept, bytes, place, looks) {
            Some(next) => {
                found[count] = next;
                count += 1;
                place = next.next;
            }
            None => return (count, bytes.len().max(start)),
        }
    }
    (count, place)
}
