//! Which association binds each interface.
ghost use Rattle.std.specs.Prelude.{◌≡◌, ◌<◌, ◌≤◌, ◌+◌, ◌^◌, ◌∷◌, ℕ, List, length, None, Some, if◌then◌else◌, replicate, slice_index};
ghost use Rattle.std.specs.Option.{option_or};
ghost use Rattle.usb_remarks.specs.Bindings.{binds, bound_at};
ghost use Rattle.usb_remarks.specs.inside.Walking.{AllBound, bound_cell, bound_first, bound_with};

use std::marker::Model;
use usb_fields::byte_at;
use usb_walk::is_association;

/// In a cell of a number that no association binds.
const UNBOUND: u16 = u16::MAX;

/// For each interface number of a set the number of the first association that binds it.
#[derive(Clone, Debug, Drop)]
pub(crate) struct Bindings {
    /// Two bytes a number, so that several are bound at once.
    cells: [u16; 256],
    /// Each number below this one is bound, so that an association of those alone binds none.
    bound: usize,
}

impl Model for Bindings {
    ghost use Rattle.std.specs.Prelude.{◌≡◌, ◌≤◌, List, ℕ, Option, length, map};
    ghost use Rattle.usb_remarks.specs.inside.Walking.{AllBound, bound_cell};

    ghost Value = { List (Option ℕ) };

    ghost view = { λ b. map bound_cell b.cells };

    ghost invariant = { λ b. (length b.cells ≡ 256) × (b.bound ≤ 256) × AllBound b.bound b.cells };
}

impl Bindings {
    /// Of a set without associations.
    pub(crate) fn new() -> Bindings
        ensures { result ≡ replicate 256 None }
    {
        Bindings {
            cells: [UNBOUND; 256],
            bound: 0,
        }
    }

    /// Forgets all associations.
    pub(crate) fn clear(&mut self)
        ensures { self.new ≡ replicate 256 None }
    {
        self.cells = [UNBOUND; 256];
        self.bound = 0;
    }

    /// The number of the association that binds an interface of this number.
    pub(crate) fn of(&self, interface: u8) -> Option<u64>
        ensures { result ≡ bound_at self.now interface }
    {
        let cell = self.cells[usize::from(interface)];
        if cell == UNBOUND {
            None
        } else {
            Some(u64::from(cell))
        }
    }

    /// Adds a descriptor after `count` associations, which binds interfaces where it is one. Answers how many there are then.
    pub(crate) fn add(&mut self, count: u16, d: &[u8]) -> u16
        requires { count + 1 < 2 ^ 16 }
        ensures cells { length self.old ≡ 256 → length self.new ≡ 256 }
        ensures binds { (n : ℕ) → n < 256 → (ds : List (List ℕ)) → bound_with self.old count n (d.now ∷ ds) ≡ bound_with self.new result n ds }
        ensures count { result ≤ count + 1 }
    {
        if !is_association(d) {
            return count;
        }
        self.bind(count, byte_at(d, 2), byte_at(d, 3));
        count + 1
    }

    /// Binds those of `count` numbers that no earlier association binds.
    #[tactic(auto, using(crate::proofs::Tables::cell_at))]
    fn bind(&mut self, association: u16, first: u8, count: u8)
        requires { association + 1 < 2 ^ 16 }
        ensures cells { length self.new ≡ 256 }
        ensures bound { (n : ℕ) → n < 256 → bound_at self.new n ≡ option_or (bound_at self.old n) (if binds first count n then Some association else None) }
    {
        self.bound = bind_more(&mut self.cells, self.bound, association, first, count);
    }
}

/// Binds those of `count` numbers that no earlier association binds, where each number below one is bound. Answers the one
/// below which each is bound then.
#[tactic(auto, using(crate::proofs::Tables::none_bound, crate::proofs::Tables::cell_bound, crate::proofs::Tables::still_bound, crate::proofs::Tables::now_bound))]
fn bind_more(cells: &mut [u16; 256], bound: usize, association: u16, first: u8, count: u8) -> usize
    requires association { association + 1 < 2 ^ 16 }
    requires most { bound ≤ 256 }
    requires before { AllBound bound cells.old }
    ensures cells { length cells.new ≡ 256 }
    ensures most { result ≤ 256 }
    ensures before { AllBound result cells.new }
    ensures bound { (n : ℕ) → n < 256 → bound_cell (slice_index cells.new n) ≡ option_or (bound_cell (slice_index cells.old n)) (if binds first count n then Some association else None) }
{
    let end = usize::from(first) + usize::from(count);
    if end <= bound {
        return bound;
    }
    bind_cells(cells, association, first, count);
    if usize::from(first) <= bound {
        end.min(256)
    } else {
        bound
    }
}

fn bind_cells(cells: &mut [u16; 256], association: u16, first: u8, count: u8)
    ensures cells { length cells.new ≡ 256 }
    ensures bound { (n : ℕ) → n < 256 → slice_index cells.new n ≡ (if binds first count n then bound_first (slice_index cells.old n) association else slice_index cells.old n) }
{
    let end = (usize::from(first) + usize::from(count)).min(256);
    for number in usize::from(first)..end {
        cells[number] = bound_first(cells[number], association);
    }
}

/// What is in a cell after this association.
fn bound_first(cell: u16, association: u16) -> u16
    ensures { result ≡ bound_first cell association }
{
    if cell == UNBOUND { association } else { cell }
}
