//! The endpoint addresses of a set.
ghost use Rattle.std.specs.Prelude.{◌≡◌};
ghost use Rattle.usb_fields.specs.Marks.{marked};
ghost use Rattle.usb_file_data.specs.inside.Addresses.{begun, claimed, cleared, is_other, kept, owned_at};

use std::marker::Model;
use usb_fields::Marks;

/// The numbers of the interfaces that claim an address.
#[derive(Clone, Copy)]
pub(crate) enum Owner {
    One(u8),
    Several,
}

impl Owner {
    fn is_other(self, number: u8) -> bool
        ensures { result ≡ is_other self number }
    {
        match self {
            Owner::One(first) => first != number,
            Owner::Several => true,
        }
    }
}

/// Whether an address was claimed before.
#[derive(Clone, Copy)]
pub(crate) struct Claimed {
    /// By the current setting.
    pub(crate) here: bool,
    /// Under another interface number.
    pub(crate) elsewhere: bool,
}

/// Which addresses a set and its current setting have, and under which interface numbers. One
/// value serves all sets of a file: to begin anew takes as little for a large set as for a small one.
#[derive(Drop)]
pub(crate) struct Addresses {
    /// The interface number of the current setting.
    number: u8,
    in_setting: Marks,
    in_set: Marks,
    /// The owner of each address that the set has, and of others anything.
    owners: [Owner; 256],
}

impl Model for Addresses {
    ghost use Rattle.std.specs.Prelude.{◌≡◌, length};
    ghost use Rattle.usb_file_data.specs.inside.Addresses.{AddressTable};

    ghost Value = { AddressTable };

    ghost view = { λ t. record { number = t.number; in_setting = t.in_setting; in_set = t.in_set; owners = t.owners } };

    ghost invariant = { λ t. length t.owners ≡ 256 };
}

impl Addresses {
    /// With a place for the owner of each address.
    pub(crate) fn new() -> Addresses {
        Addresses {
            number: 0,
            in_setting: Marks::new(),
            in_set: Marks::new(),
            // All zeros, so that one fill makes the table.
            owners: [Owner::One(0); 256],
        }
    }

    /// Begins a set.
    pub(crate) fn clear(&mut self)
        ensures { kept self.new ≡ cleared (kept self.old) }
    {
        self.in_set = Marks::new();
    }

    /// Begins a setting of this interface number.
    pub(crate) fn begin(&mut self, number: u8)
        ensures { kept self.new ≡ begun number (kept self.old) }
    {
        self.number = number;
        self.in_setting = Marks::new();
    }

    /// The current setting claims the address. Answers who claimed it before.
    #[inline(always)]
    pub(crate) fn claim(&mut self, address: u8) -> Claimed
        ensures here { result.here ≡ (kept self.old).here address }
        ensures elsewhere { result.elsewhere ≡ (kept self.old).elsewhere address (kept self.old).number }
        ensures claimed { kept self.new ≡ claimed address (kept self.old) }
    {
        let here = self.repeat(address);
        let elsewhere = self.own(address);
        Claimed { here, elsewhere }
    }

    /// The current setting has the address. Answers whether it had it before.
    #[inline(always)]
    fn repeat(&mut self, address: u8) -> bool
        ensures here { result ≡ (kept self.old).here address }
        ensures marked { kept self.new ≡ record (kept self.old) { here = marked (kept self.old).here address } }
    {
        let here = self.in_setting.has(address);
        self.in_setting.add(address);
        here
    }

    /// The interface number of the current setting has the address. Answers whether another number has it too.
    #[inline(always)]
    fn own(&mut self, address: u8) -> bool
        ensures elsewhere { result ≡ (kept self.old).elsewhere address (kept self.old).number }
        ensures owned { kept self.new ≡ record (kept self.old) { elsewhere = owned_at (kept self.old).number (kept self.old).elsewhere address } }
    {
        let place = usize::from(address);
        if !self.in_set.has(address) {
            self.in_set.add(address);
            self.owners[place] = Owner::One(self.number);
            return false;
        }
        if self.owners[place].is_other(self.number) {
            self.owners[place] = Owner::Several;
            return true;
        }
        false
    }
}
