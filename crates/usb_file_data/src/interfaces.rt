//! The interfaces of a set.
ghost use Rattle.std.specs.Prelude.{◌≡◌, true, false, map, IfOk, OnOk};
ghost use Rattle.usb_fields.specs.Marks.{IsNextAbsent};
ghost use Rattle.usb_file_data.specs.inside.Interfaces.{HaveDefaults, begun, entered, first_of, kept, none_entered, with_alternate};

use std::alloc::{AllocError, Global};
use std::marker::Model;
use usb_fields::Marks;
use usb_set::Setting;

/// An interface, by the settings of its number.
#[derive(Drop)]
pub(crate) struct Interface {
    pub(crate) number: u8,
    /// The place of its first setting in the set.
    pub(crate) first: usize,
    alternates: Marks,
}

/// The interfaces of the settings that were entered. One value serves all sets of a file: to begin
/// anew takes as little for a large set as for a small one.
#[derive(Drop)]
pub(crate) struct Interfaces {
    /// In the order of their first settings.
    list: Vec<Interface>,
    /// The index in the list of the interface of a number, if it has one, and else anything.
    places: [u8; 256],
    numbers: Marks,
}

impl Model for Interfaces {
    ghost use Rattle.usb_file_data.specs.inside.Interfaces.{AreFound, InterfaceTable};

    ghost Value = { InterfaceTable };

    ghost view = { λ t. record { list = t.list.items; places = t.places; marks = t.numbers } };

    ghost invariant = { λ t. AreFound (record { list = t.list.items; places = t.places; marks = t.numbers }) };
}

impl Interfaces {
    /// With a place for the interface of each number.
    pub(crate) fn new(alloc: Global) -> Interfaces {
        Interfaces {
            list: Vec::new(alloc),
            places: [0; 256],
            numbers: Marks::new(),
        }
    }

    /// Forgets all settings.
    pub(crate) fn clear(&mut self)
        ensures { kept self.new ≡ none_entered }
    {
        self.list.clear();
        self.numbers = Marks::new();
    }

    /// The interfaces in the order of their first settings.
    pub(crate) fn list(&self) -> &[Interface]
        ensures { map first_of result.now ≡ (kept self.now).firsts }
    {
        &self.list
    }

    /// Whether an interface has no alternate setting 0.
    pub(crate) fn lacks_default(&self) -> bool
        ensures { result ≡ false → HaveDefaults (kept self.now) }
    {
        for interface in &self.list {
            if !interface.alternates.has(0) {
                return true;
            }
        }
        false
    }

    /// The first number from this one on that is no interface number.
    pub(crate) fn next_absent(&self, number: u8) -> usize
        ensures { IsNextAbsent (kept self.now).numbers number result }
    {
        self.numbers.next_absent(number)
    }

    /// Whether a setting of this number was entered.
    #[tactic(auto, unfolding(crate::specs::inside::Interfaces::kept))]
    pub(crate) fn has_any(&self, number: u8) -> bool
        ensures { result ≡ (kept self.now).numbers number }
    {
        self.numbers.has(number)
    }

    /// Whether a setting of this number and alternate was entered.
    pub(crate) fn has(&self, number: u8, alternate: u8) -> bool
        ensures { result ≡ (kept self.now).alternates number alternate }
    {
        if !self.numbers.has(number) {
            return false;
        }
        let place = usize::from(self.places[usize::from(number)]);
        self.list[place].alternates.has(alternate)
    }

    /// Enters the setting, and answers whether one of its number and alternate was entered before.
    #[inline(always)]
    pub(crate) fn add(&mut self, setting: usize, s: &Setting) -> Result<bool, AllocError>
        ensures again { IfOk result (λ again. again ≡ (kept self.old).alternates s.now.number s.now.alternate) }
        ensures entered { OnOk result (kept self.new ≡ entered setting s.now (kept self.old)) }
    {
        if !self.numbers.has(s.number) {
            self.begin(s.number, setting)?;
        }
        Ok(self.mark(s.number, s.alternate))
    }

    /// Begins the interface of a number at the setting of this place.
    fn begin(&mut self, number: u8, setting: usize) -> Result<(), AllocError>
        requires { (kept self.old).numbers number ≡ false }
        ensures { OnOk result (kept self.new ≡ begun number setting (kept self.old)) }
    {
        // Interfaces have different numbers, so a byte counts those before, and this is never refused.
        let Ok(place) = u8::try_from(self.list.len()) else {
            return Err(AllocError);
        };
        self.list.push(Interface {
            number,
            first: setting,
            alternates: Marks::new(),
        })?;
        self.places[usize::from(number)] = place;
        self.numbers.add(number);
        Ok(())
    }

    /// Enters the alternate. Answers whether it was entered before.
    fn mark(&mut self, number: u8, alternate: u8) -> bool
        requires { (kept self.old).numbers number ≡ true }
        ensures again { result ≡ (kept self.old).alternates number alternate }
        ensures marked { kept self.new ≡ with_alternate number alternate (kept self.old) }
    {
        let place = usize::from(self.places[usize::from(number)]);
        let alternates = &mut self.list[place].alternates;
        let again = alternates.has(alternate);
        alternates.add(alternate);
        again
    }
}
