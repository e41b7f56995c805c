//! The numbers of the interfaces of a set, and which of them a descriptor names.
ghost use Rattle.std.specs.Prelude.{◌≡◌, ◌<◌, ◌+◌, ◌^◌, ◌||◌, ℕ, true, false, length, replicate, slice_set};
ghost use Rattle.std.specs.List.{list_any, range_with_len};
ghost use Rattle.usb_remarks.specs.InterfaceNumbers.{first_missing, function_interfaces, has_data_interface, has_number, is_functional, is_late, is_numbered, is_of_class, missing_interface, named_interfaces};

use std::marker::Model;
use usb_fields::{after, byte_at, prefix};
use usb_names::ClassCodes;
use usb_walk::{Role, is_interface};

/// The numbers of the interfaces of a set.
#[derive(Clone, Debug, Drop)]
pub(crate) struct InterfaceNumbers {
    has: [bool; 256],
}

impl Model for InterfaceNumbers {
    ghost use Rattle.std.specs.Prelude.{Bool, List};

    ghost Value = { List Bool };

    ghost view = { λ numbers. numbers.has };
}

impl InterfaceNumbers {
    /// Of no interface.
    pub(crate) fn new() -> InterfaceNumbers
        ensures { result ≡ replicate 256 false }
    {
        InterfaceNumbers { has: [false; 256] }
    }

    /// Forgets all of them.
    pub(crate) fn clear(&mut self)
        ensures { self.new ≡ replicate 256 false }
    {
        self.has = [false; 256];
    }

    /// Adds a descriptor, which has a number where it is an interface.
    pub(crate) fn add(&mut self, d: &[u8])
        ensures cells { length self.old ≡ 256 → length self.new ≡ 256 }
        ensures numbers { length self.old ≡ 256 → (n : ℕ) → n < 256 → has_number self.new n ≡ (has_number self.old n || is_numbered n d.now) }
    {
        if is_interface(d) {
            self.has[usize::from(byte_at(d, 2))] = true;
        }
    }

    /// Adds a number.
    pub(crate) fn mark(&mut self, number: u8)
        ensures { self.new ≡ slice_set self.old number true }
    {
        self.has[usize::from(number)] = true;
    }

    /// Whether it is an association that comes after an interface that it binds, where those before it have these numbers (its
    /// ECN, 9.X.Y).
    #[tactic(auto, unfolding(crate::specs::InterfaceNumbers::is_late))]
    pub(crate) fn is_late(&self, role: Role, d: &[u8]) -> bool
        ensures { result ≡ is_late self.now role d.now }
    {
        match role {
            Role::Association => self.has_any(usize::from(byte_at(d, 2)), byte_at(d, 3)),
            _ => false,
        }
    }

    /// Whether an interface has one of `count` numbers from the first on.
    #[tactic(auto, using(crate::proofs::NumberSteps::any_none, crate::proofs::NumberSteps::any_step))]
    fn has_any(&self, first: usize, count: u8) -> bool
        requires { first + count < 2 ^ 64 }
        ensures { result ≡ list_any (has_number self.now) (range_with_len first count) }
    {
        if count == 0 {
            false
        } else if self.has_at(first) {
            true
        } else {
            self.has_any(first + 1, count - 1)
        }
    }

    /// The same of a number that may be above all of them.
    fn has_at(&self, number: usize) -> bool
        ensures { result ≡ has_number self.now number }
    {
        match self.has.get(number) {
            None => false,
            Some(has) => *has,
        }
    }

    /// Whether an interface has this number.
    fn has(&self, number: u8) -> bool
        ensures { result ≡ has_number self.now number }
    {
        self.has[usize::from(number)]
    }

    /// The first of these numbers that no interface has.
    fn first_missing(&self, numbers: &[u8]) -> Option<u8>
        ensures { result ≡ first_missing self.now numbers.now }
    {
        for number in numbers {
            if !self.has(*number) {
                return Some(*number);
            }
        }
        None
    }

    /// The first interface that a descriptor names, behind an interface of these codes, and that isn't there.
    #[tactic(auto, unfolding(crate::specs::InterfaceNumbers::missing_interface))]
    pub(crate) fn missing(&self, interface: Option<ClassCodes>, d: &[u8]) -> Option<u8>
        ensures { result ≡ missing_interface self.now interface d.now }
    {
        self.first_missing(named_interfaces(interface, d))
    }
}

/// Whether it is of this type, behind an interface of this class.
pub(crate) fn is_of_class(class: u8, kind: u8, interface: Option<ClassCodes>, d: &[u8]) -> bool
    ensures { result ≡ is_of_class class kind interface d.now }
{
    match interface {
        None => false,
        Some(codes) => codes.class == class && byte_at(d, 1) == kind,
    }
}

/// Whether it is a functional descriptor of a communications interface (CDC 1.2, 5.2.3).
pub(crate) fn is_functional(interface: Option<ClassCodes>, d: &[u8]) -> bool
    ensures { result ≡ is_functional interface d.now }
{
    is_of_class(0x02, 0x24, interface, d)
}

/// Whether call management goes over a data interface, by bits 1 and 0 of bmCapabilities (PSTN 1.2, 5.3.1).
fn has_data_interface(d: &[u8]) -> bool
    ensures { result ≡ has_data_interface d.now }
{
    byte_at(d, 3) % 4 == 3
}

/// The interfaces that a functional descriptor names: the data interface of call management (PSTN 1.2, 5.3.1), or all of a union
/// (CDC 1.2, 5.2.3.2).
fn function_interfaces(d: &[u8]) -> &[u8]
    ensures { result.now ≡ function_interfaces d.now }
{
    match byte_at(d, 2) {
        1 if has_data_interface(d) => prefix(after(d, 4), 1),
        6 => after(d, 3),
        _ => &[],
    }
}

/// The interfaces that a descriptor names.
fn named_interfaces(interface: Option<ClassCodes>, d: &[u8]) -> &[u8]
    ensures { result.now ≡ named_interfaces interface d.now }
{
    if is_functional(interface, d) && d.len() >= 5 {
        function_interfaces(d)
    } else {
        &[]
    }
}
