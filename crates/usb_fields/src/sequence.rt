//! `Sequence`, a list that is kept in a `Vec`, and its methods and traits.
ghost use Rattle.std.specs.Prelude.{◌≡◌, ◌-◌, ◌^◌, ◌<◌, ◌==◌, ◌↔◌, [], ◌∷◌, ◌++◌, length, slice_index_or, IsSome, IfSome, IfNone, IfErr, OnOk, OnErr};
ghost use Rattle.std.specs.Borrow.{sem};
ghost use Rattle.std.specs.Cmp.Lexicographic.{pointwise, lists_per, lists_equiv};
ghost use Rattle.std.specs.Hash as fed;
ghost use Rattle.std.specs.Hash.{items_Alike};
ghost use Rattle.std.specs.Iterator.Runs.{EveryRun, ItemsAre, ItemsMapTo};
ghost use Rattle.std.specs.Slice.Iter.{iter_rest, iter_steps};
ghost use Rattle.std.specs.Vec.Iter.{into_iter_items, into_iter_len, into_iter_steps};
ghost use Rattle.std.specs.declared.alloc.Global.{Global};

use std::alloc::{AllocFailed, Global};
use std::convert::AsSlice;
use std::hash::{Hash, Hasher};
use std::marker::Model;
use std::ops::{DerefSlice, DerefSliceMut};
use std::{fmt, slice, vec};

/// Elements in order: what a public field holds in place of a `Vec`, so that contracts see a list and
/// compare whole trees.
///
/// It derefs to a slice: `&sequence` goes where a slice is wanted, and `iter`, `first`, `last`, `get` and
/// indexing are the slice's.
///
/// ```rust
/// let mut tail = Sequence::new(alloc);
/// tail.push(0x10u8)?;
/// tail.push(0x01)?;
/// assert_eq!(rt; tail.last(), Some(&0x01));
/// for byte in &tail {
///     println!(rt; "{byte:02x}")?;
/// }
/// // By value, the elements come themselves.
/// let sum = tail.into_iter().fold(0, |sum, byte| sum ^ byte);
/// assert_eq!(rt; sum, 0x11);
/// ```
#[derive(Clone, Drop)]
pub struct Sequence<T> {
    items: Vec<T>,
}

impl<T> Model for Sequence<T> {
    ghost use Rattle.std.specs.Prelude.{List};

    ghost Value = { List T };

    ghost view = { λ s. s.items.items };
}

impl<T> Sequence<T> {
    ghost use Rattle.usb_fields.specs.Lending.{LendsItem, LendsItemIf};

    /// With no element.
    pub fn new(alloc: Global) -> Self
        ensures { result ≡ [] }
    {
        Sequence {
            items: Vec::new(alloc),
        }
    }

    /// The elements of the vector, which is kept as it is.
    pub fn from_vec(items: Vec<T>) -> Self
        ensures { result ≡ items.items }
    {
        Sequence { items }
    }

    /// The elements as a vector. Nothing is promised of its room.
    pub fn into_vec(self) -> Vec<T>
        ensures { result.items ≡ self }
    {
        let Sequence { items } = self;
        items
    }

    /// How many elements there are.
    pub fn len(&self) -> usize
        ensures { result ≡ length self.now }
    {
        self.items.len()
    }

    /// Whether there is no element.
    pub fn is_empty(&self) -> bool
        ensures { result ≡ (length self.now == 0) }
    {
        self.items.is_empty()
    }

    /// The elements as a slice.
    pub fn as_slice(&self) -> &[T]
        ensures { result.now ≡ self.now }
    {
        &self.items
    }

    /// Adds an element at the end. When out of memory the list stays, and the value comes back
    /// in the error.
    #[inline(always)]
    pub fn push(&mut self, value: T) -> Result<(), AllocFailed<T>>
        ensures ok { OnOk result (self.new ≡ self.old ++ value ∷ []) }
        ensures err { OnErr result (self.new ≡ self.old) }
        ensures value_returned { IfErr result (λ e. e.value ≡ value) }
    {
        // Apart from the growth, so that a value is moved to its place alone.
        let Ok(()) = self.items.reserve(1) else {
            return Err(AllocFailed { value });
        };
        self.items.push_reserved(value);
        Ok(())
    }

    /// Takes the last element off, if there is one. Nothing is promised of the room that is left.
    pub fn pop(&mut self) -> Option<T>
        ensures some { IfSome result (λ last. self.old ≡ self.new ++ last ∷ []) }
        ensures none { IfNone result ((self.old ≡ []) × (self.new ≡ [])) }
    {
        self.items.pop()
    }

    /// The element at the index, to be changed in place.
    ///
    /// # Requires
    ///
    /// The index is below the length.
    pub fn at_mut(&mut self, index: usize) -> &mut T
        requires { index < length self.old }
        ensures* writes_back { sem 𝓛 (LendsItem T.row self.entry index result) }
        ensures value { result.now ≡ slice_index_or self.old index result.now }
    {
        &mut self.items[index]
    }

    /// The last element, if there is one, to be changed in place.
    pub fn last_mut(&mut self) -> Option<&mut T>
        ensures* writes_back { sem 𝓛 (LendsItemIf T.row self.entry (length self.old - 1) result) }
        ensures variant { IsSome result ↔ (0 < length self.old) }
        ensures value { IfSome result (λ x. x.now ≡ slice_index_or self.old (length self.old - 1) x.now) }
    {
        self.items.last_mut()
    }
}

impl<T> DerefSlice for Sequence<T> {
    type Elem = T;

    ghost deref_gives = { λ s items. items ≡ s };

    fn deref(&self) -> &[T] {
        self.as_slice()
    }
}

impl<T> DerefSliceMut for Sequence<T> {
    ghost use Rattle.usb_fields.specs.Lending.{LendsItems};

    fn deref_mut(&mut self) -> &mut [T]
        ensures* writes_back { sem 𝓛 (LendsItems T.row self.entry result) }
        ensures value { result.now ≡ self.old }
    {
        self.items.as_mut_slice()
    }
}

impl<T> AsSlice<T> for Sequence<T> {
    ghost items = { λ s. s };

    fn as_slice(&self) -> &[T] {
        self.as_slice()
    }
}

impl<'a, T> IntoIterator for &'a Sequence<T> {
    type Item = &'a T;

    type IntoIter = slice::Iter<'a, T>;

    ghost into_iter_gives = { λ s it. (iter_rest it ≡ s.now) × (length (iter_rest it) < 2 ^ 64)
        × EveryRun (iter_steps {A = T}) (λ p. ItemsMapTo p (λ x. x.now) (iter_rest p.from)) };

    fn into_iter(self) -> slice::Iter<'a, T> {
        self.iter()
    }
}

impl<T: Drop> IntoIterator for Sequence<T> {
    type Item = T;

    type IntoIter = vec::IntoIter<T>;

    ghost into_iter_gives = { λ s it. (into_iter_items it ≡ s) × (into_iter_len it ≡ length s) × (into_iter_len it < 2 ^ 64)
        × EveryRun (into_iter_steps {X = T} {Z = Global}) (λ p. ItemsAre p (into_iter_items p.from)) };

    fn into_iter(self) -> vec::IntoIter<T> {
        self.into_vec().into_iter()
    }
}

impl<T> From<Vec<T>> for Sequence<T> {
    ghost from_gives = { λ v s. s ≡ v.items };

    fn from(items: Vec<T>) -> Self {
        Sequence::from_vec(items)
    }
}

impl<T: PartialEq> PartialEq for Sequence<T> {
    ghost eq = { pointwise T.eq };

    ghost laws = { lists_per T.laws };

    fn eq(&self, other: &Sequence<T>) -> bool {
        self.items.eq(&other.items)
    }
}

impl<T: Eq> Eq for Sequence<T> {
    ghost laws = { lists_equiv T.Eq.laws };
}

impl<T: Hash> Hash for Sequence<T> {
    ghost hash_input = { fed.slice T.hash_input };

    ghost respects_eq = { (items_Alike (record { fed = T.respects_eq })).fed };

    fn hash<H: Hasher>(&self, state: &mut H) {
        self.as_slice().hash(state);
    }
}

impl<T: fmt::Debug> fmt::Debug for Sequence<T> {
    fn fmt<W: fmt::Write>(&self, f: &mut fmt::Formatter<W>) -> fmt::Result {
        f.debug_list().entries(self.as_slice()).finish()
    }
}
