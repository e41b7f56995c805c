//! Which strings a file names, and the string of an index in a language.
ghost use Rattle.std.specs.Prelude.{◌≡◌, ◌+◌, ◌*◌, ◌<◌, ◌==◌, position, slice_get, length, IfSome};
ghost use Rattle.std.specs.Option.{option_copied};
ghost use Rattle.usb_file_data.specs.File.{units_at, units_of};
ghost use Rattle.std.specs.Prelude.{◌≡◌, ◌≤◌, [], IfOk, length};
ghost use Rattle.usb_file_data.specs.File.{named_indices};
ghost use Rattle.usb_fields.specs.Marks.{is_marked};
ghost use Rattle.usb_file_data.specs.inside.Walk.{marked_among};

use crate::file::{DescriptorFile, Strings};
use crate::string_marks::mark_file;
use arrayvec::ArrayVec;
use std::alloc::Global;
use usb_fields::Marks;
use usb_set::Sequence;

impl DescriptorFile {
    /// The UTF-16 code units of the string of this index in this language, or `None` where the file has none such. An
    /// index of 0 names no string, and the language list is in [`Strings`] (USB 2.0, 9.6.7). It goes through the file to
    /// see which indices are named.
    ///
    /// ```rust
    /// // iProduct in US English.
    /// if let Some(units) = file.string(file.device.product_text, 0x0409) {
    ///     println!(rt; "{} units", units.len())?;
    /// }
    /// ```
    pub fn string(&self, index: u8, language: u16) -> Option<&[u16]>
        ensures { option_copied result ≡ units_of self.now index language }
    {
        match &self.strings {
            Some(strings) => {
                let mut named = ArrayVec::new();
                put_named(self, &mut named);
                strings.units_at(named.as_slice(), index, language)
            }
            None => None,
        }
    }
}

impl Strings {
    /// The units of the string of an index in a language, where `named` has the indices that the file names.
    ///
    /// ```rust
    /// let units = strings.units_at(&named(alloc, &file)?, file.device.product_text, 0x0409);
    /// ```
    pub fn units_at(&self, named: &[u8], index: u8, language: u16) -> Option<&[u16]>
        ensures { option_copied result ≡ units_at self.now named.now index language }
    {
        let row = self.place_of_language(language)?;
        let column = place_of_index(named, index)?;
        units_in(&self.texts, row, named.len(), column)
    }

    /// The first place of a language in the list.
    ///
    /// ```rust
    /// assert_eq!(rt; strings.place_of_language(0x0409), Some(0));
    /// ```
    pub fn place_of_language(&self, language: u16) -> Option<usize>
        ensures place { result ≡ position (λ l. l == language) self.now.languages }
        ensures within { IfSome result (λ place. place < length self.now.languages) }
    {
        self.languages.iter().position(|other| *other == language)
    }
}

fn place_of_index(named: &[u8], index: u8) -> Option<usize>
    ensures { result ≡ position (λ n. n == index) named.now }
{
    named.iter().position(|other| *other == index)
}

/// The units in this row and column of a table, of which each row has this many columns.
fn units_in(table: &[Sequence<u16>], row: usize, columns: usize, column: usize) -> Option<&[u16]>
    ensures { option_copied result ≡ slice_get table.now (row * columns + column) }
{
    // For the proof alone: there are fewer than a `usize` can count.
    let _count = table.len();
    let place = row.checked_mul(columns)?.checked_add(column)?;
    match table.get(place) {
        Some(units) => Some(units.as_slice()),
        None => None,
    }
}

/// Out of memory, as std has it.
pub use std::alloc::AllocError as NoMemory;

/// The indices of the strings that the file names, ascending. They are the numbers 1 to 255 in
/// iManufacturer, iProduct or iSerialNumber of the device, or in iConfiguration, iInterface or iFunction
/// of a set of either speed (USB 2.0, 9.6.1, 9.6.3, 9.6.5, and its ECN on interface associations).
///
/// ```rust
/// file.device.product_text = 2;
/// file.device.serial_text = 1;
/// assert_eq!(rt; named(alloc, &file)?.as_slice(), [1, 2].as_slice());
/// ```
///
/// # Errors
///
/// Out of memory.
pub fn named(alloc: Global, f: &DescriptorFile) -> Result<Vec<u8>, NoMemory>
    ensures indices { IfOk result (λ v. v.items ≡ named_indices f.now) }
    ensures most { IfOk result (λ v. length v.items ≤ 255) }
{
    let mut indices = ArrayVec::new();
    put_named(f, &mut indices);
    indices.as_slice().to_vec(alloc)
}

/// How many indices of strings the file names. In each language it has as many strings.
///
/// ```rust
/// file.device.product_text = 2;
/// file.device.serial_text = 1;
/// assert_eq!(rt; count_named(&file), 2);
/// ```
pub fn count_named(f: &DescriptorFile) -> usize
    ensures count { result ≡ length (named_indices f.now) }
    ensures most { result ≤ 255 }
{
    let mut indices = ArrayVec::new();
    put_named(f, &mut indices);
    indices.len()
}

/// Fills an empty list with the indices that the file names.
pub(crate) fn put_named(f: &DescriptorFile, out: &mut ArrayVec<u8, 255>)
    requires { out.old.items ≡ [] }
    ensures indices { out.new.items ≡ named_indices f.now }
    ensures most { length out.new.items ≤ 255 }
{
    put_marked(&mark_file(f), out);
}

/// Fills an empty list with the marked numbers of 1 to 255, ascending: it looks for each from the one before on.
#[tactic(auto, using(crate::proofs::Folds::among_none))]
fn put_marked(marks: &Marks, out: &mut ArrayVec<u8, 255>)
    requires { out.old.items ≡ [] }
    ensures numbers { out.new.items ≡ marked_among 1 255 (is_marked marks.now) }
    ensures most { length out.new.items ≤ 255 }
{
    let others = marks.complement();
    let mut from = 1;
    'search: loop {
        let next = others.next_absent(from);
        if next > 255 {
            return;
        }
        out.push(next as u8);
        if next == 255 {
            return;
        }
        from = next as u8 + 1;
    }
}
