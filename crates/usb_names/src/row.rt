//! Class descriptors by name.
ghost use Rattle.std.specs.Prelude.{◌≡◌, IsTrue, find, map, option_map};
ghost use Rattle.std.specs.Option.{option_copied};
ghost use Rattle.usb_names.specs.Rows.{agrees, first_row, has_zero, holds, is_class_type, rows_behind, rows_of_class};
ghost use Rattle.usb_names.specs.Shown.{is_row, row_of};

use crate::codes::ClassCodes;
use crate::field::ClassField;
use crate::rows::{class_rows, other_rows, standard_rows};

/// A descriptor that a class defines: what it is known by, its name and its fields.
#[derive(Clone, Copy, Debug)]
pub struct ClassDescriptor<Name = &'static str, Fields = &'static [ClassField]> {
    /// The subclass of the interface; none is any.
    pub subclass: Option<u8>,
    /// The protocol of the interface; none is any.
    pub protocol: Option<u8>,
    /// bDescriptorType.
    pub descriptor_type: u8,
    /// The first byte after bDescriptorType; none is any.
    pub first: Option<u8>,
    /// The byte after that one; none is any.
    pub second: Option<u8>,
    /// The place after bDescriptorType of a byte that is 0; none is any.
    pub zero_at: Option<usize>,
    /// The name.
    pub name: Name,
    /// The fields after bDescriptorType, in order.
    pub fields: Fields,
    /// The fields that repeat after those.
    pub group: Fields,
}

/// A row's code is any code, or this one.
fn agrees(wanted: Option<u8>, code: Option<u8>) -> bool
    ensures { result ≡ agrees wanted code }
{
    match (wanted, code) {
        (None, _) => true,
        (Some(_), None) => false,
        (Some(wanted), Some(code)) => wanted == code,
    }
}

/// A body has 0 at this place, where a row asks for one.
fn has_zero(place: Option<usize>, body: &[u8]) -> bool
    ensures { result ≡ has_zero place body.now }
{
    match place {
        None => true,
        Some(place) => agrees(Some(0), body.get(place).copied()),
    }
}

impl<Name, Fields> ClassDescriptor<Name, Fields> {
    fn holds(&self, interface: Option<ClassCodes>, descriptor_type: u8, body: &[u8]) -> bool
        ensures { result ≡ holds self.now interface descriptor_type body.now }
    {
        self.descriptor_type == descriptor_type
            && agrees(self.first, body.first().copied())
            && agrees(self.second, body.get(1).copied())
            && has_zero(self.zero_at, body)
            && agrees(self.subclass, interface.map(|codes| codes.subclass))
            && agrees(self.protocol, interface.map(|codes| codes.protocol))
    }
}

/// The first of these rows that holds.
fn find_row(
    rows: &'static [ClassDescriptor],
    interface: Option<ClassCodes>,
    descriptor_type: u8,
    body: &[u8],
) -> Option<&'static ClassDescriptor>
    ensures { option_copied result ≡ find (λ row. holds (row_of row) interface descriptor_type body.now) rows.now }
{
    rows.iter()
        .find(|row| row.holds(interface, descriptor_type, body))
}

/// The same, of the rows as the table says them.
#[inline(always)]
#[tactic(auto, using(crate::proofs::RowLemmas::find_mapped))]
fn first_row(
    rows: &'static [ClassDescriptor],
    interface: Option<ClassCodes>,
    descriptor_type: u8,
    body: &[u8],
) -> Option<&'static ClassDescriptor>
    ensures { option_map row_of (option_copied result) ≡ first_row (map row_of rows.now) interface descriptor_type body.now }
{
    find_row(rows, interface, descriptor_type, body)
}

/// Whether a type is one that classes define. No standard row has such a type, and each other row has one.
fn is_class_type(descriptor_type: u8) -> bool
    ensures { result ≡ is_class_type descriptor_type }
{
    matches!(descriptor_type, 0x21 | 0x24 | 0x25 | 0x29)
}

/// A descriptor that a class defines, with names of at most 62 printable characters and fields that have bytes.
#[derive(Clone, Copy, Debug)]
pub struct ClassRow {
    /// The row of the table.
    pub row: &'static ClassDescriptor,
    pub ghost names: { IsTrue (is_row (row_of row.now)) },
}

/// The descriptor of this type and of a body that begins with these bytes, after an interface of these codes; before any
/// interface there are none. It is the first row of the table that holds.
///
/// ```rust
/// let hid = ClassCodes { class: 3, subclass: 1, protocol: 2 };
/// if let Some(descriptor) = class_descriptor(Some(hid), 0x21, &[0x10, 1]) {
///     assert_eq!(rt; descriptor.row.name, "HID");
/// }
/// ```
pub fn class_descriptor(
    interface: Option<ClassCodes>,
    descriptor_type: u8,
    body: &[u8],
) -> Option<ClassRow>
    ensures { option_map (λ found. row_of found.row.now) result ≡ first_row (rows_behind interface descriptor_type) interface descriptor_type body.now }
{
    let row = row_behind(interface, descriptor_type, body)?;
    Some(ClassRow { row })
}

#[inline(always)]
#[tactic(auto, using(crate::proofs::RowLemmas::find_in_two))]
fn row_behind(
    interface: Option<ClassCodes>,
    descriptor_type: u8,
    body: &[u8],
) -> Option<&'static ClassDescriptor>
    ensures { option_map row_of (option_copied result) ≡ first_row (rows_behind interface descriptor_type) interface descriptor_type body.now }
{
    if !is_class_type(descriptor_type) {
        return first_row(standard_rows(), interface, descriptor_type, body);
    }
    match row_of_class(interface, descriptor_type, body) {
        None => first_row(other_rows(), interface, descriptor_type, body),
        Some(row) => Some(row),
    }
}

/// The first row that holds of the class of an interface, if there is one.
#[inline(always)]
#[tactic(auto, using(crate::proofs::RowLemmas::find_in_two))]
fn row_of_class(
    interface: Option<ClassCodes>,
    descriptor_type: u8,
    body: &[u8],
) -> Option<&'static ClassDescriptor>
    ensures { option_map row_of (option_copied result) ≡ first_row (rows_of_class interface) interface descriptor_type body.now }
{
    let codes = interface?;
    let (rows, further) = class_rows(codes.class);
    match first_row(rows, interface, descriptor_type, body) {
        None => first_row(further, interface, descriptor_type, body),
        Some(row) => Some(row),
    }
}
