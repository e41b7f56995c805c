//! The fields of a descriptor, one after another.
ghost use Rattle.std.specs.Prelude.{◌≡◌, ◌≤◌, ◌-◌, ◌∷◌, [], ◌&&◌, IsTrue, IfSome, MatchOption, map, nat_le, nat_lt, option_map};
ghost use Rattle.usb_names.specs.Named.{is_name};
ghost use Rattle.usb_names.specs.Shown.{field_of, row_of};
ghost use Rattle.usb_explain.specs.Fields.{class_layout, fields_of, laid, left_over, placed_of};
ghost use Rattle.usb_explain.specs.Headers.{row_in};
ghost use Rattle.usb_explain.specs.Layouts.{width_of};
ghost use Rattle.usb_explain.specs.inside.FieldsLeft.{is_layout, is_rest_of_layout, layout_left, left_in, no_layout, piece_of};
ghost use Rattle.usb_explain.specs.inside.DescriptorLayouts.{layout_of};

mod standard_layouts;

use crate::class_rows::row_in;
use crate::field::Field;
use crate::fields::standard_layouts::{
    DescriptorLayout, association_layout, configuration_layout, device_layout, endpoint_layout,
    interface_layout, qualifier_layout,
};
use std::marker::Model;
use usb_fields::{after, prefix};
use usb_names::{ClassCodes, ClassField, ClassRow, Form};
use usb_walk::Role;

/// The fields of a descriptor that are left, in the order of the bytes. In a contract it is the list of them.
///
/// They stand one after another, from bDescriptorType of a class descriptor on and of the others from the byte after it, and
/// have all bytes up to the end of the descriptor: [`laws`](crate::laws) says so of any bytes. Those without a field of their
/// own are the last field, `bytes` of a class descriptor and `tail` of the others.
///
/// ```rust
/// let mut fields = Fields::of(Role::Raw, None, &[3, 0x77, 0xab]);
/// if let Some(field) = fields.next() {
///     assert_eq!(rt; field.name, "bDescriptorType");
/// }
/// if let Some(field) = fields.next() {
///     assert_eq!(rt; field.name, "bytes");
///     assert_eq!(rt; field.value, [0xab]);
/// }
/// ```
#[derive(Drop)]
pub struct Fields<'d> {
    lists: Lists,
    place: usize,
    ahead: &'d [u8],
}

impl<'d> Model for Fields<'d> {
    ghost use Rattle.std.specs.Prelude.{◌≡◌, ◌+◌, ◌<◌, ◌^◌, IsTrue, List, length};
    ghost use Rattle.usb_explain.specs.Fields.{PlacedField, placed};
    ghost use Rattle.usb_explain.specs.inside.FieldsLeft.{is_rest_of_layout, left_in};

    ghost Value = { List PlacedField };

    ghost view = { λ f. placed f.place (left_in f.lists (length f.ahead.now)) f.ahead.now };

    ghost invariant = { λ f. IsTrue (is_rest_of_layout f.lists) × (f.place + length f.ahead.now < 2 ^ 63) };
}

impl<'d> Fields<'d> {
    /// The fields of a descriptor of this role and these bytes, after an interface of these codes. A language list and a
    /// string have none.
    pub fn of(role: Role, interface: Option<ClassCodes>, bytes: &'d [u8]) -> Fields<'d>
        ensures { result ≡ fields_of role interface bytes.now }
    {
        Fields::of_row(role, interface, row_in(role, interface, bytes), bytes)
    }

    /// The same of a descriptor that has this row.
    #[inline(always)]
    #[tactic(auto, unfolding(crate::specs::Fields::fields_of))]
    pub(crate) fn of_row(
        role: Role,
        interface: Option<ClassCodes>,
        row: Option<ClassRow>,
        bytes: &'d [u8],
    ) -> Fields<'d>
        requires { option_map (λ found. row_of found.row.now) row ≡ row_in role interface bytes.now }
        ensures { result ≡ fields_of role interface bytes.entry.now }
    {
        match role {
            Role::Device => Fields::laid(device_layout(), bytes),
            Role::Qualifier => Fields::laid(qualifier_layout(), bytes),
            Role::Configuration => Fields::laid(configuration_layout(), bytes),
            Role::Association => Fields::laid(association_layout(), bytes),
            Role::Interface => Fields::laid(interface_layout(), bytes),
            Role::Endpoint => Fields::laid(endpoint_layout(interface, bytes.len()), bytes),
            Role::Raw => Fields::starting(1, Lists::of_class(row), bytes),
            Role::Languages => Fields::none(),
            Role::Text => Fields::none(),
        }
    }

    /// No fields.
    fn none() -> Fields<'d>
        ensures { result ≡ [] }
    {
        Fields {
            lists: Lists::none(),
            place: 0,
            ahead: &[],
        }
    }

    /// The fields of this layout, of a descriptor of these bytes.
    fn laid(layout: &'static DescriptorLayout, bytes: &'d [u8]) -> Fields<'d>
        requires { IsTrue (is_layout (layout_of layout.now)) }
        ensures { result ≡ laid 2 (layout_of layout.now) bytes.now }
    {
        Fields::starting(2, Lists::of_layout(layout), bytes)
    }

    /// The fields of these lists from a place of these bytes on.
    fn starting(place: usize, lists: Lists, bytes: &'d [u8]) -> Fields<'d>
        requires words { IsTrue (is_rest_of_layout lists) }
        requires near { place ≤ 2 }
        ensures { result ≡ laid place (layout_left lists) bytes.entry.now }
    {
        Fields {
            lists,
            place,
            ahead: after(bytes, place),
        }
    }
}

impl<'d> Iterator for Fields<'d> {
    ghost use Rattle.std.specs.Iterator.{YieldsFirstBy, item_count};

    type Item = Field<'d>;

    ghost next_gives = { YieldsFirstBy placed_of (λ f. f) };

    ghost remaining = { item_count (λ f. f) };

    fn next(&mut self) -> Option<Field<'d>> {
        let (piece, lists) = self.lists.next(self.ahead.len())?;
        let field = Field {
            name: piece.name,
            place: self.place,
            form: piece.form,
            value: prefix(self.ahead, piece.width),
        };
        self.lists = lists;
        self.place += piece.width;
        self.ahead = after(self.ahead, piece.width);
        Some(field)
    }
}

/// A field that comes next, and how many bytes it has.
#[derive(Clone, Copy)]
struct Piece {
    name: &'static str,
    form: Form,
    width: usize,
}

/// The fields that are left of a layout.
#[derive(Clone, Copy)]
struct Lists {
    /// Those that come next.
    current: &'static [ClassField],
    /// Those after them.
    following: &'static [ClassField],
    /// Those that repeat after those.
    group: &'static [ClassField],
    /// What the bytes are called that are left.
    rest: &'static str,
}

/// The first field of a class descriptor.
static DESCRIPTOR_TYPE: [ClassField; 1] = [ClassField {
    name: "bDescriptorType",
    width: 1,
    form: Form::Hexadecimal,
}];

impl Lists {
    /// No fields.
    fn none() -> Lists
        ensures { layout_left result ≡ no_layout }
    {
        Lists {
            current: &[],
            following: &[],
            group: &[],
            rest: "",
        }
    }

    /// Those of a layout.
    fn of_layout(layout: &'static DescriptorLayout) -> Lists
        ensures layout { layout_left result ≡ layout_of layout.now }
        ensures words { is_rest_of_layout result ≡ is_layout (layout_of layout.now) }
    {
        Lists {
            current: &[],
            following: layout.fields,
            group: layout.group,
            rest: layout.rest,
        }
    }

    /// Those of a class descriptor of this row.
    fn of_class(row: Option<ClassRow>) -> Lists
        ensures layout { layout_left result ≡ class_layout (option_map (λ found. row_of found.row.now) row) }
        ensures words { IsTrue (is_rest_of_layout result) }
    {
        match row {
            None => Lists {
                current: &DESCRIPTOR_TYPE,
                following: &[],
                group: &[],
                rest: "bytes",
            },
            Some(found) => Lists {
                current: &DESCRIPTOR_TYPE,
                following: found.row.fields,
                group: found.row.group,
                rest: "bytes",
            },
        }
    }

    /// The first field in `count` bytes, and the lists after it.
    fn next(self, count: usize) -> Option<(Piece, Lists)>
        requires { IsTrue (is_rest_of_layout self) }
        ensures first { MatchOption result (left_in self count ≡ []) (λ next. left_in self count ≡ piece_of next.0 ∷ left_in next.1 (count - next.0.width)) }
        ensures fits { IfSome result (λ next. next.0.width ≤ count) }
        ensures name { IfSome result (λ next. IsTrue (is_name next.0.name.now)) }
        ensures words { IfSome result (λ next. IsTrue (is_rest_of_layout next.1)) }
    {
        let lists = self.turned(count);
        match lists.current {
            [] => lists.left_over(count),
            [field, more @ ..] => {
                let width = usize::from(field.width);
                if count < width {
                    return lists.left_over(count);
                }
                let piece = Piece {
                    name: field.name,
                    form: field.form,
                    width,
                };
                Some((
                    piece,
                    Lists {
                        current: more,
                        ..lists
                    },
                ))
            }
        }
    }

    /// The same fields in `count` bytes, of which the first one comes next: where a list is through, the one after it does,
    /// or the group where all its bytes are there.
    fn turned(self, count: usize) -> Lists
        requires { IsTrue (is_rest_of_layout self) }
        ensures same { left_in result count ≡ left_in self count }
        ensures through { result.current.now ≡ [] → left_in result count ≡ left_over result.rest.now count }
        ensures words { IsTrue (is_rest_of_layout result) }
    {
        if !self.current.is_empty() {
            self
        } else if !self.following.is_empty() {
            Lists {
                current: self.following,
                following: &[],
                ..self
            }
        } else if is_there(self.group, count) {
            Lists {
                current: self.group,
                ..self
            }
        } else {
            self
        }
    }

    /// The bytes that are left, as a field.
    fn left_over(self, count: usize) -> Option<(Piece, Lists)>
        requires { IsTrue (is_name self.rest.now) }
        ensures first { MatchOption result (left_over self.rest.now count ≡ []) (λ next. left_over self.rest.now count ≡ piece_of next.0 ∷ left_in next.1 (count - next.0.width)) }
        ensures fits { IfSome result (λ next. next.0.width ≤ count) }
        ensures name { IfSome result (λ next. IsTrue (is_name next.0.name.now)) }
        ensures words { IfSome result (λ next. IsTrue (is_rest_of_layout next.1)) }
    {
        if count == 0 {
            return None;
        }
        let piece = Piece {
            name: self.rest,
            form: Form::Bytes,
            width: count,
        };
        Some((piece, Lists::none()))
    }
}

/// Whether a group has bytes, and `count` bytes hold all of them.
fn is_there(group: &[ClassField], count: usize) -> bool
    ensures { result ≡ (nat_lt 0 (width_of (map field_of group.now)) && nat_le (width_of (map field_of group.now)) count) }
{
    !fit(group, 0) && fit(group, count)
}

/// Whether `count` bytes hold all of these fields.
fn fit(fields: &[ClassField], count: usize) -> bool
    ensures { result ≡ nat_le (width_of (map field_of fields.now)) count }
{
    match fields {
        [] => true,
        [field, more @ ..] => match count.checked_sub(usize::from(field.width)) {
            None => false,
            Some(left) => fit(more, left),
        },
    }
}
