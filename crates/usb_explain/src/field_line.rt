//! The lines of fields.
ghost use Rattle.std.specs.Prelude.{◌≡◌, option_map, OnOk};
ghost use Rattle.std.specs.List.{flat_map};
ghost use Rattle.usb_names.specs.Shown.{row_of};
ghost use Rattle.usb_text.specs.Shown.{showing_all};
ghost use Rattle.usb_explain.specs.Descriptors.{field_lines, fields, line_of_field};
ghost use Rattle.usb_explain.specs.Fields.{placed_of};
ghost use Rattle.usb_explain.specs.Headers.{row_in};
ghost use Rattle.usb_remarks.specs.Outline.{described};

use crate::field::Field;
use crate::fields::Fields;
use crate::form::put_form;
use crate::line::NAME_WIDTH;
use crate::string_names::Names;
use crate::subject::Subject;
use std::alloc::AllocError;
use usb_names::ClassRow;
use usb_remarks::Descriptor;
use usb_text::Page;
use usb_walk::Role;

/// Puts the lines of the fields of a descriptor that has this row, as `          bMaxPower              50 (100 mA)`. A brief explanation has none.
///
/// # Errors
///
/// Out of memory.
#[tactic(auto, unfolding(crate::specs::Descriptors::fields))]
pub(crate) fn put_fields<P: Page>(
    page: &mut P,
    subject: &Subject,
    d: &Descriptor<'_>,
    row: Option<ClassRow>,
) -> Result<(), AllocError>
    requires { option_map (λ found. row_of found.row.now) row ≡ row_in d.now.role d.now.interface d.now.bytes.now }
    ensures { OnOk result (P.seen page.new ≡ showing_all P.showing (fields subject.now (described d.now)) (P.seen page.old)) }
{
    if subject.manner().look.brief {
        Ok(())
    } else {
        put_all_fields(page, subject.names(), d, row)
    }
}

fn put_all_fields<P: Page>(
    page: &mut P,
    names: &Names,
    d: &Descriptor<'_>,
    row: Option<ClassRow>,
) -> Result<(), AllocError>
    requires { option_map (λ found. row_of found.row.now) row ≡ row_in d.now.role d.now.interface d.now.bytes.now }
    ensures { OnOk result (P.seen page.new ≡ showing_all P.showing (field_lines names.now (described d.now)) (P.seen page.old)) }
{
    let mut fields = Fields::of_row(d.role, d.interface, row, d.bytes);
    put_type_field(page, names, d, &mut fields)?;
    for field in fields {
        put_field(page, names, d, &field)?;
    }
    Ok(())
}

/// Puts the line of the first of these fields where that is bDescriptorType, and leaves those after it. It is apart from the
/// loop, since a line that is the same of each class descriptor costs half as much.
#[inline(always)]
#[tactic(auto, using(usb_text::proofs::ShownLines::showing_joined))]
fn put_type_field<P: Page>(
    page: &mut P,
    names: &Names,
    d: &Descriptor<'_>,
    fields: &mut Fields<'_>,
) -> Result<(), AllocError>
    ensures { OnOk result (showing_all P.showing (flat_map (line_of_field names.now (described d.now)) fields.new) (P.seen page.new) ≡ showing_all P.showing (flat_map (line_of_field names.now (described d.now)) fields.old) (P.seen page.old)) }
{
    if let Role::Raw = d.role {
        if let Some(field) = fields.next() {
            return put_field(page, names, d, &field);
        }
    }
    Ok(())
}

/// Puts the line of a field of a descriptor.
#[inline(always)]
#[tactic(auto, using(usb_text::proofs::ShownLines::showing_joined))]
fn put_field<P: Page>(
    page: &mut P,
    names: &Names,
    d: &Descriptor<'_>,
    field: &Field<'_>,
) -> Result<(), AllocError>
    ensures { OnOk result (P.seen page.new ≡ showing_all P.showing (line_of_field names.now (described d.now) (placed_of field.now)) (P.seen page.old)) }
{
    page.put_indented_column(2 * usize::from(d.depth) + 4, field.name, NAME_WIDTH)?;
    put_form(page, d.speed, names, field, d.bytes)?;
    page.end_line()
}
