//! The listing of a descriptor file, a line for each descriptor.
ghost use Rattle.std.specs.Prelude.{◌≡◌, ◌++◌, OnErr, OnOk};
ghost use Rattle.std.specs.Io.KnownBytes.{Appends};
ghost use Rattle.usb_listing.specs.Listing.{device_line, file_lines, input_lines, other_lines, qualifier_line};
ghost use Rattle.usb_text.specs.Output.{AppendsLess};
ghost use Rattle.usb_text.specs.inside.Pages.{Puts};
ghost use Rattle.std.specs.Prelude.{◌++◌, OnErr, OnOk};
ghost use Rattle.std.specs.List.{flat_map};

use crate::line::{ROOM, put_line};
use crate::set_listing::list_set;
use crate::string_listing::list_strings;
use std::alloc::{AllocError, Global};
use std::io::Write;
use usb_fields::{DEVICE_WIDTHS, DeviceDescriptor, QUALIFIER_WIDTHS, Qualifier};
use usb_file_data::{DescriptorFile, Input, Other};
use usb_text::{OutFault, Text, write_all};

/// Writes exactly the listing of the file: a line for each descriptor, in the order of the file. A file that has
/// no bytes is listed too, as what it says.
///
/// ```rust
/// list(alloc, &file, &mut rt.stdout())?;
/// // device 0110 00 00 00 40 1234 5678 0100 00 00 00 01
/// // configuration 01 01 00 a0 32 -
/// // interface 00 00 01 03 01 02 00 -
/// // raw 21 10010001223400
/// // endpoint 81 03 0004 0a -
/// ```
///
/// # Errors
///
/// `Write` where the writer failed, `Memory` when out of memory. A prefix of the listing is
/// written then, and not all of it.
pub fn list<W: Write>(alloc: Global, f: &DescriptorFile, w: &mut W) -> Result<(), OutFault>
    ensures ok { OnOk result (Appends (W.contents w.old) (W.contents w.new) (file_lines f.now)) }
    ensures err { OnErr result (AppendsLess (W.contents w.old) (W.contents w.new) (file_lines f.now)) }
{
    let mut page = Text::with_capacity(alloc, ROOM)?;
    list_file(&mut page, f, w)?;
    write_all(w, page.as_bytes())
}

/// Writes the listing of an input: of a dump that of its device and its sets.
///
/// # Errors
///
/// Those of [`list`].
pub fn list_input<W: Write>(alloc: Global, input: &Input, w: &mut W) -> Result<(), OutFault>
    ensures ok { OnOk result (Appends (W.contents w.old) (W.contents w.new) (input_lines input.now)) }
    ensures err { OnErr result (AppendsLess (W.contents w.old) (W.contents w.new) (input_lines input.now)) }
{
    match input {
        Input::Set(set) => list_set(alloc, set, w),
        Input::File(file) | Input::Dump(file) => list(alloc, file, w),
    }
}

fn list_file<W: Write>(page: &mut Text, f: &DescriptorFile, w: &mut W) -> Result<(), OutFault>
    ensures ok { OnOk result (Puts (W.contents w.old) (W.contents w.new) page.old page.new (file_lines f.now)) }
    ensures err { OnErr result (AppendsLess (W.contents w.old) (W.contents w.new) (page.old ++ file_lines f.now)) }
{
    put_device(page, &f.device)?;
    list_all(page, &f.sets, w)?;
    list_other(page, &f.other, w)?;
    list_strings(page, &f.strings, w)
}

fn list_other<W: Write>(page: &mut Text, other: &Option<Other>, w: &mut W) -> Result<(), OutFault>
    ensures ok { OnOk result (Puts (W.contents w.old) (W.contents w.new) page.old page.new (other_lines other.now)) }
    ensures err { OnErr result (AppendsLess (W.contents w.old) (W.contents w.new) (page.old ++ other_lines other.now)) }
{
    match other {
        None => Ok(()),
        Some(other) => {
            put_qualifier(page, &other.qualifier)?;
            list_all(page, &other.sets, w)
        }
    }
}

#[tactic(auto, unfolding(crate::specs::Listing::device_line))]
fn put_device(page: &mut Text, d: &DeviceDescriptor) -> Result<(), AllocError>
    ensures { OnOk result (page.new ≡ page.old ++ device_line d.now) }
{
    put_line(page, "device", &DEVICE_WIDTHS, &d.to_bytes()[2..])
}

#[tactic(auto, unfolding(crate::specs::Listing::qualifier_line))]
fn put_qualifier(page: &mut Text, q: &Qualifier) -> Result<(), AllocError>
    ensures { OnOk result (page.new ≡ page.old ++ qualifier_line q.now) }
{
    put_line(page, "qualifier", &QUALIFIER_WIDTHS, &q.to_bytes()[2..])
}

/// A value that is listed by lines of its own.
pub(crate) trait Listed {
    ghost use Rattle.std.specs.Prelude.{ℕ, List};

    /// Its lines.
    ghost lines: { Self → List ℕ };

    /// Puts its lines at the end of the page, which is passed on where it is full.
    fn list<W: Write>(&self, page: &mut Text, w: &mut W) -> Result<(), OutFault>
        ensures ok { OnOk result (Puts (W.contents w.old) (W.contents w.new) page.old page.new (lines self.now)) }
        ensures err { OnErr result (AppendsLess (W.contents w.old) (W.contents w.new) (page.old ++ lines self.now)) };
}

/// Puts the lines of several values, one value after another. Most lists are empty, so no call is made for one.
#[inline(always)]
pub(crate) fn list_all<T: Listed, W: Write>(
    page: &mut Text,
    items: &[T],
    w: &mut W,
) -> Result<(), OutFault>
    ensures ok { OnOk result (Puts (W.contents w.old) (W.contents w.new) page.old page.new (flat_map T.lines items.now)) }
    ensures err { OnErr result (AppendsLess (W.contents w.old) (W.contents w.new) (page.old ++ flat_map T.lines items.now)) }
{
    for item in items {
        item.list(page, w)?;
    }
    Ok(())
}
