//! The lines that `check` has of remarks.
ghost use Rattle.std.specs.Prelude.{◌≡◌, ◌++◌, IfOk, OnOk, Some};
ghost use Rattle.std.specs.List.{flat_map};
ghost use Rattle.usb_remarks.specs.Outline.{described, outline};
ghost use Rattle.usb_remarks.specs.PlacedRemarks.{maybe_lines, placed_line, placed_line_end, remark_lines_of, remarks_text};

use crate::descriptor::Descriptor;
use crate::outline::Outline;
use crate::remark::Remark;
use crate::speed::SetSpeed;
use std::alloc::{AllocError, Global};
use std::fmt;
use usb_file_data::Found;
use usb_walk::Place;

/// A remark by its number, at its place.
///
/// ```rust
/// let place = Place { part: Part::Main, set: 0, setting: 1, endpoint: 2 };
/// let remark = PlacedRemark { number: Remark::HighBits.number(), place };
/// assert_eq!(rt; format!(in rt.alloc(); "{remark}")?.as_str(), "R7 main 0 1 2");
/// ```
#[derive(Clone, Copy, Debug, PartialEq, Eq, Hash)]
pub struct PlacedRemark {
    /// The number of the remark.
    pub number: u8,
    /// Where the descriptor is of which it is remarked.
    pub place: Place,
}

/// The line that the program prints for a remark, without its line feed.
impl fmt::Display for PlacedRemark {
    ghost output = { λ remark. Some (placed_line remark) };

    fn fmt<W: fmt::Write>(&self, f: &mut fmt::Formatter<W>) -> fmt::Result {
        let Place {
            part,
            set,
            setting,
            endpoint,
        } = self.place;
        let number = self.number;
        write!(f, "R{number} {part} {set} {setting} {endpoint}")
    }
}

/// The line of each remark on the bytes of an input, ended by a line feed, in the order of the bytes. The device ran at this
/// speed, if that is known, and these are its findings in the order of the bytes, as `found_in_order` gives them.
///
/// ```rust
/// let found = found_in_order(alloc, &input)?;
/// let text = remarks_text(alloc, &bytes, None, &found)?;
/// assert_eq!(rt; text.as_slice(), b"R8 main 0 0 0\n");
/// ```
///
/// # Errors
///
/// Out of memory.
pub fn remarks_text(
    alloc: Global,
    bytes: &[u8],
    running: Option<SetSpeed>,
    found: &[Found],
) -> Result<Vec<u8>, AllocError>
    ensures { IfOk result (λ text. text.items ≡ remarks_text running found.now bytes.now) }
{
    lines_in(alloc, Outline::of(bytes, running, found))
}

fn lines_in(alloc: Global, outline: Outline<'_>) -> Result<Vec<u8>, AllocError>
    ensures { IfOk result (λ text. text.items ≡ flat_map remark_lines_of outline.entry) }
{
    let mut text = Vec::new(alloc);
    for descriptor in outline {
        put_lines(alloc, &mut text, &descriptor)?;
    }
    Ok(text)
}

/// Puts the lines of the remarks on a descriptor.
fn put_lines(alloc: Global, text: &mut Vec<u8>, d: &Descriptor<'_>) -> Result<(), AllocError>
    ensures { OnOk result (text.new.items ≡ text.old.items ++ remark_lines_of (described d.now)) }
{
    let remarks = d.remarks();
    for remark in &remarks {
        put_maybe(alloc, text, d.place, *remark)?;
    }
    Ok(())
}

/// Puts the line of a remark, if there is one.
fn put_maybe(
    alloc: Global,
    text: &mut Vec<u8>,
    place: Place,
    remark: Option<Remark>,
) -> Result<(), AllocError>
    ensures { OnOk result (text.new.items ≡ text.old.items ++ maybe_lines place remark) }
{
    match remark {
        None => Ok(()),
        Some(remark) => put_line(alloc, text, place, remark),
    }
}

fn put_line(
    alloc: Global,
    text: &mut Vec<u8>,
    place: Place,
    remark: Remark,
) -> Result<(), AllocError>
    ensures { OnOk result (text.new.items ≡ text.old.items ++ placed_line_end place remark) }
{
    let placed = PlacedRemark {
        number: remark.number(),
        place,
    };
    let line = format!(in alloc; "{placed}")?;
    text.extend_from_slice(line.as_bytes())?;
    text.push(b'\n')?;
    Ok(())
}
