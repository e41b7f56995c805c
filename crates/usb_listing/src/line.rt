//! The lines of a listing at the end of a text.
ghost use Rattle.std.specs.Prelude.{◌≡◌, ◌≤◌, ◌+◌, ◌*◌, ◌∷◌, [], ◌++◌, codes, false, OnOk};
ghost use Rattle.std.specs.List.{flat_map};
ghost use Rattle.arrayvec.specs.ArrayVec.{array_vec_len};
ghost use Rattle.usb_fields.specs.Fields.{cells, size_of};
ghost use Rattle.usb_listing.specs.Table.{written_field, written_line};
ghost use Rattle.usb_text.specs.Characters.{two_bytes};

use arrayvec::ArrayVec;
use std::alloc::AllocError;
use usb_fields::Width;
use usb_text::{Text, digits_of};

/// How much room a page has at first: it is passed on at 32 KB, and is looked at after three lines at most beside the
/// device's: those of an interface, an endpoint and a raw descriptor, or of a qualifier, the languages and a string. In a
/// file that has bytes none of them takes more than 640, so its page never grows.
pub(crate) const ROOM: usize = 32 * 1024 + 2048;

/// The most characters of a line after its word, but for a tail: three for each of the 16 bytes of a device descriptor's
/// fields, and the end ` -` with its line feed.
const MOST: usize = 51;

/// Fields as characters. They are put together here, so that they are added to the page at once.
type Fields = ArrayVec<u8, MOST>;

/// Puts a line: its word, and the fields of these widths that the bytes are.
#[inline(always)]
pub(crate) fn put_line(
    page: &mut Text,
    word: &str,
    widths: &[Width],
    bytes: &[u8],
) -> Result<(), AllocError>
    requires { size_of widths.now ≤ 16 }
    ensures { OnOk result (page.new ≡ page.old ++ written_line word.now (cells widths.now false bytes.now)) }
{
    let mut fields = Fields::new();
    add_fields(&mut fields, widths, bytes);
    fields.push(b'\n');
    page.put(word)?;
    page.put_bytes(&fields)
}

/// Puts a line with a tail: its word, the fields of these widths that the bytes are, and the bytes after them.
#[inline(always)]
pub(crate) fn put_line_with_tail(
    page: &mut Text,
    word: &str,
    widths: &[Width],
    bytes: &[u8],
    tail: &[u8],
) -> Result<(), AllocError>
    requires { size_of widths.now ≤ 16 }
    ensures { OnOk result (page.new ≡ page.old ++ written_line word.now (cells widths.now false bytes.now ++ tail.now ∷ [])) }
{
    let mut fields = Fields::new();
    add_fields(&mut fields, widths, bytes);
    page.put(word)?;
    put_end(page, &mut fields, tail)
}

/// Puts the end of a line: its fields, its tail and the line feed.
#[inline(always)]
fn put_end(page: &mut Text, fields: &mut Fields, tail: &[u8]) -> Result<(), AllocError>
    requires { array_vec_len fields.old + 3 ≤ 51 }
    ensures { OnOk result (page.new ≡ page.old ++ fields.old.items ++ written_field tail.now ++ codes "\n") }
{
    fields.push(b' ');
    if tail.is_empty() {
        fields.push(b'-');
        fields.push(b'\n');
        return page.put_bytes(fields);
    }
    page.put_bytes(fields)?;
    page.put_digits(tail)?;
    page.put("\n")
}

/// Adds the fields of these widths that the bytes are, the high byte first.
#[inline(always)]
fn add_fields(fields: &mut Fields, widths: &[Width], bytes: &[u8])
    requires { array_vec_len fields.old + 3 * size_of widths.now ≤ 51 }
    ensures is { fields.new.items ≡ fields.old.items ++ flat_map written_field (cells widths.now false bytes.now) }
    ensures room { array_vec_len fields.new ≤ array_vec_len fields.old + 3 * size_of widths.now }
{
    let mut rest = bytes;
    for width in widths {
        rest = match (*width, rest) {
            (Width::One, [byte, more @ ..]) => {
                add_byte(fields, *byte);
                more
            }
            (Width::Two, [low, high, more @ ..]) => {
                add_pair(fields, *high, *low);
                more
            }
            _ => return,
        };
    }
}

/// Adds a field of one byte.
#[inline(always)]
fn add_byte(fields: &mut Fields, value: u8)
    requires { array_vec_len fields.old + 3 ≤ 51 }
    ensures is { fields.new.items ≡ fields.old.items ++ written_field (value ∷ []) }
    ensures len { array_vec_len fields.new ≡ array_vec_len fields.old + 3 }
{
    let [a, b] = digits_of(value);
    fields.push(b' ');
    fields.push(a);
    fields.push(b);
}

/// Adds a field of two bytes.
#[inline(always)]
#[tactic(auto, unfolding(hex::specs::Hex::encode_with))]
fn add_pair(fields: &mut Fields, high: u8, low: u8)
    requires { array_vec_len fields.old + 5 ≤ 51 }
    ensures is { fields.new.items ≡ fields.old.items ++ written_field (high ∷ low ∷ []) }
    ensures len { array_vec_len fields.new ≡ array_vec_len fields.old + 5 }
{
    let [a, b] = digits_of(low);
    add_byte(fields, high);
    fields.push(a);
    fields.push(b);
}

/// Puts a number of two bytes.
pub(crate) fn put_number(page: &mut Text, value: u16) -> Result<(), AllocError>
    ensures { OnOk result (page.new ≡ page.old ++ written_field (two_bytes value)) }
{
    let [high, low] = value.to_be_bytes();
    let mut field = Fields::new();
    add_pair(&mut field, high, low);
    page.put_bytes(&field)
}
