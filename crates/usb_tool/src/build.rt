//! The command `build`.
ghost use Rattle.std.specs.Prelude.{◌≢◌, IfErr, IfOk};
ghost use Rattle.usb_listing.specs.declared.fault.ListWhy.TheVariants as whys;
ghost use Rattle.usb_tool.specs.Builds.{BuildFails, Built, FaultyBy, ListsBytes, hex_text, written_as};
ghost use Rattle.usb_command_line.specs.CommandLine.{no_building};
ghost use Rattle.usb_tool.specs.Endings.{AppendsNone};
ghost use Rattle.usb_tool.specs.inside.Telling.{EndsWith, IsCut};

use crate::fault::ToolFault;
use crate::hex_output::hex_text;
use crate::input::read_all;
use crate::output::write_flushed;
use std::alloc::Global;
use std::io::{Read, Write};
use usb_command_line::Building;
use usb_listing::{LISTING_LIMIT, ListFault, assemble_bytes, assemble_bytes_commented};

/// Reads a listing of a descriptor file to its end, and writes the bytes of that file. The number in `Ok` is 0.
///
/// ```rust
/// let mut listing: &[u8] = b"device 0200 00 00 00 40 1234 5678 0100 00 00 00 00\n";
/// let mut bytes = Vec::new(alloc);
/// run_build(alloc, &mut listing, &mut bytes)?;
/// assert_eq!(rt; bytes.as_slice(), [18, 1, 0, 2, 0, 0, 0, 64, 0x34, 0x12, 0x78, 0x56, 0, 1, 0, 0, 0, 0]);
/// ```
///
/// # Errors
///
/// `Read` where the reader failed, `TooLarge` at the first byte over [`LISTING_LIMIT`], and `List` with the
/// first line at fault and the first reason in it. Nothing is written then. `Write` where the writer or its
/// flush failed; a prefix of the bytes is written then. `Memory` when out of memory, and nothing is
/// written.
pub fn run_build<R: Read, W: Write>(alloc: Global, r: &mut R, w: &mut W) -> Result<u8, ToolFault>
    ensures built { IfOk result (Built no_building (R.remaining r.old) (R.remaining r.new) (W.contents w.old) (W.contents w.new)) }
    ensures err { IfErr result (BuildFails no_building (R.remaining r.old) (R.remaining r.new) (W.contents w.old) (W.contents w.new)) }
{
    let building = Building {
        comments: false,
        hex: false,
    };
    run_build_as(alloc, r, w, building)
}

/// Does what [`run_build`] does, with these flags.
///
/// ```rust
/// let mut listing: &[u8] = b"device 0200 00 00 00 40 1234 5678 0100 00 00 00 00\n";
/// let mut text = Vec::new(alloc);
/// run_build_as(alloc, &mut listing, &mut text, Building { comments: false, hex: true })?;
/// assert_eq!(rt; text.as_slice(), b"12 01 00 02 00 00 00 40 34 12 78 56 00 01 00 00\n00 00\n");
/// ```
///
/// # Errors
///
/// Those of [`run_build`].
pub fn run_build_as<R: Read, W: Write>(
    alloc: Global,
    r: &mut R,
    w: &mut W,
    building: Building,
) -> Result<u8, ToolFault>
    ensures built { IfOk result (Built building (R.remaining r.old) (R.remaining r.new) (W.contents w.old) (W.contents w.new)) }
    ensures err { IfErr result (BuildFails building (R.remaining r.old) (R.remaining r.new) (W.contents w.old) (W.contents w.new)) }
{
    let text = read_all(alloc, r, LISTING_LIMIT)?;
    let bytes = bytes_listed(alloc, &text, building.comments)?;
    drop(text);
    put_bytes(alloc, bytes, w, building.hex)
}

/// The bytes of the file that the text lists, with comments or without.
fn bytes_listed(alloc: Global, text: &[u8], comments: bool) -> Result<Vec<u8>, ListFault>
    ensures ok { IfOk result (λ b. ListsBytes comments text.now b.items) }
    ensures err { IfErr result (λ fault. fault.why ≢ whys.Memory → FaultyBy comments text.now fault.line fault.why) }
{
    match comments {
        true => assemble_bytes_commented(alloc, text),
        false => assemble_bytes(alloc, text),
    }
}

/// Writes bytes, as they are or as hexadecimal text, and flushes the writer.
fn put_bytes<W: Write>(alloc: Global, bytes: Vec<u8>, w: &mut W, hex: bool) -> Result<u8, ToolFault>
    ensures ok { IfOk result (EndsWith (written_as hex bytes.items) 0 (W.contents w.old) (W.contents w.new)) }
    ensures err { IfErr result (IsCut AppendsNone (written_as hex bytes.items) (W.contents w.old) (W.contents w.new)) }
{
    match hex {
        true => put_hex(alloc, bytes, w),
        false => put_output(&bytes, w),
    }
}

/// Writes bytes as hexadecimal text.
fn put_hex<W: Write>(alloc: Global, bytes: Vec<u8>, w: &mut W) -> Result<u8, ToolFault>
    ensures ok { IfOk result (EndsWith (hex_text bytes.items) 0 (W.contents w.old) (W.contents w.new)) }
    ensures err { IfErr result (IsCut AppendsNone (hex_text bytes.items) (W.contents w.old) (W.contents w.new)) }
{
    let text = hex_text(alloc, &bytes)?;
    drop(bytes);
    put_output(text.as_bytes(), w)
}

/// Writes an output, and flushes the writer.
fn put_output<W: Write>(output: &[u8], w: &mut W) -> Result<u8, ToolFault>
    ensures ok { IfOk result (EndsWith output.now 0 (W.contents w.old) (W.contents w.new)) }
    ensures err { IfErr result (IsCut AppendsNone output.now (W.contents w.old) (W.contents w.new)) }
{
    write_flushed(w, output)?;
    Ok(0)
}
