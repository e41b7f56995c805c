//! Reading all of an input, up to a limit, and what a command takes it for.
ghost use Rattle.std.specs.Prelude.{◌≡◌, ◌<◌, ◌≤◌, IfErr, IfOk};
ghost use Rattle.std.specs.Io.KnownBytes.{Keeps};
ghost use Rattle.usb_tool.specs.Endings.{ReadFails, ReadsAll};
ghost use Rattle.usb_tool.specs.inside.Intake.{ReadsByte, ReadsFront, ReadsInput, StopsEarly};
ghost use Rattle.usb_tool.specs.Inputs.{IsSetOrFile, SetOrFileShows};
ghost use Rattle.usb_tool.specs.inside.Taking.{Takes, TakesNone};

use crate::fault::ToolFault;
use crate::intake::Intake;
use std::alloc::Global;
use std::io::Read;
use usb_file::{FILE_LIMIT, Input};

/// How many bytes are asked of the reader at a time.
const CHUNK: usize = 4096;

/// All that the reader gives.
///
/// # Errors
///
/// `TooLarge` at the first byte over the limit, `Read` where the reader failed, `Memory` where a growth was
/// refused.
pub(crate) fn read_all<R: Read>(
    alloc: Global,
    r: &mut R,
    limit: usize,
) -> Result<Vec<u8>, ToolFault>
    requires { limit < usize.MAX }
    ensures all { IfOk result (λ bytes. ReadsAll limit (R.remaining r.old) (R.remaining r.new) bytes.items) }
    ensures err { IfErr result (ReadFails limit (R.remaining r.old) (R.remaining r.new)) }
{
    let mut buffer = [0u8; CHUNK];
    let mut bytes = Vec::new(alloc);
    loop {
        // One byte over the limit is enough to tell.
        let room = (limit - bytes.len()).min(CHUNK - 1) + 1;
        let chunk = &mut buffer[..room];
        let read = match r.read(chunk) {
            Ok(0) => return Ok(bytes),
            Ok(read) => read,
            Err(_) => return Err(ToolFault::Read),
        };
        if read > limit - bytes.len() {
            return Err(ToolFault::TooLarge);
        }
        if bytes.extend_from_slice(&chunk[..read]).is_err() {
            return Err(ToolFault::Memory);
        }
    }
}

/// All that the reader gives, and how many bytes that is. A set is decoded as it comes, and what follows it, or a fault of
/// it, is only counted.
///
/// # Errors
///
/// Those of [`read_all`].
pub(crate) fn read_intake<R: Read>(
    alloc: Global,
    r: &mut R,
    limit: usize,
) -> Result<(Intake, usize), ToolFault>
    requires within { limit < usize.MAX }
    requires room { 2 ≤ limit }
    ensures all { IfOk result (λ input. ReadsInput limit (R.remaining r.old) (R.remaining r.new) input.0 input.1) }
    ensures err { IfErr result (ReadFails limit (R.remaining r.old) (R.remaining r.new)) }
{
    let (mut intake, mut count) = read_front(alloc, r)?;
    if count < 2 {
        return Ok((intake, count));
    }
    let mut buffer = [0u8; CHUNK];
    loop {
        // One byte over the limit is enough to tell.
        let room = (limit - count).min(CHUNK - 1) + 1;
        let chunk = &mut buffer[..room];
        let read = match r.read(chunk) {
            Ok(0) => return Ok((intake, count)),
            Ok(read) => read,
            Err(_) => return Err(ToolFault::Read),
        };
        if read > limit - count {
            return Err(ToolFault::TooLarge);
        }
        intake.take(count, &chunk[..read])?;
        count += read;
    }
}

/// The first two bytes, which decide what the input is; fewer only where it has no more.
fn read_front<R: Read>(alloc: Global, r: &mut R) -> Result<(Intake, usize), ToolFault>
    ensures ok { IfOk result (λ front. ReadsFront (R.remaining r.old) (R.remaining r.new) front.0 front.1) }
    ensures err { IfErr result (StopsEarly 2 (R.remaining r.old) (R.remaining r.new)) }
{
    let Some(first) = read_byte(r)? else {
        return Ok((Intake::begin(alloc, &[])?, 0));
    };
    let Some(second) = read_byte(r)? else {
        return Ok((Intake::begin(alloc, &[first])?, 1));
    };
    Ok((Intake::begin(alloc, &[first, second])?, 2))
}

/// The next byte, if there is one.
fn read_byte<R: Read>(r: &mut R) -> Result<Option<u8>, ToolFault>
    ensures ok { IfOk result (ReadsByte (R.remaining r.old) (R.remaining r.new)) }
    ensures err { IfErr result (λ fault. (fault ≡ ToolFault.Read) × Keeps (R.remaining r.old) (R.remaining r.new)) }
{
    let mut byte = [0u8];
    match r.read(&mut byte) {
        Ok(0) => Ok(None),
        Ok(_) => Ok(Some(byte[0])),
        Err(_) => Err(ToolFault::Read),
    }
}

/// The set that all of the input is, where its second byte is that of one, and else the file. Of a set no byte is kept.
pub(crate) fn take_set_or_file<R: Read>(alloc: Global, r: &mut R) -> Result<Input, ToolFault>
    ensures ok { IfOk result (Takes IsSetOrFile (R.remaining r.old) (R.remaining r.new)) }
    ensures err { IfErr result (TakesNone SetOrFileShows (R.remaining r.old) (R.remaining r.new)) }
{
    let (intake, count) = read_intake(alloc, r, FILE_LIMIT)?;
    intake.finish(alloc, count)
}
