//! Which request for memory is refused.
use std::alloc::Global;
use std::io::{self, Read};

/// The place of the refused request, counted from the program's first.
pub(crate) const REFUSED: u32 = 1000;

/// The most bytes that the line can have.
pub(crate) const LONGEST: usize = 128;

/// A group of calls, and the place of the refused request among theirs, counted from 1.
#[derive(Clone, Copy, Debug, PartialEq, Eq)]
pub(crate) struct Asked<'a> {
    /// The group's name.
    pub group: &'a str,
    /// The place.
    pub place: u32,
}

/// What the first line says, if there is one.
///
/// # Errors
///
/// Those of the reader.
pub(crate) fn read_asked<'a, R: Read>(
    reader: &mut R,
    buffer: &'a mut [u8; LONGEST],
) -> io::Result<Option<Asked<'a>>> {
    let count = read_line(reader, buffer)?;
    let line = std::str::from_utf8(&buffer[..count.min(LONGEST)]).unwrap_or("");
    let Some((group, rest)) = line.split_once(' ') else {
        return Ok(None);
    };
    let place = rest.parse::<u32>().unwrap_or(0);
    Ok(Some(Asked { group, place }))
}

/// Reads a line, byte by byte, so that what follows it stays with the reader. How many bytes it has.
fn read_line<R: Read>(reader: &mut R, buffer: &mut [u8; LONGEST]) -> io::Result<usize> {
    for count in 0..LONGEST {
        let mut byte = [0u8];
        if reader.read(&mut byte)? == 0 || byte[0] == b'\n' {
            return Ok(count);
        }
        buffer[count] = byte[0];
    }
    Ok(LONGEST)
}

/// Makes the requests before those of the group, so that the one at this place is refused.
pub(crate) fn begin(alloc: Global, place: u32) {
    for _ in place..REFUSED {
        let _ = Box::new(alloc, 0u64).is_ok();
    }
}
