//! Rows on descriptor files.
use crate::fields::fault;
use crate::tree::file_of;
use crate::words::bytes_of;
use anyhow::{Result, ensure};
use std::alloc::Global;
use usb_file::{DescriptorFile, FileWhy, named, read_file, write_file};

/// The named indices of the file that the bytes are, or their fault. A file gives its bytes again.
pub(crate) fn file(alloc: Global, words: &[String]) -> Result<String> {
    let bytes = bytes_of(alloc, words)?;
    let fault = match read_file(alloc, &bytes) {
        Ok(file) => {
            write_again(alloc, &bytes, &file)?;
            ensure!(file.clone()? == file, "a copy is another file");
            return indices(alloc, &file);
        }
        Err(fault) => fault,
    };
    let report = format!(in alloc; "fault {} at {}", fault.number(), fault.at)?;
    match fault.why {
        FileWhy::Set(why) => Ok(format!(in alloc; "{report}, of the set {}", why.number())?),
        _ => Ok(report),
    }
}

/// Writes the file to the bytes from which it was read.
fn write_again(alloc: Global, bytes: &[u8], file: &DescriptorFile) -> Result<()> {
    ensure!(
        write_file(alloc, file)?.as_slice() == bytes,
        "other bytes are written"
    );
    Ok(())
}

/// Reads the bytes to a file, and writes it to these bytes.
pub(crate) fn go_round(alloc: Global, bytes: &[u8]) -> Result<()> {
    write_again(alloc, bytes, &read_file(alloc, bytes)?)
}

/// The named indices of the file, as digits.
pub(crate) fn indices(alloc: Global, file: &DescriptorFile) -> Result<String> {
    let mut text = String::from_str(alloc, "named")?;
    for index in named(alloc, file)?.iter() {
        text.push_str(format!(in alloc; " {index:02x}")?.as_str())?;
    }
    Ok(text)
}

/// The bytes of the file that the lines say, or why it has none. It is read back.
pub(crate) fn write_lines(alloc: Global, lines: &str) -> Result<String> {
    let file = file_of(alloc, lines)?;
    match write_file(alloc, &file) {
        Ok(bytes) => {
            ensure!(
                read_file(alloc, &bytes)? == file,
                "another file is read back"
            );
            Ok(hex::encode(alloc, &bytes)?)
        }
        Err(why) => fault(alloc, why.number()),
    }
}
