//! Rows on listings, as they stand and with comments.
use crate::row::Row;
use crate::words::changed;
use anyhow::{Result, ensure};
use std::alloc::Global;
use usb_file::{DescriptorFile, ListFault, assemble, assemble_commented, read_file, write_file};

/// The bytes of a file that was assembled, or the fault and its line.
fn report(alloc: Global, answer: std::result::Result<DescriptorFile, ListFault>) -> Result<String> {
    match answer {
        Ok(file) => Ok(hex::encode(alloc, &write_file(alloc, &file)?)?),
        Err(fault) => Ok(format!(in alloc; "fault {} line {}", fault.number(), fault.line)?),
    }
}

/// What each call makes of the lines, once the words have changed them: as they stand, and with comments.
pub(crate) fn assemblies(alloc: Global, row: &Row) -> Result<String> {
    let text = changed(alloc, row.lines.as_str(), row.words.as_slice())?;
    let exact = report(alloc, assemble(alloc, &text))?;
    let commented = report(alloc, assemble_commented(alloc, &text))?;
    Ok(format!(in alloc; "exact {exact} commented {commented}")?)
}

/// Reads the text to the file of these bytes, whose listing it is in the one form or in both.
pub(crate) fn go_round(alloc: Global, bytes: &[u8], text: &[u8], is_exact: bool) -> Result<()> {
    let file = read_file(alloc, bytes)?;
    ensure!(
        assemble(alloc, text).ok() == is_exact.then_some(file.clone()?),
        "another file is read back as it stands"
    );
    ensure!(
        assemble_commented(alloc, text)? == file,
        "another file is read back with comments"
    );
    Ok(())
}
