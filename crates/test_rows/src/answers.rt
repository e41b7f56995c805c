//! What comes of each call that a row can name.
use crate::row::Row;
use crate::{failing, fields, files, listings, packets, sets, tree};
use anyhow::{Result, bail};
use std::alloc::Global;

/// What the row's call answers, or nothing where it is asked of the built program (`.ci/rows`).
pub(crate) fn answer(alloc: Global, row: &Row) -> Result<Option<String>> {
    let words = row.words.as_slice();
    let lines = row.lines.as_str();
    Ok(Some(match row.call.as_str() {
        "setup" => fields::setup(alloc, words)?,
        "device" => fields::device(alloc, words)?,
        "qualifier" => fields::qualifier(alloc, words)?,
        "endpoint" => fields::endpoint(alloc, words)?,
        "units" => fields::units(alloc, words)?,
        "write_units" => fields::write_string(alloc, words)?,
        "packet" => packets::packet(alloc, words)?,
        "changed_packet" => packets::changed_packet(alloc, words)?,
        "write_packet" => packets::write_packet(alloc, words)?,
        "crc5" => packets::short_crc(alloc, words)?,
        "crc16" => packets::long_crc(alloc, words)?,
        "set" => sets::set(alloc, words)?,
        "feed" => sets::feed(alloc, words)?,
        "encode" => sets::encode_lines(alloc, lines)?,
        "file" => files::file(alloc, words)?,
        "write" => files::write_lines(alloc, lines)?,
        "assemble" => listings::assemblies(alloc, row)?,
        "named" => files::indices(alloc, &tree::file_of(alloc, lines)?)?,
        "failing_reads" => failing::failing_reads(alloc, row)?,
        "failing_writes" => failing::failing_writes(alloc, row)?,
        "failing_write" => failing::failing_write(alloc, row)?,
        "failing_flush" => failing::failing_flush(alloc, row)?,
        "usbdesc" | "terminal" | "line" | "build" | "cuts" | "fronts" | "check" | "endless" => {
            return Ok(None);
        }
        call => bail!("no call is named {call}"),
    }))
}
