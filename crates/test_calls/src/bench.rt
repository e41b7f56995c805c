//! A test bench: it enumerates the device of a file over a bus that loses what the fates say.
use anyhow::{Result, ensure};
use nozzlegorse::bus::{Fate, enumerate};
use nozzlegorse::descriptors::Speed;
use nozzlegorse::device::Description;
use nozzlegorse::files::read_file;
use nozzlegorse::host::Limits;
use std::alloc::Global;

/// What came of it: how often the host began, and in how many transactions it has read all descriptors.
pub(crate) fn report(alloc: Global, bytes: &[u8], fates: &[Fate]) -> Result<String> {
    let file = read_file(alloc, bytes)?;
    let description = Description::new(alloc, file, Speed::Full)?;
    let run = enumerate(alloc, &description, Limits::new(1, 16, 3)?, fates);
    let (attempts, transactions) = (run.attempts, run.transactions);
    let read = run.outcome?;
    ensure!(read == *description.file(), "something else was read");
    Ok(format!(in alloc; "{attempts} attempts, {transactions} transactions")?)
}
