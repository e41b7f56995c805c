//! Transfers with a device that refuses them, and whose owner answers, over a bus that loses packets.
use crate::host_end::HostEnd;
use crate::tally::Tally;
use anyhow::{Result, bail};
use std::alloc::Global;
use usb_bus::Fate;
use usb_device::{Description, Device};
use usb_fields::{Answer, Setup, Transaction};
use usb_host::{Heard, Why};

/// What the owner answers to each read, cut to its length.
const OWNERS: &[u8] = b"The owner of a device answers what its table of requests refuses";

/// Vendor requests: reads of this many bytes, and one without data.
const READS: [u8; 5] = [1, 8, 9, 63, 0];

/// More transactions than a transfer takes under a list of six fates.
const MOST: usize = 64;

/// What came of a transfer.
#[derive(Drop)]
pub(crate) struct Came {
    pub(crate) transactions: u128,
    pub(crate) bytes: Vec<u8>,
    pub(crate) failure: Option<Why>,
}

/// Makes each of the requests of a new device under these fates, and adds a line for each.
pub(crate) fn make_all(
    description: &Description,
    naks: u16,
    fates: &[Fate],
    tally: &mut Tally,
) -> Result<()> {
    let alloc = tally.alloc;
    let packet = description.file().device.packet;
    if packet == 0 {
        bail!("packets of no bytes");
    }
    for length in READS {
        let kind = if length == 0 { 0x40 } else { 0xc0 };
        let setup = Setup::from_bytes(&[kind, 1, 0, 0, 0, 0, length, 0]);
        let mut device = Device::new(description);
        let mut transfer = HostEnd::new(0, packet, naks, setup);
        let came = make(alloc, &mut device, &mut transfer, fates)?;
        let why = came.failure.map_or(0, |why| why.number());
        let transactions = came.transactions;
        let digits = if why == 0 {
            hex::encode(alloc, came.bytes.as_slice())?
        } else {
            String::new(alloc)
        };
        let kind = format!(in alloc; "answered, trouble {why}")?;
        let report = format!(in alloc; "{kind} transactions {transactions} bytes {digits}\n")?;
        tally.begin(report.as_str())?;
        tally.count(kind)?;
    }
    Ok(())
}

/// A transfer to its end.
fn make(
    alloc: Global,
    device: &mut Device<'_>,
    transfer: &mut HostEnd,
    fates: &[Fate],
) -> Result<Came> {
    let mut came = Came {
        transactions: 0,
        bytes: Vec::new(alloc),
        failure: None,
    };
    for number in 0..MOST {
        let Some(transaction) = transfer.next(&[]) else {
            break;
        };
        came.transactions = came.transactions.saturating_add(1);
        exchange(
            device,
            transfer,
            &transaction,
            Fate::at(fates, number as u128),
            &mut came,
        )?;
        if let Some(request) = device.refused() {
            let _ = if request.length == 0 {
                device.accept()
            } else {
                device.answer_with(OWNERS)
            };
        }
    }
    Ok(came)
}

/// A transaction under its fate. Where a packet is lost, the transfer receives nothing.
pub(crate) fn exchange(
    device: &mut Device<'_>,
    transfer: &mut HostEnd,
    transaction: &Transaction<'_>,
    fate: Fate,
    came: &mut Came,
) -> Result<()> {
    if matches!(fate, Fate::LostDown | Fate::LostUp) {
        if fate == Fate::LostUp {
            let _ = device.serve(transaction, true);
        }
        if let Heard::Failed(why) = transfer.take(Answer::Silence) {
            came.failure = Some(why);
        }
        return Ok(());
    }
    let answer = device.serve(transaction, fate != Fate::Busy);
    let is_acked = matches!(&answer, Answer::Data(_, _)) && fate != Fate::LostAck;
    match transfer.take(answer) {
        Heard::Again | Heard::Complete => {}
        Heard::Bytes(more) => came.bytes.extend_from_slice(more)?,
        Heard::Failed(why) => came.failure = Some(why),
    }
    if is_acked {
        device.acked();
    }
    Ok(())
}
