//! Talks with data to a device, whose owner takes them and gives them again, over a bus that loses packets.
use crate::host_end::HostEnd;
use crate::owners::{Came, exchange};
use crate::tally::Tally;
use anyhow::{Result, bail};
use std::alloc::Global;
use usb_bus::Fate;
use usb_device::{Description, Device};
use usb_fields::{Direction, Setup};
use usb_host::Why;

/// SET_ADDRESS 5, SET_REPORT of nine bytes, and GET_REPORT, by which the owner gives them again.
const REQUESTS: [[u8; 8]; 3] = [
    [0x00, 0x05, 0x05, 0x00, 0x00, 0x00, 0x00, 0x00],
    [0x21, 0x09, 0x00, 0x02, 0x00, 0x00, 0x09, 0x00],
    [0xa1, 0x01, 0x00, 0x02, 0x00, 0x00, 0x09, 0x00],
];

/// The data of the write.
const REPORT: &[u8] = b"nine here";

/// More transactions than a talk takes under a list of 64 fates.
const MOST: usize = 256;

/// A device with its owner, and what came of a talk with it so far.
#[derive(Drop)]
struct Talk<'d> {
    alloc: Global,
    device: Device<'d>,
    /// The address that the host uses.
    address: u8,
    transactions: u128,
    /// How often the owner was given all data of a write, and those of the last time.
    writes: u64,
    kept: Vec<u8>,
    replies: u64,
    /// What the read brought.
    read: Option<Vec<u8>>,
    stopped: Option<Why>,
}

/// Makes the requests of a new device under these fates, and adds a line.
pub(crate) fn make_talk(
    description: &Description,
    naks: u16,
    fates: &[Fate],
    tally: &mut Tally,
) -> Result<()> {
    let alloc = tally.alloc;
    let packet = description.file().device.packet;
    if packet == 0 {
        bail!("packets of no bytes");
    }
    let mut talk = Talk {
        alloc,
        device: Device::new(description),
        address: 0,
        transactions: 0,
        writes: 0,
        kept: Vec::new(alloc),
        replies: 0,
        read: None,
        stopped: None,
    };
    for bytes in REQUESTS.iter() {
        if talk.stopped.is_none() {
            let request = Setup::from_bytes(bytes);
            let transfer = HostEnd::new(talk.address, packet, naks, request);
            talk.make(transfer, fates)?;
        }
    }
    talk.tell(tally)
}

impl Talk<'_> {
    /// A transfer to its end.
    fn make(&mut self, mut transfer: HostEnd, fates: &[Fate]) -> Result<()> {
        let mut came = Came {
            transactions: self.transactions,
            bytes: Vec::new(self.alloc),
            failure: None,
        };
        for _ in 0..MOST {
            let Some(transaction) = transfer.next(REPORT) else {
                break;
            };
            let fate = Fate::at(fates, came.transactions);
            came.transactions = came.transactions.saturating_add(1);
            exchange(
                &mut self.device,
                &mut transfer,
                &transaction,
                fate,
                &mut came,
            )?;
            self.own()?;
        }
        self.settle(transfer.request(), came);
        Ok(())
    }

    /// The owner: it takes the data of a write once all have come, and answers a read by those of the last one.
    fn own(&mut self) -> Result<()> {
        if let Some((_, bytes)) = self.device.written() {
            self.kept = Vec::from_slice(self.alloc, bytes)?;
            self.writes = self.writes.saturating_add(1);
            let _ = self.device.accept();
        } else if let Some(request) = self.device.refused() {
            let _ = match request.direction() {
                Direction::Out => self.device.accept(),
                Direction::In => self.device.answer_with(&self.kept),
            };
        }
        Ok(())
    }

    /// What came of a transfer: a reply, also where it was refused, or the reason why the talk stops.
    fn settle(&mut self, request: Setup, came: Came) {
        self.transactions = came.transactions;
        if matches!(came.failure, Some(why) if why != Why::Stalled) {
            self.stopped = came.failure;
            return;
        }
        self.replies = self.replies.saturating_add(1);
        if came.failure.is_some() {
            return;
        }
        if request.direction() == Direction::In {
            self.read = Some(came.bytes);
        } else if request.length == 0 {
            self.address = (request.value % 128) as u8;
        }
    }

    /// Adds its line.
    fn tell(&self, tally: &mut Tally) -> Result<()> {
        let alloc = self.alloc;
        let why = self.stopped.map_or(0, |why| why.number());
        let (transactions, replies, writes) = (self.transactions, self.replies, self.writes);
        let address = self.device.state().address;
        let kept = hex::encode(alloc, self.kept.as_slice())?;
        let read = match &self.read {
            Some(bytes) => hex::encode(alloc, bytes.as_slice())?,
            None => String::from_str(alloc, "none")?,
        };
        let kind = format!(in alloc; "write, trouble {why}")?;
        let counts = format!(in alloc;
            "transactions {transactions} replies {replies} address {address} writes {writes}"
        )?;
        tally.begin(format!(in alloc; "{kind} {counts} bytes {kept} read {read}\n")?.as_str())?;
        tally.count(kind)
    }
}
