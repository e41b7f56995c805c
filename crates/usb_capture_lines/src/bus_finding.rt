//! What is wrong in packets of the bus, and where.
ghost use Rattle.std.specs.Prelude.{◌≡◌, option_map};
ghost use Rattle.usb_capture_lines.specs.BusFindings.{address_of, at_address, device_of, in_packet, in_transaction};

use crate::selection::DeviceAddress;
use usb_capture::{PacketFinding, RecordedPacket, Transaction};

/// Something that is wrong in a packet of the bus, or in a transaction.
#[derive(Clone, Copy, Debug)]
pub struct BusFinding {
    /// The number of the frame that has the packet, or the token of the transaction.
    pub number: u64,
    /// When that was captured.
    pub time: Option<u64>,
    /// The address in the token, if there is one.
    pub address: Option<u8>,
    /// What is wrong.
    pub finding: PacketFinding,
}

impl BusFinding {
    /// One of a transaction.
    pub(crate) fn in_transaction(transaction: &Transaction, finding: PacketFinding) -> BusFinding
        ensures { result ≡ in_transaction transaction.now finding }
    {
        BusFinding {
            number: transaction.number,
            time: transaction.time,
            address: Some(transaction.to.address),
            finding,
        }
    }

    /// One of a packet, with which this transaction is over, if one is.
    pub(crate) fn in_packet(
        packet: &RecordedPacket<'_>,
        over: &Option<Transaction>,
        finding: PacketFinding,
    ) -> BusFinding
        ensures { result ≡ in_packet packet.now over.now finding }
    {
        BusFinding {
            number: packet.number,
            time: packet.time,
            address: address_of(over),
            finding,
        }
    }

    /// The device, if it is known: the number of a bus is 0.
    pub fn device(&self) -> Option<DeviceAddress>
        ensures { result ≡ device_of self.now }
    {
        Some(at_address(self.address?))
    }
}

/// The address in the token of a transaction.
fn address_of(transaction: &Option<Transaction>) -> Option<u8>
    ensures { result ≡ address_of transaction.now }
{
    match transaction {
        Some(transaction) => Some(transaction.to.address),
        None => None,
    }
}

fn at_address(address: u8) -> DeviceAddress
    ensures { result ≡ at_address address }
{
    DeviceAddress {
        bus: 0,
        device: u16::from(address),
    }
}
