//! The control transfers of a recording of packets.
ghost use Rattle.std.specs.Prelude.{◌≡◌, ◌++◌, ◌∷◌, [], List, IfOk, OnErr};
ghost use Rattle.std.specs.Option.{option_to_list};
ghost use Rattle.usb_capture.specs.declared.control_transfer.ControlTransfer.{ControlTransfer};
ghost use Rattle.usb_capture.specs.declared.transaction.Transaction.{Transaction};
ghost use Rattle.usb_capture.specs.BusTransfers.{HasMade, pipes_of};
ghost use Rattle.usb_capture.specs.PacketFindings.{is_found, is_found_at};
ghost use Rattle.usb_capture.specs.Transfers.{without};

use crate::control_pipes::ControlPipes;
use crate::control_transfer::ControlTransfer;
use crate::open_transfer::OpenTransfer;
use crate::packet_finding::{PacketFinding, lacks_request, refuses_setup};
use crate::packet_sizes::PacketSizes;
use crate::transaction::Transaction;
use std::alloc::{AllocError, Global};

/// Makes of transactions with endpoint zero, taken in order, the control transfers of all devices, as
/// [`ControlTransfers`] makes them of events.
///
/// The number of their bus is 0. It holds, for each address, the transfer whose end hasn't come, with at most 65,535 bytes.
#[derive(Debug, Drop)]
pub struct BusTransfers {
    pipes: ControlPipes,
    sizes: PacketSizes,
}

impl BusTransfers {
    /// One that has taken no transaction.
    pub fn new(alloc: Global) -> BusTransfers
        ensures { HasMade [] [] result }
    {
        BusTransfers {
            pipes: ControlPipes::new(alloc),
            sizes: PacketSizes::new(),
        }
    }

    /// Takes a transaction, and gives the transfer that is over with it: one that it ends, or one whose end wasn't seen before
    /// this SETUP to its device.
    ///
    /// # Errors
    ///
    /// Out of memory; the transfer of the device is then forgotten.
    pub fn take(&mut self, transaction: &Transaction) -> Result<Option<ControlTransfer>, AllocError>
        ensures ok { IfOk result (λ over. (transactions : List Transaction) (transfers : List ControlTransfer) → HasMade transactions transfers self.old
            → HasMade (transactions ++ transaction.now ∷ []) (transfers ++ option_to_list over) self.new) }
        ensures err { OnErr result (self.new.pipes.held.held.items ≡ without transaction.now.to.address self.old.pipes.held.held.items) }
    {
        let over = self.pipes.take(transaction)?;
        self.sizes.take(&over);
        Ok(over)
    }

    /// Those whose end hasn't come, each with its address, in the order in which they were last seen.
    pub fn unended(&self) -> &[OpenTransfer]
        ensures { result.now ≡ self.now.pipes.held.held.items }
    {
        self.pipes.unended()
    }

    /// Whether this is wrong in a transaction that comes next. Of what is damaged there are no transactions.
    pub fn finds(&self, finding: PacketFinding, transaction: &Transaction) -> bool
        ensures { (transactions : List Transaction) (transfers : List ControlTransfer) → HasMade transactions transfers self.now
            → result ≡ is_found finding transactions transaction.now }
    {
        self.finds_now(finding, transaction)
    }

    /// The same, by what is open and known.
    fn finds_now(&self, finding: PacketFinding, transaction: &Transaction) -> bool
        ensures { result ≡ is_found_at finding (pipes_of self.now.pipes) self.now.sizes.sizes transaction.now }
    {
        match finding {
            PacketFinding::Damaged(_) => false,
            PacketFinding::NoHandshake => transaction.handshake.is_none(),
            PacketFinding::NoRequest => lacks_request(transaction),
            PacketFinding::SetupRefused => refuses_setup(transaction),
            PacketFinding::Toggle => self.pipes.has_wrong_toggle(transaction),
            PacketFinding::Long => self.sizes.is_long(transaction),
            PacketFinding::NoShortPacket => {
                let size = self.sizes.size_at(transaction.to.address);
                self.pipes.is_early(size, transaction)
            }
            PacketFinding::StatusDirection => {
                let size = self.sizes.size_at(transaction.to.address);
                self.pipes.is_misdirected(size, transaction)
            }
        }
    }
}
