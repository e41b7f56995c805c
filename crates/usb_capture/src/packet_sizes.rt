//! How many bytes a data packet of endpoint zero has at most, as devices say it.
ghost use Rattle.std.specs.Prelude.{◌≡◌};
ghost use Rattle.std.specs.Option.{option_to_list};
ghost use Rattle.usb_capture.specs.PacketSizes.{gives_address, is_long, no_sizes, says_size, size_at, sizes_after, sizes_with};

use crate::control_transfer::ControlTransfer;
use crate::readings::{is_done, is_reading};
use crate::transaction::Transaction;
use usb_fields::byte_at;
use usb_wire::TokenKind;

/// bMaxPacketSize0 of each address (USB 2.0, 9.6.1), or 0 where it isn't known.
#[derive(Clone, Copy, Debug)]
pub(crate) struct PacketSizes {
    sizes: [u8; 256],
}

impl PacketSizes {
    /// None is known.
    #[tactic(auto, unfolding(crate::specs::PacketSizes::no_sizes))]
    pub(crate) fn new() -> PacketSizes
        ensures { result.sizes ≡ no_sizes }
    {
        PacketSizes { sizes: [0; 256] }
    }

    /// Takes the transfer that is over, if one is.
    pub(crate) fn take(&mut self, over: &Option<ControlTransfer>)
        ensures { self.new.sizes ≡ sizes_after self.old.sizes (option_to_list over.now) }
    {
        if let Some(transfer) = over {
            self.take_one(transfer);
        }
    }

    /// Takes what a transfer says: a device descriptor its own size, and SET_ADDRESS that another device is at an address now.
    fn take_one(&mut self, transfer: &ControlTransfer)
        ensures { self.new.sizes ≡ sizes_with transfer.now self.old.sizes }
    {
        if says_size(transfer) {
            let address = usize::from(transfer.device % 256);
            self.sizes[address] = byte_at(transfer.data.as_slice(), 7);
        } else if gives_address(transfer) {
            let address = usize::from(transfer.setup.value % 256);
            self.sizes[address] = 0;
        }
    }

    /// Whether a transaction has a data packet that is too long.
    pub(crate) fn is_long(&self, transaction: &Transaction) -> bool
        ensures { result ≡ is_long self.now.sizes transaction.now }
    {
        let size = self.size_at(transaction.to.address);
        match (transaction.token, &transaction.data) {
            (TokenKind::Out | TokenKind::In, Some(packet)) => {
                size != 0 && packet.bytes.len() > usize::from(size)
            }
            _ => false,
        }
    }

    /// bMaxPacketSize0 of the device at an address, or 0 where it isn't known.
    pub(crate) fn size_at(&self, address: u8) -> u8
        ensures { result ≡ size_at address self.now.sizes }
    {
        if address == 0 {
            0
        } else {
            self.sizes[usize::from(address)]
        }
    }
}

/// Whether all of a device descriptor came.
fn says_size(transfer: &ControlTransfer) -> bool
    ensures { result ≡ says_size transfer.now }
{
    is_reading(transfer) && transfer.setup.value / 256 == 1
}

/// Whether it is a SET_ADDRESS that was done.
fn gives_address(transfer: &ControlTransfer) -> bool
    ensures { result ≡ gives_address transfer.now }
{
    transfer.setup.request_type == 0 && transfer.setup.request == 5 && is_done(transfer.ending)
}
