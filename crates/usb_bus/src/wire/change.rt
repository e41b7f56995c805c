//! Bits that change on their way over the bus.
ghost use Rattle.std.specs.Prelude.{◌≡◌, ◌<◌, ◌^◌};
ghost use Rattle.usb_bus.specs.Damaged.{bits_of, with_bit_changed, with_changed};

/// A bit that changes in a packet. A bit that a list names twice is changed back, and one past the packet's end changes
/// nothing.
///
/// ```rust
/// // Bit 5 of the second packet in the seventh transaction.
/// let change = BitChange {
///     transaction: 7,
///     packet: 2,
///     bit: 5,
/// };
/// ```
#[derive(Clone, Copy, Debug, PartialEq, Eq, Hash)]
pub struct BitChange {
    /// The number of the transaction, counted from 1 as in a log.
    pub transaction: u64,
    /// The number of the packet in it, counted from 1: the token is the first one.
    pub packet: u8,
    /// The number of the bit in it, counted from 0 as bits are sent: the lowest of each byte first (USB 2.0, 8.1).
    pub bit: u32,
}

/// Changes the bits of a packet of a transaction.
pub(crate) fn change_bits(changes: &[BitChange], transaction: u128, packet: u8, bytes: &mut [u8])
    ensures { bytes.new ≡ with_changed (bits_of changes.now transaction packet) bytes.old }
{
    for change in changes {
        if u128::from(change.transaction) == transaction && change.packet == packet {
            change_bit(bytes, change.bit);
        }
    }
}

/// Changes a bit, where there is one of this number.
#[tactic(auto, unfolding(crate::specs::Damaged::with_bit_changed), using(crate::proofs::DamageLemmas::none_to_change))]
fn change_bit(bytes: &mut [u8], bit: u32)
    ensures { bytes.new ≡ with_bit_changed bit bytes.old }
{
    let place = (bit / 8) as usize;
    if place < bytes.len() {
        bytes[place] ^= bit_mask((bit % 8) as u8);
    }
}

/// The byte in which this bit alone is set.
fn bit_mask(bit: u8) -> u8
    requires { bit < 8 }
    ensures { result ≡ 2 ^ bit }
{
    match bit {
        0 => 1,
        1 => 2,
        2 => 4,
        3 => 8,
        4 => 16,
        5 => 32,
        6 => 64,
        _ => 128,
    }
}
