//! Transactions and packets, as C sees them.
ghost use Rattle.std.specs.Prelude.{◌≡◌, ◌≤◌, ◌++◌, Some, drop, length};
ghost use Rattle.std.specs.Option.{option_map};
ghost use Rattle.usb_fields.specs.Packets.{reply_of, sent_of};
ghost use Rattle.usb_device.specs.Replies.{HasRoom};
ghost use Rattle.usb_device.specs.Stages.{toggle_number};
ghost use Rattle.usb_c.specs.Transactions.{packet_of, packet_given, reply_given, sent_given, speed_given, toggle_given, transaction_of};

use usb_fields::{Answer, Speed, Stage, Toggle, Transaction};

/// What a host sends.
#[repr(C)]
#[derive(Drop)]
pub struct NzgTransaction {
    /// The address, 0 to 127.
    pub address: u8,
    /// 0 SETUP, 1 IN, 2 OUT.
    pub stage: u8,
    /// Of OUT: 0 DATA0, 1 DATA1. Of the others 0.
    pub toggle: u8,
    /// Of SETUP: its bytes. Of the others 0.
    pub setup: [u8; 8],
}

/// What comes back.
#[repr(C)]
pub struct NzgPacket {
    /// 0 ACK, 1 NAK, 2 STALL, 3 a data packet, 4 silence.
    pub reply: u8,
    /// Of a data packet: 0 DATA0, 1 DATA1. Of the others 0.
    pub toggle: u8,
    /// Of a data packet: how many of `bytes` it has. Of the others 0.
    pub length: u8,
    /// The bytes, and after them what was there before.
    pub bytes: [u8; 64],
}

/// The toggle of this number, or `None` where it has no meaning.
pub(crate) fn toggle_of(number: u8) -> Option<Toggle>
    ensures { result ≡ toggle_given number }
{
    match number {
        0 => Some(Toggle::Data0),
        1 => Some(Toggle::Data1),
        _ => None,
    }
}

/// The number of a toggle.
pub(crate) fn toggle_number(toggle: Toggle) -> u8
    ensures number { result ≡ toggle_number toggle }
    ensures back { toggle_given result ≡ Some toggle }
{
    match toggle {
        Toggle::Data0 => 0,
        Toggle::Data1 => 1,
    }
}

/// The speed of this number, or `None` where it has no meaning.
pub(crate) fn speed_of(number: u8) -> Option<Speed>
    ensures { result ≡ speed_given number }
{
    match number {
        1 => Some(Speed::Low),
        2 => Some(Speed::Full),
        3 => Some(Speed::High),
        _ => None,
    }
}

/// The transaction that these numbers are, whose OUT has these bytes. `None` where a stage or a toggle has no meaning.
pub(crate) fn sent<'a>(
    transaction_numbers: &NzgTransaction,
    bytes: &'a [u8],
) -> Option<Transaction<'a>>
    ensures { option_map sent_of result ≡ sent_given transaction_numbers.now bytes.now }
{
    let stage = match transaction_numbers.stage {
        0 => Stage::Setup(transaction_numbers.setup),
        1 => Stage::In,
        2 => match toggle_of(transaction_numbers.toggle) {
            Some(toggle) => Stage::Out(toggle, bytes),
            None => return None,
        },
        _ => return None,
    };
    Some(Transaction {
        address: transaction_numbers.address,
        stage,
    })
}

/// A transaction as numbers; of OUT without its bytes.
pub(crate) fn transaction_numbers(transaction: &Transaction<'_>) -> NzgTransaction
    ensures { result ≡ transaction_of (sent_of transaction.now) }
{
    let address = transaction.address;
    match transaction.stage {
        Stage::Setup(setup) => NzgTransaction {
            address,
            stage: 0,
            toggle: 0,
            setup,
        },
        Stage::In => NzgTransaction {
            address,
            stage: 1,
            toggle: 0,
            setup: [0; 8],
        },
        Stage::Out(toggle, _) => NzgTransaction {
            address,
            stage: 2,
            toggle: toggle_number(toggle),
            setup: [0; 8],
        },
    }
}

/// Writes an answer of at most 64 bytes as a packet.
pub(crate) fn tell(answer: Answer<'_>, packet: &mut NzgPacket)
    requires { HasRoom (reply_of answer) }
    ensures { packet.new ≡ packet_of (reply_of answer.entry) packet.old }
{
    match answer {
        Answer::Ack => tell_handshake(0, packet),
        Answer::Nak => tell_handshake(1, packet),
        Answer::Stall => tell_handshake(2, packet),
        Answer::Data(toggle, bytes) => tell_data(toggle, bytes, packet),
        Answer::Silence => tell_handshake(4, packet),
    }
}

fn tell_handshake(reply: u8, packet: &mut NzgPacket)
    ensures { packet.new ≡ record packet.old { reply = reply; toggle = 0; length = 0 } }
{
    packet.reply = reply;
    packet.toggle = 0;
    packet.length = 0;
}

fn tell_data(toggle: Toggle, bytes: &[u8], packet: &mut NzgPacket)
    requires { length bytes.now ≤ 64 }
    ensures { packet.new ≡ record { reply = 3; toggle = toggle_number toggle; length = length bytes.now; bytes = bytes.now ++ drop (length bytes.now) packet.old.bytes } }
{
    packet.reply = 3;
    packet.toggle = toggle_number(toggle);
    packet.length = bytes.len() as u8;
    packet.bytes[..bytes.len()].copy_from_slice(bytes);
}

/// The answer that these numbers are, or `None` where a reply or the toggle of a data packet has no meaning.
pub(crate) fn answer_of<'a>(reply: u8, toggle: u8, bytes: &'a [u8]) -> Option<Answer<'a>>
    ensures { option_map reply_of result ≡ reply_given reply toggle bytes.now }
{
    match reply {
        0 => Some(Answer::Ack),
        1 => Some(Answer::Nak),
        2 => Some(Answer::Stall),
        3 => match toggle_of(toggle) {
            Some(toggle) => Some(Answer::Data(toggle, bytes)),
            None => None,
        },
        4 => Some(Answer::Silence),
        _ => None,
    }
}

/// The answer that a packet says, or `None` where its numbers have no meaning.
pub(crate) fn answer_in(packet: &NzgPacket) -> Option<Answer<'_>>
    ensures { option_map reply_of result ≡ packet_given packet.now }
{
    if packet.length > 64 {
        return None;
    }
    let bytes = &packet.bytes[..usize::from(packet.length)];
    answer_of(packet.reply, packet.toggle, bytes)
}
