//! One control transfer at the host's end, as numbers.
ghost use Rattle.std.specs.Prelude.{◌≡◌, None, Some, is_some, unwrap_or, []};
ghost use Rattle.std.specs.Option.{option_and_then, option_map};
ghost use Rattle.usb_fields.specs.Packets.{Sent};
ghost use Rattle.usb_fields.specs.Setup.{setup_of};
ghost use Rattle.usb_host.specs.Heard.{heard_of};
ghost use Rattle.usb_host.specs.Transfer.{begun, due, taken};
ghost use Rattle.usb_c.specs.Answers.{AnswersOn};
ghost use Rattle.usb_c.specs.Transfers.{Opens, TakesReply, received_reported, transfer_in, wrong_transfer};
ghost use Rattle.usb_c.specs.Transactions.{reply_given, sent_given, transaction_of};

use crate::answer::{Answer, Verdict};
use crate::device_owner::NzgSetup;
use crate::transaction::{NzgTransaction, answer_of, transaction_numbers};
use crate::transfer_numbers::NzgTransfer;
use usb_host::Heard;

/// The highest address of a device (USB 2.0, 8.3.2.1).
const LAST_ADDRESS: u8 = 127;

/// Begins a transfer with this setup packet (USB 2.0, 8.5.3). After an address above 127, argument 1, or a packet size of 0,
/// argument 7, the numbers are as they were.
#[unsafe(no_mangle)]
pub extern "C" fn nzg_transfer_open(
    transfer: &mut NzgTransfer,
    address: u8,
    packet: u8,
    naks: u16,
    setup: &NzgSetup,
) -> Answer
    ensures { AnswersOn (Opens (wrong_transfer address packet) (begun address packet naks (setup_of setup.now.bytes)) transfer.old transfer.new) result }
{
    open_at(transfer, address, packet, naks, setup.bytes).answer()
}

/// The number of an argument that has no meaning.
pub(crate) fn wrong_transfer(address: u8, packet: u8) -> Option<u8>
    ensures { result ≡ wrong_transfer address packet }
{
    if address > LAST_ADDRESS {
        Some(1)
    } else if packet == 0 {
        Some(7)
    } else {
        None
    }
}

fn open_at(
    transfer: &mut NzgTransfer,
    address: u8,
    packet: u8,
    naks: u16,
    setup: [u8; 8],
) -> Verdict
    ensures { Opens (wrong_transfer address packet) (begun address packet naks (setup_of setup)) transfer.old transfer.new result }
{
    if let Some(number) = wrong_transfer(address, packet) {
        return Verdict::BadArgument(number);
    }
    *transfer = NzgTransfer::begun(address, packet, naks, setup);
    Verdict::Done(0)
}

/// The next transaction. False once the transfer has ended, or where the numbers are none of a transfer: the transaction
/// is then as it was. An OUT has no bytes: of a request with data to the device, `nzg_write_next` has them.
#[unsafe(no_mangle)]
pub extern "C" fn nzg_transfer_next(
    transfer: &NzgTransfer,
    transaction: &mut NzgTransaction,
) -> bool
    ensures due { transaction.new ≡ unwrap_or (option_map transaction_of (option_and_then due (transfer_in transfer.now))) transaction.old }
    ensures found { result ≡ is_some (option_and_then due (transfer_in transfer.now)) }
    // With no bytes what is reported is the whole transaction.
    ensures whole { (sent : Sent) → option_and_then due (transfer_in transfer.now) ≡ Some sent → sent_given transaction.new [] ≡ Some sent }
{
    let Some(transfer) = transfer.transfer() else {
        return false;
    };
    let Some(due) = transfer.next() else {
        return false;
    };
    *transaction = transaction_numbers(&due);
    true
}

/// What the transaction brought. It goes on, is done, or has failed; where it goes on, the length says how many of the
/// bytes are new: all of them or none. A reply, or a toggle of a data packet, that has no meaning is argument 8, and numbers
/// that are none of a transfer are argument 11: nothing changes then.
#[unsafe(no_mangle)]
pub extern "C" fn nzg_transfer_take(
    transfer: &mut NzgTransfer,
    reply: u8,
    toggle: u8,
    bytes: &[u8],
) -> Answer
    ensures { AnswersOn (TakesReply taken transfer.old (reply_given reply toggle bytes.now) transfer.new) result }
{
    take(transfer, reply, toggle, bytes).answer()
}

fn take(numbers: &mut NzgTransfer, reply: u8, toggle: u8, bytes: &[u8]) -> Verdict
    ensures { TakesReply taken numbers.old (reply_given reply toggle bytes.now) numbers.new result }
{
    let Some(answer) = answer_of(reply, toggle, bytes) else {
        return Verdict::BadArgument(8);
    };
    let Some(mut transfer) = numbers.transfer() else {
        return Verdict::BadArgument(11);
    };
    let received = transfer.take(answer);
    numbers.set_fields(transfer.fields());
    tell_received(received)
}

pub(crate) fn tell_received(received: Heard<'_>) -> Verdict
    ensures { result ≡ received_reported (heard_of received.entry) }
{
    match received {
        Heard::Again => Verdict::Open(0),
        Heard::Bytes(bytes) => Verdict::Open(bytes.len()),
        Heard::Complete => Verdict::Done(0),
        Heard::Failed(why) => Verdict::Failed(why),
    }
}
