//! One control transfer with data to the device, as numbers.
ghost use Rattle.std.specs.Prelude.{◌≡◌, Some};
ghost use Rattle.usb_fields.specs.Packets.{sent_of};
ghost use Rattle.usb_fields.specs.Setup.{setup_of};
ghost use Rattle.usb_device.specs.Beside.{brings_bytes};
ghost use Rattle.usb_c.specs.Transactions.{reply_given};
ghost use Rattle.usb_host.specs.Transfer.{begun};
ghost use Rattle.usb_host.specs.Write.{written};
ghost use Rattle.usb_c.specs.Answers.{AnswersOn};
ghost use Rattle.usb_c.specs.Transfers.{Opens, TakesReply, transfer_in, wrong_transfer as a_wrong_transfer};
ghost use Rattle.usb_c.specs.Writes.{TellsNext, bytes_of, wrong_write};

use crate::answer::{Answer, Verdict};
use crate::device_owner::NzgSetup;
use crate::transaction::{NzgTransaction, answer_of, transaction_numbers};
use crate::transfer::{tell_received, wrong_transfer};
use crate::transfer_numbers::NzgTransfer;
use usb_fields::{Direction, Setup, Stage, Transaction};
use usb_host::Write;

/// A control transfer with data to the device, as numbers: the struct `nzg_write` of nozzlegorse.h. Any numbers are allowed.
#[repr(C)]
#[derive(Clone, Copy, Drop)]
pub struct NzgWrite {
    /// Its numbers, whose `kept` are the bytes that the device has acknowledged.
    pub transfer: NzgTransfer,
}

/// Begins a write with this setup packet (USB 2.0, 8.5.3). After an address above 127, argument 1, a packet size of 0, argument 7,
/// or a request without data to the device, argument 9, the numbers are as they were.
#[unsafe(no_mangle)]
pub extern "C" fn nzg_write_open(
    write: &mut NzgWrite,
    address: u8,
    packet: u8,
    naks: u16,
    setup: &NzgSetup,
) -> Answer
    ensures { AnswersOn (Opens (wrong_write (a_wrong_transfer address packet) (brings_bytes (setup_of setup.now.bytes))) (begun address packet naks (setup_of setup.now.bytes)) write.old.transfer write.new.transfer) result }
{
    open_at(&mut write.transfer, address, packet, naks, setup.bytes).answer()
}

/// The number of an argument that has no meaning.
fn wrong_write(address: u8, packet: u8, request: Setup) -> Option<u8>
    ensures { result ≡ wrong_write (a_wrong_transfer address packet) (brings_bytes request) }
{
    if let Some(number) = wrong_transfer(address, packet) {
        return Some(number);
    }
    if request.length == 0 || request.direction() == Direction::In {
        Some(9)
    } else {
        None
    }
}

fn open_at(numbers: &mut NzgTransfer, address: u8, packet: u8, naks: u16, setup: [u8; 8]) -> Verdict
    ensures { Opens (wrong_write (a_wrong_transfer address packet) (brings_bytes (setup_of setup))) (begun address packet naks (setup_of setup)) numbers.old numbers.new result }
{
    let request = Setup::from_bytes(&setup);
    if let Some(number) = wrong_write(address, packet, request) {
        return Verdict::BadArgument(number);
    }
    *numbers = NzgTransfer::begun(address, packet, naks, setup);
    Verdict::Done(0)
}

/// The next transaction, where these are the data: a data packet has this many of them, from the place on. Open once the
/// write has ended. Data that are not wLength bytes are argument 10, and numbers that are none of a write are argument 11. Where
/// none comes next the transaction is as it was.
#[unsafe(no_mangle)]
pub extern "C" fn nzg_write_next(
    write: &NzgWrite,
    bytes: &[u8],
    transaction: &mut NzgTransaction,
) -> Answer
    ensures { AnswersOn (TellsNext (transfer_in write.now.transfer) bytes.now transaction.old transaction.new) result }
{
    next(&write.transfer, bytes, transaction).answer()
}

fn next(numbers: &NzgTransfer, bytes: &[u8], transaction: &mut NzgTransaction) -> Verdict
    ensures { TellsNext (transfer_in numbers.now) bytes.now transaction.old transaction.new result }
{
    match numbers.write() {
        Some(write) => tell_next(&write, bytes, transaction),
        None => Verdict::BadArgument(11),
    }
}

fn tell_next(write: &Write, bytes: &[u8], transaction: &mut NzgTransaction) -> Verdict
    ensures { TellsNext (Some write.now) bytes.now transaction.old transaction.new result }
{
    if bytes.len() != usize::from(write.request().length) {
        return Verdict::BadArgument(10);
    }
    let Some(due) = write.next(bytes) else {
        return Verdict::Open(0);
    };
    *transaction = transaction_numbers(&due);
    Verdict::Due(usize::from(write.acknowledged()), count_bytes(&due))
}

/// How many bytes an OUT has.
fn count_bytes(transaction: &Transaction<'_>) -> usize
    ensures { result ≡ bytes_of (sent_of transaction.now).token }
{
    match transaction.stage {
        Stage::Out(_, bytes) => bytes.len(),
        Stage::Setup(_) | Stage::In => 0,
    }
}

/// What the transaction brought. It goes on, is done, or has failed. A reply, or a toggle of a data packet, that has no meaning
/// is argument 8, and numbers that are none of a write are argument 11: nothing changes then.
#[unsafe(no_mangle)]
pub extern "C" fn nzg_write_take(
    write: &mut NzgWrite,
    reply: u8,
    toggle: u8,
    bytes: &[u8],
) -> Answer
    ensures { AnswersOn (TakesReply written write.old.transfer (reply_given reply toggle bytes.now) write.new.transfer) result }
{
    take(&mut write.transfer, reply, toggle, bytes).answer()
}

fn take(numbers: &mut NzgTransfer, reply: u8, toggle: u8, bytes: &[u8]) -> Verdict
    ensures { TakesReply written numbers.old (reply_given reply toggle bytes.now) numbers.new result }
{
    let Some(answer) = answer_of(reply, toggle, bytes) else {
        return Verdict::BadArgument(8);
    };
    let Some(mut write) = numbers.write() else {
        return Verdict::BadArgument(11);
    };
    let received = write.take(answer);
    numbers.set_fields(write.fields());
    tell_received(received)
}
