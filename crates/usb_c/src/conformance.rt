//! A device under test beside a device that C holds.
ghost use Rattle.std.specs.Prelude.{◌≡◌};
ghost use Rattle.usb_fields.specs.Setup.{setup_of};
ghost use Rattle.usb_device.specs.Offers.{has_head};
ghost use Rattle.usb_device.specs.OpenTransfers.{after_ack};
ghost use Rattle.usb_c.specs.Conformance.{JudgesDevice, judged_number, numbers_of, stage_number, stage_given, transfer_given};
ghost use Rattle.usb_c.specs.Transactions.{packet_given, sent_given};

use crate::device_owner::NzgSetup;
use crate::transaction::{NzgPacket, NzgTransaction, answer_in, sent, tell};
use usb_device::{Difference, EndpointZero, Image, OpenStage, OpenTransfer, is_ready, judge};
use usb_fields::{Setup, Toggle};

/// What a device under test has answered in a transfer whose outcome is open to it. Any numbers may stand there.
#[repr(C)]
#[derive(Drop)]
pub struct NzgOpenTransfer {
    /// How many bytes of the data stage the host has acknowledged.
    pub acknowledged: u16,
    /// The same, and those that were sent after them.
    pub sent: u16,
    /// The toggle of the packet that was acknowledged last: 0 DATA0, as of the SETUP, else DATA1.
    pub last: u8,
    /// The [`OpenStage`](usb_device::OpenStage), from 0; above 4 a STALL was the answer.
    pub stage: u8,
}

/// One transaction, to which a device under test has answered so in the transfer of this request. The device here has it too, and
/// its answer goes into the packet. 0 where what came is allowed, and the open transfer goes on; else the number of the
/// [`Difference`](usb_device::Difference), and 9 where the bytes are no image, or where a number has no meaning: nothing changes then.
#[tactic(auto, using(crate::proofs::DeviceLemmas::answer_fits, crate::proofs::DeviceLemmas::answer_is))]
#[unsafe(no_mangle)]
pub extern "C" fn nzg_judge_device(
    device: &mut EndpointZero,
    image: &[u8],
    kept: &mut [u8],
    transfer: &mut NzgOpenTransfer,
    request: &NzgSetup,
    transaction: &NzgTransaction,
    bytes: &[u8],
    came: &NzgPacket,
    packet: &mut NzgPacket,
) -> u8
    ensures { JudgesDevice (has_head image.now) (sent_given transaction.now bytes.now) (packet_given came.now) image.now kept.old device.old transfer.old (setup_of request.now.bytes) packet.old kept.new device.new transfer.new packet.new result }
{
    let image = Image { bytes: image };
    if !image.has_head() {
        return 9;
    }
    let Some(transaction) = sent(transaction, bytes) else {
        return 9;
    };
    let Some(came) = answer_in(came) else {
        return 9;
    };
    let request = Setup::from_bytes(&request.bytes);
    let free = device.is_free(image, request);
    let reaction = device.serve(image, kept, &transaction, is_ready(came));
    let has = reaction.answer(device.packet(image, kept));
    tell(has, packet);
    let mut known = transfer_of(transfer);
    let stage = transaction.stage;
    let judged = judge(&mut known, free, request, image.packet(), stage, came, has);
    *transfer = numbers_of(known);
    judged_number(judged)
}

/// The host's ACK of the data packet that was judged right before, which reached the device.
#[unsafe(no_mangle)]
pub extern "C" fn nzg_judge_acked(transfer: &mut NzgOpenTransfer)
    ensures { transfer.new ≡ numbers_of (after_ack (transfer_given transfer.old)) }
{
    let mut known = transfer_of(transfer);
    known.acked();
    *transfer = numbers_of(known);
}

fn transfer_of(transfer: &NzgOpenTransfer) -> OpenTransfer
    ensures { result ≡ transfer_given transfer.now }
{
    OpenTransfer {
        last: match transfer.last {
            0 => Toggle::Data0,
            _ => Toggle::Data1,
        },
        acknowledged: transfer.acknowledged,
        sent: transfer.sent,
        stage: stage_of(transfer.stage),
    }
}

fn stage_of(number: u8) -> OpenStage
    ensures { result ≡ stage_given number }
{
    match number {
        0 => OpenStage::Due,
        1 => OpenStage::Sent,
        2 => OpenStage::Last,
        3 => OpenStage::Over,
        4 => OpenStage::Answered,
        _ => OpenStage::Stalled,
    }
}

fn numbers_of(known: OpenTransfer) -> NzgOpenTransfer
    ensures { result ≡ numbers_of known }
{
    NzgOpenTransfer {
        acknowledged: known.acknowledged,
        sent: known.sent,
        last: match known.last {
            Toggle::Data0 => 0,
            Toggle::Data1 => 1,
        },
        stage: stage_number(known.stage),
    }
}

fn stage_number(stage: OpenStage) -> u8
    ensures { result ≡ stage_number stage }
{
    match stage {
        OpenStage::Due => 0,
        OpenStage::Sent => 1,
        OpenStage::Last => 2,
        OpenStage::Over => 3,
        OpenStage::Answered => 4,
        OpenStage::Stalled => 5,
    }
}

fn judged_number(judged: Option<Difference>) -> u8
    ensures { result ≡ judged_number judged }
{
    match judged {
        None => 0,
        Some(why) => why.number(),
    }
}
