//! One transaction over a bus of bytes.
ghost use Rattle.std.specs.Prelude.{◌≡◌, ◌<◌, Some};
ghost use Rattle.usb_fields.specs.Packets.{Reply, sent_of};
ghost use Rattle.usb_device.specs.Accepted.{Accepted};
ghost use Rattle.usb_device.specs.Requests.{answer};
ghost use Rattle.usb_device.specs.Step.{Served};
ghost use Rattle.usb_bus.specs.Damaged.{IsAnswered, IsExchanged, IsLegalSent, bits_of, is_ready};
ghost use Rattle.usb_bus.specs.Exchanges.{is_lost_ack, is_lost_down, is_lost_up};

use crate::exchange::TakesAnswer;
use crate::fate::Fate;
use crate::wire::receive::{
    Damages, LONGEST, ack_packet, data_packet, is_ack, receive, received, received_answer,
    reply_number, reply_packet, token_packet,
};
use usb_device::Device;
use usb_fields::{Answer, Transaction};

/// One transaction under a fate, with these changes of bits: each end takes what arrives for a packet, or ignores it.
pub(crate) fn exchange_bytes<W, H: TakesAnswer<W>>(
    host: &mut H,
    device: &mut Device<'_>,
    t: &Transaction<'_>,
    fate: Fate,
    damages: Damages<'_>,
    w: &mut W,
) -> H::Outcome
    requires sent { IsLegalSent (sent_of t.now) }
    requires accepted { Accepted device.old.description.file device.old.description.speed }
    ensures { (answered : Reply) × (r : Served) × IsExchanged (answer device.old.description.file) device.old.description.file.device.packet device.old.device (sent_of t.now) fate (bits_of damages.entry.changes.now damages.entry.transaction) answered r × H.receives_reply r.reply answered host.old w.old host.new w.new result × (device.new ≡ record device.old { device = r.device }) }
{
    let is_lost = is_lost_down(fate);
    let mut token_room = [0; LONGEST];
    let mut data_room = [0; LONGEST];
    let token = receive(Some(token_packet(t)), is_lost, damages, 1, &mut token_room);
    let after = receive(data_packet(t), is_lost, damages, 2, &mut data_room);
    match received(token, after) {
        Some(received) => {
            let number = reply_number(t.stage);
            answer_bytes(host, device, &received, number, fate, damages, w)
        }
        None => host.take_answer(Answer::Silence, Answer::Silence, w),
    }
}

/// What the device answers to what it has received, and the host's ACK of it.
fn answer_bytes<W, H: TakesAnswer<W>>(
    host: &mut H,
    device: &mut Device<'_>,
    t: &Transaction<'_>,
    number: u8,
    fate: Fate,
    damages: Damages<'_>,
    w: &mut W,
) -> H::Outcome
    requires number { number < 4 }
    requires accepted { Accepted device.old.description.file device.old.description.speed }
    ensures { (answered : Reply) × (r : Served) × IsAnswered (answer device.old.description.file) device.old.description.file.device.packet device.old.device (Some (sent_of t.now)) number fate (bits_of damages.entry.changes.now damages.entry.transaction) answered r × H.receives_reply r.reply answered host.old w.old host.new w.new result × (device.new ≡ record device.old { device = r.device }) }
{
    let mut reply_room = [0; LONGEST];
    let mut ack_room = [0; LONGEST];
    let answer = device.serve(t, is_ready(fate));
    let packet = reply_packet(answer);
    let reply = receive(packet, is_lost_up(fate), damages, number, &mut reply_room);
    let came = received_answer(reply);
    let ack = receive(
        ack_packet(came),
        is_lost_ack(fate),
        damages,
        number + 1,
        &mut ack_room,
    );
    let is_acked = is_ack(ack);
    let outcome = host.take_answer(came, answer, w);
    if is_acked {
        device.acked();
    }
    outcome
}

/// Whether a device that receives is ready.
fn is_ready(fate: Fate) -> bool
    ensures { result ≡ is_ready fate }
{
    !matches!(fate, Fate::Busy)
}

pub(crate) fn is_lost_down(fate: Fate) -> bool
    ensures { result ≡ is_lost_down fate }
{
    matches!(fate, Fate::LostDown)
}

pub(crate) fn is_lost_up(fate: Fate) -> bool
    ensures { result ≡ is_lost_up fate }
{
    matches!(fate, Fate::LostUp)
}

pub(crate) fn is_lost_ack(fate: Fate) -> bool
    ensures { result ≡ is_lost_ack fate }
{
    matches!(fate, Fate::LostAck)
}
