//! One transaction, and one transfer, between two ends.
ghost use Rattle.std.specs.Prelude.{◌≡◌, ◌≤◌, ◌+◌, ◌<◌, ◌^◌, [], OnOk, IfOk, None};
ghost use Rattle.usb_fields.specs.Packets.{sent_of};
ghost use Rattle.usb_host.specs.Transfer.{due, left};
ghost use Rattle.usb_host.specs.declared.transfer.TransferStage.TheVariants.{Setup};
ghost use Rattle.usb_device.specs.Requests.{answer};
ghost use Rattle.usb_bus.specs.Attempt.{AreDataOf};
ghost use Rattle.usb_bus.specs.Bus.{carried, has_data};
ghost use Rattle.usb_bus.specs.Enumerate.{answered};
ghost use Rattle.usb_bus.specs.inside.Running.{failure_of, is_write, transfer_of, LeadsTo};

use crate::fate::Fate;
use crate::sender::Sender;
use crate::steps::Observer;
use std::alloc::{AllocError, Global};
use usb_device::Device;
use usb_fields::{Answer, Transaction};
use usb_host::{Host, Why};

/// A host's end, which receives what a bus leaves of an answer, and changes a `W` by it.
pub(crate) trait TakesAnswer<W> {
    ghost use Rattle.usb_fields.specs.Packets.{Reply, reply_of};

    /// What comes of it.
    type Outcome;

    /// What came of which answer makes this end and this `W` that, and comes to this.
    ghost receives_reply: { Reply → Reply → Self → W → Self → W → Self.Outcome → Type 0 };

    fn take_answer(&mut self, came: Answer<'_>, answer: Answer<'_>, w: &mut W) -> Self::Outcome
        ensures { receives_reply (reply_of came.entry) (reply_of answer.entry) self.old w.old self.new w.new result };
}

/// The observer sees all of the answer, what came of it, and the host then.
impl<O: Observer> TakesAnswer<O> for Host {
    ghost use Rattle.std.specs.Prelude.{◌≡◌, ◌<◌};
    ghost use Rattle.usb_fields.specs.Packets.{Sent};
    ghost use Rattle.usb_host.specs.Cost.{left_to_ask};
    ghost use Rattle.usb_host.specs.Steps.{Takes, WantsSent, wanted};

    type Outcome = ();

    ghost receives_reply = { λ came answer old from new to _. Takes old came new × ((sent : Sent) → wanted old.phase ≡ WantsSent sent → left_to_ask new < left_to_ask old) × O.sees from answer came new to };

    fn take_answer(&mut self, came: Answer<'_>, answer: Answer<'_>, observer: &mut O) {
        self.take(came);
        observer.answered(answer, came, self);
    }
}

/// One transaction under a fate: the host receives what the bus leaves of the answer, which the device lends.
pub(crate) fn exchange<W, H: TakesAnswer<W>>(
    host: &mut H,
    device: &mut Device<'_>,
    t: &Transaction<'_>,
    fate: Fate,
    w: &mut W,
) -> H::Outcome
    ensures received { H.receives_reply (carried (answer device.old.description.file) device.old.description.file.device.packet device.old.device (sent_of t.now) fate).reply (answered device.old.description.file device.old.device (sent_of t.now) fate) host.old w.old host.new w.new result }
    ensures device { device.new ≡ record device.old { device = (carried (answer device.old.description.file) device.old.description.file.device.packet device.old.device (sent_of t.now) fate).device } }
{
    let Some(ready) = fate.readiness() else {
        return host.take_answer(Answer::Silence, Answer::Silence, w);
    };
    let answer = device.serve(t, ready);
    let is_acked = fate.acknowledges(answer);
    let outcome = host.take_answer(fate.brought(answer), answer, w);
    if is_acked {
        device.acked();
    }
    outcome
}

/// What came of a transfer.
#[derive(Drop)]
pub(crate) struct Ended {
    /// The bytes that it brought.
    pub(crate) bytes: Vec<u8>,
    /// Why it failed, if it did.
    pub(crate) failure: Option<Why>,
    /// The number of transactions of the talk so far.
    pub(crate) transactions: u128,
}

/// One transfer with these data to its end, after `before` transactions.
pub(crate) fn transfer_over(
    alloc: Global,
    device: &mut Device<'_>,
    sender: &mut Sender,
    sent: &[u8],
    before: u128,
    fates: &[Fate],
) -> Result<Ended, AllocError>
    requires setup { (transfer_of sender.old).stage ≡ Setup }
    requires kind { is_write sender.old ≡ has_data sent.now }
    requires data { AreDataOf (transfer_of sender.old).request sent.now }
    requires few { before + left (transfer_of sender.old) < 2 ^ 128 }
    ensures leads { IfOk result (λ ended. LeadsTo (answer device.old.description.file) device.old.description.file.device.packet sent.now fates.now before (record { transfer = transfer_of sender.old; got = [] }) device.old.device ended.transactions (record { transfer = transfer_of sender.new; got = ended.bytes.items }) device.new.device) }
    ensures description { device.new.description ≡ device.old.description }
    ensures request { OnOk result ((transfer_of sender.new).request ≡ (transfer_of sender.old).request) }
    ensures over { OnOk result (due (transfer_of sender.new) ≡ None) }
    ensures failure { IfOk result (λ ended. ended.failure ≡ failure_of (transfer_of sender.new).stage) }
    ensures most { IfOk result (λ ended. ended.transactions ≤ before + left (transfer_of sender.old)) }
{
    let mut bytes = Vec::new(alloc);
    let mut failure = None;
    let mut transactions = before;
    while let Some(t) = sender.next(sent) {
        let fate = Fate::at(fates, transactions);
        failure = exchange(sender, device, &t, fate, &mut bytes)?;
        transactions += 1;
    }
    Ok(Ended {
        bytes,
        failure,
        transactions,
    })
}
