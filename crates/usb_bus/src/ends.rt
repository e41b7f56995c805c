//! What the two ends have after a transaction.
ghost use Rattle.std.specs.Prelude.{◌≡◌, ◌++◌, codes, OnOk};
ghost use Rattle.usb_fields.specs.Packets.{reply_of};
ghost use Rattle.usb_text.specs.Lines.{column};
ghost use Rattle.usb_host.specs.Heard.{heard_of};
ghost use Rattle.usb_host.specs.Steps.{outcome_of, wanted};
ghost use Rattle.usb_bus.specs.Exchanges.{given_up, trouble_why};
ghost use Rattle.usb_bus.specs.Lines.{device_words, failure_words, going_words, received_words, host_words, stage_words, strike_words};

use std::alloc::AllocError;
use usb_device::{Device, DeviceStage};
use usb_fields::Answer;
use usb_host::{Action, Heard, Host, Transfer, Why};
use usb_text::Text;

/// Why a host has ended without success, if it has.
pub(crate) fn trouble_of(host: &Host) -> Option<Why>
    ensures { result ≡ trouble_why (outcome_of host.now.phase) }
{
    match host.outcome() {
        Some(Err(trouble)) => Some(trouble.why),
        _ => None,
    }
}

/// Puts what the host has in its column: what its transfer, which is so now, has made of the answer that came.
pub(crate) fn put_host(
    text: &mut Text,
    transfer: &Transfer,
    came: Answer<'_>,
    received: Heard<'_>,
    why: Option<Why>,
) -> Result<(), AllocError>
    ensures { OnOk result (text.new ≡ text.old ++ column 20 (host_words transfer.now (reply_of came.entry) (heard_of received.entry) why)) }
{
    let start = text.len();
    put_host_words(text, transfer, came, received, why)?;
    text.fill(start, 20)
}

fn put_host_words(
    text: &mut Text,
    transfer: &Transfer,
    came: Answer<'_>,
    received: Heard<'_>,
    why: Option<Why>,
) -> Result<(), AllocError>
    ensures { OnOk result (text.new ≡ text.old ++ host_words transfer.now (reply_of came.entry) (heard_of received.entry) why) }
{
    match why {
        Some(Why::Memory) => text.put("out of memory"),
        Some(Why::Malformed) => put_malformed(text, transfer, came, received),
        _ => put_received(text, transfer, came, received),
    }
}

fn put_malformed(
    text: &mut Text,
    transfer: &Transfer,
    came: Answer<'_>,
    received: Heard<'_>,
) -> Result<(), AllocError>
    ensures { OnOk result (text.new ≡ text.old ++ (received_words transfer.now (reply_of came.entry) (heard_of received.entry) ++ codes ": malformed")) }
{
    put_received(text, transfer, came, received)?;
    text.put(": malformed")
}

fn put_received(
    text: &mut Text,
    transfer: &Transfer,
    came: Answer<'_>,
    received: Heard<'_>,
) -> Result<(), AllocError>
    ensures { OnOk result (text.new ≡ text.old ++ received_words transfer.now (reply_of came.entry) (heard_of received.entry)) }
{
    match received {
        Heard::Again => put_going(text, transfer, came),
        Heard::Bytes(_) => {
            text.put("has ")?;
            text.put_decimal(u64::from(transfer.kept()))?;
            text.put(" of ")?;
            text.put_decimal(u64::from(transfer.request().length))
        }
        Heard::Complete => text.put("complete"),
        Heard::Failed(why) => put_failure(text, transfer, why),
    }
}

fn put_going(text: &mut Text, transfer: &Transfer, came: Answer<'_>) -> Result<(), AllocError>
    ensures { OnOk result (text.new ≡ text.old ++ going_words transfer.now (reply_of came.entry)) }
{
    match came {
        Answer::Ack => text.put("accepted"),
        Answer::Nak => {
            text.put("NAK ")?;
            text.put_decimal(u64::from(transfer.nak_count()))
        }
        Answer::Data(_, _) => {
            text.put("duplicate, ")?;
            put_strike(text, transfer)
        }
        Answer::Stall | Answer::Silence => put_strike(text, transfer),
    }
}

fn put_strike(text: &mut Text, transfer: &Transfer) -> Result<(), AllocError>
    ensures { OnOk result (text.new ≡ text.old ++ strike_words transfer.now.strikes) }
{
    text.put("strike ")?;
    text.put_decimal(u64::from(transfer.strikes()))
}

fn put_failure(text: &mut Text, transfer: &Transfer, why: Why) -> Result<(), AllocError>
    ensures { OnOk result (text.new ≡ text.old ++ failure_words transfer.now why) }
{
    match why {
        Why::NoAnswer => text.put("strike 3: no answer"),
        Why::Busy => {
            text.put("NAK ")?;
            text.put_decimal(u64::from(transfer.nak_count()) + 1)?;
            text.put(": busy")
        }
        Why::Stalled => text.put("stalled"),
        Why::TooLong => text.put("too long"),
        Why::Unexpected => text.put("unexpected"),
        Why::Malformed => text.put("malformed"),
        Why::Memory => text.put("out of memory"),
    }
}

/// Why an attempt is given up, if it is: its transfer has received this, and the host has ended for this reason, if it has.
pub(crate) fn cause(received: Heard<'_>, host: &Host, trouble: Option<Why>) -> Option<Why>
    ensures { result ≡ given_up (heard_of received.entry) (wanted host.now.phase) trouble }
{
    match received {
        Heard::Failed(why) => match host.next() {
            Action::Reset => Some(why),
            _ => trouble,
        },
        _ => trouble,
    }
}

/// Puts what the device has.
#[tactic(auto, unfolding(crate::specs::Lines::device_words))]
pub(crate) fn put_device(text: &mut Text, device: &Device<'_>) -> Result<(), AllocError>
    ensures { OnOk result (text.new ≡ text.old ++ device_words device.now.description.file.device.packet device.now.device) }
{
    let state = device.state();
    text.put_decimal(u64::from(state.address))?;
    text.put("/")?;
    text.put_decimal(u64::from(state.selected))?;
    text.put(" ")?;
    put_stage(text, device.stage(), device.acknowledged())
}

fn put_stage(text: &mut Text, stage: DeviceStage, sent: usize) -> Result<(), AllocError>
    ensures { OnOk result (text.new ≡ text.old ++ stage_words stage sent) }
{
    match stage {
        DeviceStage::Idle => text.put("idle"),
        DeviceStage::Halted => text.put("halted"),
        DeviceStage::Sending => {
            text.put("sending ")?;
            text.put_decimal(sent as u64)
        }
        DeviceStage::StatusOut => text.put("status out"),
        DeviceStage::Over => text.put("over"),
        DeviceStage::StatusIn => text.put("status in"),
        DeviceStage::Receiving => text.put("receiving"),
        DeviceStage::Written => text.put("written"),
    }
}
