//! The lines of a step, part by part.
ghost use Rattle.std.specs.Prelude.{◌≡◌, ◌++◌, codes, IfOk, OnOk, option_and_then};
ghost use Rattle.usb_fields.specs.Packets.{reply_of};
ghost use Rattle.usb_host.specs.Transfer.{due, sent_by};
ghost use Rattle.usb_host.specs.Steps.{step_in, transfer_in};
ghost use Rattle.usb_bus.specs.Exchanges.{cause_of};
ghost use Rattle.usb_bus.specs.Lines.{address_words, descriptor_words, device_words, get_descriptor_words, given_up_line, given_up_part, heading_part, kind_words, language_words, numbered, request_words, reset_line, transfer_line};
ghost use Rattle.usb_bus.specs.Log.{answered_part, transfer_part};

use crate::ends::{cause, put_device, put_host, trouble_of};
use crate::fate::Fate;
use crate::packets::put_packets;
use std::alloc::{AllocError, Global};
use usb_device::Device;
use usb_fields::{Answer, Setup, Transaction, descriptor_type, request};
use usb_host::{Host, Step, Transfer, Why};
use usb_text::{Text, put_byte_code, put_count, put_word_code};

/// Puts words, and a number after them.
#[tactic(auto, unfolding(crate::specs::Lines::numbered))]
pub(crate) fn put_numbered(text: &mut Text, words: &str, number: u64) -> Result<(), AllocError>
    ensures { OnOk result (text.new ≡ text.old ++ numbered words.now number) }
{
    text.put(words)?;
    text.put_decimal(number)
}

/// Puts a request: `GET_DESCRIPTOR device 0, 18 bytes`.
#[tactic(auto, unfolding(crate::specs::Lines::request_words))]
pub(crate) fn put_request(text: &mut Text, setup: &Setup) -> Result<(), AllocError>
    ensures { OnOk result (text.new ≡ text.old ++ request_words setup.now) }
{
    match setup.request {
        request::GET_DESCRIPTOR => put_get_descriptor(text, setup),
        request::SET_ADDRESS => put_numbered(text, "SET_ADDRESS ", u64::from(setup.value)),
        request::SET_CONFIGURATION => put_numbered(
            text,
            "SET_CONFIGURATION ",
            u64::from(setup.value),
        ),
        code => {
            text.put("request ")?;
            put_byte_code(text, code)
        }
    }
}

fn put_get_descriptor(text: &mut Text, setup: &Setup) -> Result<(), AllocError>
    ensures { OnOk result (text.new ≡ text.old ++ get_descriptor_words setup.now) }
{
    let [kind, index] = setup.value.to_be_bytes();
    text.put("GET_DESCRIPTOR ")?;
    put_descriptor(text, kind, index, setup.index)?;
    text.put(", ")?;
    put_count(text, u64::from(setup.length), "byte")
}

#[tactic(auto, unfolding(crate::specs::Lines::descriptor_words))]
fn put_descriptor(text: &mut Text, kind: u8, index: u8, language: u16) -> Result<(), AllocError>
    ensures { OnOk result (text.new ≡ text.old ++ descriptor_words kind index language) }
{
    put_kind(text, kind)?;
    text.put(" ")?;
    text.put_decimal(u64::from(index))?;
    put_language(text, kind, index, language)
}

fn put_kind(text: &mut Text, kind: u8) -> Result<(), AllocError>
    ensures { OnOk result (text.new ≡ text.old ++ kind_words kind) }
{
    match kind {
        descriptor_type::DEVICE => text.put("device"),
        descriptor_type::CONFIGURATION => text.put("configuration"),
        descriptor_type::STRING => text.put("string"),
        descriptor_type::DEVICE_QUALIFIER => text.put("qualifier"),
        descriptor_type::OTHER_SPEED_CONFIGURATION => text.put("other-speed configuration"),
        code => {
            text.put("type ")?;
            put_byte_code(text, code)
        }
    }
}

fn put_language(text: &mut Text, kind: u8, index: u8, language: u16) -> Result<(), AllocError>
    ensures { OnOk result (text.new ≡ text.old ++ language_words kind index language) }
{
    if kind == descriptor_type::STRING && index > 0 {
        text.put(" language ")?;
        put_word_code(text, language)
    } else {
        Ok(())
    }
}

/// Which transaction it is, counted from 1, and what the bus does to it.
#[derive(Clone, Copy, Debug)]
pub(crate) struct Turn {
    pub(crate) number: u64,
    pub(crate) fate: Fate,
}

/// A host before a step, as far as the step's lines show it.
#[derive(Clone, Copy)]
pub(crate) struct Before {
    pub(crate) step: Option<Step>,
    pub(crate) transfer: Option<Transfer>,
}

impl Before {
    /// This host now.
    pub(crate) fn of(host: &Host) -> Before
        ensures step { result.step ≡ step_in host.now.phase }
        ensures transfer { result.transfer ≡ transfer_in host.now.phase }
    {
        Before {
            step: host.step(),
            transfer: host.transfer(),
        }
    }

    /// What it sends then, if it sends anything.
    pub(crate) fn sent(&self) -> Option<Transaction<'static>>
        ensures { sent_by result ≡ option_and_then due self.now.transfer }
    {
        match self.transfer {
            Some(transfer) => transfer.next(),
            None => None,
        }
    }
}

/// Puts the line of a reset.
#[tactic(auto, unfolding(crate::specs::Lines::reset_line))]
pub(crate) fn put_reset(text: &mut Text, attempt: u64) -> Result<(), AllocError>
    ensures { OnOk result (text.new ≡ text.old ++ reset_line attempt) }
{
    put_heading(text, attempt)?;
    put_numbered(text, "attempt ", attempt)?;
    text.put(": bus reset\n")
}

/// Puts the headings of the columns above the first attempt.
fn put_heading(text: &mut Text, attempt: u64) -> Result<(), AllocError>
    ensures { OnOk result (text.new ≡ text.old ++ heading_part attempt) }
{
    if attempt == 1 {
        text.put("no.   f packets (lost) data             host                device\n")
    } else {
        Ok(())
    }
}

/// Puts the line of a transfer, before its first transaction.
fn put_transfer(
    alloc: Global,
    text: &mut Text,
    step: Step,
    transfer: &Transfer,
) -> Result<(), AllocError>
    ensures { OnOk result (text.new ≡ text.old ++ transfer_part step transfer.now) }
{
    if transfer.is_untried() {
        put_transfer_line(alloc, text, step, transfer)
    } else {
        Ok(())
    }
}

#[tactic(auto, unfolding(crate::specs::Lines::transfer_line))]
fn put_transfer_line(
    alloc: Global,
    text: &mut Text,
    step: Step,
    transfer: &Transfer,
) -> Result<(), AllocError>
    ensures { OnOk result (text.new ≡ text.old ++ transfer_line step transfer.now) }
{
    let step = step.to_string(alloc)?;
    let setup = transfer.request();
    text.put(&step)?;
    text.put(": ")?;
    put_request(text, &setup)?;
    put_address(text, transfer.next())?;
    text.put("\n")
}

fn put_address(text: &mut Text, sent: Option<Transaction<'static>>) -> Result<(), AllocError>
    ensures { OnOk result (text.new ≡ text.old ++ address_words (sent_by sent.entry)) }
{
    match sent {
        None => Ok(()),
        Some(transaction) => { put_numbered(text, ", to ", u64::from(transaction.address)) }
    }
}

/// Puts what is known of a transaction once the host has taken what came of this answer: the line of its transfer before the
/// first one, its packets, its data, and what the host has. The result is why the attempt is given up, if it is.
pub(crate) fn put_answered(
    alloc: Global,
    text: &mut Text,
    step: Step,
    transfer: Transfer,
    turn: Turn,
    answer: Answer<'_>,
    came: Answer<'_>,
    host: &Host,
) -> Result<Option<Why>, AllocError>
    ensures lines { OnOk result (text.new ≡ text.old ++ transfer_part step transfer ++ answered_part turn.number turn.fate transfer (reply_of answer.entry) (reply_of came.entry) host.now.phase) }
    ensures cause { IfOk result (λ why. why ≡ cause_of transfer (reply_of came.entry) host.now.phase) }
{
    put_transfer(alloc, text, step, &transfer)?;
    put_packets(text, turn, transfer.next(), answer, came)?;
    let mut after = transfer;
    let received = after.take(came);
    let trouble = trouble_of(host);
    put_host(text, &after, came, received, trouble)?;
    Ok(cause(received, host, trouble))
}

/// Puts the rest of the lines of a transaction: what the device has, this end of the line with the data below it, and for
/// which reason the attempt is given up, if it is.
pub(crate) fn put_done(
    alloc: Global,
    text: &mut Text,
    below: &Text,
    why: Option<Why>,
    host: &Host,
    device: &Device<'_>,
) -> Result<(), AllocError>
    ensures { OnOk result (text.new ≡ text.old ++ device_words device.now.description.file.device.packet device.now.device ++ below.now ++ given_up_part host.now.resets why) }
{
    put_device(text, device)?;
    text.put_bytes(below.as_bytes())?;
    match why {
        None => Ok(()),
        Some(why) => put_given_up(alloc, text, u64::from(host.attempts()), why),
    }
}

#[tactic(auto, unfolding(crate::specs::Lines::given_up_line))]
fn put_given_up(alloc: Global, text: &mut Text, attempt: u64, why: Why) -> Result<(), AllocError>
    ensures { OnOk result (text.new ≡ text.old ++ given_up_line attempt why) }
{
    let why = why.to_string(alloc)?;
    put_numbered(text, "attempt ", attempt)?;
    text.put(" given up: ")?;
    text.put(&why)?;
    text.put("\n")
}
