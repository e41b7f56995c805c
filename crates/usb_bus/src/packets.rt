//! The packets of a transaction.
ghost use Rattle.std.specs.Prelude.{◌≡◌, ◌++◌, OnOk, option_map};
ghost use Rattle.usb_fields.specs.Packets.{reply_of, token_of};
ghost use Rattle.usb_host.specs.Transfer.{sent_by};
ghost use Rattle.usb_text.specs.Lines.{column};
ghost use Rattle.usb_bus.specs.Lines.{ack_words, answer_words, data_words, fate_letter, marked, packets_part, packets_words, sent_words, token_words};

use crate::data::{data_of, put_data};
use crate::fate::Fate;
use crate::step_lines::Turn;
use itoa::Buffer;
use std::alloc::AllocError;
use usb_fields::{Answer, Stage, Toggle, Transaction};
use usb_text::Text;

/// Puts the number of a transaction, its fate, its packets and its data. The answer is the device's own, and this came of it.
#[tactic(auto, unfolding(crate::specs::Lines::packets_part))]
pub(crate) fn put_packets(
    text: &mut Text,
    turn: Turn,
    sent: Option<Transaction<'static>>,
    answer: Answer<'_>,
    came: Answer<'_>,
) -> Result<(), AllocError>
    ensures { OnOk result (text.new ≡ text.old ++ packets_part turn.number turn.fate (sent_by sent.entry) (reply_of answer.entry) (reply_of came.entry)) }
{
    let Turn { number, fate } = turn;
    text.put_column(Buffer::new().format(number), 6)?;
    text.put(fate_column(fate))?;
    put_names_column(text, fate, sent, answer, came)?;
    put_data_column(text, data_of(&sent, answer))
}

/// Puts the packets in their column: what the host sends, what the device answers, and the host's ACK.
fn put_names_column(
    text: &mut Text,
    fate: Fate,
    sent: Option<Transaction<'static>>,
    answer: Answer<'_>,
    came: Answer<'_>,
) -> Result<(), AllocError>
    ensures { OnOk result (text.new ≡ text.old ++ column 15 (packets_words fate (sent_by sent.entry) (reply_of answer.entry) (reply_of came.entry))) }
{
    let start = text.len();
    put_names(text, fate, sent, answer, came)?;
    text.fill(start, 15)
}

#[tactic(auto, unfolding(crate::specs::Lines::packets_words))]
fn put_names(
    text: &mut Text,
    fate: Fate,
    sent: Option<Transaction<'static>>,
    answer: Answer<'_>,
    came: Answer<'_>,
) -> Result<(), AllocError>
    ensures { OnOk result (text.new ≡ text.old ++ packets_words fate (sent_by sent.entry) (reply_of answer.entry) (reply_of came.entry)) }
{
    text.put(sent_words(sent, matches!(fate, Fate::LostDown)))?;
    text.put(answer_words(answer, matches!(fate, Fate::LostUp)))?;
    text.put(ack_words(came, matches!(fate, Fate::LostAck)))
}

/// Puts the data in their column.
pub(crate) fn put_data_column(text: &mut Text, packet: Option<&[u8]>) -> Result<(), AllocError>
    ensures { OnOk result (text.new ≡ text.old ++ column 17 (data_words (option_map (λ b. b.now) packet.entry))) }
{
    let start = text.len();
    put_data(text, packet)?;
    text.fill(start, 17)
}

/// The letter of a fate, as the option `--fates` has it.
fn fate_column(fate: Fate) -> &'static str
    ensures { result.now ≡ column 2 (fate_letter fate) }
{
    match fate {
        Fate::Pass => ". ",
        Fate::Busy => "n ",
        Fate::LostDown => "d ",
        Fate::LostUp => "u ",
        Fate::LostAck => "a ",
    }
}

fn sent_words(sent: Option<Transaction<'static>>, is_lost: bool) -> &'static str
    ensures { result.now ≡ sent_words (sent_by sent.entry) is_lost }
{
    match sent {
        None => "",
        Some(transaction) => token_words(transaction.stage, is_lost),
    }
}

fn token_words(stage: Stage<'_>, is_lost: bool) -> &'static str
    ensures { result.now ≡ marked (token_words (token_of stage.entry)) is_lost }
{
    match (stage, is_lost) {
        (Stage::Setup(_), false) => "SETUP",
        (Stage::Setup(_), true) => "(SETUP)",
        (Stage::In, false) => "IN",
        (Stage::In, true) => "(IN)",
        (Stage::Out(_, _), false) => "OUT",
        (Stage::Out(_, _), true) => "(OUT)",
    }
}

fn answer_words(answer: Answer<'_>, is_lost: bool) -> &'static str
    ensures { result.now ≡ answer_words (reply_of answer.entry) is_lost }
{
    match (answer, is_lost) {
        (Answer::Ack, false) => " ACK",
        (Answer::Ack, true) => " (ACK)",
        (Answer::Nak, false) => " NAK",
        (Answer::Nak, true) => " (NAK)",
        (Answer::Stall, false) => " STALL",
        (Answer::Stall, true) => " (STALL)",
        (Answer::Data(Toggle::Data0, _), false) => " DATA0",
        (Answer::Data(Toggle::Data0, _), true) => " (DATA0)",
        (Answer::Data(Toggle::Data1, _), false) => " DATA1",
        (Answer::Data(Toggle::Data1, _), true) => " (DATA1)",
        (Answer::Silence, _) => "",
    }
}

/// The host's ACK, where this has reached it.
fn ack_words(came: Answer<'_>, is_lost: bool) -> &'static str
    ensures { result.now ≡ ack_words (reply_of came.entry) is_lost }
{
    match (came, is_lost) {
        (Answer::Data(_, _), false) => " ACK",
        (Answer::Data(_, _), true) => " (ACK)",
        _ => "",
    }
}
