//! What is allowed of a device under test in one transaction.
ghost use Rattle.std.specs.Prelude.{◌≡◌, ◌↔◌, IsTrue, MatchOption, None, true};
ghost use Rattle.usb_fields.specs.Packets.{reply_of, token_of};
ghost use Rattle.usb_device.specs.Conformance.{difference_of, differs_from_data, differs_from_handshake, is_device_status, is_in_transfer, is_ready, begins, IsJudged, IsSame, IsSameStatus, open_difference};
ghost use Rattle.usb_device.specs.OpenTransfers.{after_answer, may_answer};

use crate::open_transfer::OpenTransfer;
use usb_fields::laws::equal_answers_say_the_same;
use usb_fields::{Answer, Setup, Stage, Toggle};

/// Why a device under test may not answer so: another answer is expected (USB 2.0, chapters 8 and 9).
///
/// ```rust
/// // DATA0 where DATA1 is expected.
/// let came = Answer::Data(Toggle::Data0, &[]);
/// let has = Answer::Data(Toggle::Data1, &[]);
/// let mut transfer = OpenTransfer::new();
/// let judged = judge(&mut transfer, false, setup, 64, Stage::In, came, has);
/// assert_eq!(rt; judged, Some(Difference::Toggle));
/// ```
#[derive(Clone, Copy, Debug, PartialEq, Eq, Hash)]
pub enum Difference {
    /// No ACK of a SETUP, which every device takes (8.4.6.4).
    Setup,
    /// An answer at an address that is not its own, or none at its own. A new address holds once the status stage is over
    /// (9.4.6).
    Address,
    /// The other toggle: DATA1 is first, and each packet that the host acknowledged flips it (8.5.3 and 8.6).
    Toggle,
    /// Another packet, or an ACK, in place of an empty one. That ends an answer that is shorter than wLength and a whole multiple
    /// of the packet size (8.5.3.2), and it is the status stage of a request without data (8.5.3.1).
    Empty,
    /// Other bytes (8.5.3.2 and 9.4), or more or fewer than may come (8.5.3 and 8.6.4).
    Bytes,
    /// STALL of a request that the device has (9.4), or that it has carried out, in the data stage or in the status stage.
    Stall,
    /// No STALL of a request that the device doesn't have, or before the next SETUP after one (9.2.7 and 8.5.3.4).
    Refusal,
    /// A packet that is none for this transaction: data for OUT, or an ACK for IN (8.4.6.1 and 8.4.6.3).
    Kind,
}

impl Difference {
    ghost use Rattle.usb_device.specs.Conformance.{difference_number};

    /// Its number, 1 to 8.
    pub fn number(self) -> u8
        ensures { result ≡ difference_number self }
    {
        self as u8 + 1
    }
}

/// Whether the device that answers so was ready: the argument of [`Device::serve`](crate::Device::serve) for the device that it
/// is compared with.
pub fn is_ready(came: Answer<'_>) -> bool
    ensures { result ≡ is_ready (reply_of came.entry) }
{
    !matches!(came, Answer::Nak)
}

/// Judges one transaction of a device under test, in the transfer of this request, with packets of this many bytes. `came` is its
/// answer; `has` is that of a [`Device`](crate::Device) of the same descriptors, which had the same transactions, to this one where
/// [`is_ready`] says whether it is ready. `free` is whether the outcome of the transfer is open to a device:
/// [`EndpointZero::is_free`](crate::EndpointZero::is_free).
///
/// `None` is an allowed answer: the same; where the outcome is open, one that keeps chapter 8 after what is known of the transfer;
/// and the status of a device with another bit 0, self-powered (USB 2.0, 9.4.5). The transfer then goes on by it.
pub fn judge(
    transfer: &mut OpenTransfer,
    free: bool,
    request: Setup,
    packet: usize,
    stage: Stage<'_>,
    came: Answer<'_>,
    has: Answer<'_>,
) -> Option<Difference>
    ensures { IsJudged free request packet transfer.old (token_of stage.entry) (reply_of came.entry) (reply_of has.entry) transfer.new result }
{
    if free && is_in_transfer(stage, has) {
        return judge_open(transfer, request, packet, stage, came);
    }
    if !is_same(request, stage, came, has) {
        return Some(difference_of(stage, came, has));
    }
    if begins(stage, has) {
        *transfer = OpenTransfer::new();
    }
    None
}

/// Where the outcome is open.
fn judge_open(
    transfer: &mut OpenTransfer,
    request: Setup,
    packet: usize,
    stage: Stage<'_>,
    came: Answer<'_>,
) -> Option<Difference>
    ensures allowed { (result ≡ None) ↔ (may_answer request packet transfer.old (token_of stage.entry) (reply_of came.entry) ≡ true) }
    ensures judged { MatchOption result (transfer.new ≡ after_answer request packet transfer.old (token_of stage.entry) (reply_of came.entry)) (λ why. (why ≡ open_difference request transfer.old (token_of stage.entry) (reply_of came.entry)) × (transfer.new ≡ transfer.old)) }
{
    if !transfer.may_answer(request, packet, stage, came) {
        return Some(transfer.difference(request, stage, came));
    }
    transfer.answered(request, packet, stage, came);
    None
}

fn is_same(request: Setup, stage: Stage<'_>, came: Answer<'_>, has: Answer<'_>) -> bool
    ensures { IsTrue result ↔ IsSame request (token_of stage.entry) (reply_of came.entry) (reply_of has.entry) }
{
    equal_answers_say_the_same(&came, &has)
        || (is_in_transfer(stage, has) && is_device_status(request) && is_same_status(came, has))
}

/// Whether a transfer begins: the device takes a SETUP.
fn begins(stage: Stage<'_>, has: Answer<'_>) -> bool
    ensures { result ≡ begins (token_of stage.entry) (reply_of has.entry) }
{
    match (stage, has) {
        (Stage::Setup(_), Answer::Silence) => false,
        (Stage::Setup(_), _) => true,
        _ => false,
    }
}

fn is_in_transfer(stage: Stage<'_>, has: Answer<'_>) -> bool
    ensures { result ≡ is_in_transfer (token_of stage.entry) (reply_of has.entry) }
{
    match (stage, has) {
        (Stage::Setup(_), _) | (_, Answer::Silence) => false,
        _ => true,
    }
}

fn is_device_status(q: Setup) -> bool
    ensures { result ≡ is_device_status q }
{
    q.request_type % 128 == 0 && q.request == 0
}

fn is_same_status(came: Answer<'_>, has: Answer<'_>) -> bool
    ensures { IsTrue result ↔ IsSameStatus (reply_of came.entry) (reply_of has.entry) }
{
    match (came, has) {
        (Answer::Data(t, [a, b]), Answer::Data(u, [c, d])) => t == u && a / 2 == c / 2 && b == d,
        _ => false,
    }
}

fn difference_of(stage: Stage<'_>, came: Answer<'_>, has: Answer<'_>) -> Difference
    ensures { result ≡ difference_of (token_of stage.entry) (reply_of came.entry) (reply_of has.entry) }
{
    match (stage, came, has) {
        (_, _, Answer::Silence) => Difference::Address,
        (Stage::Setup(_), _, _) => Difference::Setup,
        (_, _, Answer::Data(toggle, bytes)) => differs_from_data(came, toggle, bytes),
        (_, Answer::Silence, Answer::Stall) => Difference::Address,
        (_, _, Answer::Stall) => Difference::Refusal,
        _ => differs_from_handshake(came),
    }
}

fn differs_from_data(came: Answer<'_>, toggle: Toggle, bytes: &[u8]) -> Difference
    ensures { result ≡ differs_from_data (reply_of came.entry) toggle bytes.now }
{
    match (came, bytes) {
        (Answer::Silence, _) => Difference::Address,
        (Answer::Stall, _) => Difference::Stall,
        (Answer::Data(_, []), []) => Difference::Toggle,
        (_, []) => Difference::Empty,
        (Answer::Data(t, _), _) => {
            if t == toggle {
                Difference::Bytes
            } else {
                Difference::Toggle
            }
        }
        _ => Difference::Kind,
    }
}

fn differs_from_handshake(came: Answer<'_>) -> Difference
    ensures { result ≡ differs_from_handshake (reply_of came.entry) }
{
    match came {
        Answer::Silence => Difference::Address,
        Answer::Stall => Difference::Stall,
        _ => Difference::Kind,
    }
}
