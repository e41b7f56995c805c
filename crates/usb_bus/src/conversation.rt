//! A talk between a host and a device: requests one after another.
ghost use Rattle.std.specs.Prelude.{◌≡◌, ◌↔◌, ◌<◌, ◌≤◌, ◌++◌, ◌∷◌, [], List, IfOk, IfSome, None, OnOk, length, map};
ghost use Rattle.usb_bus.specs.Bus.{losses, busies, acks_lost};
ghost use Rattle.usb_bus.specs.Converse.{asked_of, followed, IsTalkRun, IsWholeTalk, HasFirstReplies, HasLastState, without_data};
ghost use Rattle.usb_bus.specs.Run.{fates_used};
ghost use Rattle.usb_bus.specs.Attempt.{IsCause};
ghost use Rattle.usb_bus.specs.inside.Running.{settled};

use crate::asked::Asked;
use crate::exchange::{Ended, transfer_over};
use crate::fate::Fate;
use crate::sender::Sender;
use std::alloc::Global;
use std::marker::Model;
use usb_device::{Description, Device, State, is_set_address};
use usb_fields::{Sequence, Setup};
use usb_file_data::NoMemory;
use usb_host::{Reply, Why};

/// What came of a talk.
#[derive(Clone, Debug, Drop, PartialEq, Eq, Hash)]
pub struct Talk {
    /// What each transfer that completed brought, in the order of the requests.
    pub replies: Sequence<Reply>,
    /// Why a transfer failed. The talk stopped there, with no reply for it.
    pub stopped: Option<Why>,
    /// How many transactions there were.
    pub transactions: u128,
    /// The state that the device is in then.
    pub state: State,
}

/// What a transfer brings to the talk, or why the talk stops.
fn settle(request: Setup, sent: &[u8], ended: Ended) -> Result<Reply, Why>
    ensures { result ≡ settled request.length (length sent.now) ended.bytes.items ended.failure }
{
    match ended.failure {
        None => {
            if usize::from(request.length) == sent.len() {
                Ok(Reply::Done)
            } else {
                Ok(Reply::Bytes(Sequence::from_vec(ended.bytes)))
            }
        }
        Some(Why::Stalled) => Ok(Reply::Refused),
        Some(why) => Err(why),
    }
}

/// The address that the next request goes to: a SET_ADDRESS that was done is followed.
fn follow(request: Setup, reply: &Reply, address: u8) -> u8
    ensures { result ≡ followed request reply.now address }
{
    match reply {
        Reply::Done => {
            if is_set_address(request) && request.length == 0 {
                (request.value % 128) as u8
            } else {
                address
            }
        }
        Reply::Bytes(_) | Reply::Refused => address,
    }
}

/// A talk that goes on: requests that are made of one device, one after another.
///
/// [`converse`] is such a talk from its first request to its last. Here a caller sees what came of each request before it
/// makes the next.
///
/// ```rust
/// let mut conversation = Conversation::new(alloc, &description, 16);
/// // SET_ADDRESS 5, and then GET_DESCRIPTOR of the device, which goes to address 5.
/// conversation.request(alloc, Setup::from_bytes(&[0, 5, 5, 0, 0, 0, 0, 0]), &[])?;
/// assert_eq!(rt; conversation.talk().state.address, 5);
/// conversation.request(alloc, Setup::from_bytes(&[0x80, 6, 0, 1, 0, 0, 18, 0]), &[])?;
/// assert_eq!(rt; conversation.talk().transactions, 5);
/// ```
#[derive(Drop)]
pub struct Conversation<'d> {
    device: Device<'d>,
    packet: u8,
    naks: u16,
    address: u8,
    talk: Talk,
}

impl<'d> Model for Conversation<'d> {
    ghost use Rattle.usb_bus.specs.Converse.{TalkView};

    ghost Value = { TalkView };

    ghost use Rattle.usb_bus.specs.inside.Running.{view_of, IsConversation};

    ghost view = { view_of };

    ghost invariant = { IsConversation };
}

impl<'d> Conversation<'d> {
    ghost use Rattle.usb_bus.specs.Converse.{AskedView, IsTalk, asked_of, without_data};

    /// Before the first request, with a new device at address 0. A transfer retries `naks` NAKs without progress.
    pub fn new(alloc: Global, d: &'d Description, naks: u16) -> Conversation<'d>
        ensures begins { (fates : List Fate) → IsTalk [] fates result }
        ensures file { result.file ≡ d.now.file }
        ensures naks { result.naks ≡ naks }
    {
        let device = Device::new(d);
        let state = device.state();
        Conversation {
            device,
            packet: d.file().device.packet,
            naks,
            address: 0,
            talk: Talk {
                replies: Sequence::new(alloc),
                stopped: None,
                transactions: 0,
                state,
            },
        }
    }

    /// Makes one more request: where the requests so far had this talk, these and the new one have the talk after it. One
    /// that has stopped stays as it is. The k-th transaction of all requests has the k-th of these fates.
    ///
    /// # Errors
    ///
    /// Only when out of memory. Nothing is promised of the talk then.
    pub fn request(&mut self, alloc: Global, request: Setup, fates: &[Fate]) -> Result<(), NoMemory>
        ensures goes_on { OnOk result ((requests : List AskedView) → IsTalk requests fates.now self.old → IsTalk (requests ++ without_data request ∷ []) fates.now self.new) }
        ensures file { self.new.file ≡ self.old.file }
        ensures naks { self.new.naks ≡ self.old.naks }
    {
        self.ask(alloc, Asked::from(request), fates)
    }

    /// The same of a request with data to the device.
    ///
    /// ```rust
    /// // SET_REPORT: the device of a description has no owner who takes its data, and rejects it.
    /// let setup = Setup::from_bytes(&[0x21, 9, 0, 2, 0, 0, 1, 0]);
    /// conversation.ask(alloc, Asked { setup, data: &[1] }, &[])?;
    /// assert_eq!(rt; conversation.talk().replies[0], Reply::Refused);
    /// ```
    ///
    /// # Errors
    ///
    /// Only when out of memory. Nothing is promised of the talk then.
    pub fn ask(&mut self, alloc: Global, asked: Asked<'_>, fates: &[Fate]) -> Result<(), NoMemory>
        ensures goes_on { OnOk result ((requests : List AskedView) → IsTalk requests fates.now self.old → IsTalk (requests ++ asked_of asked.entry ∷ []) fates.now self.new) }
        ensures file { self.new.file ≡ self.old.file }
        ensures naks { self.new.naks ≡ self.old.naks }
    {
        if self.talk.stopped.is_some() {
            return Ok(());
        }
        // For the proof alone: there are fewer than 2^64 replies.
        let _replies = self.talk.replies.len();
        let before = self.talk.transactions;
        let request = asked.setup;
        let sent = asked.data_sent();
        let mut sender = Sender::new(self.address, self.packet, self.naks, request, sent);
        let ended = transfer_over(alloc, &mut self.device, &mut sender, sent, before, fates)?;
        let transactions = ended.transactions;
        match settle(request, sent, ended) {
            Ok(reply) => {
                let address = follow(request, &reply, self.address);
                self.talk.replies.push(reply)?;
                self.address = address;
            }
            Err(why) => self.talk.stopped = Some(why),
        }
        self.talk.transactions = transactions;
        self.talk.state = self.device.state();
        Ok(())
    }

    /// What came of the requests so far.
    pub fn talk(&self) -> &Talk
        ensures { result.now ≡ self.now.talk }
    {
        &self.talk
    }

    /// What came of all requests.
    pub fn into_talk(self) -> Talk
        ensures { result ≡ self.entry.talk }
    {
        let Conversation { talk, .. } = self;
        talk
    }
}

/// Makes these requests, one after another, of a device with this description, over a bus with these fates.
///
/// The device is a new one at address 0. The host sends packets of its size, retries `naks` NAKs without progress, and
/// follows a SET_ADDRESS that was done. The talk stops at the first transfer that fails; a STALL completes a transfer
/// with [`Reply::Refused`]. The k-th transaction has the k-th fate, and after the list's end all pass.
///
/// ```rust
/// // GET_DESCRIPTOR of the device, in packets of 64 bytes: the ACK of the first SETUP is lost.
/// let setup = Setup::from_bytes(&[0x80, 6, 0, 1, 0, 0, 18, 0]);
/// let talk = converse(alloc, &description, 16, &[setup], &[Fate::LostUp])?;
/// assert_eq!(rt; talk.stopped, None);
/// assert_eq!(rt; talk.transactions, 4);
/// ```
///
/// # Errors
///
/// Only when out of memory.
pub fn converse(
    alloc: Global,
    d: &Description,
    naks: u16,
    requests: &[Setup],
    fates: &[Fate],
) -> Result<Talk, NoMemory>
    ensures run { IfOk result (IsTalkRun d.now.file naks (map without_data requests.now) fates.now) }

    // The replies are those of the device's table, up to where the talk stopped, and so is the state.
    ensures replies { IfOk result (HasFirstReplies d.now.file (map without_data requests.now)) }
    ensures all { IfOk result (λ talk. (talk.stopped ≡ None) ↔ (length talk.replies ≡ length requests.now)) }
    ensures state { IfOk result (λ talk. talk.stopped ≡ None → HasLastState d.now.file (map without_data requests.now) fates.now talk) }

    // It stops for a cause, and not without one.
    ensures cause { IfOk result (λ talk. IfSome talk.stopped (IsCause naks (fates_used fates.now talk.transactions))) }
    ensures goes_on { IfOk result (λ talk. losses fates.now < 3 → acks_lost fates.now ≡ 0 → busies fates.now ≤ naks → talk.stopped ≡ None) }
{
    // For the proof alone: what holds of a description.
    let _file = d.file();
    let mut conversation = Conversation::new(alloc, d, naks);
    for request in requests {
        conversation.request(alloc, *request, fates)?;
    }
    Ok(conversation.into_talk())
}

/// The same of requests with data to the device.
///
/// ```rust
/// // SET_LINE_CODING: the device of a description has no owner who takes its data, and rejects it.
/// let setup = Setup::from_bytes(&[0x21, 0x20, 0, 0, 0, 0, 7, 0]);
/// let data = &[0x80, 0x25, 0, 0, 0, 0, 8];
/// let talk = converse_asked(alloc, &description, 16, &[Asked { setup, data }], &[])?;
/// assert_eq!(rt; talk.replies[0], Reply::Refused);
/// ```
///
/// # Errors
///
/// Only when out of memory.
pub fn converse_asked(
    alloc: Global,
    d: &Description,
    naks: u16,
    requests: &[Asked<'_>],
    fates: &[Fate],
) -> Result<Talk, NoMemory>
    ensures { IfOk result (IsWholeTalk d.now.file naks (map asked_of requests.now) fates.now) }
{
    // For the proof alone: what holds of a description.
    let _file = d.file();
    let mut conversation = Conversation::new(alloc, d, naks);
    for request in requests {
        conversation.ask(alloc, *request, fates)?;
    }
    Ok(conversation.into_talk())
}
