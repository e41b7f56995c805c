//! Requests over a bus.
use crate::answer::{Answer, right};
use crate::device::{ADDRESS, REQUESTS, TRANSACTIONS, WANTED};
use std::alloc::Global;
use usb_bus::{Fate, Talk, converse};
use usb_device::Description;
use usb_fields::Setup;

/// How many NAKs the host retries.
const NAKS: u16 = 16;

/// The fates of a bus that is busy once, and then loses two packets: each costs a transaction.
pub(crate) const LOSSES: [Fate; 5] = [
    Fate::Pass,
    Fate::Busy,
    Fate::LostDown,
    Fate::Pass,
    Fate::LostUp,
];

/// Makes the requests under these fates, in this many transactions more than they take without.
pub(crate) fn talk(alloc: Global, description: &Description, fates: &[Fate], more: u32) -> Answer {
    let requests = REQUESTS.map(|bytes| Setup::from_bytes(&bytes));
    match converse(alloc, description, NAKS, &requests, fates) {
        Ok(talk) => right(is_right(&talk, TRANSACTIONS.saturating_add(more))),
        Err(_) => Answer::Memory,
    }
}

/// Whether each reply is the one that is wanted, after this many transactions.
fn is_right(talk: &Talk, transactions: u32) -> bool {
    let mut holds = talk.replies.len() == WANTED.len();
    for (reply, wanted) in talk.replies.as_slice().iter().zip(&WANTED) {
        holds = holds && wanted.is(reply);
    }
    holds
        && talk.stopped.is_none()
        && talk.transactions == u128::from(transactions)
        && talk.state.address == ADDRESS
}
