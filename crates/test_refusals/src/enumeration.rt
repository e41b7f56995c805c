//! A host that enumerates a device, by hand and over a bus.
use crate::answer::{Answer, refused, right};
use std::alloc::Global;
use usb_bus::{Fate, Run, enumerate};
use usb_device::{Description, Device};
use usb_fields::Answer as Reply;
use usb_host::{Action, Host, Limits, Step, Trouble, Why};

/// More steps than an enumeration of these takes.
const STEPS: u32 = 1000;

/// How an enumeration ends where memory is there.
#[derive(Clone, Copy)]
pub(crate) struct End {
    attempts: u8,
    transactions: u64,
    /// The transaction, counted from 0, whose last handshake is lost.
    lost: Option<u64>,
}

/// How the mouse is enumerated.
pub(crate) const ONCE: End = End {
    attempts: 1,
    transactions: 16,
    lost: None,
};

/// How it is where the handshake that ends SET_ADDRESS is lost.
pub(crate) const TWICE: End = End {
    attempts: 2,
    transactions: 24,
    lost: Some(4),
};

/// How the one with a second speed and a string is enumerated at high speed.
pub(crate) const EVERYTHING_ONCE: End = End {
    attempts: 1,
    transactions: 31,
    lost: None,
};

/// The limits of the host.
pub(crate) fn limits() -> Option<Limits> {
    Limits::new(1, 16, 3).ok()
}

/// Has a host enumerate a device by hand. Where memory is wanting, it says so at the current step, keeps its
/// attempts, and has ended.
pub(crate) fn drive(alloc: Global, description: &Description) -> Answer {
    let Some(limits) = limits() else {
        return Answer::Wrong;
    };
    let mut host = Host::new(alloc, limits, description.speed());
    let mut device = Device::new(description);
    for _ in 0..STEPS {
        let (step, attempts) = (host.step(), host.attempts());
        if !go_on(&mut host, &mut device, false) {
            return right(match host.outcome() {
                Some(Ok(file)) => *file == *description.file(),
                _ => false,
            });
        }
        if let Some(Err(trouble)) = host.outcome() {
            let there = step == Some(trouble.step) && attempts == host.attempts();
            return refused(there && trouble.why == Why::Memory && has_ended(&mut host, trouble));
        }
    }
    Answer::Wrong
}

/// One step of both ends, with the handshake of the host lost or not. Whether there was one.
fn go_on(host: &mut Host, device: &mut Device<'_>, is_lost: bool) -> bool {
    match host.next() {
        Action::Reset => {
            device.reset();
            host.reset_done();
        }
        Action::Send(transaction) => {
            let answer = device.serve(&transaction, true);
            let is_data = matches!(answer, Reply::Data(_, _));
            host.take(answer);
            if is_data && !is_lost {
                device.acked();
            }
        }
        Action::Ended => return false,
    }
    true
}

/// Whether the host stays as it ended, whatever it is given.
fn has_ended(host: &mut Host, trouble: Trouble) -> bool {
    let attempts = host.attempts();
    host.take(Reply::Ack);
    host.reset_done();
    let is_over = matches!(host.next(), Action::Ended) && host.attempts() == attempts;
    match host.outcome() {
        Some(Err(kept)) => is_over && kept == trouble,
        _ => false,
    }
}

/// Enumerates over a bus. Where memory is wanting, the trouble has the attempts and the transactions so far.
pub(crate) fn enumerate_under(alloc: Global, description: &Description, end: End) -> Answer {
    let Some(limits) = limits() else {
        return Answer::Wrong;
    };
    let mut fates = [Fate::Pass; 8];
    for (place, fate) in fates.iter_mut().enumerate() {
        if end.lost == Some(place as u64) {
            *fate = Fate::LostAck;
        }
    }
    let run = enumerate(alloc, description, limits, &fates);
    match &run.outcome {
        Ok(file) => {
            let counts = (run.attempts, run.transactions);
            right(*file == *description.file() && counts == (end.attempts, end.transactions))
        }
        Err(trouble) => {
            let step = step_of_last(alloc, description, limits, end.lost, &run);
            refused(trouble.why == Why::Memory && step == Some(trouble.step))
        }
    }
}

/// The step in which the last transaction of a run falls, where its attempts are as many then: in the same enumeration,
/// driven by hand where memory is there.
fn step_of_last(
    alloc: Global,
    description: &Description,
    limits: Limits,
    lost: Option<u64>,
    run: &Run,
) -> Option<Step> {
    let mut host = Host::new(alloc, limits, description.speed());
    let mut device = Device::new(description);
    let mut transactions = 0u64;
    for _ in 0..STEPS {
        if matches!(host.next(), Action::Send(_)) {
            if transactions.saturating_add(1) == run.transactions
                && host.attempts() == run.attempts
            {
                return host.step();
            }
            go_on(&mut host, &mut device, lost == Some(transactions));
            transactions = transactions.saturating_add(1);
        } else {
            go_on(&mut host, &mut device, false);
        }
    }
    None
}
