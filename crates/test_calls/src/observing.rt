//! An observer of an enumeration: it sees each transaction once, and nothing else.
ghost use Rattle.std.specs.Prelude.{◌<◌, ◌+◌, ◌^◌};
ghost use Rattle.usb_host.specs.Cost.{left_to_ask};

use crate::programs::MOUSE;
use anyhow::Result;
use nozzlegorse::bus::{Answer, Fate, Observer, enumerate, step_seen};
use nozzlegorse::descriptors::Speed;
use nozzlegorse::device::{Description, Device};
use nozzlegorse::files::read_file;
use nozzlegorse::host::{Action, Host, Limits};
use std::alloc::Global;

/// Counts what it sees.
#[derive(Clone, Copy, Debug, PartialEq, Eq)]
struct Counter {
    transactions: u64,
    /// Those that the device has not answered.
    silent: u64,
    /// The attempts that were begun when it saw the last one.
    attempts: u8,
}

impl Observer for Counter {
    ghost sees = { λ _ _ _ _ _. Unit {0} };

    fn answered(&mut self, answer: Answer<'_>, _came: Answer<'_>, host: &Host) {
        self.transactions = self.transactions.saturating_add(1);
        if matches!(answer, Answer::Silence) {
            self.silent = self.silent.saturating_add(1);
        }
        self.attempts = host.attempts();
    }
}

/// Both ends of an enumeration, how many transactions there were, and who sees them.
#[derive(Drop)]
struct Bench<'d> {
    host: Host,
    device: Device<'d>,
    transactions: u64,
    counter: Counter,
    ghost few: { transactions + left_to_ask host < 2 ^ 64 },
}

impl<'d> Bench<'d> {
    /// Before the first step.
    fn new(alloc: Global, description: &'d Description, limits: Limits) -> Bench<'d> {
        Bench {
            host: Host::new(alloc, limits, description.speed()),
            device: Device::new(description),
            transactions: 0,
            counter: Counter {
                transactions: 0,
                silent: 0,
                attempts: 0,
            },
        }
    }

    /// The next step, if there is one.
    fn step(self, fates: &[Fate]) -> Bench<'d> {
        let Bench {
            mut host,
            mut device,
            transactions,
            mut counter,
        } = self;
        let transactions = match step_seen(
            &mut host,
            &mut device,
            fates,
            transactions,
            &mut counter,
        ) {
            Some(now) => now,
            None => transactions,
        };
        Bench {
            host,
            device,
            transactions,
            counter,
        }
    }
}

/// The ACK of SET_ADDRESS is lost: the device receives nothing of the next three transactions, and there is a second attempt.
#[test]
fn an_observer_counts_transactions(rt: HostRuntime) -> Result<()> {
    let file = read_file(rt.alloc(), &MOUSE)?;
    let description = Description::new(rt.alloc(), file, Speed::Full)?;
    let limits = Limits::new(1, 16, 3)?;
    let fates = [
        Fate::Pass,
        Fate::Pass,
        Fate::Pass,
        Fate::Pass,
        Fate::LostAck,
    ];
    let run = enumerate(rt.alloc(), &description, limits, &fates);
    let mut bench = Bench::new(rt.alloc(), &description, limits);
    for _step in 0..60 {
        let before = bench.counter;
        let comes_next = matches!(bench.host.next(), Action::Send(_));
        bench = bench.step(&fates);
        assert_eq!(rt; bench.counter.transactions, bench.transactions);
        assert!(rt; comes_next || bench.counter == before);
    }
    assert_eq!(rt; bench.host.next(), Action::Ended);
    let counter = Counter {
        transactions: 48,
        silent: 3,
        attempts: 2,
    };
    assert_eq!(rt; bench.counter, counter);
    assert_eq!(rt; (run.transactions, run.attempts), (48, 2));
    Ok(())
}
