//! The names of usb_host.
use anyhow::Result as Outcome;
use usb_fields::{Answer, Direction, Setup, Speed, Stage, Toggle, Transaction};
use usb_file::DescriptorFile;
use usb_host::{Action, Heard, Host, LimitFault, Limits, Step, Transfer, Trouble, Why, Write};

fn limit_fault_number(fault: LimitFault) -> u8 {
    match fault {
        LimitFault::Address => 1,
        LimitFault::Attempts => 2,
    }
}

fn why_number(why: Why) -> u8 {
    match why {
        Why::NoAnswer => 1,
        Why::Busy => 2,
        Why::Stalled => 3,
        Why::TooLong => 4,
        Why::Unexpected => 5,
        Why::Malformed => 6,
        Why::Memory => 7,
    }
}

fn step_number(step: Step) -> (u8, u8) {
    match step {
        Step::First => (1, 0),
        Step::Address => (2, 0),
        Step::Device => (3, 0),
        Step::Header(index) => (4, index),
        Step::Set(index) => (5, index),
        Step::Qualifier => (6, 0),
        Step::OtherHeader(index) => (7, index),
        Step::OtherSet(index) => (8, index),
        Step::Languages => (9, 0),
        Step::Text { language, index } => {
            let language: u16 = language;
            (language.to_be_bytes()[0], index)
        }
        Step::Configure => (11, 0),
    }
}

fn received_number(received: Heard<'_>) -> (u8, usize) {
    match received {
        Heard::Again => (1, 0),
        Heard::Bytes(bytes) => {
            let bytes: &[u8] = bytes;
            (2, bytes.len())
        }
        Heard::Complete => (3, 0),
        Heard::Failed(why) => (why_number(why), 0),
    }
}

/// The next transaction.
fn due(action: Action) -> Option<Transaction<'static>> {
    match action {
        Action::Reset => None,
        Action::Send(transaction) => Some(transaction),
        Action::Ended => None,
    }
}

#[test]
fn limits(rt: HostRuntime) {
    let limits: Result<Limits, LimitFault> = Limits::new(127u8, 65535u16, 8u8);
    assert!(rt; limits.is_ok());
    assert_eq!(rt;
        Limits::new(0, 16, 0).err().map(limit_fault_number),
        Some(1)
    );
    assert_eq!(rt;
        Limits::new(1, 16, 9).err().map(limit_fault_number),
        Some(2)
    );
}

#[test]
fn a_transfer(rt: HostRuntime) {
    let setup = Setup::from_bytes(&[0x80, 6, 0, 1, 0, 0, 8, 0]);
    let mut transfer: Transfer = Transfer::new(5u8, 8u8, 16u16, setup);
    let next: Option<Transaction<'static>> = transfer.next();
    let first = Transaction {
        address: 5,
        stage: Stage::Setup([0x80, 6, 0, 1, 0, 0, 8, 0]),
    };
    assert_eq!(rt; next, Some(first));
    let received: Heard<'_> = transfer.take(Answer::Ack);
    assert_eq!(rt; received_number(received), (1, 0));
    let packet = [18, 1, 0, 2, 0, 0, 0, 8];
    let received = transfer.take(Answer::Data(Toggle::Data1, &packet));
    assert_eq!(rt; received_number(received), (2, 8));
    assert_eq!(rt; received_number(transfer.take(Answer::Stall)), (3, 0));
    assert_eq!(rt; transfer.next(), None);
}

#[test]
fn a_write(rt: HostRuntime) {
    let setup = Setup::from_bytes(&[0x21, 9, 0, 2, 0, 0, 1, 0]);
    if setup.length == 0 || setup.direction() == Direction::In {
        return;
    }
    let mut write: Write = Write::new(5u8, 8u8, 16u16, setup);
    let data: [u8; 1] = [1];
    let received: Heard<'_> = write.take(Answer::Ack);
    assert_eq!(rt; received_number(received), (1, 0));
    let packet = Transaction {
        address: 5,
        stage: Stage::Out(Toggle::Data1, &data),
    };
    if data.len() == usize::from(write.request().length) {
        let next: Option<Transaction<'_>> = write.next(&data);
        assert_eq!(rt; next, Some(packet));
    }
    write.take(Answer::Ack);
    let acknowledged: u16 = write.acknowledged();
    assert_eq!(rt; acknowledged, 1);
    assert_eq!(rt;
        (write.strikes(), write.nak_count(), write.is_untried()),
        (0, 0, false)
    );
    let received = write.take(Answer::Data(Toggle::Data1, &[]));
    assert_eq!(rt; received_number(received), (3, 0));
}

/// A device that answers nothing.
#[test]
fn a_host(rt: HostRuntime) -> Outcome<()> {
    let limits = Limits::new(1, 16, 1)?;
    let mut host: Host = Host::new(rt.alloc(), limits, Speed::Full);
    assert_eq!(rt; host.next(), Action::Reset);
    host.reset_done();
    let attempts: u8 = host.attempts();
    assert_eq!(rt; attempts, 1);
    assert!(rt; due(host.next()).is_some());
    for _strike in 0..3 {
        host.take(Answer::Silence);
    }
    assert_eq!(rt; host.next(), Action::Ended);
    let trouble = Trouble {
        step: Step::First,
        why: Why::NoAnswer,
    };
    let outcome: Option<Result<&DescriptorFile, Trouble>> = host.outcome();
    assert!(rt; outcome == Some(Err(trouble)));
    let outcome: Option<Result<DescriptorFile, Trouble>> = host.into_outcome();
    assert!(rt; outcome == Some(Err(trouble)));
    assert_eq!(rt; step_number(trouble.step), (1, 0));
    Ok(())
}
