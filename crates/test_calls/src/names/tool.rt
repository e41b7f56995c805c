//! The names of usb_tool.
use crate::names::files::file;
use anyhow::Result as Outcome;
use clap::Error;
use std::alloc::{AllocError, Global};
use usb_capture::FileLack;
use usb_device::{Description, State};
use usb_fields::{Sequence, Setup, Speed};
use usb_file::{DescriptorFile, FileFault, ListFault, NoMemory, list, write_file};
use usb_host::{Limits, Trouble, Why};
use usb_set::SetFault;
use usb_tool::{
    CaptureCommand, Capturing, DeviceAddress, Fate, FatesFault, Line, Options, Reply, Run,
    Selection, SettingsFault, Talk, ToolFault, capture_command, converse, enumerate, laws,
    read_fates, read_line, read_speed, run_build, run_capture, run_check, run_enumerate, run_show,
    verdict,
};

fn fate_letter(fate: Fate) -> char {
    match fate {
        Fate::Pass => '.',
        Fate::Busy => 'n',
        Fate::LostDown => 'd',
        Fate::LostUp => 'u',
        Fate::LostAck => 'a',
    }
}

fn reply_bytes(reply: &Reply) -> Option<&[u8]> {
    match reply {
        Reply::Bytes(bytes) => {
            let bytes: &Sequence<u8> = bytes;
            Some(bytes.as_slice())
        }
        Reply::Done => None,
        Reply::Refused => None,
    }
}

fn fates_fault_number(fault: FatesFault) -> u8 {
    match fault {
        FatesFault::Letter => 1,
        FatesFault::Memory => 2,
    }
}

/// Hexadecimal text is read beside what has these numbers.
fn fault_number(fault: ToolFault) -> u8 {
    match fault {
        ToolFault::Read => 1,
        ToolFault::Write => 2,
        ToolFault::TooLarge => 3,
        ToolFault::File(fault) => {
            let _: FileFault = fault;
            4
        }
        ToolFault::List(fault) => {
            let _: ListFault = fault;
            5
        }
        ToolFault::Set(fault) => {
            let _: SetFault = fault;
            6
        }
        ToolFault::Trailing(at) => {
            let _: usize = at;
            7
        }
        ToolFault::Memory => 8,
        _ => 9,
    }
}

/// Other lines are beside these.
fn line_number(line: &Line<'_>) -> u8 {
    match line {
        Line::Show => 1,
        Line::Check => 2,
        Line::Build => 3,
        Line::Enumerate(options) => {
            let _: &Options<'_> = options;
            4
        }
        _ => 5,
    }
}

#[test]
fn both_ends_over_a_bus(rt: HostRuntime) -> Outcome<()> {
    let description = Description::new(rt.alloc(), file(rt.alloc())?, Speed::Full)?;
    let limits = Limits::new(1, 16, 3)?;
    let run: Run = enumerate(rt.alloc(), &description, limits, &[Fate::LostDown]);
    let Run {
        outcome,
        attempts,
        transactions,
        state,
    } = run;
    let outcome: Result<DescriptorFile, Trouble> = outcome;
    assert!(rt; outcome? == *description.file());
    let counts: (u8, u64) = (attempts, transactions);
    assert_eq!(rt; counts, (1, 32));
    let state: State = state;
    assert_eq!(rt; (state.address, state.selected), (1, 1));

    // GET_DESCRIPTOR of the language list.
    let requests = [Setup::from_bytes(&[0x80, 6, 0, 3, 0, 0, 255, 0])];
    let talk: Result<Talk, NoMemory> = converse(rt.alloc(), &description, 16, &requests, &[]);
    let Talk {
        replies,
        stopped,
        transactions,
        state,
    } = talk?;
    let replies: Sequence<Reply> = replies;
    assert_eq!(rt;
        replies.first().and_then(reply_bytes),
        Some([4u8, 3, 9, 4].as_slice())
    );
    let stopped: Option<Why> = stopped;
    let transactions: u128 = transactions;
    assert_eq!(rt; (stopped, transactions), (None, 3));
    let state: State = state;
    assert_eq!(rt; state.address, 0);
    Ok(())
}

/// The laws of both ends, which do nothing when they are called.
#[test]
fn laws_of_both_ends(_rt: HostRuntime) {
    laws::both_ends_stay_in_one_transfer();
    laws::an_attempt_stays_together_or_falls_silent();
    laws::a_reset_brings_both_ends_together();
}

/// The listing of the file.
fn listing(alloc: Global) -> Outcome<Vec<u8>> {
    let mut text = Vec::new(alloc);
    list(alloc, &file(alloc)?, &mut text)?;
    Ok(text)
}

#[test]
fn commands(rt: HostRuntime) -> Outcome<()> {
    let bytes = write_file(rt.alloc(), &file(rt.alloc())?)?;
    let text = listing(rt.alloc())?;
    let mut input: &[u8] = &bytes;
    let mut shown: Vec<u8> = Vec::new(rt.alloc());
    let status: Result<u8, ToolFault> = run_show(rt.alloc(), &mut input, &mut shown);
    assert_eq!(rt; (verdict(&status), shown.as_slice()), (0, text.as_slice()));

    let mut input: &[u8] = &bytes;
    let mut checked: Vec<u8> = Vec::new(rt.alloc());
    let status: Result<u8, ToolFault> = run_check(rt.alloc(), &mut input, &mut checked);
    assert_eq!(rt;
        (verdict(&status), checked.as_slice()),
        (0, b"no findings\n".as_slice())
    );

    let mut input: &[u8] = &text;
    let mut built: Vec<u8> = Vec::new(rt.alloc());
    let status: Result<u8, ToolFault> = run_build(rt.alloc(), &mut input, &mut built);
    assert_eq!(rt; (verdict(&status), built.as_slice()), (0, bytes.as_slice()));

    let mut input: &[u8] = &bytes;
    let mut report: Vec<u8> = Vec::new(rt.alloc());
    let limits = Limits::new(1, 16, 3)?;
    let fates: &[Fate] = &[Fate::LostDown];
    let status: Result<u8, ToolFault> = run_enumerate(
        rt.alloc(),
        &mut input,
        &mut report,
        limits,
        Speed::Full,
        fates,
    );
    assert_eq!(rt; verdict(&status), 0);
    assert!(rt; report.starts_with(b"success attempts 1 transactions 32 address 1 value 1\n"));
    Ok(())
}

#[test]
fn faults_of_commands(rt: HostRuntime) {
    let mut input: &[u8] = &[];
    let mut checked: Vec<u8> = Vec::new(rt.alloc());
    let status: Result<u8, ToolFault> = run_check(rt.alloc(), &mut input, &mut checked);
    let status_number: u8 = verdict(&status);
    assert_eq!(rt; status_number, 3);
    assert_eq!(rt; status.map_err(fault_number), Err(4));
}

#[test]
fn options(rt: HostRuntime) -> Outcome<()> {
    let speed: Option<Speed> = read_speed("high");
    assert_eq!(rt; speed, Some(Speed::High));
    let fates: Result<Vec<Fate>, FatesFault> = read_fates(rt.alloc(), ".ndua");
    let mut letters = String::new(rt.alloc());
    for fate in &fates? {
        letters.push(fate_letter(*fate))?;
    }
    assert_eq!(rt; letters.as_str(), ".ndua");
    let fault = read_fates(rt.alloc(), ".x").err().map(fates_fault_number);
    assert_eq!(rt; fault, Some(1));
    Ok(())
}

/// The words of a command line, the program's name first.
fn words(alloc: Global, rest: &[&str]) -> Result<Vec<String>, AllocError> {
    let mut words = vec![in alloc; String::from_str(alloc, "usbdesc")?]?;
    for word in rest {
        words.push(String::from_str(alloc, word)?)?;
    }
    Ok(words)
}

#[test]
fn a_line(rt: HostRuntime) -> Outcome<()> {
    for (word, line) in [
        ("show", Line::Show),
        ("check", Line::Check),
        ("build", Line::Build),
    ] {
        let words: Vec<String> = words(rt.alloc(), &[word])?;
        let read: Result<Line<'_>, Error> = read_line(rt.alloc(), &words);
        assert_eq!(rt; read?, line);
    }
    let words = words(
        rt.alloc(),
        &[
            "enumerate",
            "--speed",
            "high",
            "--address",
            "5",
            "--naks",
            "2",
            "--attempts",
            "4",
            "--fates",
            ".d",
        ],
    )?;
    let options = Options {
        speed: Some("high"),
        address: Some("5"),
        naks: Some("2"),
        attempts: Some("4"),
        fates: Some(".d"),
    };
    let line: Line<'_> = read_line(rt.alloc(), &words)?;
    assert_eq!(rt; line, Line::Enumerate(options));
    assert_eq!(rt; line_number(&line), 4);
    Ok(())
}

#[test]
fn a_recording(rt: HostRuntime) -> Outcome<()> {
    let alloc = rt.alloc();
    let capturing = Capturing {
        data: false,
        brief: true,
        device: None,
        from: None,
        to: Some("1.5"),
        file: None,
    };
    let fault: Result<CaptureCommand, SettingsFault> = capture_command(&capturing);
    assert_eq!(rt; fault.err(), Some(SettingsFault::BriefBeside));
    let chosen = Capturing {
        brief: false,
        ..capturing
    };
    let selection = Selection {
        brief: false,
        data: false,
        device: None,
        from: None,
        to: Some(1_500_000_000),
    };
    let command = capture_command(&chosen)?;
    assert!(rt; command == CaptureCommand::Lines(selection));
    // No frame, and no device.
    let mut text = Vec::new(alloc);
    let mut input: &[u8] = &[];
    let report: Result<u8, ToolFault> = run_capture(alloc, &mut input, &mut text, command);
    assert_eq!(rt; report?, 0);
    assert_eq!(rt; text.as_slice(), b"0 frames\n".as_slice());
    let device = DeviceAddress { bus: 1, device: 5 };
    let file = CaptureCommand::File(device);
    let lacking = run_capture(alloc, &mut input, &mut text, file);
    let lack = FileLack::Device;
    assert_eq!(rt; lacking.err(), Some(ToolFault::Lack { device, lack }));
    Ok(())
}
