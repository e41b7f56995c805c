//! What faults say that the program never shows, and of those with a place how they say it.
use anyhow::{Result, ensure};
use std::alloc::Global;
use std::fmt::Display;
use usb_device::DescriptionFault;
use usb_fields::{FieldFault, UnitFault};
use usb_file::{FileFault, FileWhy, Finding, ListFault, ListWhy, OutFault, Part, WriteFault};
use usb_host::{LimitFault, Why};
use usb_set::{EncodeFault, SetFault, SetWhy};
use usb_tool::FatesFault;

const NO_MEMORY: &str = "out of memory";

/// Looks that each says this.
fn say<T: Display>(alloc: Global, report: &[(T, &str)]) -> Result<()> {
    for (fault, message) in report {
        let text = format!(in alloc; "{fault}")?;
        ensure!(text.as_str() == *message, "{text}");
    }
    Ok(())
}

#[test]
fn faults_of_descriptors_and_sets(rt: HostRuntime) -> Result<()> {
    let alloc = rt.alloc();
    let fields = [
        (FieldFault::Length, "the length is not the descriptor's"),
        (FieldFault::Kind, "the type is not the descriptor's"),
    ];
    say(alloc, &fields)?;
    let units = [
        (UnitFault::Length, "the length is not that of the bytes"),
        (UnitFault::Kind, "the type is not that of a string"),
        (UnitFault::Odd, "the length is odd"),
        (UnitFault::TooLong, "more than 126 units"),
        (UnitFault::Memory, NO_MEMORY),
    ];
    say(alloc, &units)?;
    say(alloc, &[(SetWhy::Memory, NO_MEMORY)])?;
    let why = SetWhy::Over;
    let message = "a descriptor ends past wTotalLength at 27";
    say(alloc, &[(SetFault { at: 27, why }, message)])?;
    let tail = "a descriptor would be over 255 bytes";
    let kind = "a raw descriptor of a type that a set reads";
    let encoding = [
        (EncodeFault::Tail, tail),
        (EncodeFault::RawKind, kind),
        (EncodeFault::TooLong, "the set would be over 65535 bytes"),
        (EncodeFault::Memory, NO_MEMORY),
    ];
    say(alloc, &encoding)
}

#[test]
fn faults_of_files_and_listings(rt: HostRuntime) -> Result<()> {
    let alloc = rt.alloc();
    say(alloc, &[(FileWhy::Memory, NO_MEMORY)])?;
    let why = FileWhy::Set(SetWhy::Over);
    let message = "in a set, a descriptor ends past wTotalLength at 45";
    say(alloc, &[(FileFault { at: 45, why }, message)])?;
    let count = "the sets are not as many as declared";
    let texts = "the strings are not those that the file names";
    let writing = [
        (WriteFault::Count, count),
        (WriteFault::Kind, "a set of the other kind"),
        (WriteFault::Layout, "a set has no bytes"),
        (WriteFault::Texts, texts),
        (WriteFault::Memory, NO_MEMORY),
    ];
    say(alloc, &writing)?;
    let listing = [
        (OutFault::Write, "the writer failed"),
        (OutFault::Memory, NO_MEMORY),
    ];
    say(alloc, &listing)?;
    say(alloc, &[(ListWhy::Memory, NO_MEMORY)])?;
    let why = ListWhy::Word;
    say(
        alloc,
        &[(ListFault { line: 12, why }, "line 12: no known word")],
    )
}

#[test]
fn faults_of_descriptions(rt: HostRuntime) -> Result<()> {
    let finding = Finding {
        rule: 12,
        part: Part::Main,
        set: 0,
        setting: 0,
        endpoint: 1,
    };
    let texts = "the strings are not those that the file names, or a language stands twice";
    let speed = "no device of this speed has such descriptors";
    let unwritable = "a set has no bytes, or the sets are not as declared";
    let report = [
        (DescriptionFault::Finding(finding), "V12 main 0 0 1"),
        (DescriptionFault::Texts, texts),
        (DescriptionFault::Speed, speed),
        (DescriptionFault::Memory, NO_MEMORY),
        (DescriptionFault::Unwritable, unwritable),
    ];
    say(rt.alloc(), &report)
}

#[test]
fn faults_of_both_ends(rt: HostRuntime) -> Result<()> {
    let alloc = rt.alloc();
    let limits = [
        (LimitFault::Address, "the address is not 1 to 127"),
        (LimitFault::Attempts, "the attempts are not 1 to 8"),
    ];
    say(alloc, &limits)?;
    let fates = [
        (FatesFault::Letter, "a letter that names no fate"),
        (FatesFault::Memory, NO_MEMORY),
    ];
    say(alloc, &fates)?;
    let numbers = [
        LimitFault::Address.number(),
        LimitFault::Attempts.number(),
        FatesFault::Letter.number(),
        FatesFault::Memory.number(),
    ];
    assert_eq!(rt; numbers, [1, 2, 1, 2]);
    let talking = [
        (Why::Stalled, "the device stalled the request"),
        (Why::TooLong, "more bytes than were asked for"),
        (Why::Unexpected, "an answer that cannot follow"),
        (Why::Malformed, "not what was asked for"),
        (Why::Memory, NO_MEMORY),
    ];
    say(alloc, &talking)
}
