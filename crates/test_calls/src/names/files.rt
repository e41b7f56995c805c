//! The names of usb_file.
use crate::names::sets::{list_of, mouse};
use anyhow::Result as Outcome;
use std::alloc::{AllocError, Global};
use usb_fields::{DeviceDescriptor, Qualifier, Sequence};
use usb_file::{
    DescriptorFile, FileFault, FileWhy, Finding, ListFault, ListWhy, NoMemory, Other, OutFault,
    Part, Strings, WriteFault, assemble, check, list, list_set, named, read_file, write_file,
};
use usb_set::{Configuration, SetKind};

/// A mouse at both speeds, with one string.
pub(crate) fn file(alloc: Global) -> Result<DescriptorFile, AllocError> {
    let device = DeviceDescriptor {
        usb: 0x0200,
        class: 0,
        subclass: 0,
        protocol: 0,
        packet: 64,
        vendor: 0x1234,
        product: 0x5678,
        release: 0x0100,
        maker_text: 0,
        product_text: 1,
        serial_text: 0,
        configurations: 1,
    };
    let qualifier = Qualifier {
        usb: 0x0200,
        class: 0,
        subclass: 0,
        protocol: 0,
        packet: 64,
        configurations: 1,
        reserved: 0,
    };
    let mut set = mouse(alloc)?;
    set.kind = SetKind::OtherSpeed;
    let other = Other {
        qualifier,
        sets: list_of::<Configuration, 1>(alloc, [set])?,
    };
    let text: Sequence<u16> = list_of(alloc, [b'M' as u16])?;
    let strings = Strings {
        languages: list_of::<u16, 1>(alloc, [0x0409])?,
        texts: list_of::<Sequence<u16>, 1>(alloc, [text])?,
    };
    Ok(DescriptorFile {
        device,
        sets: list_of::<Configuration, 1>(alloc, [mouse(alloc)?])?,
        other: Some(other),
        strings: Some(strings),
    })
}

fn file_fault_number(why: FileWhy) -> u8 {
    match why {
        FileWhy::Device => 1,
        FileWhy::Set(_) => 2,
        FileWhy::SetKind => 3,
        FileWhy::Qualifier => 4,
        FileWhy::Text => 5,
        FileWhy::Truncated => 6,
        FileWhy::Trailing => 7,
        FileWhy::Memory => 8,
    }
}

fn write_fault_number(fault: WriteFault) -> u8 {
    match fault {
        WriteFault::Count => 1,
        WriteFault::Kind => 2,
        WriteFault::Layout => 3,
        WriteFault::Texts => 4,
        WriteFault::Memory => 5,
    }
}

fn list_fault_number(why: ListWhy) -> u8 {
    match why {
        ListWhy::Line => 1,
        ListWhy::Word => 2,
        ListWhy::Place => 3,
        ListWhy::Field => 4,
        ListWhy::TooLong => 5,
        ListWhy::Missing => 6,
        ListWhy::Memory => 7,
    }
}

fn out_fault_number(fault: OutFault) -> u8 {
    match fault {
        OutFault::Write => 1,
        OutFault::Memory => 2,
    }
}

fn part_number(part: Part) -> u8 {
    match part {
        Part::Device => 0,
        Part::Main => 1,
        Part::Other => 2,
    }
}

#[test]
fn a_file(rt: HostRuntime) -> Outcome<()> {
    let file = file(rt.alloc())?;
    let bytes: Result<Vec<u8>, WriteFault> = write_file(rt.alloc(), &file);
    let read: Result<DescriptorFile, FileFault> = read_file(rt.alloc(), &bytes?);
    assert!(rt; read? == file);
    let indices: Result<Vec<u8>, NoMemory> = named(rt.alloc(), &file);
    assert_eq!(rt; indices?.as_slice(), [1u8].as_slice());
    let findings: Result<Vec<Finding>, NoMemory> = check(rt.alloc(), &file);
    assert!(rt; findings?.is_empty());
    let _: Result<(), NoMemory> = Err::<(), AllocError>(AllocError);
    Ok(())
}

#[test]
fn listings(rt: HostRuntime) -> Outcome<()> {
    let file = file(rt.alloc())?;
    let mut text: Vec<u8> = Vec::new(rt.alloc());
    let written: Result<(), OutFault> = list(rt.alloc(), &file, &mut text);
    written?;
    let read: Result<DescriptorFile, ListFault> = assemble(rt.alloc(), &text);
    assert!(rt; read? == file);
    for set in &file.sets {
        let mut lines: Vec<u8> = Vec::new(rt.alloc());
        let written: Result<(), OutFault> = list_set(rt.alloc(), set, &mut lines);
        written?;
        assert!(rt; lines.starts_with(b"configuration 01 01 00 a0 32 -\n"));
    }
    Ok(())
}

#[test]
fn faults_of_files(rt: HostRuntime) -> Outcome<()> {
    let fault = FileFault {
        at: 0usize,
        why: FileWhy::Truncated,
    };
    assert_eq!(rt; read_file(rt.alloc(), &[]).err(), Some(fault));
    assert_eq!(rt; file_fault_number(fault.why), 6);
    let fault = ListFault {
        line: 1usize,
        why: ListWhy::Missing,
    };
    assert_eq!(rt; assemble(rt.alloc(), b"").err(), Some(fault));
    assert_eq!(rt; list_fault_number(fault.why), 6);
    let mut file = file(rt.alloc())?;
    file.strings = None;
    let fault = write_file(rt.alloc(), &file).err().map(write_fault_number);
    assert_eq!(rt; fault, Some(4));
    let mut room: &mut [u8] = &mut [];
    let fault = list(rt.alloc(), &file, &mut room)
        .err()
        .map(out_fault_number);
    assert_eq!(rt; fault, Some(1));
    Ok(())
}

#[test]
fn findings(rt: HostRuntime) -> Outcome<()> {
    let mut file = file(rt.alloc())?;
    for set in file.sets.iter_mut() {
        set.attributes = 0x20;
    }
    let wanted = Finding {
        rule: 9u8,
        part: Part::Main,
        set: 0usize,
        setting: 0usize,
        endpoint: 0usize,
    };
    assert_eq!(rt; check(rt.alloc(), &file)?.as_slice(), [wanted].as_slice());
    assert_eq!(rt; part_number(wanted.part), 1);
    Ok(())
}
