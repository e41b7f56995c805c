//! The names of usb_device.
use crate::names::files::file;
use anyhow::Result as Outcome;
use usb_device::{Description, DescriptionFault, Device, State};
use usb_fields::{Answer, Speed, Stage, Toggle, Transaction};
use usb_file::{DescriptorFile, Finding};

fn fault_number(fault: DescriptionFault) -> u8 {
    match fault {
        DescriptionFault::Finding(first) => {
            let first: Finding = first;
            first.rule
        }
        DescriptionFault::Texts => 2,
        DescriptionFault::Speed => 3,
        DescriptionFault::Memory => 4,
        DescriptionFault::Unwritable => 5,
    }
}

#[test]
fn a_device(rt: HostRuntime) -> Outcome<()> {
    let description: Result<Description, DescriptionFault> = Description::new(
        rt.alloc(),
        file(rt.alloc())?,
        Speed::Full,
    );
    let description = description?;
    let described: &DescriptorFile = description.file();
    assert!(rt; *described == file(rt.alloc())?);
    let speed: Speed = description.speed();
    assert_eq!(rt; speed, Speed::Full);

    // SET_ADDRESS 5.
    let mut device: Device<'_> = Device::new(&description);
    let setup = Transaction {
        address: 0,
        stage: Stage::Setup([0, 5, 5, 0, 0, 0, 0, 0]),
    };
    let status = Transaction {
        address: 0,
        stage: Stage::In,
    };
    let answer: Answer<'_> = device.serve(&setup, true);
    assert_eq!(rt; answer, Answer::Ack);
    assert_eq!(rt;
        device.serve(&status, true),
        Answer::Data(Toggle::Data1, &[])
    );
    device.acked();
    let state = State {
        address: 5u8,
        selected: 0u8,
        alternates: [0u8; 256],
        halts: 0u32,
        wakeup: false,
    };
    assert_eq!(rt; device.state(), state);
    device.reset();
    assert_eq!(rt;
        device.state(),
        State {
            address: 0,
            ..state
        }
    );
    Ok(())
}

#[test]
fn faults_of_a_description(rt: HostRuntime) -> Outcome<()> {
    let fault = Description::new(rt.alloc(), file(rt.alloc())?, Speed::Low).err();
    assert_eq!(rt; fault.map(fault_number), Some(3));
    let mut file = file(rt.alloc())?;
    file.device.subclass = 1;
    let fault = Description::new(rt.alloc(), file, Speed::Full).err();
    assert_eq!(rt; fault.map(fault_number), Some(11));
    Ok(())
}
