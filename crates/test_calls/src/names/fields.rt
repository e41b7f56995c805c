//! The names of usb_fields.
use std::test::Fail;
use usb_fields::{
    Answer, Class, DeviceDescriptor, Direction, FieldFault, Qualifier, Recipient, Setup, Speed,
    Stage, Toggle, Transaction, UnitFault, read_units, write_units,
};

/// The three parts of bmRequestType (USB 2.0, table 9-2).
fn parts_of(setup: &Setup) -> (u8, u8, u8) {
    let direction = match setup.direction() {
        Direction::Out => 0,
        Direction::In => 1,
    };
    let class = match setup.class() {
        Class::Standard => 0,
        Class::Class => 1,
        Class::Vendor => 2,
        Class::Reserved => 3,
    };
    let recipient = match setup.recipient() {
        Recipient::Device => 0,
        Recipient::Interface => 1,
        Recipient::Endpoint => 2,
        Recipient::Other => 3,
        Recipient::Reserved => 4,
    };
    (direction, class, recipient)
}

#[test]
fn setup_packets(rt: HostRuntime) {
    let setup = Setup {
        request_type: 0xe4,
        request: 6,
        value: 0x0100,
        index: 0,
        length: 18,
    };
    let bytes: [u8; 8] = setup.to_bytes();
    assert_eq!(rt; bytes, [0xe4, 6, 0, 1, 0, 0, 18, 0]);
    assert_eq!(rt; Setup::from_bytes(&bytes), setup);
    assert_eq!(rt; parts_of(&setup), (1, 3, 4));
}

fn field_fault_number(fault: FieldFault) -> u8 {
    match fault {
        FieldFault::Length => 1,
        FieldFault::Kind => 2,
    }
}

#[test]
fn descriptors_of_fixed_length(rt: HostRuntime) {
    let device = DeviceDescriptor {
        usb: 0x0110,
        class: 1,
        subclass: 2,
        protocol: 3,
        packet: 64,
        vendor: 0x1234,
        product: 0x5678,
        release: 0x0100,
        maker_text: 4,
        product_text: 5,
        serial_text: 6,
        configurations: 7,
    };
    let bytes: [u8; 18] = device.to_bytes();
    let read: Result<DeviceDescriptor, FieldFault> = DeviceDescriptor::read(&bytes);
    assert_eq!(rt; read, Ok(device));
    let qualifier = Qualifier {
        usb: 0x0200,
        class: 1,
        subclass: 2,
        protocol: 3,
        packet: 64,
        configurations: 4,
        reserved: 5,
    };
    let bytes: [u8; 10] = qualifier.to_bytes();
    let read: Result<Qualifier, FieldFault> = Qualifier::read(&bytes);
    assert_eq!(rt; read, Ok(qualifier));
    let fault = Qualifier::read(&device.to_bytes()).map_err(field_fault_number);
    assert_eq!(rt; fault, Err(1));
}

fn unit_fault_number(fault: UnitFault) -> u8 {
    match fault {
        UnitFault::Length => 1,
        UnitFault::Kind => 2,
        UnitFault::Odd => 3,
        UnitFault::TooLong => 4,
        UnitFault::Memory => 5,
    }
}

#[test]
fn units(rt: HostRuntime) -> Result<(), Fail> {
    let units: Result<Vec<u16>, UnitFault> = read_units(rt.alloc(), &[4, 3, 9, 4]);
    assert_eq!(rt; units?.as_slice(), [0x0409u16].as_slice());
    let bytes: Result<Vec<u8>, UnitFault> = write_units(rt.alloc(), &[0x0409]);
    assert_eq!(rt; bytes?.as_slice(), [4u8, 3, 9, 4].as_slice());
    let fault = write_units(rt.alloc(), &[0; 127])
        .err()
        .map(unit_fault_number);
    assert_eq!(rt; fault, Some(4));
    Ok(())
}

fn stage_number(stage: Stage<'_>) -> (u8, usize) {
    match stage {
        Stage::Setup(bytes) => {
            let bytes: [u8; 8] = bytes;
            (1, bytes.len())
        }
        Stage::In => (2, 0),
        Stage::Out(toggle, bytes) => (toggle_number(toggle), bytes.len()),
    }
}

fn toggle_number(toggle: Toggle) -> u8 {
    match toggle {
        Toggle::Data0 => 3,
        Toggle::Data1 => 4,
    }
}

fn answer_number(answer: Answer<'_>) -> (u8, usize) {
    match answer {
        Answer::Ack => (1, 0),
        Answer::Nak => (2, 0),
        Answer::Data(toggle, bytes) => (toggle_number(toggle), bytes.len()),
        Answer::Stall => (5, 0),
        Answer::Silence => (6, 0),
    }
}

fn speed_number(speed: Speed) -> u8 {
    match speed {
        Speed::Low => 1,
        Speed::Full => 2,
        Speed::High => 3,
    }
}

#[test]
fn packets(rt: HostRuntime) {
    let transaction = Transaction {
        address: 5u8,
        stage: Stage::Out(Toggle::Data1, &[1, 2]),
    };
    assert_eq!(rt; stage_number(transaction.stage), (4, 2));
    assert_eq!(rt; stage_number(Stage::In), (2, 0));
    assert_eq!(rt; stage_number(Stage::Setup([0; 8])), (1, 8));
    assert_eq!(rt; answer_number(Answer::Data(Toggle::Data0, &[1])), (3, 1));
    for (answer, number) in [
        (Answer::Ack, 1),
        (Answer::Nak, 2),
        (Answer::Stall, 5),
        (Answer::Silence, 6),
    ] {
        assert_eq!(rt; answer_number(answer), (number, 0));
    }
    for (speed, number) in [(Speed::Low, 1), (Speed::Full, 2), (Speed::High, 3)] {
        assert_eq!(rt; speed_number(speed), number);
    }
}
