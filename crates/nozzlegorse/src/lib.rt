//! USB 2.0 descriptors, both ends of a control pipe, and enumeration: what a program names, in one crate.
//!
//! - A driver parses a device's [`descriptors`], and [`rules`] has those of chapter 9 that they break.
//! - A tool keeps them in files, and lists and explains them for people: [`files`].
//! - A firmware answers transactions: [`device`].
//! - A host asks: [`host`].
//! - A test bench joins both ends over a bus that loses packets and handshakes: [`bus`], which also has what passes
//!   between the ends.
//! - A controller's driver has the packets as bytes: [`packets`].
//!
//! Nothing is defined here. Each name is in the crate that its line names, with its contract, and what the contracts
//! cite is passed on by `specs/Lib.antt`: a caller that proves something needs no other crate in its own line.
#![tactic(auto)]

/// Single descriptors, string descriptors and configuration sets, read and written (USB 2.0, 9.6).
pub mod descriptors {
    pub use usb_fields::{
        DeviceDescriptor, Direction, FieldFault, MOST_UNITS, Qualifier, Sequence, Speed, USB_2_0,
        UnitFault, descriptor_length, descriptor_type, read_units, text_of, write_units,
        write_units_onto,
    };
    pub use usb_set::{
        Association, Associations, Configuration, Decoder, EncodeFault, Endpoint, Endpoints, Extra,
        Extras, Owner, Progress, Raw, SetFault, SetKind, SetWhy, Setting, TransferType,
        add_descriptor, begin_set, encode, encode_onto, next_fault, read_set, refusal,
    };
}

/// All descriptors of a device in a file; their listing for people, which is read back to the same file; each of them as a
/// value, with its owner, its findings and its fields, or as plain numbers, which need no memory; and what they mean, in words.
pub mod files {
    pub use usb_explain::{ClassCodes, Field, Fields, Form, Look, Manner, explain};
    pub use usb_file::{
        DescriptorFile, FILE_LIMIT, Input, NoMemory, Other, Strings, WriteFault, named, read_file,
        read_input, write_file, write_refusal,
    };
    pub use usb_file_data::{FileFault, FileWhy, InputFault, Likeness, likeness_of};
    pub use usb_listing::{
        LISTING_LIMIT, ListFault, ListWhy, assemble, assemble_commented, list, list_set,
    };
    pub use usb_remarks::{Descriptor, IntervalRange, Outline, PacketSizes, Remark, SetSpeed};
    pub use usb_text::OutFault;
    pub use usb_walk::{DescriptorOwner, InterfaceSetting, Role, WalkedDescriptor};
}

/// What breaks a rule of chapter 9.
pub mod rules {
    pub use usb_file_data::{
        Cause, Finding, Found, PacketFault, Part, Rule, check, check_dump, check_input, check_set,
        found_in_order,
    };
}

/// The device's end of a control pipe (USB 2.0, 8.5.3 and 9.4).
pub mod device {
    pub use usb_device::{
        Description, DescriptionFault, Device, DeviceStage, DeviceState, Encoded, EndpointZero,
        ROOM, State, Unanswered, is_open, is_set_address,
    };
}

/// The host's end of a control pipe, and a host that enumerates (USB 2.0, 9.1.2).
pub mod host {
    pub use usb_host::{
        Action, Choice, Heard, Host, LimitFault, Limits, NamedStrings, Reply, Step, Transfer,
        Trouble, Why, Write,
    };
}

/// What passes between both ends (USB 2.0, 8.4 and 9.3), and both ends joined over a bus that loses it.
pub mod bus {
    pub use usb_bus::{
        Asked, Conversation, Fate, Observer, Run, Talk, converse, converse_asked, enumerate,
        enumerate_encoded, enumerate_with, step, step_seen,
    };
    pub use usb_fields::{
        Answer, Class, Recipient, Setup, Stage, Toggle, Transaction, feature, request, request_type,
    };
}

/// The packets of the bus as bytes, and what their check bits find (USB 2.0, 8.3 and 8.4).
pub mod packets {
    pub use usb_wire::{
        AddressFields, Damage, DataKind, Handshake, MOST_DATA, Packet, Pid, TokenKind, crc5, crc16,
    };
}
