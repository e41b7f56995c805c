//! What a call answers, as numbers, and how faults are reported.
ghost use Rattle.std.specs.Prelude.{◌≡◌};
ghost use Rattle.usb_c.specs.Answers.{broken_answer, numbers, refused_set};
ghost use Rattle.usb_c.specs.inside.Refusals.{refused_description, refused_file, refused_input, refused_list, refused_text, wants_memory};

use usb_capture::CaptureFault;
use usb_device::{DescriptionFault, Unanswered};
use usb_file::WriteFault;
use usb_file_data::{FileFault, FileWhy, InputFault};
use usb_hex::HexFault;
use usb_host::{Trouble, Why};
use usb_listing::{ListFault, ListWhy};
use usb_set::{SetFault, SetWhy};

/// What a call answers, as C sees it. Four numbers, so that of broken bytes both the fault and the length of their
/// explanation are reported.
#[repr(C)]
pub struct Answer {
    /// 0 done, 1 open, 2 a fault of a set, 3 of a file, 4 of a listing, 5 of a description, 6 bytes after the set, 7 no
    /// room, 8 no memory, 9 closed, 10 a bad argument, 11 trouble, 12 an answer that isn't taken, 13 no bytes, 14 of a text, 15 of a
    /// recording, 16 a descriptor that a recording lacks.
    pub status: u32,
    /// The number of the fault.
    pub number: u32,
    /// The place of the fault, in bytes; of a listing and a text its line; of a write's packet its place in the data.
    pub place: usize,
    /// How many bytes were taken or written, or are wanted; of a text's fault its column.
    pub length: usize,
}

/// What a call answers.
#[derive(Clone, Copy)]
pub enum Verdict {
    /// All went well, and this many bytes were taken or written.
    Done(usize),
    /// A transaction of a write comes next: a data packet has this many of the data, from this place on. Or a recording ends, with this
    /// many bytes of a part that begins at this place.
    Due(usize, usize),
    /// The bytes are an input: 1 a set, 2 a descriptor file, 3 a dump.
    Judged(u8),
    /// The bytes so far, this many of them new, are a prefix of a set; or a host has not ended.
    Open(usize),
    /// The bytes are no input. This many bytes of an explanation were written.
    Broken(InputFault, usize),
    /// What is wrong with the bytes was written: the number of the fault of a set, its place, and how many bytes that are. Or
    /// descriptors of a recording were: 2 a descriptor file, 3 a dump.
    Meant(u8, usize, usize),
    /// The text is no listing.
    List(ListFault),
    /// The text isn't hexadecimal from this line and column on, both counted from 1.
    Text(usize, usize),
    /// No device of the speed has these descriptors.
    Description(DescriptionFault),
    /// The buffer is too short: this many bytes are wanted.
    NoRoom(usize),
    /// A growth was refused.
    NoMemory,
    /// The handle holds nothing.
    Closed,
    /// A number has no meaning: 1 the address, 2 the attempts, 3 the speed, 4 a fate, 5 a rule, 6 no string, 7 a packet size,
    /// 8 a reply, 9 a request without data to the device, 10 data that are not wLength bytes, 11 numbers that are none of a
    /// transfer, 12 no packet, 13 no finding, remark, fault or trouble that there is, 14 what becomes of strings.
    BadArgument(u8),
    /// The enumeration ended without success.
    Trouble(Trouble),
    /// The transfer failed.
    Failed(Why),
    /// The device doesn't take this answer to a request.
    Unanswered(Unanswered),
    /// The bytes are no recording: why, and the place of the part that has the fault.
    Capture(CaptureFault, u64),
    /// No device descriptor came whole, or the configuration with this index didn't.
    Lack(Option<u8>),
    /// The file has no bytes. That of a host always has some: `usb_host::laws`.
    Unwritten(WriteFault),
}

/// Four numbers, the third of them a place.
#[inline]
pub(crate) fn numbers(status: u32, number: u8, place: usize, length: usize) -> Answer
    ensures { result ≡ numbers status number place length }
{
    Answer {
        status,
        number: u32::from(number),
        place,
        length,
    }
}

fn broken(fault: InputFault, length: usize) -> Answer
    ensures { result ≡ broken_answer fault length }
{
    match fault {
        InputFault::Set(fault) => numbers(2, fault.why.number(), fault.at as usize, length),
        InputFault::File(fault) => numbers(3, fault.why.number(), fault.at, length),
        InputFault::Trailing(at) => numbers(6, 0, at, length),
    }
}

impl Verdict {
    ghost use Rattle.usb_c.specs.Answers.{answer_of};

    /// The same as numbers.
    pub(crate) fn answer(self) -> Answer
        ensures { result ≡ answer_of self }
    {
        match self {
            Verdict::Done(length) => numbers(0, 0, 0, length),
            Verdict::Due(place, length) => numbers(0, 0, place, length),
            Verdict::Judged(number) => numbers(0, number, 0, 0),
            Verdict::Open(length) => numbers(1, 0, 0, length),
            Verdict::Broken(fault, length) => broken(fault, length),
            Verdict::Meant(number, place, length) => numbers(0, number, place, length),
            Verdict::List(fault) => numbers(4, fault.why.number(), fault.line, 0),
            Verdict::Text(line, column) => numbers(14, 0, line, column),
            Verdict::Description(fault) => numbers(5, fault.number(), 0, 0),
            Verdict::NoRoom(length) => numbers(7, 0, 0, length),
            Verdict::NoMemory => numbers(8, 0, 0, 0),
            Verdict::Closed => numbers(9, 0, 0, 0),
            Verdict::BadArgument(number) => numbers(10, number, 0, 0),
            Verdict::Trouble(trouble) => numbers(11, trouble.why.number(), 0, 0),
            Verdict::Failed(why) => numbers(11, why.number(), 0, 0),
            Verdict::Unanswered(why) => numbers(12, why.number(), 0, 0),
            Verdict::Unwritten(why) => numbers(13, why.number(), 0, 0),
            Verdict::Capture(why, at) => numbers(15, why.number(), at as usize, 0),
            Verdict::Lack(None) => numbers(16, 1, 0, 0),
            Verdict::Lack(Some(index)) => numbers(16, 2, usize::from(index), 0),
        }
    }
}

/// How the fault of a set is reported: out of memory is no fault of the bytes.
pub(crate) fn refused_set(fault: SetFault) -> Verdict
    ensures { result ≡ refused_set fault }
{
    match fault.why {
        SetWhy::Memory => Verdict::NoMemory,
        _ => Verdict::Broken(InputFault::Set(fault), 0),
    }
}

/// The same of a file.
pub(crate) fn refused_file(fault: FileFault) -> Verdict
    ensures { result ≡ refused_file fault }
{
    match fault.why {
        FileWhy::Memory => Verdict::NoMemory,
        _ => Verdict::Broken(InputFault::File(fault), 0),
    }
}

/// The same of an input.
pub(crate) fn refused_input(fault: InputFault) -> Verdict
    ensures { result ≡ refused_input fault }
{
    match fault {
        InputFault::Set(fault) => refused_set(fault),
        InputFault::Trailing(_) => Verdict::Broken(fault, 0),
        InputFault::File(fault) => refused_file(fault),
    }
}

/// The same of a listing.
pub(crate) fn refused_list(fault: ListFault) -> Verdict
    ensures { result ≡ refused_list fault }
{
    match fault.why {
        ListWhy::Memory => Verdict::NoMemory,
        _ => Verdict::List(fault),
    }
}

/// The same of a hexadecimal text.
pub(crate) fn refused_text(fault: HexFault) -> Verdict
    ensures { result ≡ refused_text fault }
{
    match fault {
        HexFault::Text { line, column, .. } => Verdict::Text(line, column),
        HexFault::Memory => Verdict::NoMemory,
    }
}

/// The same of a description.
pub(crate) fn refused_description(fault: DescriptionFault) -> Verdict
    ensures { result ≡ refused_description fault }
{
    match fault {
        DescriptionFault::Memory => Verdict::NoMemory,
        _ => Verdict::Description(fault),
    }
}

/// Whether memory was wanting.
pub(crate) fn wants_memory(fault: InputFault) -> bool
    ensures { result ≡ wants_memory fault }
{
    match fault {
        InputFault::Set(fault) => matches!(fault.why, SetWhy::Memory),
        InputFault::Trailing(_) => false,
        InputFault::File(fault) => matches!(fault.why, FileWhy::Memory),
    }
}
