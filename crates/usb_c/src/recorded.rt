//! What a recording shows, as numbers.
ghost use Rattle.std.specs.Prelude.{◌≡◌};
ghost use Rattle.usb_c.specs.Captures.{device_numbers, ending_number, finding_number, finding_numbers, no_numbers, packet_number, packet_numbers, request_numbers, status_of};

use crate::packet::damage_number;
use usb_capture::{ControlTransfer, Ending, Finding, PacketFinding};
use usb_capture_lines::{BusFinding, SeenDevice};

/// What a recording shows: the struct `nzg_recorded` of nozzlegorse.h. What does not apply is 0.
#[repr(C)]
#[derive(Clone, Copy, Drop)]
pub struct NzgRecorded {
    /// Of a request when it ended, or began where its end isn't there, of a finding in packets when the packet or token came, in
    /// nanoseconds.
    pub time: u64,
    /// Of a request when it was given to the host controller, in nanoseconds.
    pub begun: u64,
    /// Of a finding in packets the number of its frame, of a device how many findings it has.
    pub count: usize,
    /// Of a request how many bytes of data came or went.
    pub length: u32,
    /// Of a request the status of the host's system, where it failed or was refused.
    pub status: u32,
    /// The number of the bus.
    pub bus: u16,
    /// The address of the device.
    pub device: u16,
    /// Of a request its setup packet.
    pub setup: [u8; 8],
    /// Of a request: 0 no end came, 1 done, 2 STALL, 3 failed, 4 refused by the host controller.
    pub ending: u8,
    /// Of a finding in a request 1 to 18, in packets 1 to 13.
    pub finding: u8,
    /// Of a request whether a frame of it was cut.
    pub is_cut: bool,
    /// Whether the time is known.
    pub has_time: bool,
    /// Whether it is known when the request began.
    pub has_begun: bool,
    /// Whether the device is known.
    pub has_device: bool,
}

impl NzgRecorded {
    const NOTHING: NzgRecorded = NzgRecorded {
        time: 0,
        begun: 0,
        count: 0,
        length: 0,
        status: 0,
        bus: 0,
        device: 0,
        setup: [0; 8],
        ending: 0,
        finding: 0,
        is_cut: false,
        has_time: false,
        has_begun: false,
        has_device: false,
    };

    /// A request.
    pub(crate) fn of_request(transfer: &ControlTransfer) -> NzgRecorded
        ensures { result ≡ request_numbers transfer.now }
    {
        let time = transfer.ended.or(transfer.begun);
        NzgRecorded {
            time: time.unwrap_or(0),
            begun: transfer.begun.unwrap_or(0),
            length: transfer.length,
            status: status_of(transfer.ending),
            bus: transfer.bus,
            device: transfer.device,
            setup: transfer.setup.to_bytes(),
            ending: ending_number(transfer.ending),
            is_cut: transfer.is_cut,
            has_time: time.is_some(),
            has_begun: transfer.begun.is_some(),
            has_device: true,
            ..NzgRecorded::NOTHING
        }
    }

    /// A finding in a request, with its numbers.
    pub(crate) fn of_finding(transfer: &ControlTransfer, finding: Finding) -> NzgRecorded
        ensures { result ≡ finding_numbers transfer.now finding }
    {
        NzgRecorded {
            finding: finding_number(finding),
            ..NzgRecorded::of_request(transfer)
        }
    }

    /// A finding in packets.
    pub(crate) fn in_packets(found: &BusFinding) -> NzgRecorded
        ensures { result ≡ packet_numbers found.now }
    {
        NzgRecorded {
            time: found.time.unwrap_or(0),
            count: found.number as usize,
            device: u16::from(found.address.unwrap_or(0)),
            finding: packet_number(found.finding),
            has_time: found.time.is_some(),
            has_device: found.address.is_some(),
            ..NzgRecorded::NOTHING
        }
    }

    /// A device.
    pub(crate) fn of_device(seen: &SeenDevice) -> NzgRecorded
        ensures { result ≡ device_numbers seen.now }
    {
        let count = seen.findings as usize;
        match seen.address {
            Some(address) => NzgRecorded {
                count,
                bus: address.bus,
                device: address.device,
                has_device: true,
                ..NzgRecorded::NOTHING
            },
            None => NzgRecorded {
                count,
                ..NzgRecorded::NOTHING
            },
        }
    }
}

/// How a request ended, by its number.
fn ending_number(ending: Ending) -> u8
    ensures { result ≡ ending_number ending }
{
    match ending {
        Ending::Unseen => 0,
        Ending::Done => 1,
        Ending::Stall => 2,
        Ending::Failed(_) => 3,
        Ending::Refused(_) => 4,
    }
}

fn status_of(ending: Ending) -> u32
    ensures { result ≡ status_of ending }
{
    match ending {
        Ending::Unseen | Ending::Done | Ending::Stall => 0,
        Ending::Failed(status) | Ending::Refused(status) => status,
    }
}

/// What is found in a request, by its number.
fn finding_number(finding: Finding) -> u8
    ensures { result ≡ finding_number finding }
{
    finding as u8 + 1
}

/// What is found in packets, by its number.
fn packet_number(finding: PacketFinding) -> u8
    ensures { result ≡ packet_number finding }
{
    match finding {
        PacketFinding::Damaged(damage) => damage_number(damage),
        PacketFinding::NoHandshake => 7,
        PacketFinding::NoRequest => 8,
        PacketFinding::SetupRefused => 9,
        PacketFinding::Toggle => 10,
        PacketFinding::Long => 11,
        PacketFinding::NoShortPacket => 12,
        PacketFinding::StatusDirection => 13,
    }
}
