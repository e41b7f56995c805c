//! The lines of what was found.
ghost use Rattle.std.specs.Prelude.{◌≡◌, ◌++◌, OnOk};
ghost use Rattle.usb_text.specs.Lines.{column};
ghost use Rattle.usb_capture_lines.specs.FindingLines.{bus_finding_line, damage_words, device_name, finding_line, finding_lines, finding_words, frame_words, packet_words};
ghost use Rattle.usb_capture_lines.specs.Recordings.{bus_lines, bus_part};

use crate::bus_finding::BusFinding;
use crate::selection::{DeviceAddress, Selection};
use crate::transfer_line::{DEVICE_WIDTH, put_address, put_time_column};
use std::alloc::AllocError;
use usb_capture::{Finding, PacketFinding};
use usb_text::Text;
use usb_wire::Damage;

/// Puts a line for each finding of a transfer.
pub(crate) fn put_findings(text: &mut Text, found: &[Finding]) -> Result<(), AllocError>
    ensures { OnOk result (text.new ≡ text.old ++ finding_lines found.now) }
{
    for finding in found {
        put_finding(text, *finding)?;
    }
    Ok(())
}

#[tactic(auto, unfolding(crate::specs::FindingLines::finding_line))]
fn put_finding(text: &mut Text, finding: Finding) -> Result<(), AllocError>
    ensures { OnOk result (text.new ≡ text.old ++ finding_line finding) }
{
    text.put("           ! ")?;
    text.put(finding_words(finding))?;
    text.put("\n")
}

/// What was wrong, with the sections of USB 2.0 that say so.
pub fn finding_words(finding: Finding) -> &'static str
    ensures { result.now ≡ finding_words finding }
{
    match finding {
        Finding::MoreThanAsked => "more bytes than wLength (8.5.3, 9.3.5)",
        Finding::OtherType => "a descriptor of another type than was asked for (9.4.3)",
        Finding::OtherLength => "neither all bytes of the descriptor nor wLength bytes (9.4.3)",
        Finding::OtherBytes => "the same descriptor had other bytes before (9.4.3, 9.6)",
        Finding::RefusesGiven => "the device has it: it gave bytes of it (9.4.3)",
        Finding::RefusesRequired => "the device has it: all devices do (9.4.3)",
        Finding::RefusesCounted => "the device has it: bNumConfigurations counts it (9.6.1, 9.6.2)",
        Finding::RefusesNamed => "the device has it: a descriptor names it (9.6.7)",
        Finding::RefusesStatus => "the device has an address, so it answers (9.4.5)",
        Finding::RefusesAddress => "the device has no address yet, so it takes one (9.4.6)",
        Finding::RefusesConfiguration =>
            "the device takes 0 and the value of each configuration (9.4.7)",
        Finding::TakesConfiguration =>
            "no configuration of the device has this value (9.2.7, 9.4.7)",
        Finding::OtherConfiguration =>
            "the device answers 0 or the value of a configuration (9.4.2)",
        Finding::GivesUncounted => "bNumConfigurations doesn't count it (9.4.3, 9.6.1)",
        Finding::OtherValue => "the device answers the value that was set (9.4.2)",
        Finding::OtherStatus => "the device answers by its descriptors and what was set (9.4.5)",
        Finding::OtherFeature =>
            "the device takes a feature that it has and no other (9.4.1, 9.4.9)",
        Finding::OtherSetting => "the device answers by the settings that it has (9.4.4, 9.4.10)",
    }
}

/// Puts a line for each finding of packets, if it is wanted.
pub(crate) fn put_bus_findings(
    text: &mut Text,
    selection: &Selection,
    origin: u64,
    found: &[BusFinding],
) -> Result<(), AllocError>
    ensures { OnOk result (text.new ≡ text.old ++ bus_lines selection.now origin found.now) }
{
    for finding in found {
        put_wanted(text, selection, origin, finding)?;
    }
    Ok(())
}

#[tactic(auto, unfolding(crate::specs::Recordings::bus_part))]
fn put_wanted(
    text: &mut Text,
    selection: &Selection,
    origin: u64,
    found: &BusFinding,
) -> Result<(), AllocError>
    ensures { OnOk result (text.new ≡ text.old ++ bus_part selection.now origin found.now) }
{
    if selection.wants(origin, found.device(), found.time) {
        put_bus_finding(text, origin, found)
    } else {
        Ok(())
    }
}

#[tactic(auto, unfolding(crate::specs::FindingLines::bus_finding_line))]
fn put_bus_finding(text: &mut Text, origin: u64, found: &BusFinding) -> Result<(), AllocError>
    ensures { OnOk result (text.new ≡ text.old ++ bus_finding_line origin found.now) }
{
    put_time_column(text, origin, found.time)?;
    put_device_column(text, found.device())?;
    text.put("! ")?;
    text.put(packet_words(found.finding))?;
    put_frame(text, found.number)
}

/// Puts a device, or that it isn't known.
fn put_device_column(text: &mut Text, device: Option<DeviceAddress>) -> Result<(), AllocError>
    ensures { OnOk result (text.new ≡ text.old ++ column 6 (device_name device)) }
{
    let start = text.len();
    put_device(text, device)?;
    text.fill(start, DEVICE_WIDTH)
}

fn put_device(text: &mut Text, device: Option<DeviceAddress>) -> Result<(), AllocError>
    ensures { OnOk result (text.new ≡ text.old ++ device_name device) }
{
    match device {
        Some(device) => put_address(text, device.bus, device.device),
        None => text.put("-"),
    }
}

#[tactic(auto, unfolding(crate::specs::FindingLines::frame_words))]
fn put_frame(text: &mut Text, number: u64) -> Result<(), AllocError>
    ensures { OnOk result (text.new ≡ text.old ++ frame_words number) }
{
    text.put(", frame ")?;
    text.put_decimal(number)?;
    text.put("\n")
}

/// What is wrong in a packet or a transaction, with the sections of USB 2.0 that say so.
pub fn packet_words(finding: PacketFinding) -> &'static str
    ensures { result.now ≡ packet_words finding }
{
    match finding {
        PacketFinding::Damaged(damage) => damage_words(damage),
        PacketFinding::NoHandshake => "no handshake (8.5)",
        PacketFinding::NoRequest => "SETUP without eight bytes of DATA0 (8.5.3)",
        PacketFinding::SetupRefused => "NAK, STALL or NYET of SETUP (8.4.6.4)",
        PacketFinding::Toggle => "a wrong data toggle (8.5.3, 8.6)",
        PacketFinding::Long => "a packet over bMaxPacketSize0 (5.5.3, 9.6.1)",
        PacketFinding::NoShortPacket => "no short packet at the end (5.5.3, 8.5.3.2)",
        PacketFinding::StatusDirection => "a status stage of the wrong way (8.5.3)",
    }
}

fn damage_words(damage: Damage) -> &'static str
    ensures { result.now ≡ damage_words damage }
{
    match damage {
        Damage::Empty => "a packet without a byte (8.3.1)",
        Damage::Pid => "wrong check bits of a PID (8.3.1)",
        Damage::Reserved => "a reserved PID (8.3.1)",
        Damage::Length => "a length that its PID doesn't have (8.4)",
        Damage::Crc5 => "a wrong 5-bit CRC (8.3.5.1)",
        Damage::Crc16 => "a wrong 16-bit CRC (8.3.5.2)",
    }
}
