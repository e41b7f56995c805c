//! The speed of a set.
ghost use Rattle.std.specs.Prelude.{◌≡◌, option_and_then};
ghost use Rattle.usb_remarks.specs.SetSpeeds.{decided_speed, high_beside, high_side, hinted_speed, low_is_excluded, is_high_hub, is_super_device, one_speed, packet_excludes_low, other_speed, proved_speed, release_hint, side_speed, speed_by, speed_of_device, speed_of_hub, speed_of_packet, without_low};

use crate::device_facts::DeviceFacts;
use crate::speed::SetSpeed;
use crate::speed_evidence::Evidence;

/// What is known of the speed of a set beside its descriptors.
#[derive(Clone, Copy, Debug, PartialEq, Eq, Hash)]
pub(crate) struct Background {
    /// The speed, where it is known.
    pub(crate) known: Option<SetSpeed>,
    /// bMaxPacketSize0 at this speed.
    pub(crate) packet: Option<u8>,
    /// The other speed of the device, as far as it is known, where it has one.
    pub(crate) other: Option<SetSpeed>,
    /// Whether the device is a hub, which is never of low speed.
    pub(crate) is_hub: bool,
    /// The speed at which bcdUSB hints.
    pub(crate) hinted: Option<SetSpeed>,
}

/// The other speed of a device of full and high speed, which runs at one of the two.
pub fn other_speed(speed: SetSpeed) -> Option<SetSpeed>
    ensures { result ≡ other_speed speed }
{
    match speed {
        SetSpeed::Full => Some(SetSpeed::High),
        SetSpeed::High => Some(SetSpeed::Full),
        _ => None,
    }
}

/// The speed of a device's own sets by bcdUSB, bDeviceClass, bDeviceProtocol and bMaxPacketSize0, where these leave no choice
/// (9.6.1, 11.23.1; USB 3.2, 9.6.1).
pub(crate) fn speed_of_device(usb: u16, class: u8, protocol: u8, packet: u8) -> Option<SetSpeed>
    ensures { result ≡ speed_of_device usb class protocol packet }
{
    if is_super_device(usb, packet) {
        Some(SetSpeed::Super)
    } else if usb < 0x0200 {
        Some(SetSpeed::LowOrFull)
    } else {
        speed_of_hub(class, protocol)
    }
}

/// A device that runs at SuperSpeed has bMaxPacketSize0 9 and no other (USB 3.2, 9.6.1).
pub(crate) fn is_super_device(usb: u16, packet: u8) -> bool
    ensures { result ≡ is_super_device usb packet }
{
    usb >= 0x0300 && packet == 9
}

/// The speed of a hub by its class and protocol, where it is high speed (11.23.1).
pub(crate) fn speed_of_hub(class: u8, protocol: u8) -> Option<SetSpeed>
    ensures { result ≡ speed_of_hub class protocol }
{
    if is_high_hub(class, protocol) {
        Some(SetSpeed::High)
    } else {
        None
    }
}

/// The speed at which bcdUSB hints: a device of SuperSpeed that runs at another speed runs at high speed.
pub(crate) fn release_hint(usb: u16) -> Option<SetSpeed>
    ensures { result ≡ release_hint usb }
{
    if usb >= 0x0300 {
        Some(SetSpeed::High)
    } else {
        None
    }
}

/// A hub with transaction translators, by its class and protocol.
fn is_high_hub(class: u8, protocol: u8) -> bool
    ensures { result ≡ is_high_hub class protocol }
{
    class == 9 && (protocol == 1 || protocol == 2)
}

/// The speed of a set. The first of these decides: the speed that is known; bMaxPacketSize0, which is 64 at high speed; what
/// its descriptors prove; the device's other speed; bcdUSB; an interval. Low or full speed is full speed where low speed is
/// excluded (5.5.3).
pub(crate) fn speed_by(background: Background, evidence: Evidence) -> SetSpeed
    ensures { result ≡ speed_by background evidence }
{
    without_low(
        low_is_excluded(background, evidence),
        decided_speed(background, evidence),
    )
}

/// The speed of a side of a device of full and high speed by its own descriptors alone: the device or the qualifier, the endpoints
/// of its sets, and bMaxPacketSize0.
pub(crate) fn side_speed(facts: DeviceFacts, evidence: Evidence) -> Option<SetSpeed>
    ensures { result ≡ side_speed facts evidence }
{
    let packet = Some(facts.packet);
    let proved = facts.speed.or(proved_speed(packet, evidence));
    match proved.or(speed_of_packet(packet)) {
        None => None,
        Some(speed) => Some(without_low(true, speed)),
    }
}

/// The speed that both sides of a device have.
pub(crate) fn one_speed(own: Option<SetSpeed>, other: Option<SetSpeed>) -> Option<SetSpeed>
    ensures { result ≡ one_speed own other }
{
    match (own, other) {
        (Some(SetSpeed::Full), Some(SetSpeed::Full)) => Some(SetSpeed::Full),
        (Some(SetSpeed::High), Some(SetSpeed::High)) => Some(SetSpeed::High),
        _ => None,
    }
}

/// High speed, where the device's own side is at that.
pub(crate) fn high_side(own: Option<SetSpeed>) -> Option<SetSpeed>
    ensures { result ≡ high_side own }
{
    match own {
        Some(SetSpeed::High) => Some(SetSpeed::High),
        _ => None,
    }
}

/// High speed, where the qualifier's side is at that, or the device's own side at full speed.
pub(crate) fn high_beside(own: Option<SetSpeed>, other: Option<SetSpeed>) -> Option<SetSpeed>
    ensures { result ≡ high_beside own other }
{
    match (own, other) {
        (_, Some(SetSpeed::High)) | (Some(SetSpeed::Full), _) => Some(SetSpeed::High),
        _ => None,
    }
}

fn decided_speed(background: Background, evidence: Evidence) -> SetSpeed
    ensures { result ≡ decided_speed background evidence }
{
    let known = background.known.or(speed_of_packet(background.packet));
    let decided = known
        .or(proved_speed(background.packet, evidence))
        .or(speed_beside(background.other));
    match decided {
        None => hinted_speed(background.hinted, evidence),
        Some(speed) => speed,
    }
}

/// The speed of a device whose other speed is known.
fn speed_beside(other: Option<SetSpeed>) -> Option<SetSpeed>
    ensures { result ≡ option_and_then other_speed other }
{
    match other {
        None => None,
        Some(speed) => other_speed(speed),
    }
}

fn low_is_excluded(background: Background, evidence: Evidence) -> bool
    ensures { result ≡ low_is_excluded background evidence }
{
    background.other.is_some()
        || background.is_hub
        || packet_excludes_low(background.packet)
        || evidence.above_low
}

fn packet_excludes_low(packet: Option<u8>) -> bool
    ensures { result ≡ packet_excludes_low packet }
{
    match packet {
        None => false,
        Some(packet) => packet > 8,
    }
}

fn without_low(is_low_excluded: bool, speed: SetSpeed) -> SetSpeed
    ensures { result ≡ without_low is_low_excluded speed }
{
    match (is_low_excluded, speed) {
        (true, SetSpeed::LowOrFull) => SetSpeed::Full,
        _ => speed,
    }
}

fn speed_of_packet(packet: Option<u8>) -> Option<SetSpeed>
    ensures { result ≡ speed_of_packet packet }
{
    match packet {
        None => None,
        Some(packet) => {
            if packet == 64 {
                None
            } else {
                Some(SetSpeed::LowOrFull)
            }
        }
    }
}

/// The speed that descriptors prove. A companion proves nothing of a set whose device isn't of SuperSpeed.
fn proved_speed(packet: Option<u8>, evidence: Evidence) -> Option<SetSpeed>
    ensures { result ≡ proved_speed packet evidence }
{
    if evidence.companion && packet.is_none() {
        Some(SetSpeed::Super)
    } else if evidence.high {
        Some(SetSpeed::High)
    } else if evidence.full {
        Some(SetSpeed::Full)
    } else {
        None
    }
}

fn hinted_speed(hinted: Option<SetSpeed>, evidence: Evidence) -> SetSpeed
    ensures { result ≡ hinted_speed hinted evidence }
{
    match hinted {
        Some(speed) => speed,
        None => {
            if evidence.slow {
                SetSpeed::LowOrFull
            } else {
                SetSpeed::FullOrHigh
            }
        }
    }
}
