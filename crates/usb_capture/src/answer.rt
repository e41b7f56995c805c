//! What one transfer alone shows.
ghost use Rattle.std.specs.Prelude.{◌≡◌};
ghost use Rattle.usb_capture.specs.Findings.{brings_descriptor, differ, gives, has_more_than_asked, has_other_length, has_other_type, is_answered, is_first_packet, is_stall, is_standard_type, length_bytes, reads_status, refuses_descriptor, refuses_status};

use crate::control_transfer::ControlTransfer;
use crate::ending::Ending;
use crate::readings::{full_length, is_done, reads_descriptor};
use usb_fields::{Setup, byte_at};

/// Whether bytes of the descriptor came that was asked for.
pub(crate) fn gives(transfer: &ControlTransfer) -> bool
    ensures { result ≡ gives transfer.now }
{
    let data = transfer.data.as_slice();
    reads_descriptor(&transfer.setup)
        && is_done(transfer.ending)
        && !transfer.is_cut
        && data.len() > 1
        && u16::from(byte_at(data, 1)) == transfer.setup.value / 256
}

/// Whether more bytes came or went than wLength says (USB 2.0, 8.5.3 and 9.3.5).
pub(crate) fn has_more_than_asked(transfer: &ControlTransfer) -> bool
    ensures { result ≡ has_more_than_asked transfer.now }
{
    is_answered(transfer.ending) && u32::from(transfer.setup.length) < transfer.length
}

/// Whether a descriptor came of another type than was asked for.
pub(crate) fn has_other_type(transfer: &ControlTransfer) -> bool
    ensures { result ≡ has_other_type transfer.now }
{
    brings_descriptor(transfer)
        && u16::from(byte_at(transfer.data.as_slice(), 1)) != transfer.setup.value / 256
}

/// Whether neither all bytes of a descriptor nor wLength bytes came.
pub(crate) fn has_other_length(transfer: &ControlTransfer) -> bool
    ensures { result ≡ has_other_length transfer.now }
{
    let kind = (transfer.setup.value / 256) as u8;
    let data = transfer.data.as_slice();
    brings_descriptor(transfer)
        && byte_at(data, 1) == kind
        && data.len() >= length_bytes(kind)
        && transfer.length as usize
            != usize::from(transfer.setup.length).min(full_length(kind, data))
        && !is_first_packet(kind, transfer)
}

/// Whether two lists differ where both have a byte.
pub(crate) fn differ(b: &[u8], c: &[u8]) -> bool
    ensures { result ≡ differ b.now c.now }
{
    b.iter().zip(c.iter()).any(|(x, y)| *x != *y)
}

/// Whether it is a device's GET_DESCRIPTOR, answered with STALL.
pub(crate) fn refuses_descriptor(transfer: &ControlTransfer) -> bool
    ensures { result ≡ refuses_descriptor transfer.now }
{
    reads_descriptor(&transfer.setup) && is_stall(transfer.ending)
}

/// Whether it is GET_STATUS of the device, answered with STALL.
pub(crate) fn refuses_status(transfer: &ControlTransfer) -> bool
    ensures { result ≡ refuses_status transfer.now }
{
    is_stall(transfer.ending) && reads_status(&transfer.setup) && transfer.device > 0
}

/// Whether it is GET_STATUS of the device (USB 2.0, table 9-4).
fn reads_status(setup: &Setup) -> bool
    ensures { result ≡ reads_status setup.now }
{
    setup.request_type == 0x80
        && setup.request == 0
        && setup.value == 0
        && setup.index == 0
        && setup.length == 2
}

/// Whether the device took part in a transfer.
fn is_answered(ending: Ending) -> bool
    ensures { result ≡ is_answered ending }
{
    match ending {
        Ending::Done | Ending::Stall | Ending::Failed(_) => true,
        Ending::Unseen | Ending::Refused(_) => false,
    }
}

/// Whether a transfer was answered with STALL.
pub(crate) fn is_stall(ending: Ending) -> bool
    ensures { result ≡ is_stall ending }
{
    match ending {
        Ending::Stall => true,
        Ending::Unseen | Ending::Done | Ending::Failed(_) | Ending::Refused(_) => false,
    }
}

/// Whether bytes came by GET_DESCRIPTOR of a descriptor that a device has.
fn brings_descriptor(transfer: &ControlTransfer) -> bool
    ensures { result ≡ brings_descriptor transfer.now }
{
    reads_descriptor(&transfer.setup)
        && is_done(transfer.ending)
        && !transfer.is_cut
        && is_standard_type(transfer.setup.value / 256)
        && transfer.data.len() > 1
}

/// Whether GET_DESCRIPTOR of a device has this type (USB 2.0, table 9-5).
fn is_standard_type(kind: u16) -> bool
    ensures { result ≡ is_standard_type kind }
{
    kind == 1 || kind == 2 || kind == 3 || kind == 6 || kind == 7
}

/// How many bytes of a descriptor it takes to know its length.
fn length_bytes(kind: u8) -> usize
    ensures { result ≡ length_bytes kind }
{
    if kind == 2 || kind == 7 { 4 } else { 1 }
}

/// Whether as many bytes of the device descriptor came as it says that a packet has.
fn is_first_packet(kind: u8, transfer: &ControlTransfer) -> bool
    ensures { result ≡ is_first_packet kind transfer.now }
{
    kind == 1 && transfer.length == u32::from(byte_at(transfer.data.as_slice(), 7))
}
