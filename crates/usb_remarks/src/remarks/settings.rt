//! What is remarked of an interface by the descriptors of its setting, and of an endpoint by its setting.
ghost use Rattle.std.specs.Prelude.{◌≡◌};
ghost use Rattle.std.specs.Option.{option_copied};
ghost use Rattle.usb_remarks.specs.SettingRemarks.{default_remark, empty_remark, has_functions, has_wanted, in_default_setting, is_bulk_endpoint, is_default, is_interrupt_in, is_wanted, lack_remark, pipe_remark, setting_remark};
ghost use Rattle.usb_walk.specs.Trees.{descriptors};

use crate::remark::{Remark, remark_if};
use crate::speed::SetSpeed;
use usb_fields::{after, byte_at, prefix};
use usb_set::TransferType;
use usb_walk::{DescriptorOwner, InterfaceSetting, descriptor_length, is_endpoint, is_interface};

/// What the setting of an interface of some classes has to have.
#[derive(Clone, Copy, Debug, PartialEq, Eq, Hash)]
pub(crate) enum Wanted {
    /// A HID descriptor.
    HidDescriptor,
    /// An interrupt endpoint to the host.
    InterruptIn,
    /// A bulk endpoint to the host.
    BulkIn,
    /// A bulk endpoint from the host.
    BulkOut,
    /// The header of functional descriptors.
    FunctionalHeader,
}

fn is_bulk_endpoint(d: &[u8]) -> bool
    ensures { result ≡ is_bulk_endpoint d.now }
{
    is_endpoint(d) && matches!(TransferType::of(byte_at(d, 3)), TransferType::Bulk)
}

fn is_interrupt_in(d: &[u8]) -> bool
    ensures { result ≡ is_interrupt_in d.now }
{
    is_endpoint(d)
        && matches!(TransferType::of(byte_at(d, 3)), TransferType::Interrupt)
        && byte_at(d, 2) >= 0x80
}

fn is_wanted(wanted: Wanted, d: &[u8]) -> bool
    ensures { result ≡ is_wanted wanted d.now }
{
    match wanted {
        Wanted::HidDescriptor => byte_at(d, 1) == 0x21,
        Wanted::InterruptIn => is_interrupt_in(d),
        Wanted::BulkIn => is_bulk_endpoint(d) && byte_at(d, 2) >= 0x80,
        Wanted::BulkOut => is_bulk_endpoint(d) && byte_at(d, 2) < 0x80,
        Wanted::FunctionalHeader => byte_at(d, 1) == 0x24 && d.len() >= 3 && byte_at(d, 2) == 0,
    }
}

/// Whether one of the descriptors up to the next interface is what is wanted.
fn has_wanted(wanted: Wanted, set: &[u8]) -> bool
    ensures { result ≡ has_wanted wanted (descriptors set.now) }
{
    let mut rest = set;
    while let Some(length) = descriptor_length(rest) {
        let d = prefix(rest, length);
        if is_interface(d) {
            return false;
        }
        if is_wanted(wanted, d) {
            return true;
        }
        rest = after(rest, length);
    }
    false
}

/// Whether a communications interface of this subclass has functional descriptors.
fn has_functions(subclass: u8) -> bool
    ensures { result ≡ has_functions subclass }
{
    0 < subclass && subclass <= 0x0e && subclass != 0x0c
}

/// A remark on what an interface lacks before the next one.
fn lack_remark(class: u8, subclass: u8, protocol: u8, rest: &[u8]) -> Option<Remark>
    ensures { result ≡ lack_remark class subclass protocol (descriptors rest.now) }
{
    if class == 0x03 {
        let has_hid = has_wanted(Wanted::HidDescriptor, rest);
        remark_if(!has_hid, Remark::NoHidDescriptor)
    } else if class == 0x08 && protocol == 0x50 {
        let has_in = has_wanted(Wanted::BulkIn, rest);
        let has_out = has_wanted(Wanted::BulkOut, rest);
        remark_if(!(has_in && has_out), Remark::OneDirection)
    } else if class == 0x02 && has_functions(subclass) {
        let has_header = has_wanted(Wanted::FunctionalHeader, rest);
        remark_if(!has_header, Remark::NoFunctionalHeader)
    } else {
        None
    }
}

/// A remark on what the setting that an interface descriptor begins lacks. Nothing is said where its set isn't all there.
pub(crate) fn setting_remark(d: &[u8], rest: Option<&[u8]>) -> Option<Remark>
    ensures { result ≡ setting_remark d.now (option_copied rest.entry) }
{
    match rest {
        None => None,
        Some(rest) => lack_remark(byte_at(d, 5), byte_at(d, 6), byte_at(d, 7), rest),
    }
}

/// A remark on a HID interface without an interrupt endpoint to the host (HID 1.11, 4.4).
pub(crate) fn pipe_remark(d: &[u8], rest: Option<&[u8]>) -> Option<Remark>
    ensures { result ≡ pipe_remark d.now (option_copied rest.entry) }
{
    match rest {
        None => None,
        Some(rest) => {
            if byte_at(d, 5) == 0x03 {
                let has_in = has_wanted(Wanted::InterruptIn, rest);
                remark_if(!has_in, Remark::NoInterruptIn)
            } else {
                None
            }
        }
    }
}

fn is_default(setting: Option<InterfaceSetting>) -> bool
    ensures { result ≡ is_default setting }
{
    match setting {
        None => false,
        Some(setting) => setting.alternate == 0,
    }
}

fn in_default_setting(owner: Option<DescriptorOwner>) -> bool
    ensures { result ≡ in_default_setting owner }
{
    match owner {
        None => false,
        Some(owner) => is_default(owner.setting),
    }
}

/// A remark on an endpoint of alternate setting 0: isochronous with packets (USB 2.0, 5.6.3), or interrupt with packets of over 64
/// bytes at high speed (5.7.3).
pub(crate) fn default_remark(
    speed: SetSpeed,
    transfer: TransferType,
    owner: Option<DescriptorOwner>,
    size: u16,
) -> Option<Remark>
    ensures { result ≡ default_remark speed transfer owner size }
{
    match (speed, transfer) {
        (SetSpeed::Super, _) => None,
        (_, TransferType::Isochronous) => remark_if(
            in_default_setting(owner) && size != 0,
            Remark::DefaultIsochronous { found: size },
        ),
        (SetSpeed::High, TransferType::Interrupt) => remark_if(
            in_default_setting(owner) && size > 64,
            Remark::DefaultInterrupt { found: size },
        ),
        _ => None,
    }
}

/// A remark on packets of 0 bytes where no further setting has greater ones.
pub(crate) fn empty_remark(
    owner: Option<DescriptorOwner>,
    size: u16,
    follows: bool,
    rest: Option<&[u8]>,
) -> Option<Remark>
    ensures { result ≡ empty_remark owner size follows (option_copied rest.entry) }
{
    match rest {
        None => None,
        Some(_) => remark_if(
            size == 0 && in_default_setting(owner) && !follows,
            Remark::EmptyPackets,
        ),
    }
}
