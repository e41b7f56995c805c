//! The remarks on a descriptor.
ghost use Rattle.std.specs.Prelude.{◌≡◌, ◌++◌};
ghost use Rattle.std.specs.List.{flat_map};
ghost use Rattle.usb_remarks.specs.Outline.{described};
ghost use Rattle.usb_remarks.specs.RemarkValues.{there};
ghost use Rattle.usb_remarks.specs.Remarks.{endpoint_remarks, raw_remarks, remarks_on};

pub(crate) mod classes;
mod devices;
mod endpoint_addresses;
mod headers;
mod intervals;
mod settings;
mod strings;

use crate::descriptor::Descriptor;
use crate::outline_state::device_codes;
use crate::remark::{
    Remark, association_class_remark, attributes_remark, class_remark, multiple_remark, remark_if,
    size_remark,
};
use crate::remarks::classes::{
    class_release_remark, functional_remark, hid_length_remark, hid_report_remark, late_remark,
};
use crate::remarks::devices::{
    associations_remark, count_remark, device_class_remark, one_speed_remark, packet_remark,
    power_remark, qualifier_release_remark, release_remark,
};
use crate::remarks::endpoint_addresses::endpoints_remark;
use crate::remarks::headers::header_remark;
use crate::remarks::intervals::interval_remark;
use crate::remarks::settings::{default_remark, empty_remark, pipe_remark, setting_remark};
use crate::remarks::strings::{languages_remark, text_remark};
use usb_fields::{byte_at, word_at};
use usb_set::TransferType;
use usb_walk::Role;

impl Descriptor<'_> {
    /// What is remarked of it, which is no finding: reserved classes and bits, values that the speed of its set doesn't have, and
    /// what the standards of classes ask for. There are six at most, in the order in which an explanation has them.
    ///
    /// ```rust
    /// for remark in descriptor.remarks().into_iter().flatten() {
    ///     println!(rt; "{remark:?} at {}", descriptor.at)?;
    /// }
    /// ```
    #[tactic(auto, unfolding(crate::specs::Remarks::remarks_on))]
    pub fn remarks(&self) -> [Option<Remark>; 6]
        ensures { flat_map there result ≡ remarks_on self.now.role (described self.now) }
    {
        let b = self.bytes;
        match self.role {
            Role::Device => self.device_remarks(),
            Role::Qualifier => self.qualifier_remarks(),
            Role::Configuration => two(
                power_remark(self.speed, byte_at(b, 8)),
                endpoints_remark(self.speed, self.rest),
            ),
            Role::Association => two(
                association_class_remark(byte_at(b, 4)),
                remark_if(self.is_late, Remark::LateAssociation),
            ),
            Role::Interface => three(
                class_remark(byte_at(b, 5)),
                setting_remark(b, self.rest),
                pipe_remark(b, self.rest),
            ),
            Role::Endpoint => self.endpoint_remarks(),
            Role::Raw => self.raw_remarks(),
            Role::Languages => one(languages_remark(b)),
            Role::Text => one(text_remark(b)),
        }
    }

    /// Those on a device.
    #[tactic(auto, unfolding(crate::specs::Remarks::remarks_on))]
    fn device_remarks(&self) -> [Option<Remark>; 6]
        ensures { flat_map there result ≡ remarks_on Role.Device (described self.now) }
    {
        let b = self.bytes;
        [
            release_remark(word_at(b, 2)),
            device_class_remark(byte_at(b, 4)),
            packet_remark(self.speed, byte_at(b, 7)),
            count_remark(byte_at(b, 17), self.findings),
            associations_remark(device_codes(b), self.has_associations),
            None,
        ]
    }

    /// Those on a qualifier.
    #[tactic(auto, unfolding(crate::specs::Remarks::remarks_on))]
    fn qualifier_remarks(&self) -> [Option<Remark>; 6]
        ensures { flat_map there result ≡ remarks_on Role.Qualifier (described self.now) }
    {
        let b = self.bytes;
        [
            qualifier_release_remark(word_at(b, 2)),
            device_class_remark(byte_at(b, 4)),
            packet_remark(self.speed, byte_at(b, 7)),
            count_remark(byte_at(b, 8), self.findings),
            associations_remark(device_codes(b), self.has_associations),
            one_speed_remark(self.one_speed),
        ]
    }

    /// Those on an endpoint.
    #[tactic(auto, unfolding(crate::specs::Remarks::endpoint_remarks))]
    fn endpoint_remarks(&self) -> [Option<Remark>; 6]
        ensures { flat_map there result ≡ endpoint_remarks (described self.now) }
    {
        let (b, speed) = (self.bytes, self.speed);
        let transfer = TransferType::of(byte_at(b, 3));
        let max_packet = word_at(b, 4);
        [
            interval_remark(speed, transfer, byte_at(b, 6)),
            size_remark(speed, transfer, max_packet % 2048),
            multiple_remark(speed, transfer, max_packet),
            attributes_remark(speed, transfer, byte_at(b, 3)),
            default_remark(speed, transfer, self.owner, max_packet % 2048),
            empty_remark(self.owner, max_packet % 2048, self.follows, self.rest),
        ]
    }

    /// Those on a descriptor that has no type of its own.
    #[tactic(auto, unfolding(crate::specs::Remarks::raw_remarks))]
    fn raw_remarks(&self) -> [Option<Remark>; 6]
        ensures { flat_map there result ≡ raw_remarks (described self.now) }
    {
        let (interface, b) = (self.interface, self.bytes);
        [
            header_remark(interface, b, self.rest),
            hid_length_remark(interface, b),
            hid_report_remark(interface, b),
            late_remark(interface, self.owner, b),
            functional_remark(interface, b, self.missing, self.rest),
            class_release_remark(interface, b),
        ]
    }
}

/// A remark, if there is one.
fn one(remark: Option<Remark>) -> [Option<Remark>; 6]
    ensures { flat_map there result ≡ there remark }
{
    [remark, None, None, None, None, None]
}

/// Two remarks, if there are any.
fn two(one: Option<Remark>, other: Option<Remark>) -> [Option<Remark>; 6]
    ensures { flat_map there result ≡ there one ++ there other }
{
    [one, other, None, None, None, None]
}

/// Three remarks, if there are any.
fn three(one: Option<Remark>, other: Option<Remark>, last: Option<Remark>) -> [Option<Remark>; 6]
    ensures { flat_map there result ≡ there one ++ (there other ++ there last) }
{
    [one, other, last, None, None, None]
}
