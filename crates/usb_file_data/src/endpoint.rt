//! V5 to V8 and V12: endpoints, of one setting and of a whole set.
ghost use Rattle.std.specs.Prelude.{◌≡◌, length, OnOk};
ghost use Rattle.usb_file_data.specs.Causes.{address_cause};
ghost use Rattle.usb_file_data.specs.declared.cause.Cause.TheVariants as causes;
ghost use Rattle.usb_file_data.specs.Places.{when};
ghost use Rattle.usb_file_data.specs.inside.Walk.{broken};
ghost use Rattle.usb_file_data.specs.Rules.{wrong_address, wrong_packet_size};
ghost use Rattle.usb_file_data.specs.Rules.{wrong_endpoint_count};
ghost use Rattle.usb_file_data.specs.inside.Reports.{reported};

use crate::addresses::Claimed;
use crate::cause::Cause;
use crate::place::Place;
use crate::report::Report;
use std::alloc::AllocError;
use usb_set::{Endpoint, Setting};

/// Bits 3 to 0 of bEndpointAddress.
const NUMBER: u8 = 0x0f;

/// Bits 6 to 4 of bEndpointAddress, which are always zero.
const RESERVED: u8 = 0x70;

/// Bits 15 to 13 of wMaxPacketSize, which are always zero.
const RESERVED_SIZE: u16 = 0xe000;

#[inline(always)]
#[tactic(auto, using(crate::proofs::Reporting::reported_none))]
pub(crate) fn check_address(found: &mut Report, place: Place, address: u8) -> Result<(), AllocError>
    ensures { OnOk result (found.new ≡ reported found.old (when (wrong_address address) (broken (address_cause address) place))) }
{
    if !is_wrong_address(address) {
        return Ok(());
    }
    let cause = Cause::Address {
        endpoint_zero: address & NUMBER == 0,
        reserved: address & RESERVED != 0,
    };
    found.report(cause, true, place)
}

/// Whether it names endpoint 0, or one of bits 6 to 4 is one.
#[inline(always)]
fn is_wrong_address(address: u8) -> bool
    ensures { result ≡ wrong_address address }
{
    address & NUMBER == 0 || address & RESERVED != 0
}

pub(crate) fn check_packet_size(
    found: &mut Report,
    place: Place,
    e: &Endpoint,
) -> Result<(), AllocError>
    ensures { OnOk result (found.new ≡ reported found.old (when (wrong_packet_size e.now.max_packet) (broken causes.PacketSize place))) }
{
    found.report(Cause::PacketSize, e.max_packet & RESERVED_SIZE != 0, place)
}

pub(crate) fn check_endpoint_count(
    found: &mut Report,
    place: Place,
    s: &Setting,
) -> Result<(), AllocError>
    ensures { OnOk result (found.new ≡ reported found.old (when (wrong_endpoint_count s.now) (broken (causes.EndpointCount s.now.declared_endpoints (length s.now.endpoints)) place))) }
{
    let declared = s.declared_endpoints;
    let count = s.endpoints.len();
    let cause = Cause::EndpointCount {
        declared,
        found: count,
    };
    found.report(cause, usize::from(declared) != count, place)
}

pub(crate) fn check_repeated_address(
    found: &mut Report,
    claimed: Claimed,
    place: Place,
) -> Result<(), AllocError>
    ensures { OnOk result (found.new ≡ reported found.old (when claimed.here (broken causes.RepeatedAddress place))) }
{
    found.report(Cause::RepeatedAddress, claimed.here, place)
}

pub(crate) fn check_shared_address(
    found: &mut Report,
    claimed: Claimed,
    place: Place,
) -> Result<(), AllocError>
    ensures { OnOk result (found.new ≡ reported found.old (when claimed.elsewhere (broken causes.SharedAddress place))) }
{
    found.report(Cause::SharedAddress, claimed.elsewhere, place)
}
