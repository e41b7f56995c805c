//! The endpoint descriptor: what it says, in words.
ghost use Rattle.std.specs.Prelude.{◌≡◌, ◌∷◌, [], IsTrue, OnOk};
ghost use Rattle.usb_set.specs.Descriptors.{number_of, transactions_of, transfer_type_of};
ghost use Rattle.usb_text.specs.Shown.{Number, showing_all};
ghost use Rattle.usb_text.specs.Written.{is_words};
ghost use Rattle.usb_explain.specs.Endpoints.{address_value, endpoint_interval, endpoint_shown, has_packets, interval_value, packets_shown, size_shown, size_value};
ghost use Rattle.usb_explain.specs.Speeds.{interval_at};

use crate::form::interval::{is_periodic, put_interval};
use std::alloc::AllocError;
use usb_fields::{Direction, byte_at, word_at};
use usb_remarks::{SetSpeed, has_multiple};
use usb_set::TransferType;
use usb_text::Page;

/// Puts the end that bEndpointAddress names: `EP 1 IN`. A control endpoint goes both ways: `EP 1`.
fn put_end<P: Page>(page: &mut P, attributes: u8, address: u8) -> Result<(), AllocError>
    ensures { OnOk result (P.seen page.new ≡ P.showing (Number (number_of address)) (P.seen page.old)) }
{
    page.put("EP ")?;
    page.put_decimal(u64::from(address % 16))?;
    page.put(way(TransferType::of(attributes), address))
}

fn way(transfer: TransferType, address: u8) -> &'static str
    ensures { IsTrue (is_words result.now) }
{
    match (transfer, Direction::of(address)) {
        (TransferType::Control, _) => "",
        (_, Direction::Out) => " OUT",
        (_, Direction::In) => " IN",
    }
}

/// Puts what bmAttributes says: `bulk`, or `isochronous, adaptive, data`.
#[inline(always)]
fn put_attributes<P: Page>(page: &mut P, attributes: u8) -> Result<(), AllocError>
    ensures { OnOk result (P.seen page.new ≡ P.seen page.old) }
{
    match TransferType::of(attributes) {
        TransferType::Control => page.put("control"),
        TransferType::Isochronous => {
            page.put("isochronous")?;
            page.put(synchronization(attributes))?;
            page.put(usage(attributes))
        }
        TransferType::Bulk => page.put("bulk"),
        TransferType::Interrupt => page.put("interrupt"),
    }
}

fn synchronization(attributes: u8) -> &'static str
    ensures { IsTrue (is_words result.now) }
{
    match attributes / 4 % 4 {
        0 => ", no synchronization",
        1 => ", asynchronous",
        2 => ", adaptive",
        _ => ", synchronous",
    }
}

fn usage(attributes: u8) -> &'static str
    ensures { IsTrue (is_words result.now) }
{
    match attributes / 16 % 4 {
        0 => ", data",
        1 => ", feedback",
        2 => ", implicit feedback data",
        _ => ", reserved usage",
    }
}

/// Puts what wMaxPacketSize says of an endpoint of these attributes at a speed: `64 bytes`, or `2 x 1024 bytes a
/// microframe`.
///
/// ```rust
/// put_size(&mut lines, SetSpeed::High, 1, 0x1400)?;
/// assert_eq!(rt; lines.as_bytes(), b"3 x 1024 bytes a microframe");
/// ```
#[inline(always)]
#[tactic(auto, unfolding(crate::specs::Endpoints::size_shown))]
fn put_size<P: Page>(
    page: &mut P,
    speed: SetSpeed,
    attributes: u8,
    max_packet: u16,
) -> Result<(), AllocError>
    ensures { OnOk result (P.seen page.new ≡ showing_all P.showing (size_shown speed attributes max_packet) (P.seen page.old)) }
{
    let size = u64::from(max_packet % 2048);
    if has_packets(speed, TransferType::of(attributes), max_packet) {
        put_packets(page, transactions(max_packet), size)
    } else {
        page.put_count(size, "byte")
    }
}

/// Whether bits 12..11 of wMaxPacketSize count packets: at high speed, or where that is open and their size is one that
/// several in a microframe have.
fn has_packets(speed: SetSpeed, transfer: TransferType, max_packet: u16) -> bool
    ensures { result ≡ has_packets speed transfer max_packet }
{
    match (speed, transfer) {
        (SetSpeed::High, TransferType::Isochronous | TransferType::Interrupt) => true,
        (SetSpeed::FullOrHigh, TransferType::Isochronous | TransferType::Interrupt) => {
            has_multiple(max_packet)
        }
        _ => false,
    }
}

/// How many packets a microframe has by bits 12..11 of wMaxPacketSize; none is the reserved value.
fn transactions(max_packet: u16) -> Option<u8>
    ensures { result ≡ transactions_of max_packet }
{
    match max_packet / 2048 % 4 {
        0 => Some(1),
        1 => Some(2),
        2 => Some(3),
        _ => None,
    }
}

fn put_packets<P: Page>(page: &mut P, packets: Option<u8>, size: u64) -> Result<(), AllocError>
    ensures { OnOk result (P.seen page.new ≡ showing_all P.showing (packets_shown packets size) (P.seen page.old)) }
{
    match packets {
        None => {
            page.put_count(size, "byte")?;
            page.put(", reserved multiple")
        }
        Some(1) => page.put_count(size, "byte"),
        Some(packets) => {
            page.put_decimal(u64::from(packets))?;
            page.put(" x ")?;
            page.put_count(size, "byte")?;
            page.put(" a microframe")
        }
    }
}

/// Puts the words of an endpoint descriptor's heading (USB 2.0, 9.6.6).
#[inline(always)]
#[tactic(auto, using(usb_text::proofs::ShownLines::showing_joined), unfolding(crate::specs::Endpoints::endpoint_shown))]
pub(crate) fn put_endpoint_words<P: Page>(
    page: &mut P,
    speed: SetSpeed,
    b: &[u8],
) -> Result<(), AllocError>
    ensures { OnOk result (P.seen page.new ≡ showing_all P.showing (endpoint_shown speed b.now) (P.seen page.old)) }
{
    let attributes = byte_at(b, 3);
    page.put("endpoint ")?;
    put_address(page, attributes, byte_at(b, 2))?;
    page.put(", ")?;
    put_attributes(page, attributes)?;
    page.put(", ")?;
    put_size(page, speed, attributes, word_at(b, 4))?;
    put_interval_after(page, ", ", speed, attributes, byte_at(b, 6), "")
}

/// Puts the interval of an endpoint of these attributes between other words, if it is periodic.
#[inline(always)]
fn put_interval_after<P: Page>(
    page: &mut P,
    before: &str,
    speed: SetSpeed,
    attributes: u8,
    interval: u8,
    after: &str,
) -> Result<(), AllocError>
    requires before { IsTrue (is_words before.now) }
    requires after { IsTrue (is_words after.now) }
    ensures { OnOk result (P.seen page.new ≡ showing_all P.showing (endpoint_interval speed attributes interval) (P.seen page.old)) }
{
    if is_periodic(attributes) {
        page.put(before)?;
        put_interval(page, speed, attributes, interval)?;
        page.put(after)
    } else {
        Ok(())
    }
}

/// Puts bEndpointAddress of an endpoint of these attributes: `0x81 (EP 1 IN)`.
#[inline(always)]
pub(crate) fn put_address<P: Page>(
    page: &mut P,
    attributes: u8,
    address: u8,
) -> Result<(), AllocError>
    ensures { OnOk result (P.seen page.new ≡ showing_all P.showing (address_value address) (P.seen page.old)) }
{
    page.begin_byte_meaning(address)?;
    put_end(page, attributes, address)?;
    page.put(")")
}

/// Puts bmAttributes of an endpoint.
#[inline(always)]
pub(crate) fn put_attributes_value<P: Page>(page: &mut P, attributes: u8) -> Result<(), AllocError>
    ensures { OnOk result (P.seen page.new ≡ showing_all P.showing (Number attributes ∷ []) (P.seen page.old)) }
{
    page.begin_byte_meaning(attributes)?;
    put_attributes(page, attributes)?;
    page.put(")")
}

/// Puts wMaxPacketSize of an endpoint of these attributes at a speed.
pub(crate) fn put_size_value<P: Page>(
    page: &mut P,
    speed: SetSpeed,
    attributes: u8,
    max_packet: u16,
) -> Result<(), AllocError>
    ensures { OnOk result (P.seen page.new ≡ showing_all P.showing (size_value speed attributes max_packet) (P.seen page.old)) }
{
    page.begin_word_meaning(max_packet)?;
    put_size(page, speed, attributes, max_packet)?;
    page.put(")")
}

/// Puts bInterval of an endpoint of these attributes.
#[inline(always)]
pub(crate) fn put_interval_value<P: Page>(
    page: &mut P,
    speed: SetSpeed,
    attributes: u8,
    interval: u8,
) -> Result<(), AllocError>
    ensures { OnOk result (P.seen page.new ≡ showing_all P.showing (interval_value speed attributes interval) (P.seen page.old)) }
{
    page.put_decimal(u64::from(interval))?;
    put_interval_after(page, " (", speed, attributes, interval, ")")
}
