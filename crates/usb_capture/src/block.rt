//! Blocks of a pcapng file (draft-ietf-opsawg-pcapng). Of a block of `n` bytes these functions get the first, `b`.
ghost use Rattle.std.specs.Prelude.{◌≡◌, slice_get};
ghost use Rattle.usb_capture.specs.Pcapng.{block_content, block_length, block_order, interface_content, is_section, is_total, ordered_content, packet_content, section_content, section_order, simple_content, simple_length, total, typed_content};

use crate::clock::Clock;
use crate::content::{Content, Head, Layout};
use crate::fault::CaptureFault;
use crate::interface::Interface;
use crate::order::ByteOrder;
use usb_fields::{after, prefix};

/// Block Type of a section header, which reads the same in both orders.
const SECTION: u32 = 0x0a0d_0d0a;

/// Byte-Order Magic of a section header.
const ORDER: u32 = 0x1a2b_3c4d;

/// The most interfaces of a section.
const MOST_INTERFACES: usize = 65_536;

/// The most bytes that an interface's description has.
const MOST_DESCRIPTION: u64 = 65_627;

/// Whether a section header begins here.
pub(crate) fn is_section(b: &[u8]) -> bool
    ensures { result ≡ is_section b.now }
{
    ByteOrder::Big.number_at(b, 0) == SECTION
}

/// The order of a section's numbers.
fn section_order(b: &[u8]) -> Option<ByteOrder>
    ensures { result ≡ section_order b.now }
{
    if ByteOrder::Little.number_at(b, 8) == ORDER {
        Some(ByteOrder::Little)
    } else if ByteOrder::Big.number_at(b, 8) == ORDER {
        Some(ByteOrder::Big)
    } else {
        None
    }
}

/// The order of a block's numbers, where the section before it has this one.
fn block_order(order: ByteOrder, b: &[u8]) -> Option<ByteOrder>
    ensures { result ≡ block_order order b.now }
{
    if is_section(b) {
        section_order(b)
    } else {
        Some(order)
    }
}

/// Whether a block can have this many bytes.
fn is_total(n: u32) -> bool
    ensures { result ≡ is_total n }
{
    12 <= n && n % 4 == 0
}

/// How many bytes a block has, as far as these tell.
pub(crate) fn block_length(order: ByteOrder, b: &[u8]) -> u32
    ensures { result ≡ block_length order b.now }
{
    if b.len() < 12 {
        return 12;
    }
    total(block_order(order, b), b)
}

/// How many bytes a block has of which there are 12, or 12 if it can't be known.
fn total(order: Option<ByteOrder>, b: &[u8]) -> u32
    ensures { result ≡ total order b.now }
{
    let Some(order) = order else {
        return 12;
    };
    let n = order.number_at(b, 4);
    if is_total(n) { n } else { 12 }
}

/// What a block says, whose last four bytes are these.
///
/// # Errors
///
/// The first fault of the block.
pub(crate) fn read(
    order: ByteOrder,
    interfaces: &[Interface],
    b: &[u8],
    n: u64,
    last: &[u8],
) -> Result<Content, CaptureFault>
    ensures { result ≡ block_content order interfaces.now b.now n last.now }
{
    let Some(order) = block_order(order, b) else {
        return Err(CaptureFault::Order);
    };
    if !is_total(order.number_at(b, 4)) {
        return Err(CaptureFault::Length);
    }
    if u64::from(order.number_at(last, 0)) != n {
        return Err(CaptureFault::Trailer);
    }
    typed(order, interfaces, b, n)
}

/// What a block says, by its type.
fn typed(
    order: ByteOrder,
    interfaces: &[Interface],
    b: &[u8],
    n: u64,
) -> Result<Content, CaptureFault>
    ensures { result ≡ typed_content order interfaces.now b.now n }
{
    match order.number_at(b, 0) {
        SECTION => section(order, b, n),
        1 => interface(order, interfaces, b, n),
        3 if n < 16 => Err(CaptureFault::Length),
        3 => simple(order, interface_at(interfaces, 0), b, n),
        2 | 6 if n < 32 => Err(CaptureFault::Length),
        6 => packet(order, interface_at(interfaces, order.number_at(b, 8)), b, n),
        2 => packet(
            order,
            interface_at(interfaces, u32::from(order.short_at(b, 8))),
            b,
            n,
        ),
        _ => Ok(Content::Other),
    }
}

/// The interface of this number.
fn interface_at(interfaces: &[Interface], number: u32) -> Option<Interface>
    ensures { result ≡ slice_get interfaces.now number }
{
    interfaces.get(number as usize).copied()
}

/// Section Header Block.
fn section(order: ByteOrder, b: &[u8], n: u64) -> Result<Content, CaptureFault>
    ensures { result ≡ section_content order b.now n }
{
    if n < 28 {
        return Err(CaptureFault::Length);
    }
    if order.short_at(b, 12) != 1 {
        return Err(CaptureFault::Version);
    }
    Ok(Content::Section(order))
}

/// Interface Description Block.
fn interface(
    order: ByteOrder,
    interfaces: &[Interface],
    b: &[u8],
    n: u64,
) -> Result<Content, CaptureFault>
    ensures { result ≡ interface_content order interfaces.now b.now n }
{
    if n < 20 {
        return Err(CaptureFault::Length);
    }
    if n > MOST_DESCRIPTION {
        return Err(CaptureFault::Long);
    }
    if interfaces.len() >= MOST_INTERFACES {
        return Err(CaptureFault::Interfaces);
    }
    let options = prefix(after(b, 16), (n - 20) as usize);
    let Some(clock) = Clock::of_options(order, options) else {
        return Err(CaptureFault::Options);
    };
    Ok(Content::Interface(Interface {
        link: order.short_at(b, 8),
        most: order.number_at(b, 12),
        clock,
    }))
}

/// Enhanced Packet Block, and Packet Block.
fn packet(
    order: ByteOrder,
    interface: Option<Interface>,
    b: &[u8],
    n: u64,
) -> Result<Content, CaptureFault>
    ensures { result ≡ packet_content order interface b.now n }
{
    let Some(interface) = interface else {
        return Err(CaptureFault::Interface);
    };
    let captured = order.number_at(b, 20);
    if n < 32 + u64::from(captured) {
        return Err(CaptureFault::Data);
    }
    let high = u64::from(order.number_at(b, 12));
    let low = u64::from(order.number_at(b, 16));
    Ok(Content::Packet(Head {
        time: interface.clock.time(4_294_967_296 * high + low),
        link: interface.link,
        order,
        captured,
        original: order.number_at(b, 24),
        layout: Layout::Enhanced,
    }))
}

/// Simple Packet Block.
fn simple(
    order: ByteOrder,
    interface: Option<Interface>,
    b: &[u8],
    n: u64,
) -> Result<Content, CaptureFault>
    ensures { result ≡ simple_content order interface b.now n }
{
    let Some(interface) = interface else {
        return Err(CaptureFault::Interface);
    };
    let original = order.number_at(b, 8);
    let captured = simple_length(interface, original);
    if n < 16 + u64::from(captured) {
        return Err(CaptureFault::Data);
    }
    Ok(Content::Packet(Head {
        time: None,
        link: interface.link,
        order,
        captured,
        original,
        layout: Layout::Simple,
    }))
}

/// How many of this many bytes an interface captures.
fn simple_length(interface: Interface, original: u32) -> u32
    ensures { result ≡ simple_length interface original }
{
    if interface.most == 0 {
        original
    } else {
        original.min(interface.most)
    }
}
