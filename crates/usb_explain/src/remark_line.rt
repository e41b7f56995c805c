//! The lines of remarks.
ghost use Rattle.std.specs.Prelude.{◌≡◌, ◌∷◌, [], length, IfOk, IsTrue, OnOk};
ghost use Rattle.std.specs.List.{flat_map};
ghost use Rattle.usb_text.specs.Shown.{Number, showing_all};
ghost use Rattle.usb_text.specs.Written.{is_words};
ghost use Rattle.usb_explain.specs.LastLines.{remarks_of};
ghost use Rattle.usb_remarks.specs.Outline.{described};
ghost use Rattle.usb_explain.specs.RemarkLines.{length_shown, packet_shown, remark_line, remark_lines, remark_shown, sizes_shown, speed_shown, value_shown};
ghost use Rattle.usb_remarks.specs.RemarkValues.{there};

use crate::speed_words::speed_words;
use std::alloc::AllocError;
use usb_remarks::{Descriptor, PacketSizes, Remark, SetSpeed};
use usb_set::TransferType;
use usb_text::Page;
use usb_walk::Role;

fn type_name(transfer: TransferType) -> &'static str
    ensures { IsTrue (is_words result.now) }
{
    match transfer {
        TransferType::Control => "control",
        TransferType::Isochronous => "isochronous",
        TransferType::Bulk => "bulk",
        TransferType::Interrupt => "interrupt",
    }
}

/// Puts a transfer type with its article: `an interrupt`.
fn put_a_type<P: Page>(page: &mut P, transfer: TransferType) -> Result<(), AllocError>
    ensures { OnOk result (P.seen page.new ≡ P.seen page.old) }
{
    page.put(match transfer {
        TransferType::Control | TransferType::Bulk => "a ",
        TransferType::Isochronous | TransferType::Interrupt => "an ",
    })?;
    page.put(type_name(transfer))
}

/// Puts the line of a remark, if there is one, and answers how many lines that is.
fn put_remark<P: Page>(page: &mut P, depth: u8, remark: Option<Remark>) -> Result<usize, AllocError>
    ensures shown { OnOk result (P.seen page.new ≡ showing_all P.showing (flat_map (remark_line depth) (there remark)) (P.seen page.old)) }
    ensures count { IfOk result (λ count. count ≡ length (there remark)) }
{
    match remark {
        None => Ok(0),
        Some(remark) => {
            put_line(page, depth, remark)?;
            Ok(1)
        }
    }
}

#[inline(never)]
#[tactic(auto, using(usb_text::proofs::ShownLines::showing_joined), unfolding(crate::specs::RemarkLines::remark_line))]
fn put_line<P: Page>(page: &mut P, depth: u8, remark: Remark) -> Result<(), AllocError>
    ensures { OnOk result (P.seen page.new ≡ showing_all P.showing (remark_line depth remark) (P.seen page.old)) }
{
    page.put_indent(2 * usize::from(depth) + 2)?;
    page.put("? ")?;
    put_remark_words(page, remark)?;
    page.end_line()
}

/// Puts a remark, in the words of its line.
///
/// ```rust
/// put_remark_words(&mut lines, Remark::ReservedUsage)?;
/// assert_eq!(rt; lines.as_bytes(), b"usage 3 is reserved");
/// ```
///
/// # Errors
///
/// Out of memory.
#[tactic(auto, using(usb_text::proofs::ShownLines::showing_joined))]
pub fn put_remark_words<P: Page>(page: &mut P, remark: Remark) -> Result<(), AllocError>
    ensures { OnOk result (P.seen page.new ≡ showing_all P.showing (remark_shown remark) (P.seen page.old)) }
{
    put_speed_words(page, remark)?;
    put_value_words(page, remark)?;
    put_length_words(page, remark)?;
    page.put(plain_words(remark))
}

/// Puts the words of a remark on what a speed has.
fn put_speed_words<P: Page>(page: &mut P, remark: Remark) -> Result<(), AllocError>
    ensures { OnOk result (P.seen page.new ≡ showing_all P.showing (speed_shown remark) (P.seen page.old)) }
{
    match remark {
        Remark::Interval {
            speed,
            range,
            found,
            ..
        } => {
            page.put("bInterval is ")?;
            page.put_decimal(u64::from(found))?;
            page.put("; at ")?;
            page.put(speed_words(speed))?;
            page.put(" it must be ")?;
            page.put_decimal(u64::from(range.least))?;
            page.put(" to ")?;
            page.put_decimal(u64::from(range.most))?;
            page.put(" (9.6.6)")
        }
        Remark::Packet {
            transfer,
            speed,
            sizes,
            found,
        } => put_packet(page, transfer, speed, sizes, found),
        Remark::FirstPacket {
            speed,
            sizes,
            found,
        } => {
            page.put("bMaxPacketSize0 is ")?;
            page.put_decimal(u64::from(found))?;
            page.put("; at ")?;
            page.put(speed_words(speed))?;
            page.put(" it must be ")?;
            put_sizes(page, sizes)?;
            page.put(packet_section(speed))
        }
        Remark::OneSpeed { speed } => {
            page.put("its sets are at ")?;
            page.put(speed_words(speed))?;
            page.put(", as are those before it; they must differ (9.6.2)")
        }
        _ => Ok(()),
    }
}

/// Puts the words of a remark on a value.
fn put_value_words<P: Page>(page: &mut P, remark: Remark) -> Result<(), AllocError>
    ensures { OnOk result (P.seen page.new ≡ showing_all P.showing (value_shown remark) (P.seen page.old)) }
{
    match remark {
        Remark::SmallMultiple {
            transactions,
            least,
            found,
        } => {
            put_size_found(page, found)?;
            page.put("; with ")?;
            page.put_decimal(u64::from(transactions))?;
            page.put(" transactions it must be at least ")?;
            page.put_decimal(u64::from(least))?;
            page.put(" (9.6.6)")
        }
        Remark::DefaultIsochronous { found } => {
            put_size_found(page, found)?;
            page.put("; in alternate setting 0 it must be 0 (5.6.3)")
        }
        Remark::DefaultInterrupt { found } => {
            put_size_found(page, found)?;
            page.put("; in alternate setting 0 it must be at most 64 (5.7.3)")
        }
        Remark::OldQualifier { found } => {
            page.put("bcdUSB is ")?;
            page.put_release(found)?;
            page.put("; of a qualifier it must be at least 2.00 (9.6.2)")
        }
        Remark::NoLanguage { found } => {
            page.put_word_code(found)?;
            page.put(
                " is not a LANGID: bits 9 to 8 must be 0 and bits 15 to 10 must not all be 0 (9.6.7)",
            )
        }
        _ => Ok(()),
    }
}

/// Puts the size of packets that there is.
fn put_size_found<P: Page>(page: &mut P, found: u16) -> Result<(), AllocError>
    ensures { OnOk result (P.seen page.new ≡ showing_all P.showing (Number found ∷ []) (P.seen page.old)) }
{
    page.put("wMaxPacketSize is ")?;
    page.put_count(u64::from(found), "byte")
}

/// Puts the words of a remark on a count.
fn put_length_words<P: Page>(page: &mut P, remark: Remark) -> Result<(), AllocError>
    ensures { OnOk result (P.seen page.new ≡ showing_all P.showing (length_shown remark) (P.seen page.old)) }
{
    match remark {
        Remark::TotalLength { declared, found } => {
            page.put("wTotalLength is ")?;
            page.put_decimal(u64::from(declared))?;
            page.put(", and the class descriptors have ")?;
            page.put_count(found as u64, "byte")
        }
        Remark::Current { needed, most } => {
            page.put("bMaxPower is ")?;
            page.put_decimal(u64::from(needed))?;
            page.put(" mA, and a device draws at most ")?;
            page.put_decimal(u64::from(most))?;
            page.put(" mA")
        }
        Remark::HidLength { due, found } => {
            if found < 6 {
                page.put("it is too short for bNumDescriptors: bLength is ")?;
                page.put_decimal(found as u64)?;
                page.put(" (HID 1.11, 6.2.1)")
            } else {
                page.put("by bNumDescriptors it has ")?;
                page.put_count(due as u64, "byte")?;
                page.put(", and bLength is ")?;
                page.put_decimal(found as u64)
            }
        }
        Remark::ShortFunctional { least, found } => {
            page.put("this functional descriptor has at least ")?;
            page.put_decimal(least as u64)?;
            page.put(" bytes, and bLength is ")?;
            page.put_decimal(found as u64)
        }
        Remark::MissingInterface { interface } => {
            page.put("it names interface ")?;
            page.put_decimal(u64::from(interface))?;
            page.put(", which the set hasn't")
        }
        _ => Ok(()),
    }
}

/// The words of a remark that has no numbers; of one that has some there are none.
fn plain_words(remark: Remark) -> &'static str
    ensures { IsTrue (is_words result.now) }
{
    match remark {
        Remark::ReservedMultiple => "3 in bits 12 to 11 of wMaxPacketSize is reserved",
        Remark::PacketBits => "bits 12 to 11 of wMaxPacketSize are reserved here",
        Remark::ReservedUsage => "usage 3 is reserved",
        Remark::TypeBits => "bits 5 to 2 of bmAttributes are reserved here",
        Remark::HighBits => "bits 7 to 6 of bmAttributes are reserved",
        Remark::ReservedClass => "class 0x00 is reserved for future use",
        Remark::Release => "bcdUSB is no release of USB",
        Remark::NoSets => "bNumConfigurations is 0",
        Remark::UntoldAssociation => {
            "its class isn't 0xef, 0x02, 0x01; with associations it must be (ECN)"
        }
        Remark::EmptyPackets => "packets of 0 bytes hold no data, and no other setting follows",
        Remark::NoHidDescriptor => {
            "no HID descriptor between interface and endpoints (HID 1.11, 7.1)"
        }
        Remark::LateHidDescriptor => {
            "this HID descriptor comes after an endpoint (HID 1.11, 7.1)"
        }
        Remark::EmptyReport => "the report descriptor has 0 bytes",
        Remark::NoFunctionalHeader => "no header functional descriptor (CDC 1.2, 5.2.3)",
        Remark::OneDirection => { "a bulk IN or bulk OUT endpoint is missing (Bulk-Only 1.0, 4.4)" }
        Remark::ForbiddenClass => "class 0x00 is not allowed",
        Remark::LateFunctional => {
            "this functional descriptor comes after an endpoint (CDC 1.2, 5.2.3)"
        }
        Remark::NoInterruptIn => "no interrupt IN endpoint (HID 1.11, 4.4)",
        Remark::NoReport => "it names no report descriptor first (HID 1.11, 6.2.1)",
        Remark::InterfaceClass => "this class is one of interfaces, and not of devices",
        Remark::LateAssociation => "this association comes after its interfaces",
        Remark::EndedString => "the string ends in a NUL, which USB strings don't have (9.6.7)",
        Remark::ClassRelease => "this is no release: its bytes may be swapped",
        Remark::NoAssociation => {
            "its class is 0xef, 0x02, 0x01, and it has no association (ECN)"
        }
        Remark::ManyEndpoints => {
            "more than two endpoints; low speed has two beside endpoint 0 (5.3.1.2)"
        }
        _ => "",
    }
}

fn put_packet<P: Page>(
    page: &mut P,
    transfer: TransferType,
    speed: SetSpeed,
    sizes: PacketSizes,
    found: u16,
) -> Result<(), AllocError>
    ensures { OnOk result (P.seen page.new ≡ showing_all P.showing (packet_shown sizes found) (P.seen page.old)) }
{
    match sizes {
        PacketSizes::NoEndpoint => {
            put_a_type(page, transfer)?;
            page.put(" endpoint; at ")?;
            page.put(speed_words(speed))?;
            page.put(" there are none")?;
            page.put(access_section(transfer))
        }
        _ => {
            put_size_found(page, found)?;
            page.put("; at ")?;
            page.put(speed_words(speed))?;
            page.put(" it must be ")?;
            put_sizes(page, sizes)?;
            page.put(size_section(transfer))
        }
    }
}

/// The section on bMaxPacketSize0 at a speed.
fn packet_section(speed: SetSpeed) -> &'static str
    ensures { IsTrue (is_words result.now) }
{
    match speed {
        SetSpeed::Super => " (USB 3.2, 9.6.1)",
        _ => " (5.5.3)",
    }
}

/// The section on the sizes of packets of a type.
fn size_section(transfer: TransferType) -> &'static str
    ensures { IsTrue (is_words result.now) }
{
    match transfer {
        TransferType::Control => " (5.5.3)",
        TransferType::Isochronous => " (5.6.3)",
        TransferType::Bulk => " (5.8.3)",
        TransferType::Interrupt => " (5.7.3)",
    }
}

/// The section on the speeds that have endpoints of a type: all have control and interrupt endpoints.
fn access_section(transfer: TransferType) -> &'static str
    ensures { IsTrue (is_words result.now) }
{
    match transfer {
        TransferType::Isochronous => " (5.6.4)",
        TransferType::Bulk => " (5.8.4)",
        _ => "",
    }
}

fn put_sizes<P: Page>(page: &mut P, sizes: PacketSizes) -> Result<(), AllocError>
    ensures { OnOk result (P.seen page.new ≡ showing_all P.showing (sizes_shown sizes) (P.seen page.old)) }
{
    match sizes {
        PacketSizes::NoEndpoint => page.put("no"),
        PacketSizes::Only(size) => page.put_decimal(u64::from(size)),
        PacketSizes::UpTo(most) => {
            page.put("at most ")?;
            page.put_decimal(u64::from(most))
        }
        PacketSizes::EightTo64 => page.put("8, 16, 32 or 64"),
        PacketSizes::EightTo64Or512 => page.put("8, 16, 32, 64 or 512"),
    }
}

/// Puts the lines of the remarks on a descriptor, and answers how many there are. There are none on one of no type of its own
/// and of no class.
///
/// # Errors
///
/// Out of memory.
pub(crate) fn put_remarks<P: Page>(page: &mut P, d: &Descriptor<'_>) -> Result<usize, AllocError>
    ensures shown { OnOk result (P.seen page.new ≡ showing_all P.showing (remark_lines (described d.now)) (P.seen page.old)) }
    ensures count { IfOk result (λ count. count ≡ remarks_of (described d.now)) }
{
    match (d.role, d.interface) {
        (Role::Raw, None) => Ok(0),
        _ => put_all_remarks(page, d),
    }
}

#[tactic(auto, unfolding(crate::specs::RemarkLines::remark_lines))]
fn put_all_remarks<P: Page>(page: &mut P, d: &Descriptor<'_>) -> Result<usize, AllocError>
    ensures shown { OnOk result (P.seen page.new ≡ showing_all P.showing (remark_lines (described d.now)) (P.seen page.old)) }
    ensures count { IfOk result (λ count. count ≡ remarks_of (described d.now)) }
{
    let mut count = 0;
    let remarks = d.remarks();
    for remark in &remarks {
        count += put_remark(page, d.depth, *remark)?;
    }
    Ok(count)
}
