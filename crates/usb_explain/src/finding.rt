//! The lines of findings.
ghost use Rattle.std.specs.Prelude.{◌≡◌, IsTrue, OnOk};
ghost use Rattle.std.specs.List.{flat_map};
ghost use Rattle.usb_text.specs.Shown.{showing_all};
ghost use Rattle.usb_text.specs.Written.{is_words};
ghost use Rattle.usb_explain.specs.FindingLines.{counts_shown, finding_line};

use std::alloc::AllocError;
use usb_file_data::{Cause, Found, PacketFault};
use usb_text::Page;

/// Puts a line for each of these findings of a descriptor whose heading has this depth.
///
/// # Errors
///
/// Out of memory.
pub(crate) fn put_findings<P: Page>(
    page: &mut P,
    depth: u8,
    found: &[Found],
) -> Result<(), AllocError>
    ensures { OnOk result (P.seen page.new ≡ showing_all P.showing (flat_map (λ f. finding_line depth f.cause) found.now) (P.seen page.old)) }
{
    for one in found {
        put_finding(page, depth, one.cause)?;
    }
    Ok(())
}

/// Puts the line of a finding at a descriptor whose heading has this depth.
///
/// ```rust
/// put_finding(&mut lines, 3, Cause::RepeatedAddress)?;
/// assert_eq!(rt; lines.as_bytes(), b"        ! V7 this setting has this address already\n");
/// ```
///
/// # Errors
///
/// Out of memory.
#[tactic(auto, using(usb_text::proofs::ShownLines::showing_joined), unfolding(crate::specs::FindingLines::finding_line))]
fn put_finding<P: Page>(page: &mut P, depth: u8, cause: Cause) -> Result<(), AllocError>
    ensures { OnOk result (P.seen page.new ≡ showing_all P.showing (finding_line depth cause) (P.seen page.old)) }
{
    page.put_indent(2 * usize::from(depth) + 2)?;
    page.put("! V")?;
    page.put_decimal(u64::from(cause.rule().number()))?;
    page.put(" ")?;
    put_finding_words(page, cause)?;
    page.end_line()
}

/// Puts what breaks a rule by this cause, in the words that the line of the finding has after the rule.
///
/// ```rust
/// put_finding_words(&mut lines, Cause::EndpointCount { declared: 2, found: 1 })?;
/// assert_eq!(rt; lines.as_bytes(), b"bNumEndpoints is 2, and the setting has 1 endpoint");
/// ```
///
/// # Errors
///
/// Out of memory.
pub fn put_finding_words<P: Page>(page: &mut P, cause: Cause) -> Result<(), AllocError>
    ensures { OnOk result (P.seen page.new ≡ showing_all P.showing (counts_shown cause) (P.seen page.old)) }
{
    match cause {
        Cause::InterfaceCount { declared, found } => {
            page.put("bNumInterfaces is ")?;
            page.put_decimal(u64::from(declared))?;
            page.put(", and the set has ")?;
            page.put_count(found as u64, "interface")
        }
        Cause::NumberGap => page.put("the interfaces aren't numbered from 0 without a gap"),
        Cause::RepeatedSetting => page.put("this interface has this alternate setting already"),
        Cause::NoDefaultSetting => page.put("this interface has no alternate setting 0"),
        Cause::EndpointCount { declared, found } => {
            page.put("bNumEndpoints is ")?;
            page.put_decimal(u64::from(declared))?;
            page.put(", and the setting has ")?;
            page.put_count(found as u64, "endpoint")
        }
        Cause::Address {
            endpoint_zero,
            reserved,
        } => {
            let one = "the address names endpoint 0";
            let other = "bits 6 to 4 of the address aren't zero";
            put_causes(page, endpoint_zero, one, reserved, other)
        }
        Cause::RepeatedAddress => page.put("this setting has this address already"),
        Cause::SharedAddress => page.put("another interface of the set has this address"),
        Cause::Attributes { clear, reserved } => {
            let one = "bit 7 of bmAttributes isn't one";
            let other = "bits 4 to 0 of bmAttributes aren't zero";
            put_causes(page, clear, one, reserved, other)
        }
        Cause::ZeroValue => page.put("bConfigurationValue is 0"),
        Cause::RepeatedValue => page.put("an earlier set has this bConfigurationValue"),
        Cause::NoConfiguration => page.put("there is no configuration"),
        Cause::Device { packet, subclass } => put_device_causes(page, packet, subclass),
        Cause::Qualifier {
            packet,
            subclass,
            reserved,
        } => {
            put_device_causes(page, packet, subclass)?;
            let more = packet.is_some() || subclass;
            put_caused(page, more && reserved, ", and ")?;
            put_caused(page, reserved, "bReserved isn't 0")
        }
        Cause::PacketSize => page.put("bits 15 to 13 of wMaxPacketSize aren't zero"),
        Cause::NoInterface => page.put("it binds no interface"),
        Cause::MissingInterface => page.put("it binds an interface that the set hasn't"),
    }
}

/// Puts what is wrong with a device: its bMaxPacketSize0, and that there is a subclass without a class.
fn put_device_causes<P: Page>(
    page: &mut P,
    packet: Option<PacketFault>,
    subclass: bool,
) -> Result<(), AllocError>
    ensures { OnOk result (P.seen page.new ≡ P.seen page.old) }
{
    let other = "there is a subclass without a class";
    match packet {
        None => put_caused(page, subclass, other),
        Some(packet) => put_causes(page, true, packet_words(packet), subclass, other),
    }
}

fn packet_words(packet: PacketFault) -> &'static str
    ensures { IsTrue (is_words result.now) }
{
    match packet {
        PacketFault::NotInTable => "bMaxPacketSize0 isn't 8, 16, 32 or 64",
        PacketFault::NotNine => "bMaxPacketSize0 isn't 9",
        PacketFault::Nine => {
            "bMaxPacketSize0 is 9, as SuperSpeed has it; USB 2.0 has 8, 16, 32 or 64"
        }
    }
}

/// Puts the causes that hold, of two.
fn put_causes<P: Page>(
    page: &mut P,
    has_one: bool,
    one: &str,
    has_other: bool,
    other: &str,
) -> Result<(), AllocError>
    requires one { IsTrue (is_words one.now) }
    requires other { IsTrue (is_words other.now) }
    ensures { OnOk result (P.seen page.new ≡ P.seen page.old) }
{
    put_caused(page, has_one, one)?;
    put_caused(page, has_one && has_other, ", and ")?;
    put_caused(page, has_other, other)
}

/// Puts words where a cause holds.
fn put_caused<P: Page>(page: &mut P, holds: bool, words: &str) -> Result<(), AllocError>
    requires { IsTrue (is_words words.now) }
    ensures { OnOk result (P.seen page.new ≡ P.seen page.old) }
{
    if holds { page.put(words) } else { Ok(()) }
}
