//! Explanations of fragments: descriptors one after another, or a setup packet.
ghost use Rattle.std.specs.Prelude.{◌≡◌, ◌+◌, ◌≤◌, ◌<◌, ◌^◌, IfErr, IfOk, OnErr, OnOk, length};
ghost use Rattle.std.specs.Io.KnownBytes.{Keeps};
ghost use Rattle.std.specs.List.{flat_map};
ghost use Rattle.usb_text.specs.Shown.{ends, showing_all};
ghost use Rattle.usb_text.specs.Written.{WritesLess, WritesLines};
ghost use Rattle.usb_explain.specs.Descriptors.{lines_of};
ghost use Rattle.usb_explain.specs.Explanations.{first_line};
ghost use Rattle.usb_explain.specs.Fragments.{class_alone, described_alone, descriptors_lines, fragment, fragment_lines, fragment_start, hub_length, interface_codes, position_past, role_alone, speed_alone, speed_there, string_alone};
ghost use Rattle.usb_remarks.specs.Outline.{bytes_of, described};

use crate::descriptor_lines::put_descriptor;
use crate::manner::Manner;
use crate::rest_lines::put_rest;
use crate::setup_lines::{is_setup, put_setup};
use crate::subject::Subject;
use std::alloc::{AllocError, Global};
use std::io::Write;
use usb_fields::{after, byte_at, descriptor_type, prefix};
use usb_file_data::{Part, names_languages};
use usb_names::ClassCodes;
use usb_remarks::{Descriptor, SetSpeed, hid_length, other_speed};
use usb_text::{Lines, OutFault, Page};
use usb_walk::{Role, descriptor_length, is_association, is_interface, outside, typed_role};

/// Writes the explanation of a fragment of an input: of descriptors one after another, of which no owner is asked for, and of the
/// bytes after them; or of a setup packet, which has eight bytes.
///
/// ```rust
/// explain_fragment(alloc, &[7, 5, 0x81, 3, 8, 0, 10], manner, &mut rt.stdout())?;
/// ```
///
/// # Errors
///
/// `Write` where the writer failed, `Memory` when out of memory. The writer has fewer lines then, and maybe a part of one more; of
/// `Memory` nothing.
pub fn explain_fragment<W: Write>(
    alloc: Global,
    bytes: &[u8],
    manner: Manner,
    w: &mut W,
) -> Result<(), OutFault>
    ensures ok { OnOk result (WritesLines manner.look.utf8 (ends (fragment_lines manner bytes.now)) (W.contents w.old) (W.contents w.new)) }
    ensures err { OnErr result (WritesLess manner.look.utf8 (ends (fragment_lines manner bytes.now)) (W.contents w.old) (W.contents w.new)) }
    ensures memory { IfErr result (λ fault. fault ≡ OutFault.Memory → Keeps (W.contents w.old) (W.contents w.new)) }
{
    let mut lines = Lines::new(alloc, manner.look.utf8);
    put_fragment(alloc, &mut lines, manner, bytes)?;
    lines.finish(w)
}

/// Puts the lines of a fragment.
#[tactic(auto, using(usb_text::proofs::ShownLines::showing_joined), unfolding(crate::specs::Fragments::fragment_lines))]
fn put_fragment<P: Page>(
    alloc: Global,
    page: &mut P,
    manner: Manner,
    bytes: &[u8],
) -> Result<(), AllocError>
    ensures { OnOk result (P.seen page.new ≡ showing_all P.showing (fragment_lines manner bytes.now) (P.seen page.old)) }
{
    put_first_line(page, bytes.len())?;
    if is_setup(bytes) {
        put_setup(page, manner.look, bytes)
    } else {
        put_all(alloc, page, manner, bytes)
    }
}

fn put_first_line<P: Page>(page: &mut P, count: usize) -> Result<(), AllocError>
    ensures { OnOk result (P.seen page.new ≡ showing_all P.showing (first_line count) (P.seen page.old)) }
{
    page.put("fragment, ")?;
    page.put_count(count as u64, "byte")?;
    page.end_line()
}

/// Puts the lines of descriptors, and of the bytes after them.
#[tactic(auto, using(usb_text::proofs::ShownLines::showing_joined))]
fn put_all<P: Page>(
    alloc: Global,
    page: &mut P,
    manner: Manner,
    bytes: &[u8],
) -> Result<(), AllocError>
    ensures { OnOk result (P.seen page.new ≡ showing_all P.showing (descriptors_lines manner bytes.now) (P.seen page.old)) }
{
    let subject = Subject::alone(alloc, manner);
    let end = put_descriptors(page, &subject, speed_alone(manner), bytes)?;
    put_rest(page, manner.look, end, after(bytes, end))
}

/// The speed, which descriptors alone leave open.
fn speed_alone(manner: Manner) -> SetSpeed
    ensures { result ≡ speed_alone manner }
{
    manner.speed.unwrap_or(SetSpeed::FullOrHigh)
}

/// Puts the lines of the descriptors with which the bytes begin. Answers where they end.
fn put_descriptors<P: Page>(
    page: &mut P,
    subject: &Subject,
    speed: SetSpeed,
    bytes: &[u8],
) -> Result<usize, AllocError>
    ensures lines { OnOk result (P.seen page.new ≡ showing_all P.showing (flat_map (lines_of subject.now) (fragment speed bytes.now)) (P.seen page.old)) }
    ensures end { IfOk result (λ end. end ≡ length (bytes_of (fragment speed bytes.now))) }
{
    let mut rest = bytes;
    let mut position = FragmentPosition::start();
    while let Some(length) = descriptor_length(rest) {
        let d = prefix(rest, length);
        put_descriptor(page, subject, &position.describe(speed, d))?;
        position = position.past(d);
        rest = after(rest, length);
    }
    Ok(position.at)
}

/// What the descriptors of a fragment leave for the next one.
#[derive(Clone, Copy)]
pub(crate) struct FragmentPosition {
    /// Its place.
    at: usize,
    /// The codes of the interface that it follows.
    interface: Option<ClassCodes>,
    /// How many associations come before it.
    associations: usize,
}

impl FragmentPosition {
    /// Before the first descriptor.
    fn start() -> FragmentPosition
        ensures { result ≡ fragment_start }
    {
        FragmentPosition {
            at: 0,
            interface: None,
            associations: 0,
        }
    }

    /// A descriptor at this position.
    #[tactic(auto, unfolding(crate::specs::Fragments::described_alone))]
    fn describe(self, speed: SetSpeed, d: &[u8]) -> Descriptor<'_>
        ensures { described result ≡ described_alone speed self d.now }
    {
        let role = role_alone(d);
        Descriptor {
            at: self.at,
            place: outside(Part::Device),
            bytes: d,
            role,
            depth: 0,
            owner: None,
            speed: speed_there(role, speed),
            findings: &[],
            associations: self.associations,
            association: None,
            missing: None,
            follows: false,
            interface: self.interface.or(class_alone(d)),
            string: 0,
            rest: None,
            is_late: false,
            has_associations: None,
            one_speed: None,
        }
    }

    /// The position after a descriptor.
    fn past(self, d: &[u8]) -> FragmentPosition
        requires room { self.at + length d.now < 2 ^ 63 }
        requires counted { self.associations ≤ self.at }
        ensures { result ≡ position_past self d.now }
    {
        FragmentPosition {
            at: self.at + d.len(),
            interface: if is_interface(d) {
                Some(interface_codes(d))
            } else {
                self.interface
            },
            associations: if is_association(d) {
                self.associations + 1
            } else {
                self.associations
            },
        }
    }
}

/// The speed of a descriptor, where the device has this one: a qualifier is of the other.
fn speed_there(role: Role, speed: SetSpeed) -> SetSpeed
    ensures { result ≡ speed_there role speed }
{
    match role {
        Role::Qualifier => other_speed(speed).unwrap_or(SetSpeed::FullOrHigh),
        _ => speed,
    }
}

/// The codes of an interface (USB 2.0, 9.6.5).
fn interface_codes(d: &[u8]) -> ClassCodes
    ensures { result ≡ interface_codes d.now }
{
    ClassCodes {
        class: byte_at(d, 5),
        subclass: byte_at(d, 6),
        protocol: byte_at(d, 7),
    }
}

/// The length of a hub descriptor by its number of ports (USB 2.0, 11.23.2.1).
fn hub_length(d: &[u8]) -> usize
    ensures { result ≡ hub_length d.now }
{
    7 + 2 * (usize::from(byte_at(d, 2)) / 8 + 1)
}

/// The class of a HID or a hub descriptor, which is one by its type and its length (HID 1.11, 6.2.1 and 7.1; USB 2.0, 11.23.2.1).
fn class_alone(d: &[u8]) -> Option<ClassCodes>
    ensures { result ≡ class_alone d.now }
{
    if byte_at(d, 1) == 0x21 && d.len() == hid_length(d) {
        Some(ClassCodes {
            class: 0x03,
            subclass: 0,
            protocol: 0,
        })
    } else if byte_at(d, 1) == 0x29 && d.len() == hub_length(d) {
        Some(ClassCodes {
            class: 0x09,
            subclass: 0,
            protocol: 0,
        })
    } else {
        None
    }
}

/// What a descriptor is, by its type and its length alone (USB 2.0, table 9-5 and 9.6).
#[tactic(auto, unfolding(crate::specs::Fragments::role_alone))]
fn role_alone(d: &[u8]) -> Role
    ensures { result ≡ role_alone d.now }
{
    let length = d.len();
    match byte_at(d, 1) {
        descriptor_type::DEVICE => typed_role(length == 18, Role::Device),
        descriptor_type::DEVICE_QUALIFIER => typed_role(length == 10, Role::Qualifier),
        descriptor_type::CONFIGURATION | descriptor_type::OTHER_SPEED_CONFIGURATION => {
            typed_role(length >= 9, Role::Configuration)
        }
        descriptor_type::STRING => typed_role(length % 2 == 0, string_alone(d)),
        descriptor_type::INTERFACE => typed_role(length >= 9, Role::Interface),
        descriptor_type::ENDPOINT => typed_role(length >= 7, Role::Endpoint),
        descriptor_type::INTERFACE_ASSOCIATION => typed_role(length >= 8, Role::Association),
        _ => Role::Raw,
    }
}

/// A string descriptor is a language list where its units may all be languages.
fn string_alone(d: &[u8]) -> Role
    ensures { result ≡ string_alone d.now }
{
    if names_languages(d) {
        Role::Languages
    } else {
        Role::Text
    }
}
