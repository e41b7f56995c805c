//! The image of a descriptor file, in which each descriptor is encoded once.
ghost use Rattle.std.specs.Prelude.{◌≡◌, ◌++◌, ◌∷◌, drop, false, map, IfErr, IfOk, IfSome, OnOk, OnSome};
ghost use Rattle.std.specs.List.{flat_map, list_any};
ghost use Rattle.usb_fields.specs.declared.packet.Speed.{Speed};
ghost use Rattle.usb_fields.specs.Device.{qualifier_bytes};
ghost use Rattle.usb_fields.specs.Units.{units_bytes};
ghost use Rattle.usb_file_data.specs.File.{has_long_string, has_no_layout, is_long_string, other_sets, whole_set};
ghost use Rattle.usb_device.specs.Accepted.{has_wrong_sets, Accepted, Refuses};
ghost use Rattle.usb_device.specs.Images.{image_bytes, piece_bytes};
ghost use Rattle.usb_device.specs.FileImages.{endpoint_bytes, front_pieces, image_of, indexed, keyed, language_pieces, other_pieces, set_piece, setting_piece, speed_pieces, string_pieces};

use crate::acceptance::{DescriptionFault, examine, has_wrong_sets};
use crate::piece;
use crate::string_table::{self, add_units, string_length};
use std::alloc::{AllocError, Global};
use usb_fields::{Sequence, Speed, descriptor_type};
use usb_file_data::{DescriptorFile, Other, Strings, has_wrong_count, has_wrong_kind, named};
use usb_set::{Configuration, EncodeFault, Endpoint, Setting, encode_onto};

/// The version of the format, which the head tells.
pub(crate) const VERSION: u8 = 1;

/// The kinds of pieces that are no descriptors: the head, the strings of a language, and what requests can name.
pub(crate) const HEAD: u8 = 0;

pub(crate) const LANGUAGE: u8 = 128;

pub(crate) const SETS: u8 = 129;

/// Room for the images of most files.
const BYTES: usize = 1024;

/// The image of a device of this speed, exactly where the file is accepted. It is the same at each speed.
///
/// ```rust
/// let file = read_file(rt.alloc(), &bytes)?;
/// let image = write_image(rt.alloc(), &file, Speed::Full)?;
/// let device = Image { bytes: &image }.descriptor(descriptor_type::DEVICE, 0, 0);
/// assert_eq!(rt; device.map(|b| b.len()), Some(18));
/// ```
///
/// # Errors
///
/// [`DescriptionFault`], the first that applies in its order.
#[tactic(auto, using(crate::proofs::AcceptedLemmas::strings_have_bytes))]
pub fn write_image(alloc: Global, f: &DescriptorFile, s: Speed) -> Result<Vec<u8>, DescriptionFault>
    ensures ok { IfOk result (λ image. image.items ≡ image_of f.now) }
    ensures accepted { OnOk result (Accepted f.now s) }
    ensures err { IfErr result (λ fault. Refuses f.now s fault) }
{
    let mut image = speeds_image(alloc, f)?;
    let named = named(alloc, f)?;
    examine(alloc, f, named.len(), s)?;
    add_strings(alloc, &mut image, &named, &f.strings)?;
    Ok(image)
}

/// The image as far as the strings.
fn speeds_image(alloc: Global, f: &DescriptorFile) -> Result<Vec<u8>, DescriptionFault>
    ensures ok { IfOk result (λ image. image.items ≡ image_bytes (speed_pieces f.now)) }
    ensures allowed { OnOk result (has_wrong_sets f.now ≡ false) }
    ensures err { IfErr result (λ fault. (s : Speed) → Refuses f.now s fault) }
{
    match declared_image(alloc, f) {
        Some(image) => Ok(image),
        None => Err(first_reason(f)),
    }
}

/// Why the sets could not be written: out of memory, where nothing is wrong with them.
#[cold]
fn first_reason(f: &DescriptorFile) -> DescriptionFault
    ensures { (s : Speed) → Refuses f.now s result }
{
    if has_wrong_sets(f) {
        DescriptionFault::Unwritable
    } else {
        DescriptionFault::Memory
    }
}

/// The same, or `None` where the sets have no bytes or out of memory.
#[tactic(auto, unfolding(crate::specs::Accepted::has_wrong_sets))]
fn declared_image(alloc: Global, f: &DescriptorFile) -> Option<Vec<u8>>
    ensures image { IfSome result (λ image. image.items ≡ image_bytes (speed_pieces f.now)) }
    ensures allowed { OnSome result (has_wrong_sets f.now ≡ false) }
{
    if has_wrong_count(f) || has_wrong_kind(f) {
        return None;
    }
    write_speeds(alloc, f).ok()
}

/// Writes the head, what requests can name, and the descriptors of both speeds.
fn write_speeds(alloc: Global, f: &DescriptorFile) -> Result<Vec<u8>, EncodeFault>
    ensures image { IfOk result (λ image. image.items ≡ image_bytes (speed_pieces f.now)) }
    ensures sets { OnOk result (list_any has_no_layout f.now.sets ≡ false) }
    ensures others { OnOk result (list_any has_no_layout (other_sets f.now.other) ≡ false) }
{
    let mut image = front(alloc, f)?;
    add_sets(alloc, &mut image, descriptor_type::CONFIGURATION, &f.sets)?;
    add_other(alloc, &mut image, &f.other)?;
    Ok(image)
}

/// The head, what requests can name, and the device descriptor.
fn front(alloc: Global, f: &DescriptorFile) -> Result<Vec<u8>, AllocError>
    ensures { IfOk result (λ image. image.items ≡ image_bytes (front_pieces f.now)) }
{
    let mut image = Vec::with_capacity(alloc, BYTES)?;
    piece::add(&mut image, HEAD, VERSION, u16::from(f.device.packet), &[])?;
    let sets = sets_body(alloc, &f.sets)?;
    piece::add(&mut image, SETS, 0, 0, &sets)?;
    piece::add(
        &mut image,
        descriptor_type::DEVICE,
        0,
        0,
        &f.device.to_bytes(),
    )?;
    Ok(image)
}

/// Adds the descriptors of the second speed, if there is one.
fn add_other(alloc: Global, pieces: &mut Vec<u8>, other: &Option<Other>) -> Result<(), EncodeFault>
    ensures written { OnOk result (pieces.new.items ≡ pieces.old.items ++ image_bytes (other_pieces other.now)) }
    ensures allowed { OnOk result (list_any has_no_layout (other_sets other.now) ≡ false) }
{
    match other {
        None => Ok(()),
        Some(other) => add_second_speed(alloc, pieces, other),
    }
}

/// Adds the qualifier and the sets of the other speed.
fn add_second_speed(alloc: Global, pieces: &mut Vec<u8>, other: &Other) -> Result<(), EncodeFault>
    ensures written { OnOk result (pieces.new.items ≡ pieces.old.items ++ image_bytes (keyed 6 0 (qualifier_bytes other.now.qualifier) ∷ indexed 7 0 (map whole_set other.now.sets))) }
    ensures allowed { OnOk result (list_any has_no_layout other.now.sets ≡ false) }
{
    piece::add(
        pieces,
        descriptor_type::DEVICE_QUALIFIER,
        0,
        0,
        &other.qualifier.to_bytes(),
    )?;
    add_sets(
        alloc,
        pieces,
        descriptor_type::OTHER_SPEED_CONFIGURATION,
        &other.sets,
    )?;
    Ok(())
}

/// Adds the descriptors of sets, by index. More sets than indices are as much as no memory: they are not as many as declared.
fn add_sets(
    alloc: Global,
    pieces: &mut Vec<u8>,
    kind: u8,
    sets: &[Configuration],
) -> Result<(), EncodeFault>
    ensures written { OnOk result (pieces.new.items ≡ pieces.old.items ++ image_bytes (indexed kind 0 (map whole_set sets.now))) }
    ensures allowed { OnOk result (list_any has_no_layout sets.now ≡ false) }
{
    for i in 0..sets.len() {
        let Ok(index) = u8::try_from(i) else {
            return Err(EncodeFault::Memory);
        };
        let bytes = set_bytes(alloc, &sets[i])?;
        piece::add(pieces, kind, index, 0, &bytes)?;
    }
    Ok(())
}

/// The bytes of a set, where it has some.
#[tactic(auto, unfolding(usb_file_data::specs::File::whole_set))]
fn set_bytes(alloc: Global, c: &Configuration) -> Result<Vec<u8>, EncodeFault>
    ensures bytes { IfOk result (λ b. b.items ≡ whole_set c.now) }
    ensures allowed { OnOk result (has_no_layout c.now ≡ false) }
{
    let mut bytes = Vec::new(alloc);
    encode_onto(c, &mut bytes)?;
    Ok(bytes)
}

/// What requests can name of sets.
fn sets_body(alloc: Global, sets: &[Configuration]) -> Result<Vec<u8>, AllocError>
    ensures { IfOk result (λ b. b.items ≡ image_bytes (map set_piece sets.now)) }
{
    let mut body = Vec::new(alloc);
    for c in sets {
        let settings = settings_body(alloc, &c.settings)?;
        piece::add(
            &mut body,
            descriptor_type::CONFIGURATION,
            c.value,
            u16::from(c.attributes),
            &settings,
        )?;
    }
    Ok(body)
}

fn settings_body(alloc: Global, settings: &[Setting]) -> Result<Vec<u8>, AllocError>
    ensures { IfOk result (λ b. b.items ≡ image_bytes (map setting_piece settings.now)) }
{
    let mut body = Vec::new(alloc);
    for t in settings {
        let endpoints = endpoints_body(alloc, &t.endpoints)?;
        piece::add(
            &mut body,
            descriptor_type::INTERFACE,
            t.number,
            u16::from(t.alternate),
            &endpoints,
        )?;
    }
    Ok(body)
}

fn endpoints_body(alloc: Global, endpoints: &[Endpoint]) -> Result<Vec<u8>, AllocError>
    ensures { IfOk result (λ b. b.items ≡ flat_map endpoint_bytes endpoints.now) }
{
    let mut body = Vec::new(alloc);
    for e in endpoints {
        body.extend_from_slice(&[e.address, e.attributes])?;
    }
    Ok(body)
}

/// Adds the language list and the strings, if there are any.
fn add_strings(
    alloc: Global,
    pieces: &mut Vec<u8>,
    named: &[u8],
    strings: &Option<Strings>,
) -> Result<(), AllocError>
    requires { has_long_string strings.now ≡ false }
    ensures { OnOk result (pieces.new.items ≡ pieces.old.items ++ image_bytes (string_pieces named.now strings.now)) }
{
    match strings {
        None => Ok(()),
        Some(strings) => add_each_language(alloc, pieces, named, strings),
    }
}

fn add_each_language(
    alloc: Global,
    pieces: &mut Vec<u8>,
    named: &[u8],
    strings: &Strings,
) -> Result<(), AllocError>
    requires list { is_long_string strings.now.languages ≡ false }
    requires texts { list_any is_long_string strings.now.texts ≡ false }
    ensures { OnOk result (pieces.new.items ≡ pieces.old.items ++ image_bytes (keyed 3 0 (units_bytes strings.now.languages) ∷ language_pieces named.now strings.now.languages strings.now.texts)) }
{
    add_language_list(pieces, &strings.languages)?;
    add_languages(alloc, pieces, named, &strings.languages, &strings.texts)?;
    Ok(())
}

/// Adds the strings of each language.
fn add_languages(
    alloc: Global,
    pieces: &mut Vec<u8>,
    named: &[u8],
    languages: &[u16],
    texts: &[Sequence<u16>],
) -> Result<(), AllocError>
    requires { list_any is_long_string texts.now ≡ false }
    ensures { OnOk result (pieces.new.items ≡ pieces.old.items ++ image_bytes (language_pieces named.now languages.now texts.now)) }
{
    let mut left = texts;
    for language in languages {
        let strings = string_table::write(alloc, named, left)?;
        piece::add(pieces, LANGUAGE, 0, *language, &strings)?;
        left = after_those(left, named.len());
    }
    Ok(())
}

/// The texts after this many.
fn after_those(texts: &[Sequence<u16>], count: usize) -> &[Sequence<u16>]
    ensures { result.now ≡ drop count texts.now }
{
    if count < texts.len() {
        &texts[count..]
    } else {
        &[]
    }
}

/// Adds the language list.
fn add_language_list(pieces: &mut Vec<u8>, languages: &[u16]) -> Result<(), AllocError>
    requires { is_long_string languages.now ≡ false }
    ensures { OnOk result (pieces.new.items ≡ pieces.old.items ++ piece_bytes (keyed 3 0 (units_bytes languages.now))) }
{
    piece::add_header(
        pieces,
        descriptor_type::STRING,
        0,
        0,
        string_length(languages),
    )?;
    add_units(pieces, languages)?;
    Ok(())
}
