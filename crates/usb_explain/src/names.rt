//! Class codes, types of terminals and GUIDs by their names.
ghost use Rattle.std.specs.Prelude.{◌≡◌, map, option_map, IsTrue, OnOk};
ghost use Rattle.std.specs.List.{list_all};
ghost use Rattle.usb_names.specs.Named.{name_of, row_of};
ghost use Rattle.usb_text.specs.Shown.{showing_all};
ghost use Rattle.usb_text.specs.Written.{is_words};
ghost use Rattle.usb_explain.specs.Names.{class_field, class_names, code_shown, function_class_field, function_class_names, guid_shown, has_characters, is_letter_or_digit, name_or_number, name_shown, protocol_field, subclass_field, terminal_shown};

use std::alloc::AllocError;
use usb_fields::{after, descriptor_type, prefix};
use usb_names::{Names, Word, class_name, protocol_name, subclass_name};
use usb_text::Page;

/// Puts the names of a class, its subclass and its protocol: `HID / boot interface / mouse`. A class without a name is
/// put as `class 0x77`.
///
/// ```rust
/// put_class_words(&mut lines, 3, 1, 2)?;
/// assert_eq!(rt; lines.as_bytes(), b"HID / boot interface / mouse");
/// ```
#[inline(always)]
#[tactic(auto, using(usb_text::proofs::ShownLines::showing_joined), unfolding(crate::specs::Names::class_names))]
pub(crate) fn put_class_words<P: Page>(
    page: &mut P,
    class: u8,
    subclass: u8,
    protocol: u8,
) -> Result<(), AllocError>
    ensures { OnOk result (P.seen page.new ≡ showing_all P.showing (class_names class subclass protocol) (P.seen page.old)) }
{
    put_class_name(page, class, class_name(class))?;
    put_further(page, subclass_name(class, subclass))?;
    put_further(page, protocol_name(class, subclass, protocol))
}

/// What class 0 is called of a descriptor of this type: it is reserved for an interface (USB 2.0, 9.6.5), and no class of an
/// association (its ECN, 9.X.Y).
fn zero_class_words(kind: u8) -> &'static str
    ensures { IsTrue (is_words result.now) }
{
    match kind {
        descriptor_type::INTERFACE_ASSOCIATION => "class not allowed",
        _ => "reserved class",
    }
}

/// Puts the same of an interface or an association, by the type of its descriptor: class 0 is no class of either.
#[tactic(auto, unfolding(crate::specs::Names::function_class_names))]
pub(crate) fn put_function_class_words<P: Page>(
    page: &mut P,
    kind: u8,
    class: u8,
    subclass: u8,
    protocol: u8,
) -> Result<(), AllocError>
    ensures { OnOk result (P.seen page.new ≡ showing_all P.showing (function_class_names class subclass protocol) (P.seen page.old)) }
{
    if class == 0 {
        page.put(zero_class_words(kind))
    } else {
        put_class_words(page, class, subclass, protocol)
    }
}

fn put_class_name<P: Page>(page: &mut P, class: u8, name: Option<Word>) -> Result<(), AllocError>
    ensures { OnOk result (P.seen page.new ≡ showing_all P.showing (name_or_number class (option_map (λ n. n.text.now) name)) (P.seen page.old)) }
{
    match name {
        None => {
            page.put("class ")?;
            page.put_byte_code(class)
        }
        Some(name) => page.put_name(name.text),
    }
}

#[inline(always)]
fn put_further<P: Page>(page: &mut P, name: Option<Word>) -> Result<(), AllocError>
    ensures { OnOk result (P.seen page.new ≡ showing_all P.showing (name_shown (option_map (λ n. n.text.now) name)) (P.seen page.old)) }
{
    match name {
        None => Ok(()),
        Some(name) => {
            page.put(" / ")?;
            page.put_name(name.text)
        }
    }
}

/// Puts a class code, with its name if it has one: `0x03 (HID)`.
#[inline(always)]
pub(crate) fn put_class<P: Page>(page: &mut P, class: u8) -> Result<(), AllocError>
    ensures { OnOk result (P.seen page.new ≡ showing_all P.showing (class_field class) (P.seen page.old)) }
{
    put_code(page, class, class_name(class))
}

/// Puts the class code of an interface or an association, by the type of its descriptor: `0x00 (reserved class)`.
#[inline(always)]
pub(crate) fn put_function_class<P: Page>(
    page: &mut P,
    kind: u8,
    class: u8,
) -> Result<(), AllocError>
    ensures { OnOk result (P.seen page.new ≡ showing_all P.showing (function_class_field class) (P.seen page.old)) }
{
    if class == 0 {
        page.begin_byte_meaning(class)?;
        page.put(zero_class_words(kind))?;
        page.put(")")
    } else {
        put_class(page, class)
    }
}

/// Puts a subclass code, with the name that it has in its class: `0x01 (boot interface)`.
#[inline(always)]
pub(crate) fn put_subclass<P: Page>(page: &mut P, class: u8, subclass: u8) -> Result<(), AllocError>
    ensures { OnOk result (P.seen page.new ≡ showing_all P.showing (subclass_field class subclass) (P.seen page.old)) }
{
    put_code(page, subclass, subclass_name(class, subclass))
}

/// Puts a protocol code, with the name that it has in its class and subclass: `0x02 (mouse)`.
#[inline(always)]
pub(crate) fn put_protocol<P: Page>(
    page: &mut P,
    class: u8,
    subclass: u8,
    protocol: u8,
) -> Result<(), AllocError>
    ensures { OnOk result (P.seen page.new ≡ showing_all P.showing (protocol_field class subclass protocol) (P.seen page.old)) }
{
    put_code(page, protocol, protocol_name(class, subclass, protocol))
}

/// Puts a code, and the name that it has, if there is one, as its meaning.
#[inline(always)]
fn put_code<P: Page>(page: &mut P, code: u8, name: Option<Word>) -> Result<(), AllocError>
    ensures { OnOk result (P.seen page.new ≡ showing_all P.showing (code_shown code (option_map (λ n. n.text.now) name)) (P.seen page.old)) }
{
    match name {
        None => page.put_byte_code(code),
        Some(name) => {
            page.begin_byte_meaning(code)?;
            page.put_name(name.text)?;
            page.put(")")
        }
    }
}

/// Puts wTerminalType of two bytes of a terminal, and the name that the type has among these, if it has one. Bytes that
/// aren't two are put in hexadecimal digits.
///
/// ```rust
/// put_terminal(&mut lines, &audio_terminals(), &[1, 2])?;
/// assert_eq!(rt; lines.as_bytes(), b"0x0201 (microphone)");
/// ```
#[inline(never)]
#[tactic(auto, unfolding(crate::specs::Names::terminal_shown))]
pub(crate) fn put_terminal<P: Page>(
    page: &mut P,
    types: &Names<u16>,
    value: &[u8],
) -> Result<(), AllocError>
    ensures { OnOk result (P.seen page.new ≡ showing_all P.showing (terminal_shown (map row_of types.now.rows.now) value.now) (P.seen page.old)) }
{
    match value {
        [low, high] => put_type(page, types, u16::from_le_bytes([*low, *high])),
        _ => page.put_digits(value),
    }
}

/// Puts a type, and the name that it has among these, if there is one, as its meaning.
#[tactic(auto, unfolding(usb_names::specs::Named::name_of))]
fn put_type<P: Page>(page: &mut P, types: &Names<u16>, code: u16) -> Result<(), AllocError>
    ensures { OnOk result (P.seen page.new ≡ showing_all P.showing (code_shown code (name_of (map row_of types.now.rows.now) code)) (P.seen page.old)) }
{
    match types.name(code) {
        None => page.put_word_code(code),
        Some(name) => {
            page.begin_word_meaning(code)?;
            page.put_name(name.text)?;
            page.put(")")
        }
    }
}

/// The last twelve bytes of a GUID that four characters name.
const AFTER_CHARACTERS: [u8; 12] = [0, 0, 0x10, 0, 0x80, 0, 0, 0xaa, 0, 0x38, 0x9b, 0x71];

/// Puts a GUID in hexadecimal digits, and the four characters that name it, if they do, as those of formats of video
/// (UVC 1.5, Uncompressed Payload).
///
/// ```rust
/// put_guid(&mut lines, b"YUY2\0\0\x10\0\x80\0\0\xaa\0\x38\x9b\x71")?;
/// assert_eq!(rt; lines.as_bytes(), b"5955593200001000800000aa00389b71 (YUY2)");
/// ```
#[inline(never)]
#[tactic(auto, unfolding(crate::specs::Names::guid_shown))]
pub(crate) fn put_guid<P: Page>(page: &mut P, guid: &[u8]) -> Result<(), AllocError>
    ensures { OnOk result (P.seen page.new ≡ showing_all P.showing (guid_shown guid.now) (P.seen page.old)) }
{
    page.put_digits(guid)?;
    if has_characters(guid) {
        page.put(" (")?;
        page.put_characters(prefix(guid, 4))?;
        page.put(")")
    } else {
        Ok(())
    }
}

/// Whether the first four bytes of these name the GUID.
fn has_characters(guid: &[u8]) -> bool
    ensures { result ≡ has_characters guid.now }
{
    after(guid, 4) == AFTER_CHARACTERS.as_slice() && are_letters_or_digits(prefix(guid, 4))
}

/// Whether each of these is an upper-case letter or a digit.
fn are_letters_or_digits(characters: &[u8]) -> bool
    ensures { result ≡ list_all is_letter_or_digit characters.now }
{
    characters.iter().all(|c| is_letter_or_digit(*c))
}

/// Whether this is an upper-case letter or a digit.
fn is_letter_or_digit(c: u8) -> bool
    ensures { result ≡ is_letter_or_digit c }
{
    matches!(c, b'0'..=b'9' | b'A'..=b'Z')
}
