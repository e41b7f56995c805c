//! Requests in words (USB 2.0, 9.3 and 9.4).
ghost use Rattle.std.specs.Prelude.{◌≡◌, ◌++◌, OnOk};
ghost use Rattle.usb_capture_lines.specs.Requests.{asked_words, descriptor_words, is_standard, kind_words, language_words, length_words, numbered, parameter_words, recipient_words, request_name, request_words, type_name};

use std::alloc::AllocError;
use usb_fields::{Setup, descriptor_type, request};
use usb_text::{Text, put_byte_code, put_count, put_word_code};

/// Puts a request: what is asked for, of which part of the device, and how many bytes.
#[tactic(auto, unfolding(crate::specs::Requests::request_words))]
pub(crate) fn put_request(text: &mut Text, setup: &Setup) -> Result<(), AllocError>
    ensures { OnOk result (text.new ≡ text.old ++ request_words setup.now) }
{
    put_asked(text, setup)?;
    put_recipient(text, setup.request_type % 32, setup.index)?;
    put_length(text, setup.length)
}

/// Puts the name of a standard request and its parameter, or the number of another one.
fn put_asked(text: &mut Text, setup: &Setup) -> Result<(), AllocError>
    ensures { OnOk result (text.new ≡ text.old ++ asked_words setup.now) }
{
    if is_standard(setup.request_type) {
        text.put(request_name(setup.request))?;
        put_parameter(text, setup)
    } else {
        text.put(type_name(setup.request_type))?;
        text.put(" request ")?;
        put_byte_code(text, setup.request)
    }
}

/// Whether a request is standard (table 9-2).
fn is_standard(request_type: u8) -> bool
    ensures { result ≡ is_standard request_type }
{
    request_type / 32 % 4 == 0
}

/// The type of a request that isn't standard (table 9-2).
fn type_name(request_type: u8) -> &'static str
    ensures { result.now ≡ type_name request_type }
{
    match request_type / 32 % 4 {
        1 => "class",
        2 => "vendor",
        _ => "reserved",
    }
}

/// The name of a standard request (table 9-4).
fn request_name(request: u8) -> &'static str
    ensures { result.now ≡ request_name request }
{
    match request {
        0 => "GET_STATUS",
        1 => "CLEAR_FEATURE",
        3 => "SET_FEATURE",
        5 => "SET_ADDRESS",
        6 => "GET_DESCRIPTOR",
        7 => "SET_DESCRIPTOR",
        8 => "GET_CONFIGURATION",
        9 => "SET_CONFIGURATION",
        10 => "GET_INTERFACE",
        11 => "SET_INTERFACE",
        12 => "SYNCH_FRAME",
        _ => "reserved request",
    }
}

/// Puts what wValue says of a standard request.
fn put_parameter(text: &mut Text, setup: &Setup) -> Result<(), AllocError>
    ensures { OnOk result (text.new ≡ text.old ++ parameter_words setup.now) }
{
    match setup.request {
        request::GET_DESCRIPTOR | request::SET_DESCRIPTOR => put_descriptor(text, setup),
        1 | 3 | 5 | 9 | 11 => {
            text.put(" ")?;
            text.put_decimal(u64::from(setup.value))
        }
        _ => Ok(()),
    }
}

/// Puts a descriptor: its type, its index and, of a string, its language.
#[tactic(auto, unfolding(crate::specs::Requests::descriptor_words))]
fn put_descriptor(text: &mut Text, setup: &Setup) -> Result<(), AllocError>
    ensures { OnOk result (text.new ≡ text.old ++ descriptor_words setup.now) }
{
    let kind = (setup.value / 256) as u8;
    let index = (setup.value % 256) as u8;
    text.put(" ")?;
    put_kind(text, kind)?;
    text.put(" ")?;
    text.put_decimal(u64::from(index))?;
    put_language(text, kind, index, setup.index)
}

fn put_kind(text: &mut Text, kind: u8) -> Result<(), AllocError>
    ensures { OnOk result (text.new ≡ text.old ++ kind_words kind) }
{
    match kind {
        descriptor_type::DEVICE => text.put("device"),
        descriptor_type::CONFIGURATION => text.put("configuration"),
        descriptor_type::STRING => text.put("string"),
        descriptor_type::DEVICE_QUALIFIER => text.put("qualifier"),
        descriptor_type::OTHER_SPEED_CONFIGURATION => text.put("other-speed"),
        15 => text.put("BOS"),
        code => put_byte_code(text, code),
    }
}

fn put_language(text: &mut Text, kind: u8, index: u8, language: u16) -> Result<(), AllocError>
    ensures { OnOk result (text.new ≡ text.old ++ language_words kind index language) }
{
    if kind == descriptor_type::STRING && index > 0 {
        text.put(" ")?;
        put_word_code(text, language)
    } else {
        Ok(())
    }
}

/// Puts the interface, the endpoint or the other part that a request is for, as a port of a hub.
fn put_recipient(text: &mut Text, recipient: u8, index: u16) -> Result<(), AllocError>
    ensures { OnOk result (text.new ≡ text.old ++ recipient_words recipient index) }
{
    match recipient {
        1 => put_numbered(text, " of interface ", index),
        2 => {
            text.put(" of endpoint ")?;
            put_byte_code(text, (index % 256) as u8)
        }
        3 => put_numbered(text, " of other ", index),
        _ => Ok(()),
    }
}

/// Puts words, and a number after them.
#[tactic(auto, unfolding(crate::specs::Requests::numbered))]
fn put_numbered(text: &mut Text, words: &str, number: u16) -> Result<(), AllocError>
    ensures { OnOk result (text.new ≡ text.old ++ numbered words.now number) }
{
    text.put(words)?;
    text.put_decimal(u64::from(number))
}

/// Puts how many bytes a request is about, if there are some.
fn put_length(text: &mut Text, length: u16) -> Result<(), AllocError>
    ensures { OnOk result (text.new ≡ text.old ++ length_words length) }
{
    if length == 0 {
        return Ok(());
    }
    text.put(", ")?;
    put_count(text, u64::from(length), "byte")
}
