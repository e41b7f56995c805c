//! Sets and files made from lines, also such as no bytes can have.
//!
//! A line says a descriptor as a listing does, but that a string is `units` with four digits for each.
use crate::words::units_of;
use anyhow::{Context, Result, bail};
use std::alloc::Global;
use usb_fields::{DeviceDescriptor, Qualifier};
use usb_file::{DescriptorFile, Other, Strings};
use usb_set::{Association, Configuration, Endpoint, Extra, Raw, Sequence, SetKind, Setting};

/// What was made of the lines so far.
#[derive(Drop)]
struct Builder {
    device: Option<DeviceDescriptor>,
    sets: Sequence<Configuration>,
    qualifier: Option<Qualifier>,
    other_sets: Sequence<Configuration>,
    languages: Option<Sequence<u16>>,
    texts: Sequence<Sequence<u16>>,
}

impl Builder {
    /// Adds what one line says: a part of the file, or a descriptor of the last set.
    fn add(&mut self, alloc: Global, line: &str) -> Result<()> {
        let (word, rest) = line.split_once(' ').unwrap_or((line, ""));
        match word {
            "device" => {
                let bytes = fields(alloc, "1201", &words_of(alloc, rest)?)?;
                self.device = Some(DeviceDescriptor::read(&bytes)?);
            }
            "qualifier" => {
                let bytes = fields(alloc, "0a06", &words_of(alloc, rest)?)?;
                self.qualifier = Some(Qualifier::read(&bytes)?);
            }
            "languages" => self.languages = Some(units(alloc, rest)?),
            "units" => self.texts.push(units(alloc, rest)?)?,
            _ if self.qualifier.is_none() => add_to_sets(alloc, &mut self.sets, word, rest)?,
            _ => add_to_sets(alloc, &mut self.other_sets, word, rest)?,
        }
        Ok(())
    }
}

/// The words of a line.
fn words_of<'a>(alloc: Global, line: &'a str) -> Result<Vec<&'a str>> {
    Ok(line.split_whitespace().collect::<Vec<&'a str>>(alloc)?)
}

/// Bytes, and after them those of fields: two digits are one byte, and four a number of two, the low one first.
fn fields(alloc: Global, front: &str, words: &[&str]) -> Result<Vec<u8>> {
    let mut bytes = hex::decode(alloc, front)?;
    for word in words {
        let mut field = hex::decode(alloc, word)?;
        field.reverse();
        bytes.extend_from_slice(&field)?;
    }
    Ok(bytes)
}

/// The bytes of the fields of a descriptor, and its tail or body after them.
fn with_tail(alloc: Global, rest: &str) -> Result<(Vec<u8>, Sequence<u8>)> {
    let mut words = words_of(alloc, rest)?;
    let last = words.pop().context("no tail")?;
    let digits = if last == "-" { "" } else { last };
    let tail = Sequence::from_vec(hex::decode(alloc, digits)?);
    Ok((fields(alloc, "", &words)?, tail))
}

/// Units of four digits.
fn units(alloc: Global, rest: &str) -> Result<Sequence<u16>> {
    let digits = words_of(alloc, rest)?.join(alloc, "")?;
    let bytes = hex::decode(alloc, digits.as_str())?;
    Ok(Sequence::from_vec(units_of(alloc, &bytes)?))
}

/// Adds a set, or a descriptor to the last one.
fn add_to_sets(
    alloc: Global,
    sets: &mut Sequence<Configuration>,
    word: &str,
    rest: &str,
) -> Result<()> {
    let kind = match word {
        "configuration" => SetKind::Configuration,
        "other_speed" => SetKind::OtherSpeed,
        _ => {
            let set = sets.last_mut().context("no set yet")?;
            return add_to_set(alloc, set, word, rest);
        }
    };
    let (fields, tail) = with_tail(alloc, rest)?;
    let [declared_interfaces, value, text, attributes, power] = fields.as_slice() else {
        bail!("not the fields of a set");
    };
    sets.push(Configuration {
        kind,
        declared_interfaces: *declared_interfaces,
        value: *value,
        text: *text,
        attributes: *attributes,
        power: *power,
        tail,
        extras: Sequence::new(alloc),
        settings: Sequence::new(alloc),
    })?;
    Ok(())
}

/// Adds an interface, or a descriptor to the nearest one that owns such.
fn add_to_set(alloc: Global, set: &mut Configuration, word: &str, rest: &str) -> Result<()> {
    if word != "interface" {
        return match set.settings.last_mut() {
            Some(setting) => add_to_setting(alloc, setting, word, rest),
            None => add_extra(alloc, &mut set.extras, word, rest),
        };
    }
    let (fields, tail) = with_tail(alloc, rest)?;
    let [
        number,
        alternate,
        declared_endpoints,
        class,
        subclass,
        protocol,
        text,
    ] = fields.as_slice()
    else {
        bail!("not the fields of an interface");
    };
    set.settings.push(Setting {
        number: *number,
        alternate: *alternate,
        declared_endpoints: *declared_endpoints,
        class: *class,
        subclass: *subclass,
        protocol: *protocol,
        text: *text,
        tail,
        extras: Sequence::new(alloc),
        endpoints: Sequence::new(alloc),
    })?;
    Ok(())
}

/// Adds an endpoint, or an extra to the last one, or to the interface where there is none.
fn add_to_setting(alloc: Global, setting: &mut Setting, word: &str, rest: &str) -> Result<()> {
    if word != "endpoint" {
        return match setting.endpoints.last_mut() {
            Some(endpoint) => add_extra(alloc, &mut endpoint.extras, word, rest),
            None => add_extra(alloc, &mut setting.extras, word, rest),
        };
    }
    let (fields, tail) = with_tail(alloc, rest)?;
    let [address, attributes, low, high, interval] = fields.as_slice() else {
        bail!("not the fields of an endpoint");
    };
    setting.endpoints.push(Endpoint {
        address: *address,
        attributes: *attributes,
        max_packet: u16::from_le_bytes([*low, *high]),
        interval: *interval,
        tail,
        extras: Sequence::new(alloc),
    })?;
    Ok(())
}

/// Adds a raw descriptor or an association.
fn add_extra(alloc: Global, extras: &mut Sequence<Extra>, word: &str, rest: &str) -> Result<()> {
    let (fields, tail) = with_tail(alloc, rest)?;
    let extra = match (word, fields.as_slice()) {
        ("raw", [kind]) => Extra::Raw(Raw {
            kind: *kind,
            body: tail,
        }),
        ("association", [first, count, class, subclass, protocol, text]) => {
            Extra::Association(Association {
                first: *first,
                count: *count,
                class: *class,
                subclass: *subclass,
                protocol: *protocol,
                text: *text,
                tail,
            })
        }
        _ => bail!("no descriptor called {word} with these fields can stand here"),
    };
    extras.push(extra)?;
    Ok(())
}

/// What is made of the lines.
fn made_of(alloc: Global, lines: &str) -> Result<Builder> {
    let mut builder = Builder {
        device: None,
        sets: Sequence::new(alloc),
        qualifier: None,
        other_sets: Sequence::new(alloc),
        languages: None,
        texts: Sequence::new(alloc),
    };
    for line in lines.lines() {
        builder.add(alloc, line).context(format_args!("in {line}"))?;
    }
    Ok(builder)
}

/// The file of the lines.
pub(crate) fn file_of(alloc: Global, lines: &str) -> Result<DescriptorFile> {
    let made = made_of(alloc, lines)?;
    let other_sets = made.other_sets;
    let texts = made.texts;
    Ok(DescriptorFile {
        device: made.device.context("no device")?,
        sets: made.sets,
        other: made.qualifier.map(|qualifier| Other {
            qualifier,
            sets: other_sets,
        }),
        strings: made.languages.map(|languages| Strings { languages, texts }),
    })
}

/// The last set of the lines.
pub(crate) fn set_of(alloc: Global, lines: &str) -> Result<Configuration> {
    made_of(alloc, lines)?.sets.pop().context("no set")
}
