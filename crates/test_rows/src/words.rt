//! The words of a row, written out.
use anyhow::{Context, Result, bail, ensure};
use std::alloc::Global;
use std::collections::BTreeMap;

/// The texts for which a file of rows has names.
pub(crate) type Names = BTreeMap<String, String>;

/// The word written out: its parts, which are joined by `+`, each as often as it says.
pub(crate) fn expand(alloc: Global, names: &Names, word: &str) -> Result<String> {
    let mut text = String::new(alloc);
    for part in word.split('+') {
        let (count, atom) = counted(part);
        let atom = match names.get(atom) {
            Some(known) => known.as_str(),
            None => atom,
        };
        text.push_str(atom.repeat(alloc, count)?.as_str())?;
    }
    Ok(text)
}

/// The words written out.
pub(crate) fn expand_all(alloc: Global, names: &Names, words: &str) -> Result<Vec<String>> {
    let mut expanded = Vec::new(alloc);
    for word in words.split_whitespace() {
        expanded.push(expand(alloc, names, word)?)?;
    }
    Ok(expanded)
}

/// The line with its words written out and a line feed, as often as its first word says.
pub(crate) fn expand_line(alloc: Global, names: &Names, line: &str) -> Result<String> {
    let mut words = line.split(' ');
    let (count, first) = counted(words.next().unwrap_or(""));
    let mut text = String::from_str(alloc, first)?;
    for word in words {
        text.push_str(" ")?;
        text.push_str(expand(alloc, names, word)?.as_str())?;
    }
    text.push_str("\n")?;
    Ok(text.repeat(alloc, count)?)
}

/// How often a part is there, and what it is: `253*00` is 253 times `00`.
fn counted(part: &str) -> (usize, &str) {
    if let Some((count, atom)) = part.split_once('*')
        && let Ok(count) = count.parse::<usize>()
    {
        return (count, atom);
    }
    (1, part)
}

/// The bytes that the words say.
pub(crate) fn bytes_of(alloc: Global, words: &[String]) -> Result<Vec<u8>> {
    changed(alloc, "", words)
}

/// The bytes of the lines, once the words have changed them, one after another.
pub(crate) fn changed(alloc: Global, lines: &str, words: &[String]) -> Result<Vec<u8>> {
    let mut bytes = Vec::from_slice(alloc, lines.as_bytes())?;
    for word in words {
        put(&mut bytes, alloc, word.as_str()).context(format_args!("in {word}"))?;
    }
    Ok(bytes)
}

/// Does with the bytes what one word says: digits add more bytes, `2=21` puts others from place 2 on, `..20`
/// leaves the first 20, and `-` says nothing.
fn put(bytes: &mut Vec<u8>, alloc: Global, word: &str) -> Result<()> {
    if word == "-" {
        return Ok(());
    }
    if let Some(length) = word.strip_prefix("..") {
        bytes.truncate(length.parse::<usize>()?);
        return Ok(());
    }
    let Some((place, digits)) = word.split_once('=') else {
        bytes.extend_from_slice(&hex::decode(alloc, word)?)?;
        return Ok(());
    };
    let (place, others) = (place.parse::<usize>()?, hex::decode(alloc, digits)?);
    let room = bytes.len().saturating_sub(place);
    ensure!(others.len() <= room, "there are only {room} bytes");
    for (byte, other) in bytes.iter_mut().skip(place).zip(others.iter()) {
        *byte = *other;
    }
    Ok(())
}

/// The units of two bytes each, the high byte first.
pub(crate) fn units_of(alloc: Global, bytes: &[u8]) -> Result<Vec<u16>> {
    let mut units = Vec::new(alloc);
    for pair in bytes.chunks(2) {
        match pair {
            [high, low] => units.push(u16::from_be_bytes([*high, *low]))?,
            _ => bail!("half a unit"),
        }
    }
    Ok(units)
}
