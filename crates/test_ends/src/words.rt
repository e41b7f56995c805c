//! The words that steps of all kinds share.
use std::alloc::{AllocError, Global};
use usb_bus::Fate;
use usb_fields::{Speed, Toggle};

/// `low`, `full` or `high`.
pub fn read_speed(word: &str) -> Option<Speed> {
    match word {
        "low" => Some(Speed::Low),
        "full" => Some(Speed::Full),
        "high" => Some(Speed::High),
        _ => None,
    }
}

/// `data0` or `data1`.
pub fn read_toggle(word: &str) -> Option<Toggle> {
    match word {
        "data0" => Some(Toggle::Data0),
        "data1" => Some(Toggle::Data1),
        _ => None,
    }
}

/// Bytes in hexadecimal, or `-` for none.
pub fn read_bytes(alloc: Global, word: &str) -> Option<Vec<u8>> {
    if word == "-" {
        return Some(Vec::new(alloc));
    }
    hex::decode(alloc, word).ok()
}

/// Bytes in hexadecimal, or `-` where there is none.
pub fn bytes_text(alloc: Global, bytes: &[u8]) -> Result<String, AllocError> {
    if bytes.is_empty() {
        String::from_str(alloc, "-")
    } else {
        hex::encode(alloc, bytes)
    }
}

/// A data packet, as in `data1 1201`, or `data1 -` where it is empty.
pub fn packet_text(alloc: Global, toggle: Toggle, bytes: &[u8]) -> Result<String, AllocError> {
    let bytes = bytes_text(alloc, bytes)?;
    match toggle {
        Toggle::Data0 => format!(in alloc; "data0 {bytes}"),
        Toggle::Data1 => format!(in alloc; "data1 {bytes}"),
    }
}

/// The fates that the letters mean: `.` Pass, `n` Busy, `d` LostDown, `u` LostUp, `a` LostAck; `-` alone is none.
pub fn read_fates(alloc: Global, letters: &str) -> Result<Option<Vec<Fate>>, AllocError> {
    let mut fates = Vec::new(alloc);
    if letters == "-" {
        return Ok(Some(fates));
    }
    for letter in letters.chars() {
        fates.push(match letter {
            '.' => Fate::Pass,
            'n' => Fate::Busy,
            'd' => Fate::LostDown,
            'u' => Fate::LostUp,
            'a' => Fate::LostAck,
            _ => return Ok(None),
        })?;
    }
    Ok(Some(fates))
}
