//! The state of a device, in words.
use std::alloc::{AllocError, Global};
use usb_device::State;

/// A state, as in `address=5 selected=1 alternates=0:1 halts=81 wakeup=off`: the alternate settings other than 0,
/// and the addresses of the halted endpoints in hexadecimal, each of which is `-` where there is none.
pub fn state_text(alloc: Global, state: &State) -> Result<String, AllocError> {
    let address = state.address;
    let selected = state.selected;
    let alternates = alternates_text(alloc, &state.alternates)?;
    let halts = halts_text(alloc, state.halts)?;
    let wakeup = if state.wakeup { "on" } else { "off" };
    let numbers = format!(in alloc; "address={address} selected={selected}")?;
    format!(in alloc; "{numbers} alternates={alternates} halts={halts} wakeup={wakeup}")
}

fn alternates_text(alloc: Global, alternates: &[u8; 256]) -> Result<String, AllocError> {
    let mut text = String::from_str(alloc, "-")?;
    for (number, alternate) in alternates.iter().enumerate() {
        if *alternate != 0 {
            text = with_word(
                alloc,
                text,
                format!(in alloc; "{number}:{alternate}")?.as_str(),
            )?;
        }
    }
    Ok(text)
}

fn halts_text(alloc: Global, halts: u32) -> Result<String, AllocError> {
    let mut text = String::from_str(alloc, "-")?;
    for place in 0..32u32 {
        if halts >> place & 1 == 1 {
            let address = (place % 16 + place / 16 * 128) as u8;
            text = with_word(alloc, text, hex::encode(alloc, [address])?.as_str())?;
        }
    }
    Ok(text)
}

/// A list of words with one more: after a comma, or in the place of the `-` of none.
fn with_word(alloc: Global, text: String, word: &str) -> Result<String, AllocError> {
    if text.as_str() == "-" {
        return String::from_str(alloc, word);
    }
    format!(in alloc; "{text},{word}")
}
