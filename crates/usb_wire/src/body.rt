//! What follows a PID, read and written (USB 2.0, 8.3 and 8.4).
ghost use Rattle.std.specs.Prelude.{◌≡◌, ◌<◌, ◌≤◌, ◌∷◌, Some, length, IfOk, IfErr};
ghost use Rattle.usb_wire.specs.Packets.{AreBytes, token_field, split_field, data_field, pid_byte};
ghost use Rattle.usb_wire.specs.Damages.{token_damage, data_damage, bare_damage};

use crate::crc::{crc5, data_register, token_register};
use crate::damage::Damage;
use crate::pid::Pid;

/// What bits with their 5-bit CRC leave in its register.
const TOKEN_RESIDUAL: u8 = 0x06;

/// What data with their 16-bit CRC leave in its register.
const DATA_RESIDUAL: u16 = 0xb001;

/// The most bytes that a data packet has, without its PID and its CRC (USB 2.0, 8.3.4).
pub const MOST_DATA: usize = 1024;

/// The 11 bits of a token or of a start of frame.
pub(crate) fn read_token(body: &[u8]) -> Result<u16, Damage>
    ensures ok { IfOk result (λ fields. body.now ≡ token_field fields) }
    ensures few { IfOk result (λ fields. fields < 2048) }
    ensures err { IfErr result (λ damage. token_damage 2 body.now ≡ Some damage) }
{
    known_bytes(body);
    let [low, high] = body else {
        return Err(Damage::Length);
    };
    if token_register(body) != TOKEN_RESIDUAL {
        return Err(Damage::Crc5);
    }
    Ok((u16::from(*low) + 256 * u16::from(*high)) % 2048)
}

/// The 19 bits of a SPLIT.
pub(crate) fn read_split(body: &[u8]) -> Result<u32, Damage>
    ensures ok { IfOk result (λ fields. body.now ≡ split_field fields) }
    ensures few { IfOk result (λ fields. fields < 524288) }
    ensures err { IfErr result (λ damage. token_damage 3 body.now ≡ Some damage) }
{
    known_bytes(body);
    let [low, middle, high] = body else {
        return Err(Damage::Length);
    };
    if token_register(body) != TOKEN_RESIDUAL {
        return Err(Damage::Crc5);
    }
    Ok((u32::from(*low) + 256 * u32::from(*middle) + 65536 * u32::from(*high)) % 524_288)
}

/// The bytes of a data packet without its CRC.
#[tactic(auto, using(crate::proofs::Bodies::data_body))]
pub(crate) fn read_data(body: &[u8]) -> Result<&[u8], Damage>
    ensures ok { IfOk result (λ b. body.now ≡ data_field b.now) }
    ensures few { IfOk result (λ b. length b.now ≤ 1024) }
    ensures err { IfErr result (λ damage. data_damage body.now ≡ Some damage) }
{
    known_bytes(body);
    if body.len() < 2 || body.len() > MOST_DATA + 2 {
        return Err(Damage::Length);
    }
    if data_register(body) != DATA_RESIDUAL {
        return Err(Damage::Crc16);
    }
    Ok(&body[..body.len() - 2])
}

/// That nothing follows, as after a handshake.
pub(crate) fn read_nothing(body: &[u8]) -> Result<(), Damage>
    ensures ok { IfOk result (λ none. length body.now ≡ 0) }
    ensures err { IfErr result (λ damage. bare_damage body.now ≡ Some damage) }
{
    if body.is_empty() {
        Ok(())
    } else {
        Err(Damage::Length)
    }
}

/// The bytes of a token or of a start of frame with these 11 bits.
pub(crate) fn token_bytes(pid: Pid, fields: u16) -> [u8; 3]
    requires { fields < 2048 }
    ensures { result ≡ pid_byte pid ∷ token_field fields }
{
    let field = fields + 2048 * u16::from(crc5(u32::from(fields), 11));
    [pid.byte(), (field % 256) as u8, (field / 256) as u8]
}

/// The bytes of a SPLIT with these 19 bits.
pub(crate) fn split_bytes(fields: u32) -> [u8; 4]
    requires { fields < 524288 }
    ensures { result ≡ pid_byte Pid.Split ∷ split_field fields }
{
    let field = fields + 524_288 * u32::from(crc5(fields, 19));
    [
        Pid::Split.byte(),
        (field % 256) as u8,
        (field / 256 % 256) as u8,
        (field / 65536) as u8,
    ]
}

/// Each element of a slice of bytes is one.
pub(crate) fn known_bytes(bytes: &[u8])
    ensures { AreBytes bytes.now }
{}
