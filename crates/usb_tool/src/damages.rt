//! What the option `--damage` of `enumerate` says.
ghost use Rattle.std.specs.Prelude.{◌≡◌, ◌<◌, ◌==◌, IfErr, IfOk, OnOk, map, option_map};
ghost use Rattle.usb_tool.specs.OptionValues.{number_of};
ghost use Rattle.usb_tool.specs.Damages.{AddsSaid, RefusesDamages, RefusesSaid, bits_said, damages_of, entry_said, packet_said, parts_at, transaction_said};

use crate::settings::SettingsFault;
use std::alloc::{AllocError, Global};
use usb_bus::BitChange;

/// The changes of bits that a text names, in order. It has entries with a `;` between them. An entry is the number of a
/// transaction and of a packet in it, both counted from 1, and the numbers of bits in that, counted from 0 and with a `,`
/// between them; a `:` parts the three. A transaction has at most three packets.
///
/// ```rust
/// let changes = read_damages(alloc, "7:2:5")?;
/// assert_eq!(rt; changes.as_slice(), [BitChange { transaction: 7, packet: 2, bit: 5 }]);
/// assert_eq!(rt; read_damages(alloc, "7:4:5").err(), Some(SettingsFault::Damages));
/// ```
///
/// # Errors
///
/// [`SettingsFault::Damages`] where the text is not so, or a number is out of its range, and [`SettingsFault::Memory`].
pub fn read_damages(alloc: Global, text: &str) -> Result<Vec<BitChange>, SettingsFault>
    ensures ok { IfOk result (λ changes. damages_of text.now ≡ Some changes.items) }
    ensures err { IfErr result (RefusesDamages text.now) }
{
    let entries = parts(alloc, text, ';')?;
    let mut changes = Vec::new(alloc);
    for entry in &entries {
        push_entry(alloc, &mut changes, entry)?;
    }
    Ok(changes)
}

/// The parts of a text between these ASCII characters.
fn parts<'t>(alloc: Global, text: &'t str, at: char) -> Result<Vec<&'t str>, AllocError>
    requires { at < 128 }
    ensures { IfOk result (λ v. map (λ x. x.now) v.items ≡ parts_at at text.now) }
{
    text.split(at).collect(alloc)
}

/// Adds the changes of an entry.
fn push_entry(alloc: Global, changes: &mut Vec<BitChange>, entry: &str) -> Result<(), SettingsFault>
    ensures ok { OnOk result (AddsSaid (entry_said (parts_at 58 entry.now)) changes.old.items changes.new.items) }
    ensures err { IfErr result (RefusesSaid (entry_said (parts_at 58 entry.now))) }
{
    let fields = parts(alloc, entry, ':')?;
    match fields.as_slice() {
        [transaction, packet, bits] => {
            let (Some(transaction), Some(packet)) = (transaction_of(transaction), packet_of(packet))
            else {
                return Err(SettingsFault::Damages);
            };
            push_bits(alloc, changes, transaction, packet, bits)
        }
        _ => Err(SettingsFault::Damages),
    }
}

/// Adds the changes of these bits in a packet.
fn push_bits(
    alloc: Global,
    changes: &mut Vec<BitChange>,
    transaction: u64,
    packet: u8,
    text: &str,
) -> Result<(), SettingsFault>
    ensures ok { OnOk result (AddsSaid (bits_said transaction packet text.now) changes.old.items changes.new.items) }
    ensures err { IfErr result (RefusesSaid (bits_said transaction packet text.now)) }
{
    let bits = parts(alloc, text, ',')?;
    for bit in &bits {
        match bit_number(bit) {
            Some(bit) => changes.push(BitChange {
                transaction,
                packet,
                bit,
            })?,
            None => return Err(SettingsFault::Damages),
        }
    }
    Ok(())
}

/// The number of a transaction.
fn transaction_of(text: &str) -> Option<u64>
    ensures { result ≡ transaction_said text.now }
{
    match long_number(text) {
        Some(0) | None => None,
        Some(number) => Some(number),
    }
}

/// The number of a packet in a transaction.
fn packet_of(text: &str) -> Option<u8>
    ensures { result ≡ packet_said text.now }
{
    match short_number(text) {
        Some(number) if number > 0 && number < 4 => Some(number),
        _ => None,
    }
}

fn long_number(text: &str) -> Option<u64>
    ensures { result ≡ number_of 64 text.now }
{
    text.parse::<u64>().ok()
}

fn bit_number(text: &str) -> Option<u32>
    ensures { result ≡ number_of 32 text.now }
{
    text.parse::<u32>().ok()
}

fn short_number(text: &str) -> Option<u8>
    ensures { result ≡ number_of 8 text.now }
{
    text.parse::<u8>().ok()
}
