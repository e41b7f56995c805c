//! Each part of a set, written into a buffer that has room for it.
ghost use Rattle.std.specs.Prelude.{◌≡◌, ◌≤◌, ◌+◌, ◌++◌, length, take, false};
ghost use Rattle.std.specs.List.{flat_map, list_any};
ghost use Rattle.usb_set.specs.Descriptors.{configuration_descriptor, descriptor_bytes};
ghost use Rattle.usb_set.specs.Layout.{has_long_descriptor, set_bytes};
ghost use Rattle.usb_set.specs.inside.Trees.{endpoint_bytes, extra_bytes, is_endpoint_long, is_extra_long, is_setting_long, is_tree_long, setting_bytes, tree_bytes, HasRoom, Puts};

use crate::extra::Extra;
use crate::tree::{Configuration, Endpoint, Setting};
use crate::with_extra;
use usb_fields::{descriptor_length, descriptor_type};

/// A part of a set that is written as bytes of its own. All parts are inlined, since one loop nest is the quicker.
trait Written {
    ghost use Rattle.std.specs.Prelude.{ℕ, Bool, List};

    /// Its bytes.
    ghost bytes: { Self → List ℕ };

    /// Whether one of its descriptors is over 255 bytes.
    ghost is_long: { Self → Bool };

    /// Writes its bytes at this place. This and each function here answers where what it wrote ends.
    fn put(&self, out: &mut [u8], at: usize) -> usize
        requires short { is_long self.now ≡ false }
        requires room { HasRoom out.old at (bytes self.now) }
        ensures { Puts out.old at (bytes self.now) out.new result };
}

/// Writes several parts, one after another.
#[inline(always)]
#[tactic(auto, using(crate::proofs::Tests::none_at))]
fn put_all<T: Written>(out: &mut [u8], at: usize, parts: &[T]) -> usize
    requires short { list_any T.is_long parts.now ≡ false }
    requires room { HasRoom out.old at (flat_map T.bytes parts.now) }
    ensures { Puts out.old at (flat_map T.bytes parts.now) out.new result }
{
    let mut end = at;
    for part in parts {
        end = part.put(out, end);
    }
    end
}

#[inline(always)]
fn put_bytes(out: &mut [u8], at: usize, bytes: &[u8]) -> usize
    requires { HasRoom out.old at bytes.now }
    ensures { Puts out.old at bytes.now out.new result }
{
    let end = at + bytes.len();
    out[at..end].copy_from_slice(bytes);
    end
}

/// Writes a descriptor: bLength, bDescriptorType, its fields, and what it has beyond them.
#[inline(always)]
fn put_descriptor(out: &mut [u8], at: usize, kind: u8, fields: &[u8], tail: &[u8]) -> usize
    requires short { length (fields.now ++ tail.now) ≤ 253 }
    requires room { HasRoom out.old at (descriptor_bytes (record { kind = kind; body = fields.now ++ tail.now })) }
    ensures { Puts out.old at (descriptor_bytes (record { kind = kind; body = fields.now ++ tail.now })) out.new result }
{
    let len = (fields.len() + tail.len()) as u8 + descriptor_length::HEAD;
    let fields_at = put_bytes(out, at, &[len, kind]);
    let tail_at = put_bytes(out, fields_at, fields);
    put_bytes(out, tail_at, tail)
}

impl Written for Extra {
    ghost bytes = { extra_bytes };

    ghost is_long = { is_extra_long };

    #[inline(always)]
    fn put(&self, out: &mut [u8], at: usize) -> usize {
        with_extra!(self, item => {
            put_descriptor(out, at, item.descriptor_type(), &item.field_bytes(), item.tail())
        })
    }
}

impl Written for Endpoint {
    ghost bytes = { endpoint_bytes };

    ghost is_long = { is_endpoint_long };

    #[inline(always)]
    fn put(&self, out: &mut [u8], at: usize) -> usize {
        let kind = descriptor_type::ENDPOINT;
        let extras_at = put_descriptor(out, at, kind, &self.field_bytes(), &self.tail);
        put_all(out, extras_at, &self.extras)
    }
}

impl Written for Setting {
    ghost bytes = { setting_bytes };

    ghost is_long = { is_setting_long };

    #[inline(always)]
    fn put(&self, out: &mut [u8], at: usize) -> usize {
        let kind = descriptor_type::INTERFACE;
        let extras_at = put_descriptor(out, at, kind, &self.field_bytes(), &self.tail);
        let endpoints_at = put_all(out, extras_at, &self.extras);
        put_all(out, endpoints_at, &self.endpoints)
    }
}

fn put_header(out: &mut [u8], at: usize, c: &Configuration, total: u16) -> usize
    requires short { length c.now.tail ≤ 246 }
    requires room { HasRoom out.old at (descriptor_bytes (configuration_descriptor c.now total)) }
    ensures { Puts out.old at (descriptor_bytes (configuration_descriptor c.now total)) out.new result }
{
    let [low, high] = total.to_le_bytes();
    let [interfaces, value, text, attributes, power] = c.field_bytes();
    let fields = [low, high, interfaces, value, text, attributes, power];
    put_descriptor(out, at, c.kind.descriptor_type(), &fields, &c.tail)
}

fn put_tree(out: &mut [u8], at: usize, c: &Configuration, total: u16) -> usize
    requires short { is_tree_long c.now ≡ false }
    requires room { HasRoom out.old at (tree_bytes c.now total) }
    ensures { Puts out.old at (tree_bytes c.now total) out.new result }
{
    let extras_at = put_header(out, at, c, total);
    let settings_at = put_all(out, extras_at, &c.extras);
    put_all(out, settings_at, &c.settings)
}

/// Writes the bytes of the whole set, with this number as wTotalLength, from this place on to the end of the buffer.
pub(crate) fn put_set(out: &mut [u8], at: usize, c: &Configuration, total: u16)
    requires short { has_long_descriptor c.now ≡ false }
    requires room { length out.old ≡ at + length (set_bytes c.now total) }
    ensures { out.new ≡ take at out.old ++ set_bytes c.now total }
{
    put_tree(out, at, c, total);
}
