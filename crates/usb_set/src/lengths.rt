//! One pass over a set, which judges its descriptors by their bLength and counts their bytes.
ghost use Rattle.std.specs.Prelude.{◌≡◌};
ghost use Rattle.std.specs.List.{list_any};
ghost use Rattle.usb_set.specs.Layout.{has_long_descriptor, has_typed_raw, is_typed_raw};
ghost use Rattle.usb_set.specs.inside.Trees.{is_endpoint_long, is_endpoint_typed, is_extra_long, is_setting_long, is_setting_typed};
ghost use Rattle.std.specs.Prelude.{◌≡◌, ◌+◌, ◌-◌, ◌≤◌, IfSome, length, false, nat_lt};
ghost use Rattle.std.specs.List.{flat_map, list_any};
ghost use Rattle.usb_set.specs.Layout.{has_long_descriptor, has_typed_raw, is_typed_raw, set_bytes};
ghost use Rattle.usb_set.specs.inside.Trees.{counted, measured, endpoint_bytes, extra_bytes, is_endpoint_long, is_endpoint_typed, is_extra_long, is_setting_long, is_setting_typed, is_tree_long, is_tree_typed, setting_bytes, tree_bytes};

use crate::extra::{Extra, Raw};
use crate::tree::{Configuration, Endpoint, Setting};
use crate::with_extra;
use usb_fields::descriptor_length;

impl Endpoint {
    /// The most bytes of a tail.
    pub const MOST_TAIL: usize = 248;
}

impl Setting {
    /// The most bytes of a tail.
    pub const MOST_TAIL: usize = 246;
}

impl Configuration {
    /// The most bytes of a tail.
    pub const MOST_TAIL: usize = 246;

    /// The most bytes of a set: wTotalLength counts no more (USB 2.0, 9.6.3).
    pub const MOST_BYTES: usize = 65_535;
}

fn is_extra_long(extra: &Extra) -> bool
    ensures { result ≡ is_extra_long extra.now }
{
    with_extra!(extra, item => item.tail().len() > Raw::MOST_BODY - item.field_bytes().len())
}

fn any_extra_long(extras: &[Extra]) -> bool
    ensures { result ≡ list_any is_extra_long extras.now }
{
    extras.iter().any(|extra| is_extra_long(extra))
}

fn is_endpoint_long(endpoint: &Endpoint) -> bool
    ensures { result ≡ is_endpoint_long endpoint.now }
{
    endpoint.tail.len() > Endpoint::MOST_TAIL || any_extra_long(&endpoint.extras)
}

fn any_endpoint_long(endpoints: &[Endpoint]) -> bool
    ensures { result ≡ list_any is_endpoint_long endpoints.now }
{
    endpoints.iter().any(|endpoint| is_endpoint_long(endpoint))
}

fn is_setting_long(setting: &Setting) -> bool
    ensures { result ≡ is_setting_long setting.now }
{
    setting.tail.len() > Setting::MOST_TAIL
        || any_extra_long(&setting.extras)
        || any_endpoint_long(&setting.endpoints)
}

fn any_setting_long(settings: &[Setting]) -> bool
    ensures { result ≡ list_any is_setting_long settings.now }
{
    settings.iter().any(|setting| is_setting_long(setting))
}

#[tactic(auto, using(crate::proofs::Trees::has_long_is))]
pub(crate) fn has_long_descriptor(c: &Configuration) -> bool
    ensures { result ≡ has_long_descriptor c.now }
{
    c.tail.len() > Configuration::MOST_TAIL
        || any_extra_long(&c.extras)
        || any_setting_long(&c.settings)
}

fn any_typed_raw(extras: &[Extra]) -> bool
    ensures { result ≡ list_any is_typed_raw extras.now }
{
    extras.iter().any(|extra| extra.is_typed_raw())
}

fn any_endpoint_typed(endpoints: &[Endpoint]) -> bool
    ensures { result ≡ list_any is_endpoint_typed endpoints.now }
{
    endpoints
        .iter()
        .any(|endpoint| any_typed_raw(&endpoint.extras))
}

fn is_setting_typed(setting: &Setting) -> bool
    ensures { result ≡ is_setting_typed setting.now }
{
    any_typed_raw(&setting.extras) || any_endpoint_typed(&setting.endpoints)
}

fn any_setting_typed(settings: &[Setting]) -> bool
    ensures { result ≡ list_any is_setting_typed settings.now }
{
    settings.iter().any(|setting| is_setting_typed(setting))
}

#[tactic(auto, using(crate::proofs::Trees::has_typed_is))]
pub(crate) fn has_typed_raw(c: &Configuration) -> bool
    ensures { result ≡ has_typed_raw c.now }
{
    any_typed_raw(&c.extras) || any_setting_typed(&c.settings)
}

/// A part of a set that the pass goes over. All parts are inlined, since one loop nest is the quicker.
trait Measured {
    ghost use Rattle.std.specs.Prelude.{ℕ, Bool, List};

    /// Whether one of its descriptors is over 255 bytes.
    ghost is_long: { Self → Bool };

    /// Whether one of them is raw and has a type that a set reads.
    ghost is_typed: { Self → Bool };

    /// Its bytes.
    ghost bytes: { Self → List ℕ };

    /// The count after it, or none where a set with it has no bytes.
    fn len_after(&self, start: usize) -> Option<usize>
        requires { start ≤ 65535 }
        ensures is { counted result ≡ measured start (is_long self.now) (is_typed self.now) (length (bytes self.now)) }
        ensures short { IfSome result (λ count. count ≤ 65535) };
}

/// The count after several parts, one after another.
#[inline(always)]
fn all_len<T: Measured>(start: usize, parts: &[T]) -> Option<usize>
    requires { start ≤ 65535 }
    ensures is { counted result ≡ measured start (list_any T.is_long parts.now) (list_any T.is_typed parts.now) (length (flat_map T.bytes parts.now)) }
    ensures short { IfSome result (λ count. count ≤ 65535) }
{
    let mut total = start;
    for part in parts {
        total = part.len_after(total)?;
    }
    Some(total)
}

/// The count after a descriptor of `fixed` bytes and a tail.
#[inline(always)]
fn descriptor_len(start: usize, fixed: u8, tail: usize) -> Option<usize>
    requires start { start ≤ 65535 }
    requires fixed { fixed ≤ 9 }
    ensures is { counted result ≡ measured start (nat_lt (255 - fixed) tail) false (fixed + tail) }
    ensures short { IfSome result (λ count. count ≤ 65535) }
{
    if tail > usize::from(descriptor_length::LONGEST - fixed) {
        return None;
    }
    let end = start + usize::from(fixed) + tail;
    if end > Configuration::MOST_BYTES {
        None
    } else {
        Some(end)
    }
}

impl Measured for Extra {
    ghost is_long = { is_extra_long };

    ghost is_typed = { is_typed_raw };

    ghost bytes = { extra_bytes };

    #[inline(always)]
    fn len_after(&self, start: usize) -> Option<usize> {
        if self.is_typed_raw() {
            return None;
        }
        with_extra!(self, item => {
            let fixed = descriptor_length::HEAD + item.field_bytes().len() as u8;
            descriptor_len(start, fixed, item.tail().len())
        })
    }
}

impl Measured for Endpoint {
    ghost is_long = { is_endpoint_long };

    ghost is_typed = { is_endpoint_typed };

    ghost bytes = { endpoint_bytes };

    #[inline(always)]
    #[tactic(auto, using(crate::proofs::Measures::counted_then))]
    fn len_after(&self, start: usize) -> Option<usize> {
        let head = descriptor_len(start, descriptor_length::ENDPOINT, self.tail.len())?;
        all_len(head, &self.extras)
    }
}

impl Measured for Setting {
    ghost is_long = { is_setting_long };

    ghost is_typed = { is_setting_typed };

    ghost bytes = { setting_bytes };

    #[inline(always)]
    #[tactic(auto, using(crate::proofs::Measures::counted_then))]
    fn len_after(&self, start: usize) -> Option<usize> {
        let head = descriptor_len(start, descriptor_length::INTERFACE, self.tail.len())?;
        let extras = all_len(head, &self.extras)?;
        all_len(extras, &self.endpoints)
    }
}

#[tactic(auto, using(crate::proofs::Measures::counted_then))]
fn tree_len(c: &Configuration) -> Option<usize>
    ensures is { counted result ≡ measured 0 (is_tree_long c.now) (is_tree_typed c.now) (length (tree_bytes c.now 0)) }
    ensures short { IfSome result (λ count. count ≤ 65535) }
{
    let head = descriptor_len(0, descriptor_length::CONFIGURATION, c.tail.len())?;
    let extras = all_len(head, &c.extras)?;
    all_len(extras, &c.settings)
}

/// How many bytes the set has, or none where it has none.
pub(crate) fn set_len(c: &Configuration) -> Option<usize>
    ensures is { counted result ≡ measured 0 (has_long_descriptor c.now) (has_typed_raw c.now) (length (set_bytes c.now 0)) }
    ensures short { IfSome result (λ count. count ≤ 65535) }
{
    tree_len(c)
}
