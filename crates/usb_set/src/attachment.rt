//! The tree with one more descriptor.
ghost use Rattle.std.specs.Prelude.{◌≡◌, ◌≤◌, ◌<◌, ◌+◌, [], ◌∷◌, ◌++◌, length, OnOk, OnErr, IfOk};
ghost use Rattle.usb_set.specs.Faults.{least_length};
ghost use Rattle.usb_set.specs.inside.Reading.{attach, configuration_of, endpoint_of, endpoint_with_extra, set_with_endpoint, set_with_extra, set_with_setting, setting_of, setting_with_endpoint, setting_with_extra};

use crate::extra::Extra;
use crate::tree::{Configuration, Endpoint, SetKind, Setting};
use std::alloc::{AllocError, Global};
use usb_fields::{Sequence, descriptor_type, word_at};

/// The bytes as a list.
#[inline]
pub(crate) fn read_bytes(alloc: Global, bytes: &[u8]) -> Result<Sequence<u8>, AllocError>
    ensures { IfOk result (λ s. s ≡ bytes.now) }
{
    if bytes.is_empty() {
        return Ok(Sequence::new(alloc));
    }
    Ok(Sequence::from_vec(Vec::from_slice(alloc, bytes)?))
}

/// The set that a first descriptor begins.
pub(crate) fn read_configuration(alloc: Global, bytes: &[u8]) -> Result<Configuration, AllocError>
    requires { 9 ≤ length bytes.now }
    ensures { IfOk result (λ c. c ≡ configuration_of bytes.now) }
{
    let kind = if bytes[1] == descriptor_type::CONFIGURATION {
        SetKind::Configuration
    } else {
        SetKind::OtherSpeed
    };
    Ok(Configuration {
        kind,
        declared_interfaces: bytes[4],
        value: bytes[5],
        text: bytes[6],
        attributes: bytes[7],
        power: bytes[8],
        tail: read_bytes(alloc, &bytes[9..])?,
        extras: Sequence::new(alloc),
        settings: Sequence::new(alloc),
    })
}

/// Adds the setting of an interface descriptor's body.
#[inline(never)]
fn add_setting(alloc: Global, c: &mut Configuration, body: &[u8]) -> Result<(), AllocError>
    requires { 7 ≤ length body.now }
    ensures ok { OnOk result (c.new ≡ set_with_setting (setting_of body.now) c.old) }
    ensures err { OnErr result (c.new ≡ c.old) }
{
    let tail = read_bytes(alloc, &body[7..])?;
    c.settings.push(Setting {
        number: body[0],
        alternate: body[1],
        declared_endpoints: body[2],
        class: body[3],
        subclass: body[4],
        protocol: body[5],
        text: body[6],
        tail,
        extras: Sequence::new(alloc),
        endpoints: Sequence::new(alloc),
    })?;
    Ok(())
}

/// The endpoint of an endpoint descriptor's body.
fn read_endpoint(alloc: Global, body: &[u8]) -> Result<Endpoint, AllocError>
    requires { 5 ≤ length body.now }
    ensures { IfOk result (λ e. e ≡ endpoint_of body.now) }
{
    Ok(Endpoint {
        address: body[0],
        attributes: body[1],
        max_packet: word_at(body, 2),
        interval: body[4],
        tail: read_bytes(alloc, &body[5..])?,
        extras: Sequence::new(alloc),
    })
}

#[tactic(auto, unfolding(crate::specs::inside::Reading::endpoint_with_extra))]
fn add_to_endpoint(e: &mut Endpoint, extra: Extra) -> Result<(), AllocError>
    ensures ok { OnOk result (e.new ≡ endpoint_with_extra extra e.old) }
    ensures err { OnErr result (e.new ≡ e.old) }
{
    e.extras.push(extra)?;
    Ok(())
}

#[tactic(auto, unfolding(crate::specs::inside::Reading::setting_with_endpoint))]
#[inline(always)]
fn push_endpoint(s: &mut Setting, endpoint: Endpoint) -> Result<(), AllocError>
    ensures ok { OnOk result (s.new ≡ setting_with_endpoint endpoint s.old) }
    ensures err { OnErr result (s.new ≡ s.old) }
{
    s.endpoints.push(endpoint)?;
    Ok(())
}

/// Adds the endpoint of an endpoint descriptor's body to the last setting.
#[tactic(auto, using(crate::proofs::Last::with_last_is))]
#[inline(never)]
fn add_endpoint(alloc: Global, c: &mut Configuration, body: &[u8]) -> Result<(), AllocError>
    requires body { 5 ≤ length body.now }
    requires belongs { 0 < length c.old.settings }
    ensures ok { OnOk result (c.new ≡ set_with_endpoint (endpoint_of body.now) c.old) }
    ensures err { OnErr result (c.new ≡ c.old) }
{
    let endpoint = read_endpoint(alloc, body)?;
    let count = c.settings.len();
    push_endpoint(c.settings.at_mut(count - 1), endpoint)
}

/// Adds one at the end of such a list.
#[inline(never)]
fn add_extra(extras: &mut Sequence<Extra>, extra: Extra) -> Result<(), AllocError>
    ensures ok { OnOk result (extras.new ≡ extras.old ++ extra ∷ []) }
    ensures err { OnErr result (extras.new ≡ extras.old) }
{
    extras.push(extra)?;
    Ok(())
}

#[tactic(auto, using(crate::proofs::Last::with_last_is), unfolding(crate::specs::inside::Reading::setting_with_extra))]
#[inline(always)]
fn add_to_setting(s: &mut Setting, extra: Extra) -> Result<(), AllocError>
    ensures ok { OnOk result (s.new ≡ setting_with_extra extra s.old) }
    ensures err { OnErr result (s.new ≡ s.old) }
{
    let count = s.endpoints.len();
    if count == 0 {
        add_extra(&mut s.extras, extra)?;
    } else {
        add_to_endpoint(s.endpoints.at_mut(count - 1), extra)?;
    }
    Ok(())
}

#[tactic(auto, using(crate::proofs::Last::with_last_is), unfolding(crate::specs::inside::Reading::set_with_extra))]
#[inline(always)]
fn add_to_set(c: &mut Configuration, extra: Extra) -> Result<(), AllocError>
    ensures ok { OnOk result (c.new ≡ set_with_extra extra c.old) }
    ensures err { OnErr result (c.new ≡ c.old) }
{
    let count = c.settings.len();
    if count == 0 {
        c.extras.push(extra)?;
    } else {
        add_to_setting(c.settings.at_mut(count - 1), extra)?;
    }
    Ok(())
}

/// Adds a whole descriptor, which belongs to the nearest typed one before it. When out of memory the set stays.
#[tactic(auto, using(crate::proofs::Last::with_last_is), unfolding(crate::specs::inside::Reading::attach))]
#[inline(always)]
pub(crate) fn attach(
    alloc: Global,
    c: &mut Configuration,
    kind: u8,
    body: &[u8],
) -> Result<(), AllocError>
    requires long { least_length kind ≤ 2 + length body.now }
    requires belongs { kind ≡ 5 → 0 < length c.old.settings }
    ensures ok { OnOk result (c.new ≡ attach c.old (record { kind = kind; body = body.now })) }
    ensures err { OnErr result (c.new ≡ c.old) }
{
    match kind {
        descriptor_type::INTERFACE => {
            add_setting(alloc, c, body)?;
        }
        descriptor_type::ENDPOINT => {
            add_endpoint(alloc, c, body)?;
        }
        _ => {
            let extra = Extra::read(alloc, kind, body)?;
            add_to_set(c, extra)?;
        }
    }
    Ok(())
}
