//! Rows on single descriptors and setup packets.
use crate::words::{bytes_of, units_of};
use anyhow::{Result, bail, ensure};
use std::alloc::Global;
use usb_fields::{DeviceDescriptor, Qualifier, Setup, read_units, write_units};
use usb_set::{Endpoint, Sequence};

/// The number of a fault.
pub(crate) fn fault(alloc: Global, number: u8) -> Result<String> {
    Ok(format!(in alloc; "fault {number}")?)
}

/// The fields of a setup packet, which gives its bytes again.
pub(crate) fn setup(alloc: Global, words: &[String]) -> Result<String> {
    let bytes = bytes_of(alloc, words)?;
    let Ok(packet) = <&[u8; 8]>::try_from(bytes.as_slice()) else {
        bail!("not eight bytes");
    };
    let setup = Setup::from_bytes(packet);
    ensure!(setup.to_bytes() == *packet, "other bytes are written");
    let direction = setup.direction();
    let class = setup.class();
    let recipient = setup.recipient();
    Ok(format!(in alloc;
        "{:02x} {:02x} {:04x} {:04x} {:04x} {direction:?} {class:?} {recipient:?}",
        setup.request_type, setup.request, setup.value, setup.index, setup.length
    )?)
}

/// The fields of a device descriptor, which gives its bytes again.
pub(crate) fn device(alloc: Global, words: &[String]) -> Result<String> {
    let bytes = bytes_of(alloc, words)?;
    match DeviceDescriptor::read(&bytes) {
        Ok(d) => {
            ensure!(
                d.to_bytes().as_slice() == bytes.as_slice(),
                "other bytes are written"
            );
            Ok(format!(in alloc;
                "{:04x} {:02x} {:02x} {:02x} {:02x} {:04x} {:04x} {:04x} {:02x} {:02x} {:02x} {:02x}",
                d.usb,
                d.class,
                d.subclass,
                d.protocol,
                d.packet,
                d.vendor,
                d.product,
                d.release,
                d.maker_text,
                d.product_text,
                d.serial_text,
                d.configurations
            )?)
        }
        Err(why) => fault(alloc, why.number()),
    }
}

/// The fields of a qualifier, which gives its bytes again.
pub(crate) fn qualifier(alloc: Global, words: &[String]) -> Result<String> {
    let bytes = bytes_of(alloc, words)?;
    match Qualifier::read(&bytes) {
        Ok(q) => {
            ensure!(
                q.to_bytes().as_slice() == bytes.as_slice(),
                "other bytes are written"
            );
            Ok(format!(in alloc;
                "{:04x} {:02x} {:02x} {:02x} {:02x} {:02x} {:02x}",
                q.usb, q.class, q.subclass, q.protocol, q.packet, q.configurations, q.reserved
            )?)
        }
        Err(why) => fault(alloc, why.number()),
    }
}

/// What an endpoint is by the bytes of its address and its attributes.
pub(crate) fn endpoint(alloc: Global, words: &[String]) -> Result<String> {
    let bytes = bytes_of(alloc, words)?;
    let [address, attributes] = bytes.as_slice() else {
        bail!("not two bytes");
    };
    let endpoint = Endpoint {
        address: *address,
        attributes: *attributes,
        max_packet: 0,
        interval: 0,
        tail: Sequence::new(alloc),
        extras: Sequence::new(alloc),
    };
    let direction = endpoint.direction();
    let kind = endpoint.transfer_type();
    Ok(format!(in alloc; "{direction:?} {} {kind:?}", endpoint.number())?)
}

/// The units of a string as four digits each, or `none`; they give its bytes again.
pub(crate) fn units(alloc: Global, words: &[String]) -> Result<String> {
    let bytes = bytes_of(alloc, words)?;
    let units = match read_units(alloc, &bytes) {
        Ok(units) => units,
        Err(why) => return fault(alloc, why.number()),
    };
    ensure!(
        write_units(alloc, &units)? == bytes,
        "other bytes are written"
    );
    let mut text = String::new(alloc);
    for unit in units.iter() {
        text.push_str(format!(in alloc; "{unit:04x}")?.as_str())?;
    }
    if text.is_empty() {
        text.push_str("none")?;
    }
    Ok(text)
}

/// The bytes of a string with these units.
pub(crate) fn write_string(alloc: Global, words: &[String]) -> Result<String> {
    let units = units_of(alloc, &bytes_of(alloc, words)?)?;
    match write_units(alloc, &units) {
        Ok(bytes) => Ok(hex::encode(alloc, &bytes)?),
        Err(why) => fault(alloc, why.number()),
    }
}
