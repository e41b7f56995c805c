//! A driver: it reads a configuration set as the bytes come, and picks the endpoint that it polls.
use anyhow::{Context, Result};
use nozzlegorse::descriptors::{Decoder, Direction, Progress, TransferType};
use std::alloc::Global;

/// The class, subclass and protocol of a boot mouse.
const BOOT_MOUSE: [u8; 3] = [3, 1, 2];

/// The interface, the endpoint and its interval in frames, of the first mouse in the set that comes in these pieces.
pub(crate) fn mouse_of(alloc: Global, pieces: &[&[u8]]) -> Result<(u8, u8, u8)> {
    let mut decoder = Decoder::new(alloc);
    for piece in pieces {
        if let Progress::Done { .. } = decoder.feed(piece)? {
            break;
        }
    }
    let set = decoder.finish()?;
    for (setting, endpoint) in set.endpoints() {
        let is_mouse = [setting.class, setting.subclass, setting.protocol] == BOOT_MOUSE;
        let is_polled = endpoint.transfer_type() == TransferType::Interrupt;
        if is_mouse && is_polled && endpoint.direction() == Direction::In {
            return Ok((setting.number, endpoint.number(), endpoint.interval));
        }
    }
    None.context("no mouse")
}
