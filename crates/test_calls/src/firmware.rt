//! A firmware: a mouse that answers tokens, gives its report descriptor where chapter 9 has no answer, and takes reports.
use nozzlegorse::bus::{Answer, Transaction, request};
use nozzlegorse::device::Device;

/// The report descriptor of a boot mouse (HID 1.11, E.10).
pub(crate) const REPORT_DESCRIPTOR: [u8; 50] = [
    5, 1, 9, 2, 0xa1, 1, 9, 1, 0xa1, 0, 5, 9, 0x19, 1, 0x29, 3, 0x15, 0, 0x25, 1, 0x95, 3, 0x75, 1,
    0x81, 2, 0x95, 1, 0x75, 5, 0x81, 1, 5, 1, 9, 0x30, 9, 0x31, 0x15, 0x81, 0x25, 0x7f, 0x75, 8,
    0x95, 2, 0x81, 6, 0xc0, 0xc0,
];

/// Handles one token: what the controller sends back, be it a packet, a handshake or nothing. Call `on_ack` when the
/// controller reports the host's ACK.
pub(crate) fn on_token<'a>(mouse: &'a mut Device, token: &Transaction, ready: bool) -> Answer<'a> {
    if let Some(setup) = mouse.refused() {
        // A request that the table rejects: what isn't answered here is answered by STALL.
        let _ = match (setup.request_type, setup.request, setup.value) {
            (0x81, request::GET_DESCRIPTOR, 0x2200) => mouse.answer_with(&REPORT_DESCRIPTOR),
            (0x21, 9 | 10, _) => mouse.accept(),
            _ => Ok(()),
        };
    }
    if mouse.written().is_some() {
        // A SET_REPORT whose data have all come: here is where they are used.
        let _ = mouse.accept();
    }
    mouse.serve(token, ready)
}

/// The host has acknowledged the packet that was sent last.
pub(crate) fn on_ack(mouse: &mut Device) {
    mouse.acked();
}
