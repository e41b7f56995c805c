//! A controller that answers tokens by itself, and the firmware that loads the buffer of its endpoint zero.
use crate::programs::MOUSE;
use anyhow::Result;
use nozzlegorse::bus::{Answer, Stage, Toggle, Transaction};
use nozzlegorse::descriptors::Speed;
use nozzlegorse::device::{Description, Device, DeviceStage};
use nozzlegorse::files::read_file;

/// The most bytes of a packet of endpoint zero (USB 2.0, 5.5.3).
const MOST: usize = 64;

/// A device, and what its controller keeps.
#[derive(Drop)]
pub(crate) struct Controller<'d> {
    device: Device<'d>,
    /// The address register.
    address: u8,
    buffer: [u8; MOST],
    /// The toggle and the length of what is loaded, if the buffer isn't free.
    loaded: Option<(Toggle, usize)>,
    /// The stall bit.
    stalls: bool,
}

impl<'d> Controller<'d> {
    /// The data of a write that have all come, and weren't answered yet.
    pub(crate) fn written(&self) -> Option<&[u8]> {
        self.device.written().map(|(_, bytes)| bytes)
    }

    /// After a bus reset.
    pub(crate) fn new(description: &'d Description) -> Controller<'d> {
        Controller {
            device: Device::new(description),
            address: 0,
            buffer: [0; MOST],
            loaded: None,
            stalls: false,
        }
    }

    /// Answers a token. Before an IN or an OUT the firmware does its part, if it is ready.
    pub(crate) fn on_token(&mut self, token: &Transaction<'_>, ready: bool) -> Answer<'_> {
        if token.address != self.address {
            return Answer::Silence;
        }
        match token.stage {
            Stage::Setup(_) => {
                self.stalls = false;
                self.loaded = None;
                self.device.serve(token, true)
            }
            Stage::In => {
                if ready {
                    self.load();
                }
                self.send()
            }
            Stage::Out(_, _) if self.stalls => Answer::Stall,
            Stage::Out(_, _) => {
                if ready {
                    self.receive(token)
                } else {
                    Answer::Nak
                }
            }
        }
    }

    /// The interrupt: the packet was sent and acknowledged.
    pub(crate) fn on_ack(&mut self) {
        self.device.acked();
        self.loaded = None;
        self.address = self.device.state().address;
    }

    /// Serves an OUT, at which nothing stays loaded. The controller has sent its ACK by then, so that a STALL comes with the
    /// next token.
    fn receive(&mut self, token: &Transaction<'_>) -> Answer<'_> {
        self.own();
        self.loaded = None;
        self.stalls = matches!(self.device.serve(token, true), Answer::Stall);
        Answer::Ack
    }

    /// The owner takes SET_REPORT, and accepts its data once all have come.
    fn own(&mut self) {
        let is_report =
            matches!(self.device.refused(), Some(request) if request.request_type == 0x21 && request.request == 9);
        if is_report || self.device.written().is_some() {
            let _ = self.device.accept();
        }
    }

    /// Loads the next packet, or sets the stall bit. In Written nothing is loaded.
    fn load(&mut self) {
        self.own();
        let comes_next = matches!(
            self.device.stage(),
            DeviceStage::Sending
                | DeviceStage::StatusIn
                | DeviceStage::Receiving
                | DeviceStage::Halted
        );
        if self.loaded.is_some() || !comes_next {
            return;
        }
        let token = Transaction {
            address: self.address,
            stage: Stage::In,
        };
        match self.device.serve(&token, true) {
            Answer::Data(toggle, bytes) => {
                let count = bytes.len().min(MOST);
                let buffer = &mut self.buffer[..];
                buffer[..count].copy_from_slice(&bytes[..count]);
                self.loaded = Some((toggle, count));
            }
            Answer::Stall => self.stalls = true,
            Answer::Ack | Answer::Nak | Answer::Silence => {}
        }
    }

    /// Answers an IN, with no help of the firmware.
    fn send(&self) -> Answer<'_> {
        match self.loaded {
            _ if self.stalls => Answer::Stall,
            Some((toggle, count)) => Answer::Data(toggle, &self.buffer[..count.min(MOST)]),
            None => Answer::Nak,
        }
    }
}

/// A write of nine bytes that its owner takes, in whose data stage an IN comes: STALL until the next SETUP.
#[test]
fn a_controller_stalls_an_in_between_data(rt: HostRuntime) -> Result<()> {
    let file = read_file(rt.alloc(), &MOUSE)?;
    let description = Description::new(rt.alloc(), file, Speed::Full)?;
    let mut controller = Controller::new(&description);
    let report = Stage::Setup([0x21, 9, 0, 2, 0, 0, 9, 0]);
    for (stage, ready, answer) in [
        (report, false, Answer::Ack),
        (Stage::Out(Toggle::Data1, &[1]), false, Answer::Nak),
        (Stage::In, true, Answer::Stall),
        (Stage::Out(Toggle::Data1, &[1]), true, Answer::Stall),
        (report, false, Answer::Ack),
        (Stage::In, false, Answer::Nak),
    ] {
        let token = Transaction { address: 0, stage };
        assert_eq!(rt; controller.on_token(&token, ready), answer);
    }
    Ok(())
}

/// A request that is rejected, and SET_ADDRESS 5. What is loaded is sent again without the firmware, and the address
/// register changes at the ACK.
#[test]
fn a_controller_answers(rt: HostRuntime) -> Result<()> {
    let file = read_file(rt.alloc(), &MOUSE)?;
    let description = Description::new(rt.alloc(), file, Speed::Full)?;
    let mut controller = Controller::new(&description);
    let rejected = Stage::Setup([0xc0, 1, 0, 0, 0, 0, 1, 0]);
    let set_address = Stage::Setup([0, 5, 5, 0, 0, 0, 0, 0]);
    let status = Answer::Data(Toggle::Data1, &[]);
    for (stage, ready, answer) in [
        (rejected, false, Answer::Ack),
        (Stage::In, false, Answer::Nak),
        (Stage::In, true, Answer::Stall),
        (Stage::In, false, Answer::Stall),
        (set_address, false, Answer::Ack),
        (Stage::In, false, Answer::Nak),
        (Stage::In, true, status),
        (Stage::In, false, status),
    ] {
        let token = Transaction { address: 0, stage };
        assert_eq!(rt; controller.on_token(&token, ready), answer);
    }
    assert_eq!(rt; controller.address, 0);
    controller.on_ack();
    assert_eq!(rt; controller.address, 5);
    Ok(())
}
