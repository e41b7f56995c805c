//! A host that reads from a device, or writes to it, over a bus that loses what the fates say.
use crate::controller::Controller;
use crate::firmware::{on_ack, on_token};
use nozzlegorse::bus::{Answer, Fate, Stage, Transaction};
use nozzlegorse::device::Device;
use nozzlegorse::host::{Heard, Transfer, Why, Write};
use std::alloc::{AllocError, Global};

/// What answers at the device's end.
#[derive(Drop)]
pub(crate) enum End<'d> {
    /// The firmware, which a controller asks at each token.
    Firmware(Device<'d>),
    /// A controller that answers by itself.
    Controller(Controller<'d>),
}

impl End<'_> {
    fn on_token<'a>(&'a mut self, token: &Transaction<'_>, ready: bool) -> Answer<'a> {
        match self {
            End::Firmware(mouse) => on_token(mouse, token, ready),
            End::Controller(controller) => controller.on_token(token, ready),
        }
    }

    /// The data of a write that have all come, and weren't answered yet.
    fn written(&self) -> Option<&[u8]> {
        match self {
            End::Firmware(mouse) => mouse.written().map(|(_, bytes)| bytes),
            End::Controller(controller) => controller.written(),
        }
    }

    fn on_ack(&mut self) {
        match self {
            End::Firmware(mouse) => on_ack(mouse),
            End::Controller(controller) => controller.on_ack(),
        }
    }
}

/// The data of a write: three packets.
pub(crate) const REPORT: &[u8] = b"a report of 20 bytes";

/// The host's end of a request.
#[derive(Clone, Copy)]
pub(crate) enum Request {
    Read(Transfer),
    /// Of the report.
    Write(Write),
}

impl Request {
    fn next(&self) -> Option<Transaction<'static>> {
        match self {
            Request::Read(transfer) => transfer.next(),
            Request::Write(write) => {
                if REPORT.len() == usize::from(write.request().length) {
                    write.next(REPORT)
                } else {
                    None
                }
            }
        }
    }

    fn take<'a>(&mut self, answer: Answer<'a>) -> Heard<'a> {
        match self {
            Request::Read(transfer) => transfer.take(answer),
            Request::Write(write) => write.take(answer),
        }
    }
}

/// A request, and what came of it so far.
#[derive(Drop)]
pub(crate) struct Course {
    request: Request,
    /// The bytes that were new, or those that have come to the device.
    pub(crate) bytes: Vec<u8>,
    /// How often all data of a write have come.
    pub(crate) arrivals: u8,
    /// Whether they had come before the last token.
    is_written: bool,
    /// `Complete` or `Failed` once it has ended.
    pub(crate) outcome: Option<Result<(), Why>>,
}

impl Course {
    /// Takes what the bus has left of an answer.
    fn take(&mut self, answer: Answer<'_>) -> Result<(), AllocError> {
        match self.request.take(answer) {
            Heard::Again => {}
            Heard::Bytes(bytes) => self.bytes.extend_from_slice(bytes)?,
            Heard::Complete => self.outcome = Some(Ok(())),
            Heard::Failed(why) => self.outcome = Some(Err(why)),
        }
        Ok(())
    }

    /// Looks at the data that have come, before the owner answers them. Those at a SETUP are of the request before it.
    fn look(&mut self, end: &End<'_>, token: &Transaction<'_>) -> Result<(), AllocError> {
        let bytes = match (token.stage, end.written()) {
            (Stage::In | Stage::Out(_, _), Some(bytes)) => bytes,
            _ => {
                self.is_written = false;
                return Ok(());
            }
        };
        if !self.is_written {
            self.is_written = true;
            self.arrivals = self.arrivals.saturating_add(1);
            self.bytes.extend_from_slice(bytes)?;
        }
        Ok(())
    }

    /// One transaction under its fate. The device's end learns of the host's ACK only if that arrives.
    fn exchange(
        &mut self,
        end: &mut End<'_>,
        token: &Transaction<'_>,
        fate: Fate,
    ) -> Result<(), AllocError> {
        let Some(ready) = fate.readiness() else {
            return self.take(Answer::Silence);
        };
        self.look(end, token)?;
        let answer = end.on_token(token, ready);
        let is_acked = fate.acknowledges(answer);
        self.take(fate.brought(answer))?;
        if is_acked {
            end.on_ack();
        }
        Ok(())
    }
}

/// Makes this request, in at most this many transactions.
pub(crate) fn make(
    alloc: Global,
    end: &mut End<'_>,
    request: Request,
    fates: &[Fate],
    most: u128,
) -> Result<Course, AllocError> {
    let mut course = Course {
        request,
        bytes: Vec::new(alloc),
        arrivals: 0,
        is_written: false,
        outcome: None,
    };
    for number in 0..most {
        let Some(token) = course.request.next() else {
            break;
        };
        course.exchange(end, &token, Fate::at(fates, number))?;
    }
    Ok(course)
}
