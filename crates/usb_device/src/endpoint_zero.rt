//! The device's end of the control transfers of endpoint zero.
ghost use Rattle.std.specs.Prelude.{◌≡◌, ◌<◌, ◌≤◌, ◌==◌, ℕ, List, true, false, if◌then◌else◌, [], take, length, IfSome};
ghost use Rattle.usb_fields.specs.Packets.{sent_of, StallReply, DataReply};
ghost use Rattle.usb_fields.specs.Setup.{setup_of};
ghost use Rattle.usb_fields.specs.declared.packet.Toggle.TheVariants.{Data1};
ghost use Rattle.usb_device.specs.Offers.{offer_in, packet_in};
ghost use Rattle.usb_device.specs.Requests.{answer_to, get_descriptor};
ghost use Rattle.usb_device.specs.Step.{begun, carried_out, Sending};
ghost use Rattle.usb_device.specs.Stages.{request_of, stage_at};

mod data_stage;
mod freedom;
mod owner;

use crate::image::Image;
use crate::piece::Place;
use crate::request::{Request, is_set_address};
use crate::stage::{Decision, Reaction, Source, Stage, toggle_at};
use crate::state::State;
use usb_fields::{Setup, Stage as Token, Toggle, Transaction};

/// What changes in a device: its state, its stage in a transfer, and whether its last answer waits for an ACK. It is numbers
/// alone, which a program in another language can hold: its calls are lent the image of the descriptors and a room, which
/// keeps the data of a write and the owner's answers between them. These are always the ones that it began with.
///
/// No number is refused, nor any byte of an image or a room: each call is then safe too, and ends.
///
/// ```rust
/// // SET_ADDRESS 5.
/// let mut endpoint_zero = EndpointZero::new();
/// let image = encoded.image();
/// let setup = Transaction { address: 0, stage: Stage::Setup([0, 5, 5, 0, 0, 0, 0, 0]) };
/// assert_eq!(rt; endpoint_zero.serve(image, &mut [], &setup, true), Reaction::Ack);
/// let status = Transaction { address: 0, stage: Stage::In };
/// assert_eq!(rt; endpoint_zero.serve(image, &mut [], &status, true), Reaction::Empty);
/// endpoint_zero.acked(image);
/// assert_eq!(rt; endpoint_zero.state.address, 5);
/// ```
#[repr(C)]
#[derive(Clone, Copy, Debug, Drop, PartialEq, Eq, Hash)]
pub struct EndpointZero {
    /// The stage in a transfer: [`DeviceStage::of`](crate::DeviceStage::of).
    pub stage: u8,
    /// In a data stage: the toggle of the next packet, which is sent or awaited. 0 is DATA0.
    pub toggle: u8,
    /// In `Halted`: the host knows of the rejection. In `StatusIn`: the request was carried out, SET_ADDRESS excepted.
    pub settled: bool,
    /// Whether the last answer waits for an ACK.
    pub pending: bool,
    /// In `Sending`: where the bytes are. 0 is `own`, 1 the room, and 2 the image from `place` on.
    pub source: u8,
    /// A status, or the number of a configuration or of an alternate setting.
    pub own: [u8; 2],
    /// In the stages other than `Idle` and `Over`: the bytes of the request.
    pub request: [u8; 8],
    /// In `Sending`, of bytes of the image: where they begin.
    pub place: usize,
    /// In `Sending`: how many bytes there are to send.
    pub count: usize,
    /// In a data stage: how many bytes were sent and acknowledged, or have come.
    pub offset: usize,
    /// The state.
    pub state: State,
}

impl EndpointZero {
    ghost use Rattle.usb_device.specs.Step.{new_device};
    ghost use Rattle.usb_device.specs.View.{acked_over, served_over, device_of, replied, IsOf};
    ghost use Rattle.usb_device.specs.inside.Places.{bytes_at, IsPlace};
    ghost use Rattle.usb_device.specs.inside.Reactions.{found_outcome, is_sending, outcome_of, received_by, sent_by, IsAsked};

    /// That of a new device.
    pub fn new() -> EndpointZero
        ensures device { (image : List ℕ) → (room : List ℕ) → device_of image room result ≡ new_device }
        ensures of { (image : List ℕ) → (room : List ℕ) → 0 < packet_in image → IsOf image room result }
    {
        EndpointZero {
            stage: Stage::Idle.number(),
            toggle: 0,
            settled: false,
            pending: false,
            source: Source::Own.number(),
            own: [0; 2],
            request: [0; 8],
            place: 0,
            count: 0,
            offset: 0,
            state: State::zero(),
        }
    }

    /// A bus reset: it is as that of a new device (USB 2.0, 9.1.1.3).
    pub fn reset(&mut self)
        ensures device { (image : List ℕ) → (room : List ℕ) → device_of image room self.new ≡ new_device }
        ensures of { (image : List ℕ) → (room : List ℕ) → 0 < packet_in image → IsOf image room self.new }
    {
        self.stage = Stage::Idle.number();
        self.pending = false;
        self.state.reset();
    }

    /// One transaction, as [`Device::serve`](crate::Device::serve) has it, with the bytes of the answer left out: those of a
    /// [`Reaction::Packet`] are [`EndpointZero::packet`].
    #[inline(always)]
    pub fn serve(
        &mut self,
        image: Image<'_>,
        room: &mut [u8],
        t: &Transaction<'_>,
        ready: bool,
    ) -> Reaction
        ensures reply { IsOf image.entry.bytes.now room.old self.old → replied image.entry.bytes.now room.new self.new result ≡ (served_over image.entry.bytes.now (device_of image.entry.bytes.now room.old self.old) (sent_of t.now) ready).reply }
        ensures device { IsOf image.entry.bytes.now room.old self.old → device_of image.entry.bytes.now room.new self.new ≡ (served_over image.entry.bytes.now (device_of image.entry.bytes.now room.old self.old) (sent_of t.now) ready).device }
        ensures of { IsOf image.entry.bytes.now room.old self.old → IsOf image.entry.bytes.now room.new self.new }
    {
        self.pending = false;
        if t.address != self.state.address {
            return Reaction::Silence;
        }
        match t.stage {
            Token::Setup(bytes) => {
                self.begin(image, bytes);
                Reaction::Ack
            }
            Token::In => {
                if ready {
                    self.send(image)
                } else {
                    Reaction::Nak
                }
            }
            Token::Out(toggle, bytes) => {
                if ready {
                    self.receive(image, room, toggle, bytes)
                } else {
                    Reaction::Nak
                }
            }
        }
    }

    /// An IN or OUT for which the device has no time.
    #[inline(always)]
    pub(crate) fn put_off(&mut self, t: &Transaction<'_>) -> Reaction
        ensures reaction { result ≡ (if t.now.address == self.old.state.address then Reaction.Nak else Reaction.Silence) }
        ensures device { self.new ≡ record self.old { pending = false } }
    {
        self.pending = false;
        if t.address == self.state.address {
            Reaction::Nak
        } else {
            Reaction::Silence
        }
    }

    /// A SETUP: the transfer that the request begins.
    // What most of them ask for is decided first, with few registers.
    #[inline(never)]
    fn begin(&mut self, image: Image<'_>, bytes: [u8; 8])
        ensures device { (room : List ℕ) → device_of image.entry.bytes.now room self.new ≡ record (device_of image.entry.bytes.now room self.old) { stage = begun (setup_of bytes) (answer_to (offer_in image.entry.bytes.now) self.old.state (setup_of bytes)) } }
        ensures of { (room : List ℕ) → 0 < packet_in image.entry.bytes.now → IsOf image.entry.bytes.now room self.new }
    {
        self.request = bytes;
        let request = Request {
            image,
            state: &self.state,
            setup: Setup::from_bytes(&bytes),
        };
        match request.find_read() {
            Some(found) => self.enter_found(image, found),
            None => self.begin_other(image),
        }
    }

    /// The same, whatever the request is.
    #[inline(never)]
    fn begin_other(&mut self, image: Image<'_>)
        ensures device { (room : List ℕ) → device_of image.entry.bytes.now room self.new ≡ record (device_of image.entry.bytes.now room self.old) { stage = begun (request_of self.old) (answer_to (offer_in image.entry.bytes.now) self.old.state (request_of self.old)) } }
        ensures of { (room : List ℕ) → 0 < packet_in image.entry.bytes.now → IsOf image.entry.bytes.now room self.new }
    {
        let decision = self.decision(image);
        self.enter(image, decision);
    }

    /// What is decided about the request.
    #[inline(always)]
    fn decision(&self, image: Image<'_>) -> Decision
        ensures answer { outcome_of image.entry.bytes.now self.now.state (request_of self.now) result ≡ answer_to (offer_in image.entry.bytes.now) self.now.state (request_of self.now) }
        ensures asked { IsAsked image.entry.bytes.now (request_of self.now) result }
    {
        let request = Request {
            image,
            state: &self.state,
            setup: Setup::from_bytes(&self.request),
        };
        request.decide()
    }

    /// What GET_DESCRIPTOR finds, where that is the request.
    #[inline(never)]
    fn found(&self, image: Image<'_>) -> Option<Place>
        ensures answer { found_outcome image.entry.bytes.now self.now.state (request_of self.now) result ≡ get_descriptor (offer_in image.entry.bytes.now) self.now.state (request_of self.now) }
        ensures within { IfSome result (IsPlace image.entry.bytes.now) }
    {
        let request = Request {
            image,
            state: &self.state,
            setup: Setup::from_bytes(&self.request),
        };
        request.get_descriptor()
    }

    /// The transfer of GET_DESCRIPTOR, which finds this.
    #[inline(always)]
    fn enter_found(&mut self, image: Image<'_>, found: Option<Place>)
        requires { IfSome found (IsPlace image.bytes.now) }
        ensures device { (room : List ℕ) → device_of image.entry.bytes.now room self.new ≡ record (device_of image.entry.bytes.now room self.old) { stage = begun (request_of self.old) (found_outcome image.entry.bytes.now self.old.state (request_of self.old) found) } }
        ensures of { (room : List ℕ) → 0 < packet_in image.entry.bytes.now → IsOf image.entry.bytes.now room self.new }
    {
        match found {
            Some(_) if self.setup().length == 0 => self.wait(Stage::StatusIn),
            Some(place) => self.send_descriptor(image, place),
            None => self.wait(Stage::Halted),
        }
    }

    /// The transfer of the request, about which this is decided.
    #[inline(always)]
    fn enter(&mut self, image: Image<'_>, decision: Decision)
        requires { IsAsked image.bytes.now (request_of self.old) decision }
        ensures device { (room : List ℕ) → device_of image.entry.bytes.now room self.new ≡ record (device_of image.entry.bytes.now room self.old) { stage = begun (request_of self.old) (outcome_of image.entry.bytes.now self.old.state (request_of self.old) decision) } }
        ensures of { (room : List ℕ) → 0 < packet_in image.entry.bytes.now → IsOf image.entry.bytes.now room self.new }
    {
        match decision {
            Decision::Descriptor => {
                let found = self.found(image);
                self.enter_found(image, found);
            }
            Decision::Byte(byte) => self.send_own(image, [byte, 0], 1),
            Decision::Status(first) => self.send_own(image, [first, 0], 2),
            Decision::Done(_) => self.wait(Stage::StatusIn),
            Decision::Refused => self.wait(Stage::Halted),
        }
    }

    /// Enters the stage of a request that isn't settled yet.
    #[inline(always)]
    fn wait(&mut self, stage: Stage)
        ensures stage { stage_at self.new.stage ≡ stage }
        ensures rest { self.new ≡ record self.old { stage = self.new.stage; settled = false } }
    {
        self.stage = stage.number();
        self.settled = false;
    }

    /// Begins the data stage of the request with a descriptor, cut to wLength.
    fn send_descriptor(&mut self, image: Image<'_>, place: Place)
        requires within { IsPlace image.bytes.now place }
        requires asked { 0 < (request_of self.old).length }
        ensures device { (room : List ℕ) → device_of image.entry.bytes.now room self.new ≡ record (device_of image.entry.bytes.now room self.old) { stage = Sending (request_of self.old) (take (request_of self.old).length (bytes_at image.entry.bytes.now place)) 0 } }
        ensures of { (room : List ℕ) → 0 < packet_in image.entry.bytes.now → IsOf image.entry.bytes.now room self.new }
    {
        self.place = place.start;
        let limit = usize::from(self.setup().length);
        self.begin_data(Source::Image, place.count.min(limit));
    }

    /// Begins the data stage of the request with the first one or two of these bytes.
    #[inline(always)]
    fn send_own(&mut self, image: Image<'_>, bytes: [u8; 2], count: usize)
        requires some { 0 < count }
        requires few { count ≤ 2 }
        requires asked { (request_of self.old).length ≡ count }
        ensures device { (room : List ℕ) → device_of image.entry.bytes.now room self.new ≡ record (device_of image.entry.bytes.now room self.old) { stage = Sending (request_of self.old) (take count bytes) 0 } }
        ensures of { (room : List ℕ) → 0 < packet_in image.entry.bytes.now → IsOf image.entry.bytes.now room self.new }
    {
        self.own = bytes;
        self.begin_data(Source::Own, count);
    }

    /// The request.
    #[inline(always)]
    fn setup(&self) -> Setup
        ensures { result ≡ request_of self.now }
    {
        Setup::from_bytes(&self.request)
    }

    /// An IN transaction.
    #[inline(always)]
    fn send(&mut self, image: Image<'_>) -> Reaction
        ensures reply { (room : List ℕ) → IsOf image.entry.bytes.now room self.old → replied image.entry.bytes.now room self.new result ≡ (sent_by image.entry.bytes.now room self.old).reply }
        ensures device { (room : List ℕ) → IsOf image.entry.bytes.now room self.old → device_of image.entry.bytes.now room self.new ≡ (sent_by image.entry.bytes.now room self.old).device }
        ensures of { (room : List ℕ) → IsOf image.entry.bytes.now room self.old → IsOf image.entry.bytes.now room self.new }
    {
        match Stage::of(self.stage) {
            Stage::Sending => {
                self.pending = true;
                Reaction::Packet(toggle_at(self.toggle))
            }
            _ => {
                if self.sends_status(image) {
                    Reaction::Empty
                } else {
                    Reaction::Stall
                }
            }
        }
    }

    /// IN where no data stage is: whether it is answered by the empty packet of the status stage, and else by STALL.
    // No call with a packet, so that the stage is tested once where one is sent.
    #[inline(never)]
    fn sends_status(&mut self, image: Image<'_>) -> bool
        requires other { is_sending (stage_at self.old.stage) ≡ false }
        ensures reply { (room : List ℕ) → (if result then DataReply Data1 [] else StallReply) ≡ (sent_by image.entry.bytes.now room self.old).reply }
        ensures device { (room : List ℕ) → device_of image.entry.bytes.now room self.new ≡ (sent_by image.entry.bytes.now room self.old).device }
        ensures of { (room : List ℕ) → 0 < packet_in image.entry.bytes.now → IsOf image.entry.bytes.now room self.new }
    {
        match Stage::of(self.stage) {
            Stage::StatusIn => {
                if !self.settled && !is_set_address(self.setup()) {
                    self.carry_out(image);
                }
                self.settled = true;
                self.pending = true;
                true
            }
            _ => {
                self.stall();
                false
            }
        }
    }

    /// An OUT transaction.
    #[inline(always)]
    fn receive(
        &mut self,
        image: Image<'_>,
        room: &mut [u8],
        toggle: Toggle,
        bytes: &[u8],
    ) -> Reaction
        ensures reply { IsOf image.entry.bytes.now room.old self.old → replied image.entry.bytes.now room.new self.new result ≡ (received_by image.entry.bytes.now room.old self.old toggle bytes.now).reply }
        ensures device { IsOf image.entry.bytes.now room.old self.old → device_of image.entry.bytes.now room.new self.new ≡ (received_by image.entry.bytes.now room.old self.old toggle bytes.now).device }
        ensures of { IsOf image.entry.bytes.now room.old self.old → IsOf image.entry.bytes.now room.new self.new }
    {
        self.pending = false;
        match Stage::of(self.stage) {
            Stage::Sending | Stage::StatusOut | Stage::Over => match toggle {
                Toggle::Data0 => Reaction::Ack,
                Toggle::Data1 => {
                    if bytes.is_empty() {
                        self.stage = Stage::Over.number();
                        Reaction::Ack
                    } else {
                        self.stall();
                        Reaction::Stall
                    }
                }
            },
            _ => {
                if self.takes(image, room, toggle, bytes) {
                    Reaction::Ack
                } else {
                    Reaction::Stall
                }
            }
        }
    }

    /// STALL, until the next SETUP.
    #[inline(always)]
    fn stall(&mut self)
        ensures stage { stage_at self.new.stage ≡ Stage.Halted }
        ensures rest { self.new ≡ record self.old { stage = self.new.stage; settled = true; pending = false } }
    {
        self.stage = Stage::Halted.number();
        self.settled = true;
        self.pending = false;
    }

    /// Carries out the request, where it asks for no data.
    #[inline(never)]
    fn carry_out(&mut self, image: Image<'_>)
        ensures { self.new ≡ record self.old { state = carried_out self.old.state (answer_to (offer_in image.entry.bytes.now) self.old.state (request_of self.old)) } }
    {
        if let Decision::Done(change) = self.decision(image) {
            self.state.change(image, change);
        }
    }

    /// The host's ACK of the data packet that [`EndpointZero::serve`] answered right before. Anywhere else, and a
    /// second time, it changes nothing.
    #[inline(always)]
    pub fn acked(&mut self, image: Image<'_>)
        ensures device { (room : List ℕ) → IsOf image.entry.bytes.now room self.old → device_of image.entry.bytes.now room self.new ≡ acked_over image.entry.bytes.now (device_of image.entry.bytes.now room self.old) }
        ensures of { (room : List ℕ) → IsOf image.entry.bytes.now room self.old → IsOf image.entry.bytes.now room self.new }
    {
        if !self.pending {
            return;
        }
        self.pending = false;
        match Stage::of(self.stage) {
            Stage::Sending => self.go_on(image),
            Stage::StatusIn => {
                if is_set_address(self.setup()) {
                    self.carry_out(image);
                }
                self.stage = Stage::Idle.number();
            }
            _ => {}
        }
    }
}
