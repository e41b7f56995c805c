//! The halted endpoints as bits: bit n for endpoint n OUT, bit 16 + n for endpoint n IN.
ghost use Rattle.std.specs.Prelude.{◌≡◌, ◌<◌};
ghost use Rattle.usb_device.specs.Requests.{changed_halts};
ghost use Rattle.usb_device.specs.States.{halt_of, halt_place, with_halt, without_halt};

/// The place of an endpoint's bit.
fn place(endpoint: u8) -> u32
    ensures place { result ≡ halt_place endpoint }
    ensures within { result < 32 }
{
    u32::from(endpoint % 16) + 16 * u32::from(endpoint / 128 % 2)
}

/// 1 where the endpoint with this address is halted, and else 0.
pub(crate) fn halt_bit(halts: u32, endpoint: u8) -> u8
    ensures { result ≡ halt_of halts endpoint }
{
    (halts >> place(endpoint) & 1) as u8
}

/// The halts with that of the endpoint.
#[tactic(auto, using(crate::proofs::HaltLemmas::one_shl))]
fn with(halts: u32, endpoint: u8) -> u32
    ensures { result ≡ with_halt halts endpoint }
{
    halts | 1 << place(endpoint)
}

/// The halts without that of the endpoint.
#[tactic(auto, using(crate::proofs::HaltLemmas::one_shl))]
pub(crate) fn without(halts: u32, endpoint: u8) -> u32
    ensures { result ≡ without_halt halts endpoint }
{
    halts & !(1 << place(endpoint))
}

/// The halts after the endpoint's is set or cleared.
pub(crate) fn changed(halts: u32, endpoint: u8, on: bool) -> u32
    ensures { result ≡ changed_halts on halts endpoint }
{
    if on {
        with(halts, endpoint)
    } else {
        without(halts, endpoint)
    }
}
