//! The clock of an interface (draft-ietf-opsawg-pcapng, Interface Description Block Options).
ghost use Rattle.std.specs.Prelude.{◌≡◌, ◌<◌, ◌/◌, ◌^◌};
ghost use Rattle.usb_capture.specs.Clocks.{clock_after, clock_of, clock_with, elapsed, option_length, options_end, time_of};

use crate::order::ByteOrder;
use usb_fields::{after, byte_at};

/// The option that says in what a clock counts.
const RESOLUTION: u16 = 9;

/// The option that says from when it counts.
const OFFSET: u16 = 14;

/// How the times of an interface are put.
#[derive(Clone, Copy, Debug, PartialEq, Eq, Hash)]
pub struct Clock {
    /// A second has 10 to the power of this, or 2 to the power of its bits 6 to 0 if bit 7 is set.
    pub resolution: u8,
    /// How many seconds after 1970 it begins: a number of 64 bits in two's complement.
    pub offset: u64,
}

impl Clock {
    /// The clock that these options of an interface describe, if each of them is whole.
    pub(crate) fn of_options(order: ByteOrder, options: &[u8]) -> Option<Clock>
        ensures { result ≡ clock_of order options.now }
    {
        let mut clock = Clock {
            resolution: 6,
            offset: 0,
        };
        let mut rest = options;
        let mut most = options.len();
        while most > 0 {
            if ends(order, rest) {
                return Some(clock);
            }
            let length = option_length(order, rest);
            if rest.len() < length {
                return None;
            }
            clock = clock.with(order, rest)?;
            rest = after(rest, length);
            most -= 1;
        }
        Some(clock)
    }

    /// What the option that begins here makes of it, if it has the length that it has to.
    fn with(self, order: ByteOrder, option: &[u8]) -> Option<Clock>
        ensures { result ≡ clock_with order option.now self }
    {
        let length = order.short_at(option, 2);
        match order.short_at(option, 0) {
            RESOLUTION if length == 1 => Some(Clock {
                resolution: byte_at(option, 4),
                ..self
            }),
            OFFSET if length == 8 => Some(Clock {
                offset: order.long_at(option, 4),
                ..self
            }),
            RESOLUTION | OFFSET => None,
            _ => Some(self),
        }
    }

    /// When this many units have passed, in nanoseconds from the beginning of 1970, if it is then and 64 bits hold it. What
    /// is finer than a nanosecond is rounded down.
    pub fn time(self, units: u64) -> Option<u64>
        ensures { result ≡ time_of self units }
    {
        let elapsed = self.elapsed(units);
        let time = if self.offset < 1 << 63 {
            elapsed + u128::from(self.offset) * 1_000_000_000
        } else {
            elapsed.checked_sub((u128::from(u64::MAX - self.offset) + 1) * 1_000_000_000)?
        };
        if time < 1 << 64 {
            Some(time as u64)
        } else {
            None
        }
    }

    /// This many units in nanoseconds. No number of 128 bits is divided: a processor has no instruction for it, and a library for C no
    /// function.
    #[tactic(auto, using(crate::proofs::Clocks::elapsed_coarse, crate::proofs::Clocks::elapsed_fine, crate::proofs::Clocks::elapsed_binary))]
    fn elapsed(self, units: u64) -> u128
        ensures value { result ≡ elapsed self.resolution units }
        ensures bound { result < 2 ^ 94 }
    {
        if self.resolution < 10 {
            u128::from(units) * u128::from(10u64.pow(u32::from(9 - self.resolution)))
        } else if self.resolution < 128 {
            u128::from(nanoseconds_of(units, u32::from(self.resolution - 9)))
        } else {
            (u128::from(units) * 1_000_000_000) >> u32::from(self.resolution - 128)
        }
    }
}

/// This many units in nanoseconds, of which one has 10 to the power of this.
fn nanoseconds_of(units: u64, exponent: u32) -> u64
    ensures { result ≡ units / 10 ^ exponent }
{
    match 10u64.checked_pow(exponent) {
        Some(each) => units / each,
        None => 0,
    }
}

/// Whether no option begins here.
fn ends(order: ByteOrder, options: &[u8]) -> bool
    ensures { result ≡ options_end order options.now }
{
    options.len() < 4 || order.short_at(options, 0) == 0
}

/// How many bytes the option has that begins here.
fn option_length(order: ByteOrder, option: &[u8]) -> usize
    ensures { result ≡ option_length order option.now }
{
    4 + (usize::from(order.short_at(option, 2)) + 3) / 4 * 4
}
