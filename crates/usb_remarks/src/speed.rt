//! The speed of a set, and bMaxPower in its unit.
ghost use Rattle.std.specs.Prelude.{◌≡◌, ◌<◌};
ghost use Rattle.usb_remarks.specs.Power.{milliamperes, power_unit};

/// The speed at which a set holds, as far as it is known (USB 2.0, 5.3.1.1; USB 3.2, 3.1).
#[derive(Clone, Copy, Debug, PartialEq, Eq, Hash)]
pub enum SetSpeed {
    /// Low speed.
    Low,
    /// Full speed, where intervals are in frames, as at low speed.
    Full,
    /// Low or full speed, where nothing distinguishes the two.
    LowOrFull,
    /// High speed, where intervals are in microframes.
    High,
    /// Full or high speed, where nothing distinguishes the two.
    FullOrHigh,
    /// SuperSpeed, where bMaxPower is in units of 8 mA.
    Super,
}

impl SetSpeed {
    /// bMaxPower in milliamperes (USB 2.0, 9.6.3; USB 3.2, 9.6.3).
    pub fn milliamperes(self, power: u8) -> u16
        ensures { result ≡ milliamperes self power }
    {
        self.power_unit() * u16::from(power)
    }

    fn power_unit(self) -> u16
        ensures unit { result ≡ power_unit self }
        ensures most { result < 9 }
    {
        match self {
            SetSpeed::Super => 8,
            _ => 2,
        }
    }
}
