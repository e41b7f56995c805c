//! The limits of a host.
ghost use Rattle.std.specs.Prelude.{◌≡◌, ◌<◌, IfOk, IfErr, OnOk, Some, None};

use std::marker::Model;
use std::{error, fmt};

/// The highest address of a device (USB 2.0, 8.3.2.1).
const LAST_ADDRESS: u8 = 127;

/// The most attempts that may be asked for.
const MOST_ATTEMPTS: u8 = 8;

/// The limits of a host, and the address that it gives to the device.
#[derive(Clone, Copy, Debug, PartialEq, Eq, Hash)]
pub struct Limits {
    address: u8,
    naks: u16,
    attempts: u8,
}

impl Model for Limits {
    ghost use Rattle.usb_host.specs.Limits.{LimitView, IsInRange};

    ghost Value = { LimitView };

    ghost view = { λ l. record { address = l.address; naks = l.naks; attempts = l.attempts } };

    ghost invariant = { λ l. IsInRange l.address l.attempts };

    ghost inverse = { λ v. record { address = v.address; naks = v.naks; attempts = v.attempts } };
}

impl Limits {
    ghost use Rattle.usb_host.specs.Limits.{IsInRange, limit_fault};

    /// Limits with the address that the device gets, the number of NAKs without progress that a transfer retries, and
    /// the number of attempts.
    ///
    /// ```rust
    /// let limits = Limits::new(1, 16, 3)?;
    /// assert_eq!(rt; Limits::new(128, 16, 3), Err(LimitFault::Address));
    /// ```
    ///
    /// # Errors
    ///
    /// [`LimitFault::Address`] where the address is not 1 to 127, and else [`LimitFault::Attempts`] where the
    /// attempts are not 1 to 8.
    pub fn new(address: u8, naks: u16, attempts: u8) -> Result<Limits, LimitFault>
        ensures value { IfOk result (λ l. l ≡ record { address = address; naks = naks; attempts = attempts }) }
        ensures ok { OnOk result (limit_fault address attempts ≡ None) }
        ensures err { IfErr result (λ fault. limit_fault address attempts ≡ Some fault) }
    {
        if address == 0 || address > LAST_ADDRESS {
            return Err(LimitFault::Address);
        }
        if attempts == 0 || attempts > MOST_ATTEMPTS {
            return Err(LimitFault::Attempts);
        }
        Ok(Limits {
            address,
            naks,
            attempts,
        })
    }

    /// For the proofs of callers: address and attempts are in their ranges.
    pub fn known(&self)
        ensures { IsInRange self.now.address self.now.attempts }
    {
        let _attempts = self.attempts;
    }

    /// The address that the device gets, 1 to 127.
    pub fn address(&self) -> u8
        ensures { result ≡ self.now.address }
    {
        self.address
    }

    /// The number of NAKs without progress that a transfer retries: one more ends it.
    pub fn naks(&self) -> u16
        ensures { result ≡ self.now.naks }
    {
        self.naks
    }

    /// The number of attempts, 1 to 8.
    pub fn attempts(&self) -> u8
        ensures value { result ≡ self.now.attempts }
        ensures some { 0 < result }
    {
        self.attempts
    }
}

/// Why limits are rejected: the first of these that applies.
#[derive(Clone, Copy, Debug, PartialEq, Eq, Hash)]
pub enum LimitFault {
    /// The address is not 1 to 127.
    Address,
    /// The attempts are not 1 to 8.
    Attempts,
}

impl LimitFault {
    ghost use Rattle.usb_host.specs.Limits.{limit_fault_number};

    /// The fault's number, 1 or 2: a lower one is tested first.
    ///
    /// ```rust
    /// assert_eq!(rt; LimitFault::Address.number(), 1);
    /// ```
    pub fn number(self) -> u8
        ensures { result ≡ limit_fault_number self }
    {
        self as u8 + 1
    }
}

impl fmt::Display for LimitFault {
    ghost use Rattle.usb_host.specs.Limits.{limit_fault_message};

    ghost output = { λ fault. Some (limit_fault_message fault) };

    fn fmt<W: fmt::Write>(&self, f: &mut fmt::Formatter<W>) -> fmt::Result {
        match self {
            LimitFault::Address => f.write_str("the address is not 1 to 127"),
            LimitFault::Attempts => f.write_str("the attempts are not 1 to 8"),
        }
    }
}

impl error::Error for LimitFault {}
