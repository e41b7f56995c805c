//! The lines that report the outcome of an enumeration.
ghost use Rattle.std.specs.Prelude.{Some};
ghost use Rattle.usb_tool.specs.Enumerations.{refused_line, success_line, trouble_line};

use std::fmt;
use usb_bus::Run;
use usb_device::DescriptionFault;
use usb_host::Trouble;

/// The line of a run that succeeded: with the address and the configuration value of the device.
#[derive(Clone, Copy)]
pub(crate) struct SuccessLine<'r>(pub(crate) &'r Run);

impl<'r> fmt::Display for SuccessLine<'r> {
    ghost output = { λ line. Some (success_line line.0.now) };

    fn fmt<W: fmt::Write>(&self, f: &mut fmt::Formatter<W>) -> fmt::Result {
        let SuccessLine(run) = *self;
        let (attempts, transactions) = (run.attempts, run.transactions);
        let (address, value) = (run.state.address, run.state.selected);
        write!(
            f,
            "success attempts {attempts} transactions {transactions} address {address} value {value}\n"
        )
    }
}

/// The line of a run that ended with this trouble.
#[derive(Clone, Copy)]
pub(crate) struct TroubleLine<'r>(pub(crate) Trouble, pub(crate) &'r Run);

impl<'r> fmt::Display for TroubleLine<'r> {
    ghost output = { λ line. Some (trouble_line line.0 line.1.now) };

    #[tactic(auto, unfolding(crate::specs::Enumerations::trouble_line))]
    fn fmt<W: fmt::Write>(&self, f: &mut fmt::Formatter<W>) -> fmt::Result {
        let TroubleLine(trouble, run) = *self;
        let (number, step) = (trouble.why.number(), trouble.step);
        let (attempts, transactions) = (run.attempts, run.transactions);
        write!(
            f,
            "trouble {number} {step} attempts {attempts} transactions {transactions}\n"
        )
    }
}

/// The line of a refused description, with the finding where that is the reason.
#[derive(Clone, Copy)]
pub(crate) struct RefusedLine(pub(crate) DescriptionFault);

impl fmt::Display for RefusedLine {
    ghost output = { λ line. Some (refused_line line.0) };

    #[tactic(auto, unfolding(crate::specs::Enumerations::refused_line))]
    fn fmt<W: fmt::Write>(&self, f: &mut fmt::Formatter<W>) -> fmt::Result {
        match self.0 {
            DescriptionFault::Finding(finding) => write!(f, "refused 1 {finding}\n"),
            fault => {
                let number = fault.number();
                write!(f, "refused {number}\n")
            }
        }
    }
}
