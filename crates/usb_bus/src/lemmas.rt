//! What holds of attempts and of runs, for the proof of the law alone.
//!
//! The functions do nothing: their contracts are the laws.
ghost use Rattle.std.specs.Prelude.{◌≡◌};
ghost use Rattle.usb_host.specs.Terms.{everything};
ghost use Rattle.usb_bus.specs.Asked.{asked_of};
ghost use Rattle.usb_bus.specs.inside.Laws.{AllIsAsked, EnumerationsHaveCauses, ReadsTheDescription, KeepsTheImage, RunsEndWell, RunsKeepLimits, SeriesHaveCauses, SetsAreRead};

use usb_device::Encoded;
use usb_host::laws::a_host_ends;
use usb_set::laws::{more_bytes, one_judgement, one_layout};

/// Transfers by a plan, with a bus reset before each attempt: in a failure each attempt had a loss of its own, or a busy
/// transaction more than the NAK limit.
pub(crate) fn attempts_have_causes()
    ensures { SeriesHaveCauses }
{}

/// Where all is asked for, that is the description.
#[tactic(auto, using(crate::proofs::AskedTexts::all_asked))]
pub(crate) fn all_that_is_there_is_asked()
    ensures { AllIsAsked }
{}

/// So it is of this one.
pub(crate) fn all_is_asked(d: &Encoded)
    ensures { asked_of everything d.now.file ≡ d.now.file }
{
    d.known();
    all_that_is_there_is_asked();
}

/// An enumeration of a device: a success has read what was asked for of the description, and configured the device.
pub(crate) fn an_enumeration_reads_the_description()
    ensures causes { EnumerationsHaveCauses }
    ensures reads { ReadsTheDescription }
{
    attempts_have_causes();
}

/// A host that keeps a place and a decoder goes as one that keeps all bytes.
pub(crate) fn a_host_keeps_the_image()
    ensures { KeepsTheImage }
{
    one_layout();
    one_judgement();
    more_bytes();
}

/// Descriptions are read: the laws above have a premise on a reader of sets, and there is such a reader.
pub(crate) fn descriptions_are_read()
    ensures { SetsAreRead }
{
    one_layout();
    one_judgement();
}

/// Over every bus, a host and a device with a description end with a report of what was asked for of that description, or with
/// a cause, and the host keeps its limits.
pub(crate) fn a_run_ends_well()
    ensures ends { RunsEndWell }
    ensures limits { RunsKeepLimits }
{
    a_host_ends();
    an_enumeration_reads_the_description();
    a_host_keeps_the_image();
    descriptions_are_read();
}
