//! Where in a file a rule is looked at.
ghost use Rattle.std.specs.Prelude.{◌≡◌};

use crate::cause::{Cause, Found};
use crate::finding::{Finding, Part};
use crate::rule::Rule;

/// A set of a part, or a setting of it, or an endpoint of that, all counted from 0. Numbers that do not
/// apply are 0.
#[derive(Clone, Copy)]
pub(crate) struct Place {
    pub(crate) part: Part,
    pub(crate) set: usize,
    pub(crate) setting: usize,
    pub(crate) endpoint: usize,
}

impl Place {
    ghost use Rattle.usb_file_data.specs.Findings.{found};
    ghost use Rattle.usb_file_data.specs.Places.{finding};
    ghost use Rattle.usb_file_data.specs.inside.Walk.{broken, place};

    /// That of a part, and of its set of this number.
    pub(crate) fn of(part: Part, set: usize) -> Place
        ensures { result ≡ place part set 0 0 }
    {
        Place {
            part,
            set,
            setting: 0,
            endpoint: 0,
        }
    }

    /// That of a setting of the set.
    pub(crate) fn at_setting(self, setting: usize) -> Place
        ensures { result ≡ place self.part self.set setting 0 }
    {
        Place {
            setting,
            endpoint: 0,
            ..self
        }
    }

    /// That of an endpoint of the setting.
    pub(crate) fn at_endpoint(self, endpoint: usize) -> Place
        ensures { result ≡ place self.part self.set self.setting endpoint }
    {
        Place { endpoint, ..self }
    }

    /// What is found here where the descriptor of this number breaks a rule by the cause.
    #[inline(always)]
    pub(crate) fn found(self, cause: Cause, descriptor: usize) -> Found
        ensures { result ≡ found descriptor (broken cause self) }
    {
        Found {
            finding: self.finding(cause.rule()),
            cause,
            descriptor,
        }
    }

    /// The finding that the rule is broken here.
    #[inline(always)]
    pub(crate) fn finding(self, rule: Rule) -> Finding
        ensures { result ≡ finding rule self.part self.set self.setting self.endpoint }
    {
        Finding {
            rule: rule.number(),
            part: self.part,
            set: self.set,
            setting: self.setting,
            endpoint: self.endpoint,
        }
    }
}
