//! The commands of the program, each over any reader and writer.
use crate::answer::Answer;
use crate::tally::Tally;
use std::alloc::Global;
use std::io::{Read, Write};
use usb_bus::Fate;
use usb_fields::Speed;
use usb_host::{Choice, Limits, NamedStrings};
use usb_tool::{
    Building, EnumerateFlags, Enumeration, Explanation, Look, Manner, Settings, Source, Taken,
    Task, ToolFault, Work, run_build, run_build_as, run_check, run_enumerate, run_enumeration,
    run_explain, run_show, run_work,
};

/// How an input is explained.
const WHOLE: Explanation = Explanation {
    manner: Manner {
        look: Look {
            brief: false,
            places: true,
            utf8: false,
            formats: false,
        },
        speed: None,
        decoded: false,
    },
    hex: false,
    loose: false,
};

/// The listing of a set, a file or a dump.
const SHOW_ANY: Task = Task {
    source: Source::Bytes,
    taken: Taken::Any,
    work: Work::List,
};

/// What is found in one.
const CHECK_ANY: Task = Task {
    source: Source::Bytes,
    taken: Taken::Any,
    work: Work::Check,
};

/// The bytes of a listing with comments.
const COMMENTED: Building = Building {
    comments: true,
    hex: false,
};

/// A host that asks for everything.
const EVERYTHING: Choice = Choice {
    strings: NamedStrings::Needed,
    other_speed: true,
};

/// With a log.
const LOGGED: EnumerateFlags = EnumerateFlags {
    log: true,
    brief: false,
    packets: false,
    with_strings: false,
    choice: EVERYTHING,
};

/// With a brief log.
const BRIEF: EnumerateFlags = EnumerateFlags {
    log: true,
    brief: true,
    packets: false,
    with_strings: false,
    choice: EVERYTHING,
};

/// A command.
#[derive(Clone, Copy)]
pub(crate) enum Command {
    Show,
    /// Of a dump too.
    ShowAny,
    Check,
    /// Of a set or a dump too.
    CheckAny,
    /// With fields and places, at a speed that the descriptors say.
    Explain,
    Build,
    /// Of a listing with comments too.
    BuildCommented,
    /// At full speed.
    Enumerate,
    /// The same with its log.
    Log,
    /// The same with a brief log.
    Brief,
}

impl Command {
    /// The command of this word.
    pub(crate) fn of(word: &str) -> Option<Command> {
        match word {
            "show" => Some(Command::Show),
            "show_any" => Some(Command::ShowAny),
            "check" => Some(Command::Check),
            "check_any" => Some(Command::CheckAny),
            "explain" => Some(Command::Explain),
            "build" => Some(Command::Build),
            "build_commented" => Some(Command::BuildCommented),
            "enumerate" => Some(Command::Enumerate),
            "log" => Some(Command::Log),
            "brief" => Some(Command::Brief),
            _ => None,
        }
    }

    /// Its word.
    pub(crate) fn word(self) -> &'static str {
        match self {
            Command::Show => "show",
            Command::ShowAny => "show_any",
            Command::Check => "check",
            Command::CheckAny => "check_any",
            Command::Explain => "explain",
            Command::Build => "build",
            Command::BuildCommented => "build_commented",
            Command::Enumerate => "enumerate",
            Command::Log => "log",
            Command::Brief => "brief",
        }
    }

    /// The settings of its enumeration.
    pub(crate) fn settings(self, limits: Limits, fates: Vec<Fate>) -> Settings {
        Settings {
            limits,
            speed: Speed::Full,
            fates,
        }
    }

    /// Carries it out. What the commands promise ends here: whoever calls this is proved without it.
    pub(crate) fn run<R: Read, W: Write>(
        self,
        alloc: Global,
        r: &mut R,
        w: &mut W,
        settings: &Settings,
    ) -> Result<u8, ToolFault> {
        let Settings {
            limits,
            speed,
            ref fates,
        } = *settings;
        match self {
            Command::Show => run_show(alloc, r, w),
            Command::ShowAny => run_work(alloc, r, w, SHOW_ANY),
            Command::Check => run_check(alloc, r, w),
            Command::CheckAny => run_work(alloc, r, w, CHECK_ANY),
            Command::Explain => run_explain(alloc, r, w, WHOLE),
            Command::Build => run_build(alloc, r, w),
            Command::BuildCommented => run_build_as(alloc, r, w, COMMENTED),
            Command::Enumerate => run_enumerate(alloc, r, w, limits, speed, fates),
            Command::Log => run_logged(alloc, r, w, settings, LOGGED),
            Command::Brief => run_logged(alloc, r, w, settings, BRIEF),
        }
    }

    /// Adds its answer to this input to the case, and gives what it writes.
    pub(crate) fn answer(
        self,
        mut input: &[u8],
        settings: &Settings,
        tally: &mut Tally,
    ) -> anyhow::Result<Vec<u8>> {
        let mut output = Vec::new(tally.alloc);
        let outcome = self.run(tally.alloc, &mut input, &mut output, settings);
        let answer = Answer::new(tally.alloc, outcome, output)?;
        tally.add(self.word(), &answer)?;
        Ok(answer.output)
    }
}

/// Enumerates with these flags.
fn run_logged<R: Read, W: Write>(
    alloc: Global,
    r: &mut R,
    w: &mut W,
    settings: &Settings,
    flags: EnumerateFlags,
) -> Result<u8, ToolFault> {
    let enumeration = Enumeration {
        limits: settings.limits,
        speed: settings.speed,
        fates: &settings.fates,
        changes: &[],
        flags,
    };
    run_enumeration(alloc, r, w, &enumeration).map(|end| end.status())
}
