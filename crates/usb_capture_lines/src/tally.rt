//! What of a recording is counted.
ghost use Rattle.std.specs.Prelude.{◌≡◌};
ghost use Rattle.usb_capture_lines.specs.Observations.{one_more};
ghost use Rattle.usb_capture_lines.specs.Recordings.{counted, is_unseen, none_counted, replaced_with};

use usb_capture::{ControlTransfer, Ending, Frame};

/// What of a recording is counted.
#[derive(Clone, Copy, Debug, PartialEq, Eq, Hash)]
pub struct Tally {
    /// How many frames came.
    pub frames: u64,
    /// The link type of the first frame.
    pub link: Option<u16>,
    /// The time of the first frame, or 0 if it has none.
    pub origin: u64,
    /// The time of the last frame.
    pub last: Option<u64>,
}

impl Tally {
    /// Of no frame.
    pub(crate) fn new() -> Tally
        ensures { result ≡ none_counted }
    {
        Tally {
            frames: 0,
            link: None,
            origin: 0,
            last: None,
        }
    }

    /// With a frame more.
    pub(crate) fn with(self, frame: &Frame) -> Tally
        ensures { result ≡ counted frame.now self }
    {
        let frames = one_more(self.frames);
        match self.link {
            None => Tally {
                frames,
                link: Some(frame.link),
                origin: frame.time.unwrap_or(0),
                last: frame.time,
            },
            Some(_) => Tally {
                frames,
                last: frame.time,
                ..self
            },
        }
    }
}

/// How many transfers are over before whose end the next request came, with this one.
pub(crate) fn replaced_with(transfer: &ControlTransfer, count: u64) -> u64
    ensures { result ≡ replaced_with transfer.now count }
{
    if is_unseen(transfer.ending) {
        one_more(count)
    } else {
        count
    }
}

/// Whether the end of a transfer isn't in the recording.
fn is_unseen(ending: Ending) -> bool
    ensures { result ≡ is_unseen ending }
{
    match ending {
        Ending::Unseen => true,
        Ending::Done | Ending::Stall | Ending::Failed(_) | Ending::Refused(_) => false,
    }
}

/// One more, or the greatest number.
pub(crate) fn one_more(count: u64) -> u64
    ensures { result ≡ one_more count }
{
    count.saturating_add(1)
}
