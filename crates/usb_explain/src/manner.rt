//! How an input is explained, and how an explanation is written.
use usb_remarks::SetSpeed;

/// How an input is explained.
#[derive(Clone, Copy, Debug, PartialEq, Eq, Hash)]
pub struct Manner {
    /// How its lines are written.
    pub look: Look,
    /// The speed at which the device ran, where it is known.
    pub speed: Option<SetSpeed>,
    /// Whether its bytes were given as text, and decoded. They are not called text then.
    pub decoded: bool,
}

/// How an explanation is written.
#[derive(Clone, Copy, Debug, PartialEq, Eq, Hash)]
pub struct Look {
    /// Without the lines of fields.
    pub brief: bool,
    /// With the place of each descriptor in the input.
    pub places: bool,
    /// Characters beyond ASCII as UTF-8.
    pub utf8: bool,
    /// With what tells formats apart in their headings: size and interval of a video frame, rates of an audio format.
    pub formats: bool,
}
