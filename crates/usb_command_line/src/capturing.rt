//! The options of `capture`.

/// The options of `capture`: which flags are given, and the text of each other one, or `None` where the words lack it.
#[derive(Clone, Copy, Debug, PartialEq, Eq, Hash)]
pub struct Capturing<'a> {
    /// Whether lines of transfers have their bytes below them.
    pub data: bool,
    /// Whether lines of transfers are left out.
    pub brief: bool,
    /// The device whose lines are wanted: the number of its bus, a point, and its address.
    pub device: Option<&'a str>,
    /// The least time of a line, in seconds after the first frame.
    pub from: Option<&'a str>,
    /// The greatest time of a line.
    pub to: Option<&'a str>,
    /// The device whose descriptors are wanted as a file.
    pub file: Option<&'a str>,
}
