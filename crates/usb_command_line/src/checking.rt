//! The options of `check`.

/// Which of the flags of `check` are given, and the text of its speed.
#[derive(Clone, Copy, Debug, PartialEq, Eq, Hash)]
pub struct Checking<'a> {
    /// Whether a set or a dump is taken too.
    pub any: bool,
    /// Whether the input has to be hexadecimal text.
    pub hex: bool,
    /// Whether remarks are written too.
    pub remarks: bool,
    /// The name of a speed, or `None` where the words lack it.
    pub speed: Option<&'a str>,
}
