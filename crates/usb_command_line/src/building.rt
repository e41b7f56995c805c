//! What the options of `build` mean.

/// Which of the flags of `build` are given.
#[derive(Clone, Copy, Debug, PartialEq, Eq, Hash)]
pub struct Building {
    /// Whether empty lines, those that begin with `#`, and a carriage return at the end of a line are dropped.
    pub comments: bool,
    /// Whether the bytes are written as hexadecimal text: two lower-case digits each, 16 bytes a line, and a space between two
    /// of a line.
    pub hex: bool,
}
