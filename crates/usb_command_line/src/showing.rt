//! The options of `show`.

/// Which of the flags of `show` are given.
#[derive(Clone, Copy, Debug, PartialEq, Eq, Hash)]
pub struct Showing {
    /// Whether a dump is taken too.
    pub any: bool,
    /// Whether the input has to be hexadecimal text.
    pub hex: bool,
}
