//! The other options of `enumerate`.

/// The options of `enumerate` beside [`Options`](crate::options::Options): which flags are given, and the text of each other one, or
/// `None` where the words lack it.
#[derive(Clone, Copy, Debug, PartialEq, Eq, Hash)]
pub struct Enumerating<'a> {
    /// Whether a log of the transactions is asked for.
    pub log: bool,
    /// Whether its lines of data are left out.
    pub brief: bool,
    /// Whether it shows the bytes of each packet.
    pub packets: bool,
    /// Whether a dump is taken, with a text in each place that names a string.
    pub with_strings: bool,
    /// The bits that change.
    pub damage: Option<&'a str>,
    /// What becomes of the strings: `needed`, `wanted` or `skipped`.
    pub strings: Option<&'a str>,
    /// Whether the other speed is asked for: `yes` or `no`.
    pub other_speed: Option<&'a str>,
}
