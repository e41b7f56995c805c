//! The options of `enumerate` that have a value.

/// The options of `enumerate` that have a value: the text of each one, or `None` where the words lack it.
#[derive(Clone, Copy, Debug, PartialEq, Eq, Hash)]
pub struct Options<'a> {
    /// The name of a speed.
    pub speed: Option<&'a str>,
    /// The address that the device gets.
    pub address: Option<&'a str>,
    /// The number of NAKs without progress that a transfer retries.
    pub naks: Option<&'a str>,
    /// The number of attempts.
    pub attempts: Option<&'a str>,
    /// A letter for the fate of each transaction.
    pub fates: Option<&'a str>,
}
