//! The options of `explain`.

/// Which of the flags of `explain` are given, and the text of its speed.
#[derive(Clone, Copy, Debug, PartialEq, Eq, Hash)]
pub struct Explaining<'a> {
    /// Whether the fields are left out.
    pub brief: bool,
    /// Whether the places are left out.
    pub no_places: bool,
    /// Whether characters beyond ASCII are written.
    pub utf8: bool,
    /// Whether the input has to be hexadecimal text.
    pub hex: bool,
    /// Whether it is explained as a fragment.
    pub loose: bool,
    /// Whether headings of formats have what tells them apart.
    pub formats: bool,
    /// The name of a speed, or `None` where the words lack it.
    pub speed: Option<&'a str>,
}
