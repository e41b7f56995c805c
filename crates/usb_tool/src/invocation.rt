//! How the program is called.
use crate::audience::Audience;

/// How the program is called.
#[derive(Clone, Copy)]
pub struct Invocation<'a> {
    /// The words of its command line, of which the first is its name.
    pub words: &'a [String],
    /// Who reads standard error.
    pub audience: Audience,
}
