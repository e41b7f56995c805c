//! Who reads standard error.

/// Who reads standard error.
#[derive(Clone, Copy, Debug, PartialEq, Eq, Hash)]
pub enum Audience {
    /// A program, or nobody: a fault has its line alone.
    Program,
    /// A person at a terminal, who also reads what a line means and what to try.
    Person,
}
