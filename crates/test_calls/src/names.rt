//! What callers rely on by name: every public type with all of its fields or variants, and every call with the types of what
//! it takes and answers, each by the path of its crate. A change that bends one of them fails here.
mod device;
mod fields;
mod files;
mod host;
mod sets;
mod tool;
