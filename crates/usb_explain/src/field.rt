//! A field of a descriptor.
ghost use Rattle.std.specs.Prelude.{◌≡◌, ◌≤◌, IsTrue, length};
ghost use Rattle.usb_text.specs.Written.{is_words};

use usb_names::Form;

/// A field of a descriptor, at its place.
#[derive(Clone, Copy, Debug)]
pub struct Field<'d> {
    /// Its standard name, or what bytes without a field of their own are called, `tail` or `bytes`. It is printable ASCII, of
    /// at most 62 characters.
    pub name: &'static str,
    /// The place of its first byte in the descriptor.
    pub place: usize,
    /// How its number is written.
    pub form: Form,
    /// Its bytes, the low one first.
    pub value: &'d [u8],
    pub ghost words: { IsTrue (is_words name.now) },
    pub ghost short: { length name.now ≤ 62 },
}

impl Field<'_> {
    /// How many bytes it has.
    pub fn width(&self) -> usize
        ensures { result ≡ length self.now.value.now }
    {
        self.value.len()
    }
}
