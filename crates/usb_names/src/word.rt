//! A name of a table.
ghost use Rattle.std.specs.Prelude.{IsTrue};
ghost use Rattle.usb_names.specs.Named.{is_name};

/// A name of a table: printable ASCII, of at most 62 characters.
#[derive(Clone, Copy, Debug)]
pub struct Word {
    /// Its characters.
    pub text: &'static str,
    pub ghost words: { IsTrue (is_name text.now) },
}
