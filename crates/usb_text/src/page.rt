//! Lines as those who put them see them.
use std::alloc::AllocError;

/// Where lines are put. What is seen of it is what its lines show beside their words, in order; the words are free. So a
/// function that is generic over the page can meet a contract like the one below only by showing this, in this order:
///
/// ```rust
/// fn put_length<P: Page>(page: &mut P, depth: usize, length: u8) -> Result<(), AllocError>
///     ensures { OnOk result (P.seen page.new ≡ showing_all P.showing (Indent depth ∷ Number length ∷ End ∷ []) (P.seen page.old)) }
/// {
///     page.put_indent(depth)?;
///     page.put("of ")?;
///     page.put_count(u64::from(length), "byte")?;
///     page.end_line()
/// }
/// ```
///
/// Words are printable ASCII. Those that are known when the program is built need no proof.
pub trait Page {
    ghost use Rattle.std.specs.Prelude.{◌≡◌, IsTrue, OnOk};
    ghost use Rattle.usb_text.specs.Characters.{units_in};
    ghost use Rattle.usb_text.specs.Shown.{Bytes, End, Indent, Name, Number, Shown, Units};
    ghost use Rattle.usb_text.specs.Written.{is_words};

    /// What is seen of a page: nothing of its words.
    ghost Seen: { Type 0 };

    ghost seen: { Self → Seen };

    /// What is seen where this is shown next.
    ghost showing: { Shown → Seen → Seen };

    /// Puts words.
    ///
    /// # Errors
    ///
    /// Out of memory, here as in all that puts something.
    fn put(&mut self, words: &str) -> Result<(), AllocError>
        requires { IsTrue (is_words words.now) }
        ensures { OnOk result (seen self.new ≡ seen self.old) };

    /// Puts a name, which is shown and not of the words.
    fn put_name(&mut self, name: &str) -> Result<(), AllocError>
        requires { IsTrue (is_words name.now) }
        ensures { OnOk result (seen self.new ≡ showing (Name name.now) (seen self.old)) };

    /// Puts characters of ASCII, which are shown.
    fn put_characters(&mut self, characters: &[u8]) -> Result<(), AllocError>
        requires { IsTrue (is_words characters.now) }
        ensures { OnOk result (seen self.new ≡ showing (Name characters.now) (seen self.old)) };

    /// Puts `count` spaces, with which a line begins.
    fn put_indent(&mut self, count: usize) -> Result<(), AllocError>
        ensures { OnOk result (seen self.new ≡ showing (Indent count) (seen self.old)) };

    /// Puts `indent` spaces, with which a line begins, and a name in a column of this width.
    fn put_indented_column(
        &mut self,
        indent: usize,
        name: &str,
        width: usize,
    ) -> Result<(), AllocError>
        requires { IsTrue (is_words name.now) }
        ensures { OnOk result (seen self.new ≡ showing (Name name.now) (showing (Indent indent) (seen self.old))) };

    /// Puts a number in decimal digits.
    fn put_decimal(&mut self, number: u64) -> Result<(), AllocError>
        ensures { OnOk result (seen self.new ≡ showing (Number number) (seen self.old)) };

    /// Puts a number and what it counts: `1 byte`, `2 bytes`.
    fn put_count(&mut self, number: u64, noun: &str) -> Result<(), AllocError>
        requires { IsTrue (is_words noun.now) }
        ensures { OnOk result (seen self.new ≡ showing (Number number) (seen self.old)) };

    /// Puts a number in two hexadecimal digits.
    fn put_pair(&mut self, byte: u8) -> Result<(), AllocError>
        ensures { OnOk result (seen self.new ≡ showing (Number byte) (seen self.old)) };

    /// Puts a code of one byte: `0x81`.
    fn put_byte_code(&mut self, code: u8) -> Result<(), AllocError>
        ensures { OnOk result (seen self.new ≡ showing (Number code) (seen self.old)) };

    /// Puts a code of one byte, after which its meaning begins: `0x81 (`.
    fn begin_byte_meaning(&mut self, code: u8) -> Result<(), AllocError>
        ensures { OnOk result (seen self.new ≡ showing (Number code) (seen self.old)) };

    /// Puts a code of two bytes: `0x0409`.
    fn put_word_code(&mut self, code: u16) -> Result<(), AllocError>
        ensures { OnOk result (seen self.new ≡ showing (Number code) (seen self.old)) };

    /// Puts a code of two bytes, after which its meaning begins: `0x0040 (`.
    fn begin_word_meaning(&mut self, code: u16) -> Result<(), AllocError>
        ensures { OnOk result (seen self.new ≡ showing (Number code) (seen self.old)) };

    /// Puts a release in binary coded decimal: `2.00` of 0200.
    fn put_release(&mut self, number: u16) -> Result<(), AllocError>
        ensures { OnOk result (seen self.new ≡ showing (Number number) (seen self.old)) };

    /// Puts two hexadecimal digits for each byte.
    fn put_digits(&mut self, bytes: &[u8]) -> Result<(), AllocError>
        ensures { OnOk result (seen self.new ≡ showing (Bytes bytes.now) (seen self.old)) };

    /// Puts the units of a string.
    fn put_units(&mut self, units: &[u16]) -> Result<(), AllocError>
        ensures { OnOk result (seen self.new ≡ showing (Units units.now) (seen self.old)) };

    /// The same of the units of bytes, each the low byte first.
    fn put_units_in(&mut self, bytes: &[u8]) -> Result<(), AllocError>
        ensures { OnOk result (seen self.new ≡ showing (Units (units_in bytes.now)) (seen self.old)) };

    /// Ends the line.
    fn end_line(&mut self) -> Result<(), AllocError>
        ensures { OnOk result (seen self.new ≡ showing End (seen self.old)) };
}
