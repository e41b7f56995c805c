//! Lines that a line feed ends, and nothing else does.
ghost use Rattle.std.specs.Prelude.{◌≡◌};
ghost use Rattle.usb_text.specs.Written.{is_whole};
ghost use Rattle.usb_text.specs.inside.Pages.{EndedLines};
ghost use Rattle.usb_text.specs.inside.Units.{AreUnits};

use crate::characters::{put_units, put_units_in};
use crate::numbers::{
    begin_byte_meaning, begin_word_meaning, put_byte_code, put_count, put_release, put_word_code,
};
use crate::output::{OutFault, write_all};
use crate::page::Page;
use crate::text::Text;
use std::alloc::{AllocError, Global};
use std::io::Write;
use std::marker::Model;
use usb_fields::known_bytes;

/// Lines of this many bytes or more are passed on to the writer.
const FULL: usize = 32 * 1024;

/// What `with_room` has room for: as many, and the lines of one descriptor more.
const ROOM: usize = FULL + 16 * 1024;

/// What `with_room` makes ready at once: as many as the explanation of a short input has.
const SHORT: usize = 2 * 1024;

/// Lines of printable ASCII and, with `utf8`, characters beyond it. A line feed ends a line, and nothing else does. In a
/// contract they are their bytes; a [`Page`], as which they are put, shows none of the words. Out of memory, those that
/// no writer has yet are gone.
///
/// ```rust
/// let mut lines = Lines::new(alloc, false);
/// lines.put("endpoint ")?;
/// lines.put_byte_code(0x81)?;
/// lines.end_line()?;
/// assert_eq!(rt; lines.as_bytes(), b"endpoint 0x81\n");
/// lines.finish(&mut rt.stdout())?;
/// ```
#[derive(Debug, Drop)]
pub struct Lines {
    text: Text,
    utf8: bool,
}

impl Model for Lines {
    ghost use Rattle.std.specs.Prelude.{◌≡◌, true};
    ghost use Rattle.std.specs.List.{list_all};
    ghost use Rattle.usb_text.specs.Written.{LineBytes, is_of_lines};

    ghost Value = { LineBytes };

    ghost view = { λ l. record { utf8 = l.utf8; bytes = l.text } };

    ghost invariant = { λ l. list_all (is_of_lines l.utf8) l.text ≡ true };
}

impl Lines {
    ghost use Rattle.std.specs.Prelude.{◌≡◌, ◌==◌, ◌⊎◌, length, IfErr, IfOk, IsTrue, OnErr, OnOk};
    ghost use Rattle.std.specs.List.{list_all};
    ghost use Rattle.usb_text.specs.Output.{AppendsFront};
    ghost use Rattle.usb_text.specs.Written.{PutsLines, WritesLess, WritesLines, is_of_lines, no_lines, written};

    /// No lines.
    pub fn new(alloc: Global, utf8: bool) -> Lines
        ensures { result ≡ no_lines utf8 }
    {
        Lines {
            text: Text::new(alloc),
            utf8,
        }
    }

    /// No lines, with room for as many as are written at once.
    ///
    /// # Errors
    ///
    /// Out of memory.
    pub fn with_room(alloc: Global, utf8: bool) -> Result<Lines, AllocError>
        ensures { IfOk result (λ lines. lines ≡ no_lines utf8) }
    {
        let mut text = Text::with_capacity(alloc, ROOM)?;
        text.reserve(SHORT)?;
        Ok(Lines { text, utf8 })
    }

    /// Their bytes, with those of a line that is begun.
    pub fn as_bytes(&self) -> &[u8]
        ensures characters { IsTrue (list_all (is_of_lines self.now.utf8) result.now) }
        ensures bytes { result.now ≡ self.now.bytes }
    {
        self.text.as_bytes()
    }

    /// Their length in bytes.
    pub fn len(&self) -> usize
        ensures { result ≡ length self.now.bytes }
    {
        self.text.len()
    }

    /// Whether they have no bytes.
    pub fn is_empty(&self) -> bool
        ensures { result ≡ (length self.now.bytes == 0) }
    {
        self.text.is_empty()
    }

    /// Writes all lines and empties them, where they have 32 KB or more and none is begun.
    ///
    /// # Errors
    ///
    /// `Write` where the writer failed. It has a prefix of the lines then, and not all of them.
    #[tactic(auto, using(crate::proofs::WrittenLines::all_passed, crate::proofs::WrittenLines::not_passed, crate::proofs::WrittenLines::nothing_put, crate::proofs::WrittenLines::front_none, crate::proofs::WrittenLines::front_all, crate::proofs::WrittenLines::front_less))]
    pub fn pass_on<W: Write>(&mut self, w: &mut W) -> Result<(), OutFault>
        ensures ok { OnOk result (PutsLines (W.contents w.old) (W.contents w.new) (written self.old) (written self.new) 0) }
        ensures whole { OnOk result ((self.new ≡ self.old) ⊎ (self.new ≡ no_lines self.old.utf8)) }
        ensures err { OnErr result (WritesLess self.old.utf8 (written self.old).ended (W.contents w.old) (W.contents w.new)) }
        ensures front { AppendsFront (W.contents w.old) (W.contents w.new) self.old.bytes }
        ensures why { IfErr result (λ fault. fault ≡ OutFault.Write) }
    {
        if self.text.len() >= FULL && is_whole(self.text.as_bytes()) {
            write_all(w, self.text.as_bytes())?;
            self.text.clear();
        }
        Ok(())
    }

    /// Writes all lines that have ended.
    ///
    /// # Errors
    ///
    /// `Write` where the writer failed. It has a prefix of the lines then, and not all of them.
    #[tactic(auto, using(crate::proofs::WrittenLines::ended_written, crate::proofs::WrittenLines::ended_less, crate::proofs::WrittenLines::ended_front, crate::proofs::WrittenLines::ended_front_less))]
    pub fn finish<W: Write>(self, w: &mut W) -> Result<(), OutFault>
        ensures ok { OnOk result (WritesLines self.utf8 (written self).ended (W.contents w.old) (W.contents w.new)) }
        ensures err { OnErr result (WritesLess self.utf8 (written self).ended (W.contents w.old) (W.contents w.new)) }
        ensures front { AppendsFront (W.contents w.old) (W.contents w.new) self.bytes }
        ensures why { IfErr result (λ fault. fault ≡ OutFault.Write) }
    {
        write_all(w, ended_lines(self.text.as_bytes()))?;
        Ok(())
    }
}

/// What came of putting something into a text, which is empty where memory was wanting.
macro_rules! put {
    ($text:expr, $put:expr) => {
        match $put {
            Ok(()) => Ok(()),
            Err(e) => {
                $text.clear();
                Err(e)
            }
        }
    };
}

#[tactic(auto, using(crate::proofs::LineWords::words_fit, crate::proofs::LineWords::words_count, crate::proofs::LineWords::numbers))]
impl Page for Lines {
    ghost use Rattle.std.specs.Prelude.{◌≡◌, [], ◌∷◌, ◌++◌, codes, replicate, IsTrue, OnOk};
    ghost use Rattle.std.specs.Fmt.{decimal};
    ghost use Rattle.hex.specs.Hex.{encode_lower};
    ghost use Rattle.usb_text.specs.Characters.{units_in, units_words};
    ghost use Rattle.usb_text.specs.Lines.{column};
    ghost use Rattle.usb_text.specs.Numbers.{byte_code, count, release, word_code};
    ghost use Rattle.usb_text.specs.Shown.{with_shown};
    ghost use Rattle.usb_text.specs.Written.{Written, is_words, more_lines, with_bytes, written};

    ghost Seen = { Written };

    ghost seen = { written };

    ghost showing = { with_shown };

    #[inline(always)]
    fn put(&mut self, words: &str) -> Result<(), AllocError>
        requires { IsTrue (is_words words.now) }
        ensures bytes { OnOk result (self.new ≡ with_bytes self.old words.now) }
        ensures seen { OnOk result (written self.new ≡ written self.old) }
    {
        put!(self.text, self.text.put(words))
    }

    #[inline(always)]
    fn put_name(&mut self, name: &str) -> Result<(), AllocError>
        requires { IsTrue (is_words name.now) }
        ensures bytes { OnOk result (self.new ≡ with_bytes self.old name.now) }
        ensures seen { OnOk result (written self.new ≡ written self.old) }
    {
        put!(self.text, self.text.put(name))
    }

    #[inline]
    fn put_characters(&mut self, characters: &[u8]) -> Result<(), AllocError>
        requires { IsTrue (is_words characters.now) }
        ensures bytes { OnOk result (self.new ≡ with_bytes self.old characters.now) }
        ensures seen { OnOk result (written self.new ≡ written self.old) }
    {
        put!(self.text, self.text.put_bytes(characters))
    }

    #[inline]
    fn put_indent(&mut self, count: usize) -> Result<(), AllocError>
        ensures bytes { OnOk result (self.new ≡ with_bytes self.old (replicate count 32)) }
        ensures seen { OnOk result (written self.new ≡ written self.old) }
    {
        put!(self.text, self.text.put_spaces(count))
    }

    #[inline(always)]
    fn put_indented_column(
        &mut self,
        indent: usize,
        name: &str,
        width: usize,
    ) -> Result<(), AllocError>
        requires { IsTrue (is_words name.now) }
        ensures bytes { OnOk result (self.new ≡ with_bytes self.old (replicate indent 32 ++ column width name.now)) }
        ensures seen { OnOk result (written self.new ≡ written self.old) }
    {
        put!(
            self.text,
            self.text.put_indented_column(indent, name, width)
        )
    }

    #[inline]
    fn put_decimal(&mut self, number: u64) -> Result<(), AllocError>
        ensures bytes { OnOk result (self.new ≡ with_bytes self.old (decimal number)) }
        ensures seen { OnOk result (written self.new ≡ written self.old) }
    {
        put!(self.text, self.text.put_decimal(number))
    }

    #[inline(always)]
    fn put_count(&mut self, number: u64, noun: &str) -> Result<(), AllocError>
        requires { IsTrue (is_words noun.now) }
        ensures bytes { OnOk result (self.new ≡ with_bytes self.old (count number noun.now)) }
        ensures seen { OnOk result (written self.new ≡ written self.old) }
    {
        put!(self.text, put_count(&mut self.text, number, noun))
    }

    #[inline]
    fn put_pair(&mut self, byte: u8) -> Result<(), AllocError>
        ensures bytes { OnOk result (self.new ≡ with_bytes self.old (encode_lower (byte ∷ []))) }
        ensures seen { OnOk result (written self.new ≡ written self.old) }
    {
        put!(self.text, self.text.put_pair(byte))
    }

    #[inline]
    fn put_byte_code(&mut self, code: u8) -> Result<(), AllocError>
        ensures bytes { OnOk result (self.new ≡ with_bytes self.old (byte_code code)) }
        ensures seen { OnOk result (written self.new ≡ written self.old) }
    {
        put!(self.text, put_byte_code(&mut self.text, code))
    }

    #[inline]
    fn begin_byte_meaning(&mut self, code: u8) -> Result<(), AllocError>
        ensures bytes { OnOk result (self.new ≡ with_bytes self.old (byte_code code ++ codes " (")) }
        ensures seen { OnOk result (written self.new ≡ written self.old) }
    {
        put!(self.text, begin_byte_meaning(&mut self.text, code))
    }

    #[inline]
    fn put_word_code(&mut self, code: u16) -> Result<(), AllocError>
        ensures bytes { OnOk result (self.new ≡ with_bytes self.old (word_code code)) }
        ensures seen { OnOk result (written self.new ≡ written self.old) }
    {
        put!(self.text, put_word_code(&mut self.text, code))
    }

    #[inline]
    fn begin_word_meaning(&mut self, code: u16) -> Result<(), AllocError>
        ensures bytes { OnOk result (self.new ≡ with_bytes self.old (word_code code ++ codes " (")) }
        ensures seen { OnOk result (written self.new ≡ written self.old) }
    {
        put!(self.text, begin_word_meaning(&mut self.text, code))
    }

    #[inline(always)]
    fn put_release(&mut self, number: u16) -> Result<(), AllocError>
        ensures bytes { OnOk result (self.new ≡ with_bytes self.old (release number)) }
        ensures seen { OnOk result (written self.new ≡ written self.old) }
    {
        put!(self.text, put_release(&mut self.text, number))
    }

    #[inline]
    fn put_digits(&mut self, bytes: &[u8]) -> Result<(), AllocError>
        ensures bytes { OnOk result (self.new ≡ with_bytes self.old (encode_lower bytes.now)) }
        ensures seen { OnOk result (written self.new ≡ written self.old) }
    {
        known_bytes(bytes);
        put!(self.text, self.text.put_digits(bytes))
    }

    #[inline]
    #[tactic(auto, using(crate::proofs::UnitWords::units_fit, crate::proofs::UnitWords::units_count))]
    fn put_units(&mut self, units: &[u16]) -> Result<(), AllocError>
        ensures bytes { OnOk result (self.new ≡ with_bytes self.old (units_words self.old.utf8 units.now)) }
        ensures seen { OnOk result (written self.new ≡ written self.old) }
    {
        known_units(units);
        put!(self.text, put_units(&mut self.text, self.utf8, units))
    }

    #[inline]
    #[tactic(auto, using(crate::proofs::UnitWords::units_fit, crate::proofs::UnitWords::units_count, crate::proofs::UnitWords::units_of_bytes))]
    fn put_units_in(&mut self, bytes: &[u8]) -> Result<(), AllocError>
        ensures bytes { OnOk result (self.new ≡ with_bytes self.old (units_words self.old.utf8 (units_in bytes.now))) }
        ensures seen { OnOk result (written self.new ≡ written self.old) }
    {
        known_bytes(bytes);
        put!(self.text, put_units_in(&mut self.text, self.utf8, bytes))
    }

    #[inline(always)]
    fn end_line(&mut self) -> Result<(), AllocError>
        ensures bytes { OnOk result (self.new ≡ with_bytes self.old (10 ∷ [])) }
        ensures seen { OnOk result (written self.new ≡ more_lines 1 (written self.old)) }
    {
        put!(self.text, self.text.put_character(b'\n'))
    }
}

/// Whether nothing is behind the last line feed.
#[tactic(auto, using(crate::proofs::WrittenLines::whole_at))]
fn is_whole(bytes: &[u8]) -> bool
    ensures { result ≡ is_whole bytes.now }
{
    match bytes {
        [] => true,
        [.., last] => *last == b'\n',
    }
}

/// The bytes up to the last line feed.
#[tactic(auto, using(crate::proofs::WrittenLines::begun_whole))]
fn ended_lines(bytes: &[u8]) -> &[u8]
    ensures { EndedLines bytes.now result.now }
{
    let mut rest = bytes;
    while let [front @ .., last] = rest {
        if *last == b'\n' {
            break;
        }
        rest = front;
    }
    rest
}

/// The elements of a slice of units have 16 bits: a fact for proofs. Does nothing when it runs.
fn known_units(units: &[u16])
    ensures { AreUnits units.now }
{}
