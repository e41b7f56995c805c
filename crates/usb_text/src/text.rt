//! A text that grows at its end.
ghost use Rattle.std.specs.Prelude.{◌≡◌, ◌≤◌, ◌+◌, ◌-◌, ◌*◌, ◌<◌, [], ◌∷◌, ◌++◌, drop, length, replicate, take, ◌==◌, IfOk, IfSome, OnOk};
ghost use Rattle.std.specs.Fmt.{decimal};
ghost use Rattle.usb_text.specs.Lines.{column, filling};
ghost use Rattle.hex.specs.Hex.{encode_lower};

use crate::digits::{decimals_of, digits_of, write_digits};
use itoa::Buffer;
use std::alloc::{AllocError, Global};
use std::marker::Model;

/// As many spaces as the start of a line has.
const SPACES: [u8; 48] = [b' '; 48];

/// Room is made for this many bytes at least, and for as many as there are up to the most.
const ROOM: usize = 512;

const MOST_ROOM: usize = 8 * 1024;

/// A text that grows at its end. In a contract it is its bytes.
///
/// ```rust
/// let mut text = Text::new(alloc);
/// text.put("endpoint ")?;
/// text.put_decimal(2)?;
/// assert_eq!(rt; text.as_bytes(), b"endpoint 2");
/// ```
#[derive(Debug, Drop)]
pub struct Text {
    /// Its bytes, and room behind them: to write there costs less than to make a `Vec` longer each time.
    bytes: Vec<u8>,
    /// How many of them are its own.
    used: usize,
}

impl Model for Text {
    ghost use Rattle.std.specs.Prelude.{ℕ, ◌≤◌, List, length, take};

    ghost Value = { List ℕ };

    ghost view = { λ t. take t.used t.bytes.items };

    ghost invariant = { λ t. t.used ≤ length t.bytes.items };
}

impl Text {
    /// An empty text.
    pub fn new(alloc: Global) -> Text
        ensures { result ≡ [] }
    {
        Text {
            bytes: Vec::new(alloc),
            used: 0,
        }
    }

    /// An empty text with room for `room` bytes.
    ///
    /// # Errors
    ///
    /// Out of memory.
    pub fn with_capacity(alloc: Global, room: usize) -> Result<Text, AllocError>
        ensures { IfOk result (λ text. text ≡ []) }
    {
        Ok(Text {
            bytes: Vec::with_capacity(alloc, room)?,
            used: 0,
        })
    }

    /// Makes room for `count` bytes more, so that what is put next makes none.
    pub(crate) fn reserve(&mut self, count: usize) -> Result<(), AllocError>
        ensures { OnOk result (self.new ≡ self.old) }
    {
        make_room(&mut self.bytes, self.used, count)
    }

    /// Its bytes.
    pub fn as_bytes(&self) -> &[u8]
        ensures { result.now ≡ self.now }
    {
        &self.bytes[..self.used]
    }

    /// Its length in bytes.
    pub fn len(&self) -> usize
        ensures { result ≡ length self.now }
    {
        self.used
    }

    /// Whether it has no bytes.
    pub fn is_empty(&self) -> bool
        ensures { result ≡ (length self.now == 0) }
    {
        self.used == 0
    }

    /// Takes all away. The memory is kept for what is put next.
    pub fn clear(&mut self)
        ensures { self.new ≡ [] }
    {
        self.used = 0;
    }

    /// Puts words as they are.
    ///
    /// # Errors
    ///
    /// Out of memory, here as in all that puts something.
    #[inline(always)]
    pub fn put(&mut self, words: &str) -> Result<(), AllocError>
        ensures { OnOk result (self.new ≡ self.old ++ words.now) }
    {
        self.put_bytes(words.as_bytes())
    }

    /// Puts characters as they are, each of which is one byte.
    #[inline(always)]
    #[tactic(auto, using(crate::proofs::Columns::written_behind))]
    pub fn put_bytes(&mut self, characters: &[u8]) -> Result<(), AllocError>
        ensures { OnOk result (self.new ≡ self.old ++ characters.now) }
    {
        make_room(&mut self.bytes, self.used, characters.len())?;
        overwrite(&mut self.bytes, self.used, characters);
        self.used += characters.len();
        Ok(())
    }

    /// Puts a character, which is one byte.
    #[inline]
    #[tactic(auto, using(crate::proofs::Columns::character_behind))]
    pub fn put_character(&mut self, character: u8) -> Result<(), AllocError>
        ensures { OnOk result (self.new ≡ self.old ++ character ∷ []) }
    {
        make_room(&mut self.bytes, self.used, 1)?;
        self.bytes[self.used] = character;
        self.used += 1;
        Ok(())
    }

    /// Puts `count` spaces.
    #[inline]
    #[tactic(auto, using(crate::proofs::Columns::spaces_behind))]
    pub fn put_spaces(&mut self, count: usize) -> Result<(), AllocError>
        ensures { OnOk result (self.new ≡ self.old ++ replicate count 32) }
    {
        if count > SPACES.len() {
            return self.put_many_spaces(count);
        }
        // This many that their number is known costs less than as many as are wanted.
        make_room(&mut self.bytes, self.used, SPACES.len())?;
        overwrite(&mut self.bytes, self.used, &SPACES);
        self.used += count;
        Ok(())
    }

    /// The same of more than the start of a line has.
    #[inline(never)]
    fn put_many_spaces(&mut self, count: usize) -> Result<(), AllocError>
        ensures { OnOk result (self.new ≡ self.old ++ replicate count 32) }
    {
        let Some(end) = self.used.checked_add(count) else {
            return Err(AllocError);
        };
        self.bytes.truncate(self.used);
        self.bytes.resize(end, b' ')?;
        self.used = end;
        Ok(())
    }

    /// Puts a number in decimal digits.
    #[inline]
    #[tactic(auto, using(std::proofs::lemmas::Fmt::decimal_digit))]
    pub fn put_decimal(&mut self, number: u64) -> Result<(), AllocError>
        ensures { OnOk result (self.new ≡ self.old ++ decimal number) }
    {
        if number < 10 {
            return self.put_character(digit(number));
        }
        self.put_long_decimal(number)
    }

    /// The same of a number of more than one digit, apart so that one digit costs no call. One that is seldom put, or that there
    /// is no room for, is left to what makes room: so this calls nothing, and has nothing to keep.
    #[inline(never)]
    #[tactic(auto, using(crate::proofs::Columns::written_behind))]
    fn put_long_decimal(&mut self, number: u64) -> Result<(), AllocError>
        requires { 10 ≤ number }
        ensures { OnOk result (self.new ≡ self.old ++ decimal number) }
    {
        if number < 100_000 && self.bytes.len() - self.used >= 5 {
            self.used += overwrite_by_decimal(&mut self.bytes, self.used, number);
            return Ok(());
        }
        self.put_great_decimal(number)
    }

    #[inline(never)]
    fn put_great_decimal(&mut self, number: u64) -> Result<(), AllocError>
        ensures { OnOk result (self.new ≡ self.old ++ decimal number) }
    {
        self.put(Buffer::new().format(number))
    }

    /// Puts two lower-case hexadecimal digits for each byte.
    #[tactic(auto, using(crate::proofs::Columns::digits_behind))]
    pub fn put_digits(&mut self, bytes: &[u8]) -> Result<(), AllocError>
        ensures { OnOk result (self.new ≡ self.old ++ encode_lower bytes.now) }
    {
        let Some(count) = bytes.len().checked_mul(2) else {
            return Err(AllocError);
        };
        make_room(&mut self.bytes, self.used, count)?;
        overwrite_by_digits(&mut self.bytes, self.used, bytes);
        self.used += count;
        Ok(())
    }

    /// Puts two lower-case hexadecimal digits.
    #[inline]
    pub fn put_pair(&mut self, byte: u8) -> Result<(), AllocError>
        ensures { OnOk result (self.new ≡ self.old ++ encode_lower (byte ∷ [])) }
    {
        self.put_bytes(&digits_of(byte))
    }

    /// Puts words in a column of this width.
    ///
    /// ```rust
    /// text.put_column("> IN", 7)?;
    /// assert_eq!(rt; text.as_bytes(), b"> IN   ");
    /// ```
    pub fn put_column(&mut self, words: &str, width: usize) -> Result<(), AllocError>
        ensures { OnOk result (self.new ≡ self.old ++ column width words.now) }
    {
        self.put_indented_column(0, words, width)
    }

    /// Puts `indent` spaces, and words in a column of this width.
    ///
    /// ```rust
    /// text.put_indented_column(2, "> IN", 7)?;
    /// assert_eq!(rt; text.as_bytes(), b"  > IN   ");
    /// ```
    #[inline(always)]
    #[tactic(auto, using(crate::proofs::Columns::column_behind))]
    pub fn put_indented_column(
        &mut self,
        indent: usize,
        words: &str,
        width: usize,
    ) -> Result<(), AllocError>
        ensures { OnOk result (self.new ≡ self.old ++ replicate indent 32 ++ column width words.now) }
    {
        let Some(count) = indent.checked_add(width) else {
            return Err(AllocError);
        };
        if count > SPACES.len() || words.len() >= width {
            return self.put_long_column(indent, words, width);
        }
        make_room(&mut self.bytes, self.used, SPACES.len())?;
        overwrite(&mut self.bytes, self.used, &SPACES);
        overwrite(&mut self.bytes, self.used + indent, words.as_bytes());
        self.used += count;
        Ok(())
    }

    /// The same where the column is longer than the start of a line, or has no room for the words.
    #[inline(never)]
    fn put_long_column(
        &mut self,
        indent: usize,
        words: &str,
        width: usize,
    ) -> Result<(), AllocError>
        ensures { OnOk result (self.new ≡ self.old ++ replicate indent 32 ++ column width words.now) }
    {
        self.put_spaces(indent)?;
        let start = self.used;
        self.put(words)?;
        self.fill(start, width)
    }

    /// Fills the column of this width that begins at `start`: with spaces to the width, and with at least one.
    pub fn fill(&mut self, start: usize, width: usize) -> Result<(), AllocError>
        ensures { OnOk result (self.new ≡ self.old ++ filling width (length self.old - start)) }
    {
        let used = self.used.saturating_sub(start);
        self.put_spaces(width.saturating_sub(used).max(1))
    }
}

/// The digit of a number below ten.
fn digit(number: u64) -> u8
    requires { number < 10 }
    ensures { result ≡ 48 + number }
{
    b'0' + number as u8
}

/// Makes room for `count` bytes behind those that are used.
#[inline(always)]
#[tactic(auto, using(crate::proofs::Columns::still_used))]
fn make_room(bytes: &mut Vec<u8>, used: usize, count: usize) -> Result<(), AllocError>
    requires { used ≤ length bytes.old.items }
    ensures room { OnOk result (used + count ≤ length bytes.new.items) }
    ensures within { used ≤ length bytes.new.items }
    ensures same { take used bytes.new.items ≡ take used bytes.old.items }
{
    if count > bytes.len() - used {
        lengthen(bytes, count)
    } else {
        Ok(())
    }
}

/// Makes it longer by `count` bytes at least, apart since it is seldom called.
#[cold]
#[inline(never)]
fn lengthen(bytes: &mut Vec<u8>, count: usize) -> Result<(), AllocError>
    ensures longer { OnOk result (length bytes.old.items + count ≤ length bytes.new.items) }
    ensures same { take (length bytes.old.items) bytes.new.items ≡ bytes.old.items }
    ensures within { length bytes.old.items ≤ length bytes.new.items }
{
    let room = bytes.len().max(ROOM).min(MOST_ROOM);
    match bytes.len().checked_add(count.max(room)) {
        None => Err(AllocError),
        Some(length) => bytes.resize(length, b' '),
    }
}

/// Writes characters over those from `start` on.
fn overwrite(bytes: &mut Vec<u8>, start: usize, characters: &[u8])
    requires { start + length characters.now ≤ length bytes.old.items }
    ensures { bytes.new.items ≡ take start bytes.old.items ++ characters.now ++ drop (start + length characters.now) bytes.old.items }
{
    bytes.as_mut_slice()[start..start + characters.len()].copy_from_slice(characters);
}

/// Writes the digits of bytes over those from `start` on.
fn overwrite_by_digits(bytes: &mut Vec<u8>, start: usize, others: &[u8])
    requires { start + 2 * length others.now ≤ length bytes.old.items }
    ensures items { bytes.new.items ≡ take start bytes.old.items ++ encode_lower others.now ++ drop (start + 2 * length others.now) bytes.old.items }
    ensures length { length bytes.new.items ≡ length bytes.old.items }
{
    let end = start + 2 * others.len();
    write_digits(others, &mut bytes.as_mut_slice()[start..end]);
}

/// Writes a number of two to five digits over the bytes from `start` on. Answers how many digits it has.
#[inline(always)]
#[tactic(auto, using(crate::proofs::Decimals::a_pair, crate::proofs::Decimals::three_digits, crate::proofs::Decimals::four_digits, crate::proofs::Decimals::five_digits))]
fn overwrite_by_decimal(bytes: &mut Vec<u8>, start: usize, number: u64) -> usize
    requires least { 10 ≤ number }
    requires most { number < 100000 }
    requires room { start + 5 ≤ length bytes.old.items }
    ensures items { bytes.new.items ≡ take start bytes.old.items ++ decimal number ++ drop (start + length (decimal number)) bytes.old.items }
    ensures count { result ≡ length (decimal number) }
    ensures most { result ≤ 5 }
    ensures length { length bytes.new.items ≡ length bytes.old.items }
{
    let [tens, ones] = decimals_of(number % 100);
    if number < 100 {
        overwrite(bytes, start, &[tens, ones]);
        return 2;
    }
    if number < 1000 {
        overwrite(bytes, start, &[digit(number / 100), tens, ones]);
        return 3;
    }
    let [thousands, hundreds] = decimals_of(number / 100 % 100);
    if number < 10_000 {
        overwrite(bytes, start, &[thousands, hundreds, tens, ones]);
        return 4;
    }
    let first = digit(number / 10_000);
    overwrite(bytes, start, &[first, thousands, hundreds, tens, ones]);
    5
}
