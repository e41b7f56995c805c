//! A file so far, and the next line.
ghost use Rattle.std.specs.Prelude.{◌≡◌, ◌++◌, IfErr, IfOk, None, OnOk, Some, length, true};
ghost use Rattle.usb_listing.specs.Says.{IsItem, fields, is_typed_raw};
ghost use Rattle.usb_listing.specs.inside.Drafts.{AreHeld, Drafted, IsJudged, IsMisplaced, Stops, so_far};
ghost use Rattle.usb_listing.specs.Words.{first_word};
ghost use Rattle.usb_listing.specs.inside.Rows.{word_in, item_in, says_fields};
ghost use Rattle.usb_listing.specs.inside.Growing.{may_stand};
ghost use Rattle.usb_listing.specs.inside.Walking.{add, add_item, add_line};
ghost use Rattle.usb_listing.specs.declared.word.Word.TheVariants as words;

use crate::draft::{Draft, add_described, add_languages, add_string, begin};
use crate::fault::ListWhy;
use crate::order::may_stand;
use crate::row::{read_fields, read_languages, read_string};
use crate::word::{ExtraWord, Word, read_word};
use std::alloc::Global;
use usb_set::is_typed;

/// Whether it is a raw descriptor of a type that a set gives a meaning.
fn is_typed_raw(word: Word, bytes: &[u8]) -> bool
    ensures { result ≡ is_typed_raw word bytes.now }
{
    match word {
        Word::Extra(ExtraWord::Raw) => match bytes {
            [_, kind, ..] => is_typed(*kind),
            _ => false,
        },
        _ => false,
    }
}

/// Adds a descriptor that may come next, whose line says its fields.
fn add_next(
    alloc: Global,
    draft: &mut Option<Draft>,
    word: Word,
    bytes: &[u8],
) -> Result<(), ListWhy>
    requires holds { AreHeld draft.old }
    requires item { IsItem (fields word bytes.now) }
    requires may { may_stand (so_far draft.old) word ≡ true }
    ensures ok { OnOk result (Drafted (add (so_far draft.old) (fields word bytes.now)) draft.new) }
    ensures err { IfErr result (λ why. Stops (add (so_far draft.old) (fields word bytes.now)) why) }
{
    match draft {
        Some(draft) => add_described(alloc, draft, word, bytes),
        None => {
            *draft = Some(begin(alloc, bytes));
            Ok(())
        }
    }
}

/// Reads a line whose word may come next, and says fields. The buffer is room for the bytes of its descriptor.
#[inline(always)]
fn read_described(
    alloc: Global,
    draft: &mut Option<Draft>,
    word: Word,
    text: &[u8],
    buffer: &mut [u8; 255],
) -> Result<(), ListWhy>
    requires holds { AreHeld draft.old }
    requires may { may_stand (so_far draft.old) word ≡ true }
    requires word { says_fields word ≡ true }
    ensures ok { OnOk result (Drafted (add_item (so_far draft.old) (item_in word text.now)) draft.new) }
    ensures err { IfErr result (λ why. Stops (add_item (so_far draft.old) (item_in word text.now)) why) }
    ensures room { length buffer.new ≡ 255 }
{
    let Some(end) = read_fields(word, text, buffer) else {
        return Err(ListWhy::Field);
    };
    let bytes = &buffer[..end];
    if is_typed_raw(word, bytes) {
        return Err(ListWhy::Field);
    }
    add_next(alloc, draft, word, bytes)
}

/// Reads a language list that may come next.
fn read_languages_into(alloc: Global, draft: &mut Option<Draft>, text: &[u8]) -> Result<(), ListWhy>
    requires holds { AreHeld draft.old }
    requires may { may_stand (so_far draft.old) words.Languages ≡ true }
    ensures ok { OnOk result (Drafted (add_item (so_far draft.old) (item_in words.Languages text.now)) draft.new) }
    ensures err { IfErr result (λ why. Stops (add_item (so_far draft.old) (item_in words.Languages text.now)) why) }
{
    let Some(draft) = draft else { unreachable!() };
    match read_languages(alloc, text) {
        Ok(Some(languages)) => {
            add_languages(alloc, draft, languages);
            Ok(())
        }
        Ok(None) => Err(ListWhy::Field),
        Err(_) => Err(ListWhy::Memory),
    }
}

/// Reads a string that may come next.
fn read_string_into(alloc: Global, draft: &mut Option<Draft>, text: &[u8]) -> Result<(), ListWhy>
    requires holds { AreHeld draft.old }
    requires may { may_stand (so_far draft.old) words.String ≡ true }
    ensures ok { OnOk result (Drafted (add_item (so_far draft.old) (item_in words.String text.now)) draft.new) }
    ensures err { IfErr result (λ why. Stops (add_item (so_far draft.old) (item_in words.String text.now)) why) }
{
    let Some(draft) = draft else { unreachable!() };
    match read_string(alloc, text) {
        Ok(Some(units)) => match add_string(draft, units) {
            Ok(()) => Ok(()),
            Err(_) => Err(ListWhy::Memory),
        },
        Ok(None) => Err(ListWhy::Field),
        Err(_) => Err(ListWhy::Memory),
    }
}

/// Reads the text after a word that may come next.
fn read_behind(
    alloc: Global,
    draft: &mut Option<Draft>,
    word: Word,
    text: &[u8],
    buffer: &mut [u8; 255],
) -> Result<(), ListWhy>
    requires holds { AreHeld draft.old }
    requires may { may_stand (so_far draft.old) word ≡ true }
    ensures ok { OnOk result (Drafted (add_item (so_far draft.old) (item_in word text.now)) draft.new) }
    ensures err { IfErr result (λ why. Stops (add_item (so_far draft.old) (item_in word text.now)) why) }
    ensures room { length buffer.new ≡ 255 }
{
    match word {
        Word::Languages => read_languages_into(alloc, draft, text),
        Word::String => read_string_into(alloc, draft, text),
        _ => read_described(alloc, draft, word, text, buffer),
    }
}

/// The line's first word, where it may come next, and what is after it.
fn placed_word<'l>(draft: &Option<Draft>, line: &'l [u8]) -> Result<(Word, &'l [u8]), ListWhy>
    requires { AreHeld draft.now }
    ensures word { IfOk result (λ p. word_in (first_word line.now) ≡ Some p.0) }
    ensures parts { IfOk result (λ p. line.now ≡ first_word line.now ++ p.1.now) }
    ensures may { IfOk result (λ p. may_stand (so_far draft.now) p.0 ≡ true) }
    ensures err { IfErr result (λ why. IsMisplaced (so_far draft.now) (word_in (first_word line.now)) why) }
{
    let Some((word, text)) = read_word(line) else {
        return Err(ListWhy::Word);
    };
    if may_stand(draft, word) {
        Ok((word, text))
    } else {
        Err(ListWhy::Place)
    }
}

/// Reads the next line into the draft. Memory is wanting only of a line whose word may stand there. The buffer is room for
/// the bytes of a descriptor, handed on from line to line so that it is filled with zeros once.
pub(crate) fn step(
    alloc: Global,
    draft: &mut Option<Draft>,
    line: &[u8],
    buffer: &mut [u8; 255],
) -> Result<(), ListWhy>
    requires { AreHeld draft.old }
    ensures ok { OnOk result (Drafted (add_line (so_far draft.old) line.now) draft.new) }
    ensures err { IfErr result (λ why. Stops (add_line (so_far draft.old) line.now) why) }
    ensures judged { IfErr result (λ why. IsJudged (so_far draft.old) line.now why) }
    ensures room { length buffer.new ≡ 255 }
{
    match placed_word(draft, line) {
        Ok((word, text)) => read_behind(alloc, draft, word, text, buffer),
        Err(why) => Err(why),
    }
}
