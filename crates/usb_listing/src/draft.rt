//! A file that grows by a descriptor.
ghost use Rattle.std.specs.Prelude.{is_some, ◌<◌, ◌≤◌, ◌+◌, ◌≡◌, ◌++◌, ◌∷◌, [], IfErr, IfOk, None, OnOk, Some, length, true};
ghost use Rattle.usb_set.specs.inside.Reading.{configuration_of, with_last};
ghost use Rattle.usb_listing.specs.Says.{IsItem, fields, languages, string};
ghost use Rattle.usb_listing.specs.inside.Drafts.{Fits, Holds, IsDraft, IsFirst, Joins, JoinsLast, Refuses, work_with};
ghost use Rattle.usb_listing.specs.inside.Growing.{begun, file_and, joined_to, may_follow, open_sets, qualifier_of, set_and, with_sets, with_string};
ghost use Rattle.usb_listing.specs.inside.Walking.{file_of};
ghost use Rattle.usb_listing.specs.declared.word.Word.TheVariants as words;

use crate::fault::ListWhy;
use crate::word::Word;
use std::alloc::{AllocError, Global};
use usb_fields::{DeviceDescriptor, Qualifier, known_bytes};
use usb_file_data::{DescriptorFile, Other, Strings, count_named};
use usb_set::{Configuration, Sequence, add_descriptor, begin_set};

/// The file so far, with the counts by which its next line is judged.
#[derive(Drop)]
pub(crate) struct Draft {
    pub(crate) file: DescriptorFile,
    /// How many bytes the last set has, or 0 where its part has none.
    pub(crate) work: usize,
    /// How many strings the file has in all, where its languages are there.
    pub(crate) total: usize,
}

/// The most bytes of a set (USB 2.0, 9.6.3).
const LONGEST: usize = 65_535;

/// The draft that a device descriptor begins.
#[tactic(auto, using(crate::proofs::CountLemmas::first_draft, crate::proofs::CountLemmas::device_fine))]
pub(crate) fn begin(alloc: Global, bytes: &[u8]) -> Draft
    requires { IsItem (fields words.Device bytes.now) }
    ensures { IsDraft (file_of bytes.now) result }
{
    let Ok(device) = DeviceDescriptor::read(bytes) else {
        unreachable!()
    };
    Draft {
        file: DescriptorFile {
            device,
            sets: Sequence::new(alloc),
            other: None,
            strings: None,
        },
        work: 0,
        total: 0,
    }
}

/// The set that a first descriptor begins.
#[tactic(auto, using(crate::proofs::CountLemmas::first_is))]
fn first_set(alloc: Global, bytes: &[u8]) -> Result<Configuration, AllocError>
    requires { IsFirst bytes.now }
    ensures { IfOk result (λ c. c ≡ configuration_of bytes.now) }
{
    known_bytes(bytes);
    begin_set(alloc, bytes)
}

pub(crate) fn push_set(f: &mut DescriptorFile, c: Configuration) -> Result<(), AllocError>
    ensures { OnOk result (f.new ≡ with_sets (open_sets f.old f.old.other ++ c ∷ []) f.old f.old.other) }
{
    match &mut f.other {
        None => f.sets.push(c)?,
        Some(other) => other.sets.push(c)?,
    }
    Ok(())
}

/// Adds the set that a first descriptor begins.
fn add_set(alloc: Global, f: &mut DescriptorFile, bytes: &[u8]) -> Result<(), AllocError>
    requires { IsFirst bytes.now }
    ensures { OnOk result (f.new ≡ begun bytes.now f.old) }
{
    let set = first_set(alloc, bytes)?;
    push_set(f, set)
}

/// Adds a descriptor to a set.
#[tactic(auto, using(crate::proofs::CountLemmas::joined_is))]
fn add_to_set(alloc: Global, c: &mut Configuration, bytes: &[u8]) -> Result<(), AllocError>
    requires { Joins bytes.now c.old }
    ensures { OnOk result (c.new ≡ set_and bytes.now c.old) }
{
    known_bytes(bytes);
    add_descriptor(alloc, c, bytes)
}

/// Adds a descriptor to the last of the sets.
#[tactic(auto, using(usb_set::proofs::Last::with_last_is, crate::proofs::DraftLemmas::joins_some, crate::proofs::DraftLemmas::joins_at))]
fn add_to_last(
    alloc: Global,
    sets: &mut Sequence<Configuration>,
    bytes: &[u8],
) -> Result<(), AllocError>
    requires { JoinsLast bytes.now sets.old }
    ensures { OnOk result (sets.new ≡ with_last (set_and bytes.now) sets.old) }
{
    let last = sets.len() - 1;
    add_to_set(alloc, sets.at_mut(last), bytes)
}

/// Adds a descriptor to the last set of the speed that the last lines are of.
fn add_inner(alloc: Global, f: &mut DescriptorFile, bytes: &[u8]) -> Result<(), AllocError>
    requires { JoinsLast bytes.now (open_sets f.old f.old.other) }
    ensures { OnOk result (f.new ≡ joined_to bytes.now f.old) }
{
    match &mut f.other {
        None => add_to_last(alloc, &mut f.sets, bytes),
        Some(other) => add_to_last(alloc, &mut other.sets, bytes),
    }
}

/// Adds the qualifier.
#[tactic(auto, using(crate::proofs::CountLemmas::qualifier_is, crate::proofs::CountLemmas::qualifier_fine))]
fn add_qualifier(alloc: Global, f: &mut DescriptorFile, bytes: &[u8])
    requires { IsItem (fields words.Qualifier bytes.now) }
    ensures { f.new ≡ record f.old { other = Some (record { qualifier = qualifier_of bytes.now; sets = [] }) } }
{
    let Ok(qualifier) = Qualifier::read(bytes) else {
        unreachable!()
    };
    f.other = Some(Other {
        qualifier,
        sets: Sequence::new(alloc),
    });
}

/// Adds a descriptor whose line says its fields to the file.
#[tactic(auto, unfolding(crate::specs::inside::Growing::file_and))]
fn add_fields(
    alloc: Global,
    f: &mut DescriptorFile,
    word: Word,
    bytes: &[u8],
) -> Result<(), AllocError>
    requires { Fits word bytes.now f.old }
    ensures { OnOk result (f.new ≡ file_and (fields word bytes.now) f.old) }
{
    match word {
        Word::Configuration | Word::OtherSpeed => add_set(alloc, f, bytes),
        Word::Interface | Word::Endpoint | Word::Extra(_) => add_inner(alloc, f, bytes),
        Word::Qualifier => {
            add_qualifier(alloc, f, bytes);
            Ok(())
        }
        Word::Device | Word::Languages | Word::String => unreachable!(),
    }
}

/// How many bytes the last set has with a descriptor of this word, of `length` bytes.
fn work_with(work: usize, word: Word, length: usize) -> usize
    requires work { work ≤ 65535 }
    requires length { length ≤ 255 }
    ensures { result ≡ work_with work word length }
{
    match word {
        Word::Configuration | Word::OtherSpeed => length,
        Word::Interface | Word::Endpoint | Word::Extra(_) => work + length,
        Word::Device | Word::Qualifier | Word::Languages | Word::String => 0,
    }
}

/// Adds a descriptor that may follow, whose line says its fields.
#[inline(always)]
#[tactic(auto, using(crate::proofs::CountLemmas::described_draft, crate::proofs::CountLemmas::described_over, crate::proofs::CountLemmas::fits, crate::proofs::CountLemmas::draft_short, crate::proofs::SaysLemmas::few_bytes))]
pub(crate) fn add_described(
    alloc: Global,
    draft: &mut Draft,
    word: Word,
    bytes: &[u8],
) -> Result<(), ListWhy>
    requires holds { Holds draft.old }
    requires item { IsItem (fields word bytes.now) }
    requires may { may_follow word draft.old.file draft.old.file.strings ≡ true }
    ensures ok { OnOk result (IsDraft (file_and (fields word bytes.now) draft.old.file) draft.new) }
    ensures err { IfErr result (λ why. Refuses (file_and (fields word bytes.now) draft.old.file) why) }
{
    let work = work_with(draft.work, word, bytes.len());
    if work > LONGEST {
        return Err(ListWhy::TooLong);
    }
    match add_fields(alloc, &mut draft.file, word, bytes) {
        Ok(()) => {
            draft.work = work;
            Ok(())
        }
        Err(_) => Err(ListWhy::Memory),
    }
}

/// Adds a language list that may follow.
#[tactic(auto, using(crate::proofs::CountLemmas::languages_draft, crate::proofs::CountLemmas::few_languages))]
pub(crate) fn add_languages(alloc: Global, draft: &mut Draft, codes: Sequence<u16>)
    requires holds { Holds draft.old }
    requires item { IsItem (languages codes) }
    requires may { may_follow words.Languages draft.old.file draft.old.file.strings ≡ true }
    ensures { IsDraft (file_and (languages codes) draft.old.file) draft.new }
{
    draft.total = codes.len() * count_named(&draft.file);
    draft.file.strings = Some(Strings {
        languages: codes,
        texts: Sequence::new(alloc),
    });
}

/// Adds a string after the others.
fn push_string(f: &mut DescriptorFile, units: Sequence<u16>) -> Result<(), AllocError>
    requires { is_some f.old.strings ≡ true }
    ensures { OnOk result (f.new ≡ with_string units f.old f.old.strings) }
{
    match &mut f.strings {
        None => unreachable!(),
        Some(strings) => {
            strings.texts.push(units)?;
            Ok(())
        }
    }
}

/// Adds a string that may follow.
#[tactic(auto, using(crate::proofs::CountLemmas::string_draft, crate::proofs::CountLemmas::string_some))]
pub(crate) fn add_string(draft: &mut Draft, units: Sequence<u16>) -> Result<(), AllocError>
    requires holds { Holds draft.old }
    requires item { IsItem (string units) }
    requires may { may_follow words.String draft.old.file draft.old.file.strings ≡ true }
    ensures { OnOk result (IsDraft (file_and (string units) draft.old.file) draft.new) }
{
    push_string(&mut draft.file, units)
}
