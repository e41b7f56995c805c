//! Where a read leads to.
ghost use Rattle.std.specs.Prelude.{◌≡◌, ◌<◌, ◌≤◌, ◌*◌, IfOk, OnErr, length, true};
ghost use Rattle.usb_host.specs.Order.{after_sets as place_after_sets, bytes_lead, declared_sets, done_leads, is_of_strings, refused_leads, set_leads, sets_of, sets_due as set_due_at, stand_in as stand_in_at, strings_due as strings_due_at, texts_due as text_due_at};
ghost use Rattle.usb_host.specs.inside.Places.{LeadsTo, LeavesDraft, OrMemory, kept_of, place_of};
ghost use Rattle.usb_host.specs.inside.Sound.{IsGood};
ghost use Rattle.usb_host.specs.Steps.{completed_leads, read_leads};
ghost use Rattle.usb_host.specs.declared.why.Why.TheVariants.{Stalled};
ghost use Rattle.usb_host.specs.Transfer.{Completes, Fails};
ghost use Rattle.usb_host.specs.declared.draft.Draft.{Draft as DraftView};
ghost use Rattle.usb_host.specs.Place.{First, Device, Header, Set, Qualifier as SecondSpeed, Languages, Text};

use crate::choice::{NamedStrings, Terms};
use crate::draft::{
    Draft, add_set, count_declared, count_sets, is_first_zero, new_file, no_strings,
};
use crate::due::Due;
use crate::held::Held;
use crate::read::{
    begins_with, device_in, first_in, may_have_second, qualifier_in, total_in, units_in,
};
use crate::transfer::Transfer;
use crate::why::Why;
use std::alloc::Global;
use std::mem;
use usb_fields::{Sequence, descriptor_length};
use usb_file_data::{NoMemory, Other, Strings, named};
use usb_set::{Configuration, SetKind};

/// The language of a stand-in for a language list.
const ENGLISH: u16 = 0x0409;

/// The strings where they are asked for and an index is named, and else the configuration.
fn strings_due(alloc: Global, terms: Terms, draft: &mut Draft) -> Result<Due, NoMemory>
    ensures { IfOk result (λ due. place_of due draft.new ≡ strings_due_at terms draft.old.file) }
{
    if !terms.choice.strings.are_asked() {
        return Ok(Due::Configure);
    }
    let named = named(alloc, &draft.file)?;
    if named.is_empty() {
        return Ok(Due::Configure);
    }
    draft.named = Sequence::from_vec(named);
    Ok(Due::Languages)
}

/// What comes after all sets of a kind.
fn after_sets(
    alloc: Global,
    terms: Terms,
    kind: SetKind,
    draft: &mut Draft,
) -> Result<Due, NoMemory>
    ensures { IfOk result (λ due. place_of due draft.new ≡ place_after_sets terms kind draft.old.file) }
{
    match kind {
        SetKind::Configuration => {
            if terms.choice.other_speed && may_have_second(terms.speed, &draft.file.device) {
                Ok(Due::Qualifier)
            } else {
                strings_due(alloc, terms, draft)
            }
        }
        SetKind::OtherSpeed => strings_due(alloc, terms, draft),
    }
}

/// The next set of a kind, or what comes after them.
fn sets_due(alloc: Global, terms: Terms, kind: SetKind, draft: &mut Draft) -> Result<Due, NoMemory>
    ensures ok { IfOk result (λ due. place_of due draft.new ≡ set_due_at terms kind draft.old.file) }
    ensures err { OnErr result (declared_sets kind draft.old.file ≤ length (sets_of kind draft.old.file)) }
{
    if count_sets(kind, &draft.file) < usize::from(count_declared(kind, &draft.file)) {
        Ok(Due::Header { kind })
    } else {
        after_sets(alloc, terms, kind, draft)
    }
}

/// The next string, or the configuration once all are there.
#[inline(always)]
#[tactic(auto, using(crate::proofs::CostLemmas::few_texts))]
fn texts_due(alloc: Global, draft: &mut Draft) -> Due
    requires languages { length draft.old.strings.languages ≤ 126 }
    requires indices { length draft.old.named ≤ 255 }
    ensures { place_of result draft.new ≡ text_due_at draft.old.file draft.old.strings draft.old.named }
{
    if draft.strings.texts.len() < draft.strings.languages.len() * draft.named.len() {
        return Due::Text;
    }
    let strings = mem::replace(&mut draft.strings, no_strings(alloc));
    draft.file.strings = Some(strings);
    Due::Configure
}

/// What comes next, where memory was not wanting.
fn or_memory(due: Result<Due, NoMemory>) -> Result<Due, Why>
    ensures { OrMemory due result }
{
    match due {
        Ok(due) => Ok(due),
        Err(_) => Err(Why::Memory),
    }
}

/// After the first read.
fn read_first(terms: Terms, bytes: &[u8]) -> Result<Due, Why>
    ensures { (draft : DraftView) → LeadsTo terms.choice.strings Completes First (bytes_lead terms First bytes.now) draft result }
{
    match first_in(terms.speed, bytes) {
        Some(first) => Ok(Due::Address { first }),
        None => Err(Why::Malformed),
    }
}

/// After the device descriptor, which begins with the bytes that were read first and declares a configuration.
fn read_device(
    alloc: Global,
    terms: Terms,
    first: [u8; 8],
    bytes: &[u8],
    draft: &mut Draft,
) -> Result<Due, Why>
    ensures { LeadsTo terms.choice.strings Completes (Device first) (bytes_lead terms (Device first) bytes.now) draft.new result }
{
    let Some(device) = device_in(bytes) else {
        return Err(Why::Malformed);
    };
    if !begins_with(bytes, &first) || device.configurations == 0 {
        return Err(Why::Malformed);
    }
    draft.file = new_file(alloc, device);
    or_memory(sets_due(alloc, terms, SetKind::Configuration, draft))
}

/// After the first descriptor of a set.
fn read_header(terms: Terms, kind: SetKind, bytes: &[u8]) -> Result<Due, Why>
    ensures { (draft : DraftView) → LeadsTo terms.choice.strings Completes (Header kind draft.file) (bytes_lead terms (Header kind draft.file) bytes.now) draft result }
{
    match total_in(kind, bytes) {
        Some(total) => Ok(Due::Set { kind, total }),
        None => Err(Why::Malformed),
    }
}

/// After a set of this many bytes: as many as the wTotalLength that was read before, of its kind, and the first set can be
/// selected.
#[tactic(auto, using(crate::proofs::LeadLemmas::sets_go_on))]
fn read_set(
    alloc: Global,
    terms: Terms,
    kind: SetKind,
    total: u16,
    count: u16,
    set: Option<Configuration>,
    draft: &mut Draft,
) -> Result<Due, Why>
    ensures { LeadsTo terms.choice.strings Completes (Set kind draft.old.file total) (set_leads terms (Set kind draft.old.file total) kind draft.old.file total count set) draft.new result }
{
    let Some(set) = set else {
        return Err(Why::Malformed);
    };
    if count != total
        || set.kind.descriptor_type() != kind.descriptor_type()
        || is_first_zero(kind, &draft.file, &set)
    {
        return Err(Why::Malformed);
    }
    match add_set(&mut draft.file, kind, set) {
        Ok(()) => or_memory(sets_due(alloc, terms, kind, draft)),
        Err(_) => Err(Why::Memory),
    }
}

/// After the qualifier.
#[tactic(auto, using(crate::proofs::LeadLemmas::sets_go_on))]
fn read_qualifier(alloc: Global, terms: Terms, bytes: &[u8], draft: &mut Draft) -> Result<Due, Why>
    ensures { LeadsTo terms.choice.strings Completes (SecondSpeed draft.old.file) (bytes_lead terms (SecondSpeed draft.old.file) bytes.now) draft.new result }
{
    let Some(qualifier) = qualifier_in(bytes) else {
        return Err(Why::Malformed);
    };
    draft.file.other = Some(Other {
        qualifier,
        sets: Sequence::new(alloc),
    });
    or_memory(sets_due(alloc, terms, SetKind::OtherSpeed, draft))
}

/// After the language list, which has a language. One that has none is rejected before memory is asked for.
#[tactic(auto, using(crate::proofs::LeadLemmas::no_language, crate::proofs::LeadLemmas::some_language, crate::proofs::LeadLemmas::languages_go_on))]
fn read_languages(alloc: Global, terms: Terms, bytes: &[u8], draft: &mut Draft) -> Result<Due, Why>
    requires { length draft.old.named ≤ 255 }
    ensures leads { LeadsTo terms.choice.strings Completes (Languages draft.old.file draft.old.named) (bytes_lead terms (Languages draft.old.file draft.old.named) bytes.now) draft.new result }
    ensures leaves { LeavesDraft draft.old draft.new result }
{
    if bytes.len() <= usize::from(descriptor_length::HEAD) {
        return Err(Why::Malformed);
    }
    match units_in(alloc, bytes) {
        Ok(Some(languages)) => {
            let count = languages.len() * draft.named.len();
            let Ok(texts) = Vec::with_capacity(alloc, count) else {
                return Err(Why::Memory);
            };
            draft.strings = Strings {
                languages,
                texts: Sequence::from_vec(texts),
            };
            Ok(texts_due(alloc, draft))
        }
        Ok(None) => Err(Why::Malformed),
        Err(_) => Err(Why::Memory),
    }
}

/// After a string.
#[tactic(auto, using(crate::proofs::LeadLemmas::text_goes_on))]
fn read_text(alloc: Global, terms: Terms, bytes: &[u8], draft: &mut Draft) -> Result<Due, Why>
    requires languages { length draft.old.strings.languages ≤ 126 }
    requires indices { length draft.old.named ≤ 255 }
    ensures leads { LeadsTo terms.choice.strings Completes (Text draft.old.file draft.old.strings draft.old.named) (bytes_lead terms (Text draft.old.file draft.old.strings draft.old.named) bytes.now) draft.new result }
    ensures leaves { LeavesDraft draft.old draft.new result }
{
    match units_in(alloc, bytes) {
        Ok(Some(units)) => match draft.strings.texts.push(units) {
            Ok(()) => Ok(texts_due(alloc, draft)),
            Err(_) => Err(Why::Memory),
        },
        Ok(None) => Err(Why::Malformed),
        Err(_) => Err(Why::Memory),
    }
}

/// What comes next after a read of this many bytes, or why it is rejected.
fn lead_read(
    alloc: Global,
    terms: Terms,
    due: Due,
    draft: &mut Draft,
    count: u16,
    held: &mut Held,
) -> Result<Due, Why>
    requires { IsGood (place_of due draft.old) }
    ensures leads { LeadsTo terms.choice.strings Completes (place_of due draft.old) (read_leads terms (place_of due draft.old) count (kept_of due held.old)) draft.new result }
    ensures leaves { is_of_strings (place_of due draft.old) ≡ true → LeavesDraft draft.old draft.new result }
{
    match due {
        Due::First => read_first(terms, held.bytes.as_slice()),
        Due::Device { first } => read_device(alloc, terms, first, held.bytes.as_slice(), draft),
        Due::Header { kind } => read_header(terms, kind, held.bytes.as_slice()),
        Due::Set { kind, total } => {
            let set = held.take_set(alloc);
            read_set(alloc, terms, kind, total, count, set, draft)
        }
        Due::Qualifier => read_qualifier(alloc, terms, held.bytes.as_slice(), draft),
        Due::Languages => read_languages(alloc, terms, held.bytes.as_slice(), draft),
        Due::Text => read_text(alloc, terms, held.bytes.as_slice(), draft),
        Due::Address { .. } | Due::Configure | Due::Reported | Due::Stopped { .. } => Err(
            Why::Malformed,
        ),
    }
}

/// What follows a completed request without data.
fn lead_done(due: Due) -> Result<Due, Why>
    ensures leads { (texts : NamedStrings) (draft : DraftView) → LeadsTo texts Completes (place_of due draft) (done_leads (place_of due draft)) draft result }
    ensures leaves { (draft : DraftView) → is_of_strings (place_of due draft) ≡ true → LeavesDraft draft draft result }
{
    match due {
        Due::Address { first } => Ok(Due::Device { first }),
        Due::Configure => Ok(Due::Reported),
        _ => Err(Why::Malformed),
    }
}

/// Where a request leads to that was refused: a device without a second speed refuses to give a qualifier. Or the end
/// when out of memory.
#[tactic(auto, using(crate::proofs::LeadLemmas::strings_go_on))]
pub(crate) fn lead_refused(
    alloc: Global,
    terms: Terms,
    due: Due,
    draft: &mut Draft,
) -> Result<Due, Why>
    ensures leads { LeadsTo terms.choice.strings (Fails Stalled) (place_of due draft.old) (refused_leads terms (place_of due draft.old)) draft.new result }
    ensures leaves { is_of_strings (place_of due draft.old) ≡ true → LeavesDraft draft.old draft.new result }
{
    match due {
        Due::Qualifier => or_memory(strings_due(alloc, terms, draft)),
        _ => Err(Why::Stalled),
    }
}

/// Where a transfer leads to that has completed, or why it is rejected. What was kept is of no more use.
pub(crate) fn lead_completed(
    alloc: Global,
    terms: Terms,
    due: Due,
    draft: &mut Draft,
    transfer: &Transfer,
    held: &mut Held,
) -> Result<Due, Why>
    requires { IsGood (place_of due draft.old) }
    ensures leads { LeadsTo terms.choice.strings Completes (place_of due draft.old) (completed_leads terms (place_of due draft.old) transfer.now (kept_of due held.old)) draft.new result }
    ensures leaves { is_of_strings (place_of due draft.old) ≡ true → LeavesDraft draft.old draft.new result }
{
    if transfer.request().length == 0 {
        return lead_done(due);
    }
    lead_read(alloc, terms, due, draft, transfer.kept(), held)
}

/// What comes next after a stand-in for what a read of strings was to bring: a language list of English (United States) alone,
/// or an empty string.
pub(crate) fn stand_in(alloc: Global, due: Due, draft: &mut Draft) -> Result<Due, NoMemory>
    requires { IsGood (place_of due draft.old) }
    ensures { IfOk result (λ next. place_of next draft.new ≡ stand_in_at (place_of due draft.old)) }
{
    match due {
        Due::Languages => {
            let mut languages = Sequence::new(alloc);
            if languages.push(ENGLISH).is_err() {
                return Err(NoMemory);
            }
            let texts = Sequence::new(alloc);
            draft.strings = Strings { languages, texts };
            Ok(texts_due(alloc, draft))
        }
        Due::Text => match draft.strings.texts.push(Sequence::new(alloc)) {
            Ok(()) => Ok(texts_due(alloc, draft)),
            Err(_) => Err(NoMemory),
        },
        other => Ok(other),
    }
}
