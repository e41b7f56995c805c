//! Where a line is allowed.
ghost use Rattle.std.specs.Prelude.{◌≡◌, ◌==◌, None, Some, length, not};
ghost use Rattle.usb_file_data.specs.File.{named_indices};
ghost use Rattle.usb_listing.specs.inside.Growing.{declared, has_interface, last_of, may_follow, may_follow_sets, may_stand, open_sets};
ghost use Rattle.usb_listing.specs.inside.Drafts.{AreHeld, Holds, so_far};

use crate::draft::Draft;
use crate::word::Word;
use usb_file_data::{DescriptorFile, Other, count_named};
use usb_set::Configuration;

/// Whether a line with this word may come next.
pub(crate) fn may_stand(draft: &Option<Draft>, word: Word) -> bool
    requires { AreHeld draft.now }
    ensures { result ≡ may_stand (so_far draft.now) word }
{
    match draft {
        None => matches!(word, Word::Device),
        Some(draft) => may_follow(draft, word),
    }
}

/// Whether a line with this word may follow.
fn may_follow(draft: &Draft, word: Word) -> bool
    requires { Holds draft.now }
    ensures { result ≡ may_follow word draft.now.file draft.now.file.strings }
{
    match &draft.file.strings {
        Some(strings) => matches!(word, Word::String) && strings.texts.len() < draft.total,
        None => may_follow_sets(&draft.file, &draft.file.other, word),
    }
}

/// The sets of the speed that the last lines are of.
fn open_sets<'f>(f: &'f DescriptorFile, other: &'f Option<Other>) -> &'f [Configuration]
    ensures { result.now ≡ open_sets f.now other.now }
{
    match other {
        None => &f.sets,
        Some(other) => &other.sets,
    }
}

/// How many sets are declared of that speed.
fn declared(f: &DescriptorFile, other: &Option<Other>) -> usize
    ensures { result ≡ declared f.now other.now }
{
    match other {
        None => usize::from(f.device.configurations),
        Some(other) => usize::from(other.qualifier.configurations),
    }
}

/// Where no line of strings is there yet.
fn may_follow_sets(f: &DescriptorFile, other: &Option<Other>, word: Word) -> bool
    ensures { result ≡ may_follow_sets word f.now other.now }
{
    let sets = open_sets(f, other);
    let declared = declared(f, other);
    match word {
        Word::Device | Word::String => false,
        Word::Configuration => other.is_none() && sets.len() < declared,
        Word::OtherSpeed => other.is_some() && sets.len() < declared,
        Word::Interface | Word::Extra(_) => !sets.is_empty(),
        Word::Endpoint => has_interface(sets),
        Word::Qualifier => other.is_none() && sets.len() == declared,
        Word::Languages => sets.len() == declared && names_a_string(f),
    }
}

/// Whether the last of the sets has an interface.
#[tactic(auto, using(crate::proofs::DraftLemmas::last_at, crate::proofs::DraftLemmas::last_none))]
fn has_interface(sets: &[Configuration]) -> bool
    ensures { result ≡ has_interface (last_of sets.now) }
{
    let count = sets.len();
    if count == 0 {
        return false;
    }
    !sets[count - 1].settings.is_empty()
}

/// Whether the file names a string. Most do so in the device descriptor, and then no set is looked at.
#[tactic(auto, using(crate::proofs::NamedLemmas::product_named))]
fn names_a_string(f: &DescriptorFile) -> bool
    ensures { result ≡ not (length (named_indices f.now) == 0) }
{
    let product = f.device.product_text;
    if product != 0 {
        return true;
    }
    count_named(f) != 0
}
