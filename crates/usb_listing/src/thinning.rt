//! A set that is written, and let go: what a draft keeps of it.
ghost use Rattle.std.specs.Prelude.{◌≡◌, ◌==◌, ◌∷◌, ◌++◌, [], if◌then◌else◌, not, IfNone, IfOk, IfSome, OnOk, map};
ghost use Rattle.std.specs.List.{list_any};
ghost use Rattle.usb_listing.specs.inside.Growing.{open_sets};
ghost use Rattle.usb_listing.specs.inside.Thinning.{Thins, naming, with_open, without};

use crate::draft::push_set;
use std::alloc::{AllocError, Global};
use usb_file_data::{DescriptorFile, named};
use usb_set::{Configuration, Sequence, Setting};

/// Takes off the last set of the speed that the last lines are of, if there is one.
pub(crate) fn pop_set(f: &mut DescriptorFile) -> Option<Configuration>
    ensures some { IfSome result (λ c. f.old ≡ with_open c f.new) }
    ensures none { IfNone result ((f.new ≡ f.old) × (open_sets f.old f.old.other ≡ [])) }
{
    match &mut f.other {
        None => f.sets.pop(),
        Some(other) => other.sets.pop(),
    }
}

/// A setting that names a string, and says nothing else.
fn naming(alloc: Global, text: u8) -> Setting
    ensures { result ≡ naming text }
{
    Setting {
        number: 0,
        alternate: 0,
        declared_endpoints: 0,
        class: 0,
        subclass: 0,
        protocol: 0,
        text,
        tail: Sequence::new(alloc),
        extras: Sequence::new(alloc),
        endpoints: Sequence::new(alloc),
    }
}

/// Whether the index is one of these.
fn is_among(index: u8, others: &[u8]) -> bool
    ensures { result ≡ list_any (λ m. m == index) others.now }
{
    others.iter().any(|other| *other == index)
}

/// Adds a setting that names the string, unless something else names it.
fn push_naming(
    alloc: Global,
    settings: &mut Vec<Setting>,
    index: u8,
    is_named: bool,
) -> Result<(), AllocError>
    ensures { OnOk result (settings.new.items ≡ settings.old.items ++ (if not is_named then naming index ∷ [] else [])) }
{
    if !is_named {
        settings.push(naming(alloc, index))?;
    }
    Ok(())
}

/// A setting for each of the indices that is none of the others.
#[tactic(auto, using(crate::proofs::ThinLemmas::others_more))]
fn naming_others(alloc: Global, all: &[u8], others: &[u8]) -> Result<Sequence<Setting>, AllocError>
    ensures { IfOk result (λ settings. settings ≡ map naming (without all.now others.now)) }
{
    let mut settings = Vec::new(alloc);
    for index in all {
        let is_named = is_among(*index, others);
        push_naming(alloc, &mut settings, *index, is_named)?;
    }
    Ok(Sequence::from_vec(settings))
}

/// Lets go of the last set. Its first descriptor is kept, and a setting for each string that is named nowhere else.
pub(crate) fn thin_last(alloc: Global, f: &mut DescriptorFile) -> Result<(), AllocError>
    ensures { OnOk result (Thins f.old f.new) }
{
    let all = named(alloc, f)?;
    let Some(mut set) = pop_set(f) else {
        return Ok(());
    };
    let others = named(alloc, f)?;
    set.extras = Sequence::new(alloc);
    set.settings = naming_others(alloc, &all, &others)?;
    push_set(f, set)
}
