//! Findings sorted by rule.
ghost use Rattle.std.specs.Prelude.{◌≡◌, ◌++◌, length, true, IfOk, OnOk};
ghost use Rattle.usb_file_data.specs.Findings.{by_rule, of_rule};
ghost use Rattle.usb_file_data.specs.inside.Ends.{AreEnds};

use crate::finding::Finding;
use crate::rule::Rule;
use std::alloc::{AllocError, Global};

/// The number of the last rule.
const LAST_RULE: u8 = 13;

/// More than the number of any rule.
const NUMBERS: usize = 16;

/// The findings rule by rule. Those that come so are handed back as they are.
#[inline(always)]
pub(crate) fn by_rule(alloc: Global, found: Vec<Finding>) -> Result<Vec<Finding>, AllocError>
    ensures { IfOk result (λ v. v.items ≡ by_rule found.items) }
{
    if is_by_rule(&found) {
        Ok(found)
    } else {
        sorted(alloc, &found)
    }
}

/// The findings sorted by their rules.
#[inline(never)]
fn sorted(alloc: Global, found: &[Finding]) -> Result<Vec<Finding>, AllocError>
    ensures { IfOk result (λ v. v.items ≡ by_rule found.now) }
{
    let ends = ends_of(found);
    let mut out = Vec::with_capacity(alloc, found.len())?;
    for rule in Rule::ALL {
        copy_of(rule, found, &ends, &mut out)?;
    }
    Ok(out)
}

/// Copies the findings of a rule. None comes after its end.
fn copy_of(
    rule: Rule,
    found: &[Finding],
    ends: &[usize; NUMBERS],
    out: &mut Vec<Finding>,
) -> Result<(), AllocError>
    requires { AreEnds found.now (length found.now) ends.now }
    ensures { OnOk result (out.new.items ≡ out.old.items ++ of_rule rule found.now) }
{
    let first = &found[..ends[usize::from(rule.number())]];
    for one in first {
        if one.rule == rule.number() {
            out.push(*one)?;
        }
    }
    Ok(())
}

/// Whether the findings come rule by rule as they are.
fn is_by_rule(found: &[Finding]) -> bool
    ensures { result ≡ true → by_rule found.now ≡ found.now }
{
    let mut last = 1;
    for one in found {
        if one.rule < last {
            return false;
        }
        last = one.rule;
    }
    last <= LAST_RULE
}

/// How many findings there are up to the last one of each rule, by its number.
fn ends_of(found: &[Finding]) -> [usize; NUMBERS]
    ensures { AreEnds found.now (length found.now) result }
{
    let mut ends = [0; NUMBERS];
    for (place, one) in found.iter().enumerate() {
        ends[usize::from(one.rule) % NUMBERS] = place + 1;
    }
    ends
}
