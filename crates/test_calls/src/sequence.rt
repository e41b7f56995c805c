//! The list type of all public fields, used as a list.
use std::alloc::{AllocError, Global};
use std::collections::HashSet;
use std::test::Fail;
use usb_fields::Sequence;

fn one_to_three(alloc: Global) -> Result<Sequence<u8>, AllocError> {
    let mut sequence = Sequence::new(alloc);
    for value in [1u8, 2, 3] {
        sequence.push(value)?;
    }
    Ok(sequence)
}

/// Takes a slice, as a function does that goes over a list.
fn is_rising(bytes: &[u8]) -> bool {
    bytes.windows(2).all(|pair| pair.first() < pair.last())
}

#[test]
fn reads_as_a_slice(rt: HostRuntime) -> Result<(), Fail> {
    let sequence = one_to_three(rt.alloc())?;
    assert!(rt; is_rising(&sequence));
    assert_eq!(rt; (sequence.len(), sequence.is_empty()), (3, false));
    assert_eq!(rt;
        (sequence.first(), sequence.get(1), sequence.get(3)),
        (Some(&1), Some(&2), None)
    );
    assert_eq!(rt; sequence.last(), sequence.as_slice().last());
    let mut last = 0;
    for value in &sequence {
        last = *value;
    }
    assert_eq!(rt; last, 3);
    assert_eq!(rt;
        format!(in rt.alloc(); "{sequence:?}")?.as_str(),
        "[1, 2, 3]"
    );
    Ok(())
}

#[test]
fn changes_in_place(rt: HostRuntime) -> Result<(), Fail> {
    let mut sequence = one_to_three(rt.alloc())?;
    assert_eq!(rt; sequence.pop(), Some(3));
    if let Some(last) = sequence.last_mut() {
        *last = 9;
    }
    for value in sequence.iter_mut() {
        *value ^= 1;
    }
    assert_eq!(rt; sequence.into_vec().as_slice(), [0u8, 8].as_slice());
    Ok(())
}

/// Sequences of sequences are compared and hashed element by element.
#[test]
fn compares_and_hashes(rt: HostRuntime) -> Result<(), Fail> {
    let mut outer: Sequence<Sequence<u8>> = Vec::new(rt.alloc()).into();
    outer.push(one_to_three(rt.alloc())?)?;
    let same = outer.clone()?;
    assert!(rt; same == outer);
    let mut seen = HashSet::new(rt.alloc());
    assert!(rt; seen.insert(outer)?);
    assert!(rt; !seen.insert(same)?);
    Ok(())
}
