//! The descriptors of bytes, each as long as its first byte says.
ghost use Rattle.std.specs.Prelude.{◌≡◌, ◌≤◌, ◌+◌, ◌∷◌, [], length, IfSome, MatchOption};
ghost use Rattle.usb_walk.specs.Trees.{descriptor_length, descriptors};

/// bLength of the descriptor that the bytes begin with, where all of it is there (USB 2.0, 9.5).
///
/// ```rust
/// assert_eq!(rt; descriptor_length(&[3, 0x30, 0, 9]), Some(3));
/// assert_eq!(rt; descriptor_length(&[3, 0x30]), None);
/// ```
pub fn descriptor_length(b: &[u8]) -> Option<usize>
    ensures length { result ≡ descriptor_length b.now }
    ensures least { IfSome result (λ n. 2 ≤ n) }
    ensures most { IfSome result (λ n. n ≤ length b.now) }
{
    match b {
        [] => None,
        [len, rest @ ..] => {
            let len = usize::from(*len);
            if len < 2 || rest.len() + 1 < len {
                None
            } else {
                Some(len)
            }
        }
    }
}

/// The descriptor that the bytes begin with, where all of it is there, and the bytes after it.
#[tactic(auto, using(crate::proofs::Cuts::descriptors_end, crate::proofs::Cuts::descriptors_step))]
pub fn first_descriptor(b: &[u8]) -> Option<(&[u8], &[u8])>
    ensures first { MatchOption result (descriptors b.now ≡ []) (λ cut. descriptors b.now ≡ cut.0.now ∷ descriptors cut.1.now) }
    ensures least { IfSome result (λ cut. 2 ≤ length cut.0.now) }
    ensures whole { IfSome result (λ cut. length cut.0.now + length cut.1.now ≡ length b.now) }
{
    match descriptor_length(b) {
        None => None,
        Some(length) => Some(b.split_at(length)),
    }
}
