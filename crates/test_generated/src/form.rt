//! What an example is: bytes of descriptors or a listing.

/// How the bytes of an example are read.
#[derive(Clone, Copy, PartialEq, Eq)]
pub(crate) enum Form {
    /// Descriptors, each of which begins with its length (USB 2.0, 9.5).
    Descriptors,
    /// Lines of a listing.
    Listing,
}

impl Form {
    /// What a byte may become: bounds of what a field can be, and characters that a line may have in other places or
    /// nowhere.
    pub(crate) fn values(self) -> &'static [u8] {
        match self {
            Form::Descriptors => b"\x00\x01\x7f\x80\xff",
            Form::Listing => b" 0af-\"\\gA~\n\x7f#\r",
        }
    }

    /// The length of the piece that the bytes begin with: a descriptor with its bLength, or a line with its line feed.
    /// Where there is none it is all of them.
    pub(crate) fn piece_length(self, bytes: &[u8]) -> usize {
        match self {
            Form::Descriptors => match bytes.first() {
                Some(length) if *length >= 2 => usize::from(*length).min(bytes.len()),
                _ => bytes.len(),
            },
            Form::Listing => match bytes.iter().position(|byte| *byte == b'\n') {
                Some(place) => place.saturating_add(1).min(bytes.len()),
                None => bytes.len(),
            },
        }
    }
}
