//! What a device said of a descriptor.
use crate::asked::Asked;
use usb_fields::Sequence;

/// The first bytes of a descriptor, each as a device said it last.
#[derive(Debug, Drop)]
pub(crate) struct Said {
    /// Which descriptor it is.
    pub(crate) asked: Asked,
    /// Its bytes.
    pub(crate) bytes: Sequence<u8>,
}
