//! The codes of an interface.

/// What an interface is: bInterfaceClass, bInterfaceSubClass and bInterfaceProtocol (USB 2.0, 9.6.5).
#[derive(Clone, Copy, Debug, PartialEq, Eq, Hash)]
pub struct ClassCodes {
    /// bInterfaceClass.
    pub class: u8,
    /// bInterfaceSubClass.
    pub subclass: u8,
    /// bInterfaceProtocol.
    pub protocol: u8,
}
