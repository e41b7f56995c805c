//! The text of usbmon (the kernel's document "usbmon").
pub(crate) mod address;
pub(crate) mod data;
pub(crate) mod line;
pub(crate) mod status;
pub(crate) mod words;
