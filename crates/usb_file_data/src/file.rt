//! What a descriptor file says, as plain data, and what an input is.
use usb_fields::{DeviceDescriptor, Qualifier};
use usb_set::{Configuration, Sequence};

/// What a device is at its other speed: the qualifier, and the sets of that speed (USB 2.0, 9.6.2 and
/// 9.6.4).
///
/// ```rust
/// if let Some(other) = &file.other {
///     println!(rt; "{} configurations at the other speed", other.sets.len())?;
/// }
/// ```
#[derive(Clone, Debug, Drop, PartialEq, Eq, Hash)]
pub struct Other {
    /// The device qualifier descriptor.
    pub qualifier: Qualifier,
    /// The other-speed configuration sets, by index. In a file they are as many as the qualifier's
    /// bNumConfigurations says, each of kind `OtherSpeed`.
    pub sets: Sequence<Configuration>,
}

/// The strings of a device (USB 2.0, 9.6.7).
///
/// ```rust
/// // The first string in the second language.
/// let string = &strings.texts[count_named(&file)];
/// println!(rt; "{:04x}: {} units", strings.languages[1], string.len())?;
/// ```
#[derive(Clone, Debug, Drop, PartialEq, Eq, Hash)]
pub struct Strings {
    /// The language codes of string 0. In a file they are 1 to 126.
    pub languages: Sequence<u16>,
    /// The strings as UTF-16 code units, at most 126 in each: language by language, one for each named
    /// index in ascending order.
    pub texts: Sequence<Sequence<u16>>,
}

/// All descriptors of a device (USB 2.0, 9.4.3). A value need not have bytes: its counts, kinds and
/// strings can contradict each other, and then `crate::refusal::write_refusal` says how.
///
/// ```rust
/// let file = DescriptorFile {
///     device,
///     sets,
///     other: None,
///     strings: None,
/// };
/// assert_eq!(rt; write_refusal(&file), None);
/// ```
#[derive(Clone, Debug, Drop, PartialEq, Eq, Hash)]
pub struct DescriptorFile {
    /// The device descriptor.
    pub device: DeviceDescriptor,
    /// The configuration sets, by index. In a file they are as many as the device's bNumConfigurations
    /// says, each of kind `Configuration`.
    pub sets: Sequence<Configuration>,
    /// The device at its other speed, if it has one.
    pub other: Option<Other>,
    /// The strings. A file has them exactly where it names one.
    pub strings: Option<Strings>,
}

/// What a program is given of a device, in one of three forms.
#[derive(Clone, Debug, Drop, PartialEq, Eq, Hash)]
pub enum Input {
    /// One configuration set (USB 2.0, 9.4.3).
    Set(Configuration),
    /// A descriptor file.
    File(DescriptorFile),
    /// What Linux gives as `/sys/bus/usb/devices/*/descriptors`: the device descriptor and its configuration
    /// sets. It has no other speed, and no strings though it names some, so that it is no file.
    Dump(DescriptorFile),
}
