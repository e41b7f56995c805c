//! A field of a descriptor.

/// How the number of a field is written.
#[derive(Clone, Copy, Debug, PartialEq, Eq, Hash)]
pub enum Form {
    /// In decimal digits.
    Decimal,
    /// In hexadecimal digits, two a byte.
    Hexadecimal,
    /// As a release, which is in binary coded decimal.
    Release,
    /// As the type of a HID class descriptor.
    ReportType,
    /// As the index of a string (USB 2.0, 9.6.7).
    Index,
    /// As a frame interval of video.
    FrameInterval,
    /// As a GUID.
    Guid,
    /// As the type of an audio terminal.
    AudioTerminal,
    /// As the type of a video terminal.
    VideoTerminal,
    /// As the bits of bmCapabilities of CDC abstract control.
    AbstractControl,
    /// As the bits of bmCapabilities of CDC call management.
    CallManagement,
    /// As the bits of bmAttributes of DFU.
    FirmwareUpgrade,
    /// As the class code of a device.
    Class,
    /// As that of an interface or a function.
    FunctionClass,
    /// As a subclass of the class that stands before it.
    Subclass,
    /// As a protocol of the class and the subclass that stand before it.
    Protocol,
    /// As bMaxPacketSize0 of a device (9.6.1).
    DevicePacket,
    /// As bmAttributes of a configuration (9.6.3).
    Supply,
    /// As bMaxPower (9.6.3).
    Power,
    /// As bEndpointAddress (9.6.6).
    Address,
    /// As bmAttributes of an endpoint.
    Transfer,
    /// As wMaxPacketSize.
    PacketSize,
    /// As bInterval.
    Interval,
    /// As hexadecimal digits, two a byte in the order of the bytes: those of bytes without a field of their own.
    Bytes,
}

/// A field of a descriptor, by its standard name.
#[derive(Clone, Copy, Debug)]
pub struct ClassField<Name = &'static str> {
    /// The standard name.
    pub name: Name,
    /// How many bytes it has, the low one first.
    pub width: u8,
    /// How its number is written.
    pub form: Form,
}
