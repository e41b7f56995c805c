//! The fields of the standard's descriptors, each with the form of its number.
ghost use Rattle.std.specs.Prelude.{◌≡◌};
ghost use Rattle.usb_explain.specs.inside.DescriptorLayouts.{layout_of};
ghost use Rattle.usb_explain.specs.Layouts.{association_layout, configuration_layout, device_layout, endpoint_layout, interface_layout, is_audio, qualifier_layout};

use usb_fields::field_name;
use usb_names::{ClassCodes, ClassField, Form};

/// The class of audio devices.
const AUDIO_CLASS: u8 = 1;

/// The fields of a descriptor after bDescriptorType.
#[derive(Clone, Copy, Debug)]
pub(crate) struct DescriptorLayout {
    /// The fields, in order.
    pub(crate) fields: &'static [ClassField],
    /// The fields that repeat after those.
    pub(crate) group: &'static [ClassField],
    /// What the bytes are called that are left.
    pub(crate) rest: &'static str,
}

/// Those of the standard's names, each with its form and its width. What follows them is a tail.
macro_rules! layout {
    [$($name:ident $form:ident $width:literal),*] => {
        DescriptorLayout {
            fields: &[$(ClassField { name: field_name::$name, width: $width, form: Form::$form }),*],
            group: &[],
            rest: "tail",
        }
    };
}

/// The device descriptor (USB 2.0, 9.6.1).
pub(crate) fn device_layout() -> &'static DescriptorLayout
    ensures { layout_of result.now ≡ device_layout }
{
    static LAYOUT: DescriptorLayout =
        layout![BCD_USB Release 2, B_DEVICE_CLASS Class 1, B_DEVICE_SUB_CLASS Subclass 1, B_DEVICE_PROTOCOL Protocol 1, B_MAX_PACKET_SIZE_0 DevicePacket 1, ID_VENDOR Hexadecimal 2, ID_PRODUCT Hexadecimal 2, BCD_DEVICE Release 2, I_MANUFACTURER Index 1, I_PRODUCT Index 1, I_SERIAL_NUMBER Index 1, B_NUM_CONFIGURATIONS Decimal 1];
    &LAYOUT
}

/// The device qualifier (9.6.2).
pub(crate) fn qualifier_layout() -> &'static DescriptorLayout
    ensures { layout_of result.now ≡ qualifier_layout }
{
    static LAYOUT: DescriptorLayout =
        layout![BCD_USB Release 2, B_DEVICE_CLASS Class 1, B_DEVICE_SUB_CLASS Subclass 1, B_DEVICE_PROTOCOL Protocol 1, B_MAX_PACKET_SIZE_0 Decimal 1, B_NUM_CONFIGURATIONS Decimal 1, B_RESERVED Hexadecimal 1];
    &LAYOUT
}

/// A set's first descriptor (9.6.3 and 9.6.4).
pub(crate) fn configuration_layout() -> &'static DescriptorLayout
    ensures { layout_of result.now ≡ configuration_layout }
{
    static LAYOUT: DescriptorLayout =
        layout![W_TOTAL_LENGTH Decimal 2, B_NUM_INTERFACES Decimal 1, B_CONFIGURATION_VALUE Decimal 1, I_CONFIGURATION Index 1, BM_ATTRIBUTES Supply 1, B_MAX_POWER Power 1];
    &LAYOUT
}

/// An interface association (its ECN, 9.X.Y).
pub(crate) fn association_layout() -> &'static DescriptorLayout
    ensures { layout_of result.now ≡ association_layout }
{
    static LAYOUT: DescriptorLayout =
        layout![B_FIRST_INTERFACE Decimal 1, B_INTERFACE_COUNT Decimal 1, B_FUNCTION_CLASS FunctionClass 1, B_FUNCTION_SUB_CLASS Subclass 1, B_FUNCTION_PROTOCOL Protocol 1, I_FUNCTION Index 1];
    &LAYOUT
}

/// An interface (USB 2.0, 9.6.5).
pub(crate) fn interface_layout() -> &'static DescriptorLayout
    ensures { layout_of result.now ≡ interface_layout }
{
    static LAYOUT: DescriptorLayout =
        layout![B_INTERFACE_NUMBER Decimal 1, B_ALTERNATE_SETTING Decimal 1, B_NUM_ENDPOINTS Decimal 1, B_INTERFACE_CLASS FunctionClass 1, B_INTERFACE_SUB_CLASS Subclass 1, B_INTERFACE_PROTOCOL Protocol 1, I_INTERFACE Index 1];
    &LAYOUT
}

/// An endpoint of `length` bytes (9.6.6), after an interface of these codes. Two bytes after the fields of an audio endpoint have names.
pub(crate) fn endpoint_layout(
    interface: Option<ClassCodes>,
    length: usize,
) -> &'static DescriptorLayout
    ensures { layout_of result.now ≡ endpoint_layout interface length }
{
    static OTHER: DescriptorLayout =
        layout![B_ENDPOINT_ADDRESS Address 1, BM_ATTRIBUTES Transfer 1, W_MAX_PACKET_SIZE PacketSize 2, B_INTERVAL Interval 1];
    static AUDIO: DescriptorLayout =
        layout![B_ENDPOINT_ADDRESS Address 1, BM_ATTRIBUTES Transfer 1, W_MAX_PACKET_SIZE PacketSize 2, B_INTERVAL Interval 1, B_REFRESH Decimal 1, B_SYNCH_ADDRESS Hexadecimal 1];
    if is_audio(interface) && length == 9 {
        &AUDIO
    } else {
        &OTHER
    }
}

fn is_audio(interface: Option<ClassCodes>) -> bool
    ensures { result ≡ is_audio interface }
{
    match interface {
        None => false,
        Some(codes) => codes.class == AUDIO_CLASS,
    }
}
