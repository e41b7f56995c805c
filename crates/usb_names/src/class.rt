//! Names of classes, subclasses and protocols.
ghost use Rattle.std.specs.Prelude.{◌≡◌, IfSome, IsTrue, map, option_map, slice_get};
ghost use Rattle.std.specs.Option.{option_copied};
ghost use Rattle.usb_names.specs.Classes.{class_has_names, class_name, class_of, class_row, classes, protocol_name, subclass_name};

use crate::named::{Named, Names};
use crate::word::Word;

/// A class: its code and its name, the names of its subclasses, and those of its protocols by subclass and protocol.
struct Class<
    Name = &'static str,
    Subclasses = &'static [Named<u8>],
    Protocols = &'static [Named<(u8, u8)>],
> {
    code: u8,
    name: Name,
    subclasses: Subclasses,
    protocols: Protocols,
}

/// The name of a class code, as bDeviceClass, bInterfaceClass and bFunctionClass have it (USB 2.0, 9.6.1, 9.6.5).
///
/// ```rust
/// if let Some(name) = class_name(0x08) {
///     assert_eq!(rt; name.text, "Mass storage");
/// }
/// ```
pub fn class_name(class: u8) -> Option<Word>
    ensures { option_map (λ name. name.text.now) result ≡ class_name class }
{
    let row = class_row(class)?;
    Some(Word { text: row.name })
}

/// The name of a subclass code of a class.
///
/// ```rust
/// if let Some(name) = subclass_name(0x02, 0x06) {
///     assert_eq!(rt; name.text, "Ethernet networking");
/// }
/// ```
#[tactic(auto, unfolding(crate::specs::Named::name_of))]
pub fn subclass_name(class: u8, subclass: u8) -> Option<Word>
    ensures { option_map (λ name. name.text.now) result ≡ subclass_name class subclass }
{
    let row = class_row(class)?;
    let names = Names {
        rows: row.subclasses,
    };
    names.name(subclass)
}

/// The name of a protocol code of a class and its subclass.
///
/// ```rust
/// if let Some(name) = protocol_name(0x08, 0x06, 0x50) {
///     assert_eq!(rt; name.text, "bulk-only");
/// }
/// ```
pub fn protocol_name(class: u8, subclass: u8, protocol: u8) -> Option<Word>
    ensures { option_map (λ name. name.text.now) result ≡ protocol_name class subclass protocol }
{
    let row = class_row(class)?;
    let names = Names {
        rows: row.protocols,
    };
    names.name((subclass, protocol))
}

/// The row of a class.
#[inline(always)]
fn class_row(class: u8) -> Option<&'static Class>
    ensures row { option_map class_of (option_copied result) ≡ class_row class }
    ensures names { IfSome result (λ row. IsTrue (class_has_names (class_of row.now))) }
{
    row_at(place(class))
}

#[inline(always)]
fn row_at(place: usize) -> Option<&'static Class>
    ensures { option_map class_of (option_copied result) ≡ slice_get classes place }
{
    classes().get(place)
}

#[tactic(auto, unfolding(crate::specs::Classes::classes))]
fn classes() -> &'static [Class]
    ensures { map class_of result.now ≡ classes }
{
    &CLASSES
}

/// The place of a class in the table; what has none is behind it.
#[tactic(auto, unfolding(crate::specs::Classes::classes))]
fn place(class: u8) -> usize
    ensures { slice_get classes result ≡ class_row class }
{
    match class {
        // made by tables.py: places
        0x00 => 0,
        0x01 => 1,
        0x02 => 2,
        0x03 => 3,
        0x05 => 4,
        0x06 => 5,
        0x07 => 6,
        0x08 => 7,
        0x09 => 8,
        0x0a => 9,
        0x0b => 10,
        0x0d => 11,
        0x0e => 12,
        0x0f => 13,
        0x10 => 14,
        0x11 => 15,
        0x12 => 16,
        0x13 => 17,
        0x14 => 18,
        0x3c => 19,
        0xdc => 20,
        0xe0 => 21,
        0xef => 22,
        0xfe => 23,
        0xff => 24,
        // end
        _ => CLASSES.len(),
    }
}

/// A row: code and name of a class, its subclasses, and its protocols.
macro_rules! class {
    ($code:literal $name:literal [$($subclass:literal $subclass_name:literal),*]
        [$($of:literal $protocol:literal $protocol_name:literal),*]) => {
        Class {
            code: $code,
            name: $name,
            subclasses: &[$(($subclass, $subclass_name)),*],
            protocols: &[$((($of, $protocol), $protocol_name)),*],
        }
    };
}

// made by tables.py: classes
static CLASSES: [Class; 25] = [
    class!(0x00 "by interface" [] []),
    class!(0x01 "Audio"
        [0x01 "control", 0x02 "streaming", 0x03 "MIDI streaming"]
        [0x00 0x20 "version 2.0", 0x01 0x20 "version 2.0", 0x01 0x30 "version 3.0", 0x02 0x20 "version 2.0", 0x02 0x30 "version 3.0"]),
    class!(0x02 "Communications"
        [0x01 "direct line", 0x02 "abstract control", 0x03 "telephone control", 0x04 "multi-channel control", 0x05 "CAPI control", 0x06 "Ethernet networking", 0x07 "ATM networking", 0x08 "wireless handset control", 0x09 "device management", 0x0a "mobile direct line", 0x0b "OBEX", 0x0c "Ethernet emulation", 0x0d "network control", 0x0e "mobile broadband"]
        [0x02 0x01 "AT commands V.250", 0x02 0x02 "AT commands PCCA-101", 0x02 0x03 "AT commands PCCA-101 Annex O", 0x02 0x04 "AT commands GSM 07.07", 0x02 0x05 "AT commands 3GPP 27.007", 0x02 0x06 "AT commands TIA for CDMA", 0x02 0xff "vendor specific", 0x0c 0x07 "EEM"]),
    class!(0x03 "HID" [0x01 "boot interface"] [0x01 0x01 "keyboard", 0x01 0x02 "mouse"]),
    class!(0x05 "Physical" [] []),
    class!(0x06 "Image" [0x01 "still image capture"] [0x01 0x01 "PTP"]),
    class!(0x07 "Printer"
        [0x01 "printer"]
        [0x01 0x01 "unidirectional", 0x01 0x02 "bidirectional", 0x01 0x03 "IEEE 1284.4", 0x01 0x04 "IPP over USB"]),
    class!(0x08 "Mass storage"
        [0x01 "RBC", 0x02 "MMC-5", 0x04 "UFI", 0x06 "SCSI transparent", 0x07 "LSD FS", 0x08 "IEEE 1667"]
        [0x01 0x00 "CBI with completion interrupt", 0x01 0x01 "CBI", 0x01 0x50 "bulk-only", 0x01 0x62 "UAS", 0x02 0x00 "CBI with completion interrupt", 0x02 0x01 "CBI", 0x02 0x50 "bulk-only", 0x02 0x62 "UAS", 0x04 0x00 "CBI with completion interrupt", 0x04 0x01 "CBI", 0x04 0x50 "bulk-only", 0x04 0x62 "UAS", 0x06 0x00 "CBI with completion interrupt", 0x06 0x01 "CBI", 0x06 0x50 "bulk-only", 0x06 0x62 "UAS", 0x07 0x00 "CBI with completion interrupt", 0x07 0x01 "CBI", 0x07 0x50 "bulk-only", 0x07 0x62 "UAS", 0x08 0x00 "CBI with completion interrupt", 0x08 0x01 "CBI", 0x08 0x50 "bulk-only", 0x08 0x62 "UAS"]),
    class!(0x09 "Hub" [] [0x00 0x01 "single TT", 0x00 0x02 "multiple TTs", 0x00 0x03 "SuperSpeed"]),
    class!(0x0a "CDC data" [] [0x00 0x01 "network transfer block"]),
    class!(0x0b "Smart card" [] [0x00 0x00 "CCID", 0x00 0x01 "ICCD version A", 0x00 0x02 "ICCD version B"]),
    class!(0x0d "Content security" [] []),
    class!(0x0e "Video"
        [0x01 "control", 0x02 "streaming", 0x03 "interface collection"]
        [0x01 0x01 "version 1.5", 0x02 0x01 "version 1.5"]),
    class!(0x0f "Personal healthcare" [] []),
    class!(0x10 "Audio/video" [0x01 "control", 0x02 "video stream", 0x03 "audio stream"] []),
    class!(0x11 "Billboard" [] []),
    class!(0x12 "Type-C bridge" [] []),
    class!(0x13 "Bulk display" [] []),
    class!(0x14 "MCTP" [] []),
    class!(0x3c "I3C" [] []),
    class!(0xdc "Diagnostic" [0x01 "reprogrammable"] [0x01 0x01 "USB2 compliance"]),
    class!(0xe0 "Wireless controller"
        [0x01 "radio frequency", 0x02 "wire adapter"]
        [0x01 0x01 "Bluetooth", 0x01 0x02 "UWB radio control", 0x01 0x03 "remote NDIS", 0x01 0x04 "Bluetooth AMP", 0x02 0x01 "host wire adapter", 0x02 0x02 "device wire adapter", 0x02 0x03 "device wire adapter, isochronous"]),
    class!(0xef "Miscellaneous"
        [0x02 "common class", 0x03 "cable based association", 0x04 "RNDIS", 0x05 "USB3 Vision", 0x06 "STEP", 0x07 "DVB common interface"]
        [0x01 0x01 "ActiveSync", 0x01 0x02 "Palm Sync", 0x02 0x01 "interface association", 0x02 0x02 "wire adapter multifunction", 0x03 0x01 "cable based association", 0x04 0x01 "over Ethernet", 0x04 0x02 "over WiFi", 0x04 0x03 "over WiMAX", 0x04 0x04 "over WWAN", 0x04 0x05 "raw IPv4", 0x04 0x06 "raw IPv6", 0x04 0x07 "GPRS", 0x05 0x00 "control", 0x05 0x01 "event", 0x05 0x02 "streaming", 0x06 0x01 "STEP", 0x06 0x02 "STEP RAW", 0x07 0x01 "command interface", 0x07 0x02 "media interface"]),
    class!(0xfe "Application specific"
        [0x01 "firmware upgrade", 0x02 "IrDA bridge", 0x03 "test and measurement"]
        [0x01 0x01 "run-time", 0x01 0x02 "DFU mode", 0x03 0x00 "USBTMC", 0x03 0x01 "USB488"]),
    class!(0xff "Vendor specific" [0xff "vendor specific"] [0xff 0xff "vendor specific"]),
];
// end
