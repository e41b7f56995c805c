//! The rows of the table of class descriptors.
ghost use Rattle.std.specs.Prelude.{◌≡◌, ◌++◌, map};
ghost use Rattle.usb_names.specs.Rows as tables;
ghost use Rattle.usb_names.specs.Shown.{row_of};

use crate::field::{ClassField, Form};
use crate::row::ClassDescriptor;

/// A code of a row: `_` is any.
macro_rules! code {
    (_) => {
        None
    };
    ($code:literal) => {
        Some($code)
    };
}

/// A row: subclass, protocol, type, the first two bytes of the body, the place of one that is 0, name, fields, and the
/// fields that repeat.
macro_rules! row {
    ($subclass:tt $protocol:tt $kind:literal $first:tt $second:tt $zero:tt $name:literal
        [$($field:literal $form:ident $width:literal),*] [$($again:literal $again_form:ident $again_width:literal),*]) => {
        ClassDescriptor {
            subclass: code!($subclass),
            protocol: code!($protocol),
            descriptor_type: $kind,
            first: code!($first),
            second: code!($second),
            zero_at: code!($zero),
            name: $name,
            fields: &[$(ClassField { name: $field, width: $width, form: Form::$form }),*],
            group: &[$(ClassField { name: $again, width: $again_width, form: Form::$again_form }),*],
        }
    };
}

#[tactic(auto, unfolding(crate::specs::Rows::standard_rows))]
pub(crate) fn standard_rows() -> &'static [ClassDescriptor]
    ensures { map row_of result.now ≡ tables.standard_rows }
{
    &STANDARD_ROWS
}

#[tactic(auto, unfolding(crate::specs::Rows::newer_audio_rows))]
pub(crate) fn newer_audio_rows() -> &'static [ClassDescriptor]
    ensures { map row_of result.now ≡ tables.newer_audio_rows }
{
    &NEWER_AUDIO_ROWS
}

#[tactic(auto, unfolding(crate::specs::Rows::audio_rows))]
pub(crate) fn audio_rows() -> &'static [ClassDescriptor]
    ensures { map row_of result.now ≡ tables.audio_rows }
{
    &AUDIO_ROWS
}

#[tactic(auto, unfolding(crate::specs::Rows::communications_rows))]
pub(crate) fn communications_rows() -> &'static [ClassDescriptor]
    ensures { map row_of result.now ≡ tables.communications_rows }
{
    &COMMUNICATIONS_ROWS
}

#[tactic(auto, unfolding(crate::specs::Rows::hid_rows))]
pub(crate) fn hid_rows() -> &'static [ClassDescriptor]
    ensures { map row_of result.now ≡ tables.hid_rows }
{
    &HID_ROWS
}

#[tactic(auto, unfolding(crate::specs::Rows::mass_storage_rows))]
pub(crate) fn mass_storage_rows() -> &'static [ClassDescriptor]
    ensures { map row_of result.now ≡ tables.mass_storage_rows }
{
    &MASS_STORAGE_ROWS
}

#[tactic(auto, unfolding(crate::specs::Rows::hub_rows))]
pub(crate) fn hub_rows() -> &'static [ClassDescriptor]
    ensures { map row_of result.now ≡ tables.hub_rows }
{
    &HUB_ROWS
}

#[tactic(auto, unfolding(crate::specs::Rows::cdc_data_rows))]
pub(crate) fn cdc_data_rows() -> &'static [ClassDescriptor]
    ensures { map row_of result.now ≡ tables.cdc_data_rows }
{
    &CDC_DATA_ROWS
}

#[tactic(auto, unfolding(crate::specs::Rows::smart_card_rows))]
pub(crate) fn smart_card_rows() -> &'static [ClassDescriptor]
    ensures { map row_of result.now ≡ tables.smart_card_rows }
{
    &SMART_CARD_ROWS
}

#[tactic(auto, unfolding(crate::specs::Rows::video_rows))]
pub(crate) fn video_rows() -> &'static [ClassDescriptor]
    ensures { map row_of result.now ≡ tables.video_rows }
{
    &VIDEO_ROWS
}

#[tactic(auto, unfolding(crate::specs::Rows::further_video_rows))]
pub(crate) fn further_video_rows() -> &'static [ClassDescriptor]
    ensures { map row_of result.now ≡ tables.further_video_rows }
{
    &FURTHER_VIDEO_ROWS
}

#[tactic(auto, unfolding(crate::specs::Rows::application_rows))]
pub(crate) fn application_rows() -> &'static [ClassDescriptor]
    ensures { map row_of result.now ≡ tables.application_rows }
{
    &APPLICATION_ROWS
}

#[tactic(auto, unfolding(crate::specs::Rows::other_rows))]
pub(crate) fn other_rows() -> &'static [ClassDescriptor]
    ensures { map row_of result.now ≡ tables.other_rows }
{
    &OTHER_ROWS
}

/// The rows of a class, in two lists.
pub(crate) fn class_rows(class: u8) -> (&'static [ClassDescriptor], &'static [ClassDescriptor])
    ensures { map row_of result.0.now ++ map row_of result.1.now ≡ tables.class_rows class }
{
    match class {
        0x01 => (newer_audio_rows(), audio_rows()),
        0x02 => (&[], communications_rows()),
        0x03 => (&[], hid_rows()),
        0x08 => (&[], mass_storage_rows()),
        0x09 => (&[], hub_rows()),
        0x0a => (&[], cdc_data_rows()),
        0x0b => (&[], smart_card_rows()),
        0x0e => (video_rows(), further_video_rows()),
        0xfe => (&[], application_rows()),
        _ => (&[], &[]),
    }
}

// made by tables.py
/// Standard types of USB 2.0 (9.4, table 9-5), OTG 2.0 and USB 3.2 (9.6.7, 9.6.8), wherever they are.
static STANDARD_ROWS: [ClassDescriptor; 10] = [
    row!(_ _ 0x01 _ _ _ "device" [] []),
    row!(_ _ 0x03 _ _ _ "string" [] []),
    row!(_ _ 0x06 _ _ _ "device qualifier" [] []),
    row!(_ _ 0x08 _ _ _ "interface power" [] []),
    row!(_ _ 0x09 _ _ _ "OTG" ["bmAttributes" Hexadecimal 1, "bcdOTG" Release 2] []),
    row!(_ _ 0x0a _ _ _ "debug" ["bDebugInEndpoint" Hexadecimal 1, "bDebugOutEndpoint" Hexadecimal 1] []),
    row!(_ _ 0x0f _ _ _ "BOS" [] []),
    row!(_ _ 0x10 _ _ _ "device capability" [] []),
    row!(_ _ 0x30 _ _ _ "SuperSpeed endpoint companion" ["bMaxBurst" Decimal 1, "bmAttributes" Hexadecimal 1, "wBytesPerInterval" Decimal 2] []),
    row!(_ _ 0x31 _ _ _ "SuperSpeedPlus isochronous endpoint companion" ["wReserved" Hexadecimal 2, "dwBytesPerInterval" Decimal 4] []),
];

/// Audio 2.0 and 3.0.
static NEWER_AUDIO_ROWS: [ClassDescriptor; 21] = [
    row!(0x01 0x20 0x24 0x01 _ _ "audio 2.0 control header" ["bDescriptorSubtype" Hexadecimal 1, "bcdADC" Release 2, "bCategory" Hexadecimal 1, "wTotalLength" Decimal 2, "bmControls" Hexadecimal 1] []),
    row!(0x01 0x20 0x24 0x02 _ _ "audio 2.0 input terminal" ["bDescriptorSubtype" Hexadecimal 1, "bTerminalID" Decimal 1, "wTerminalType" AudioTerminal 2, "bAssocTerminal" Decimal 1, "bCSourceID" Decimal 1, "bNrChannels" Decimal 1, "bmChannelConfig" Hexadecimal 4, "iChannelNames" Index 1, "bmControls" Hexadecimal 2, "iTerminal" Index 1] []),
    row!(0x01 0x20 0x24 0x03 _ _ "audio 2.0 output terminal" ["bDescriptorSubtype" Hexadecimal 1, "bTerminalID" Decimal 1, "wTerminalType" AudioTerminal 2, "bAssocTerminal" Decimal 1, "bSourceID" Decimal 1, "bCSourceID" Decimal 1, "bmControls" Hexadecimal 2, "iTerminal" Index 1] []),
    row!(0x01 0x20 0x24 0x04 _ _ "audio 2.0 mixer unit" ["bDescriptorSubtype" Hexadecimal 1, "bUnitID" Decimal 1, "bNrInPins" Decimal 1] []),
    row!(0x01 0x20 0x24 0x05 _ _ "audio 2.0 selector unit" ["bDescriptorSubtype" Hexadecimal 1, "bUnitID" Decimal 1, "bNrInPins" Decimal 1] []),
    row!(0x01 0x20 0x24 0x06 _ _ "audio 2.0 feature unit" ["bDescriptorSubtype" Hexadecimal 1, "bUnitID" Decimal 1, "bSourceID" Decimal 1] ["bmaControls" Hexadecimal 4]),
    row!(0x01 0x20 0x24 0x07 _ _ "audio 2.0 effect unit" ["bDescriptorSubtype" Hexadecimal 1, "bUnitID" Decimal 1, "wEffectType" Hexadecimal 2, "bSourceID" Decimal 1] ["bmaControls" Hexadecimal 4]),
    row!(0x01 0x20 0x24 0x08 _ _ "audio 2.0 processing unit" ["bDescriptorSubtype" Hexadecimal 1, "bUnitID" Decimal 1, "wProcessType" Hexadecimal 2, "bNrInPins" Decimal 1] []),
    row!(0x01 0x20 0x24 0x09 _ _ "audio 2.0 extension unit" ["bDescriptorSubtype" Hexadecimal 1, "bUnitID" Decimal 1, "wExtensionCode" Hexadecimal 2, "bNrInPins" Decimal 1] []),
    row!(0x01 0x20 0x24 0x0a _ _ "audio 2.0 clock source" ["bDescriptorSubtype" Hexadecimal 1, "bClockID" Decimal 1, "bmAttributes" Hexadecimal 1, "bmControls" Hexadecimal 1, "bAssocTerminal" Decimal 1, "iClockSource" Index 1] []),
    row!(0x01 0x20 0x24 0x0b _ _ "audio 2.0 clock selector" ["bDescriptorSubtype" Hexadecimal 1, "bClockID" Decimal 1, "bNrInPins" Decimal 1] []),
    row!(0x01 0x20 0x24 0x0c _ _ "audio 2.0 clock multiplier" ["bDescriptorSubtype" Hexadecimal 1, "bClockID" Decimal 1, "bCSourceID" Decimal 1, "bmControls" Hexadecimal 1, "iClockMultiplier" Index 1] []),
    row!(0x01 0x20 0x24 0x0d _ _ "audio 2.0 sample rate converter" ["bDescriptorSubtype" Hexadecimal 1, "bUnitID" Decimal 1, "bSourceID" Decimal 1, "bCSourceInID" Decimal 1, "bCSourceOutID" Decimal 1, "iSRC" Index 1] []),
    row!(0x02 0x20 0x24 0x01 _ _ "audio 2.0 streaming" ["bDescriptorSubtype" Hexadecimal 1, "bTerminalLink" Decimal 1, "bmControls" Hexadecimal 1, "bFormatType" Decimal 1, "bmFormats" Hexadecimal 4, "bNrChannels" Decimal 1, "bmChannelConfig" Hexadecimal 4, "iChannelNames" Index 1] []),
    row!(0x02 0x20 0x24 0x02 0x01 _ "audio 2.0 format type I" ["bDescriptorSubtype" Hexadecimal 1, "bFormatType" Decimal 1, "bSubslotSize" Decimal 1, "bBitResolution" Decimal 1] []),
    row!(0x02 0x20 0x24 0x02 _ _ "audio 2.0 format type" ["bDescriptorSubtype" Hexadecimal 1, "bFormatType" Decimal 1] []),
    row!(0x02 0x20 0x25 0x01 _ _ "audio 2.0 data endpoint" ["bDescriptorSubtype" Hexadecimal 1, "bmAttributes" Hexadecimal 1, "bmControls" Hexadecimal 1, "bLockDelayUnits" Hexadecimal 1, "wLockDelay" Decimal 2] []),
    row!(_ 0x20 0x24 _ _ _ "audio 2.0 class" ["bDescriptorSubtype" Hexadecimal 1] []),
    row!(_ 0x20 0x25 _ _ _ "audio 2.0 endpoint" ["bDescriptorSubtype" Hexadecimal 1] []),
    row!(_ 0x30 0x24 _ _ _ "audio 3.0 class" ["bDescriptorSubtype" Hexadecimal 1] []),
    row!(_ 0x30 0x25 _ _ _ "audio 3.0 endpoint" ["bDescriptorSubtype" Hexadecimal 1] []),
];

/// Audio 1.0 and MIDI 1.0.
static AUDIO_ROWS: [ClassDescriptor; 25] = [
    row!(0x01 _ 0x24 0x01 _ _ "audio control header" ["bDescriptorSubtype" Hexadecimal 1, "bcdADC" Release 2, "wTotalLength" Decimal 2, "bInCollection" Decimal 1] ["baInterfaceNr" Decimal 1]),
    row!(0x01 _ 0x24 0x02 _ _ "audio input terminal" ["bDescriptorSubtype" Hexadecimal 1, "bTerminalID" Decimal 1, "wTerminalType" AudioTerminal 2, "bAssocTerminal" Decimal 1, "bNrChannels" Decimal 1, "wChannelConfig" Hexadecimal 2, "iChannelNames" Index 1, "iTerminal" Index 1] []),
    row!(0x01 _ 0x24 0x03 _ _ "audio output terminal" ["bDescriptorSubtype" Hexadecimal 1, "bTerminalID" Decimal 1, "wTerminalType" AudioTerminal 2, "bAssocTerminal" Decimal 1, "bSourceID" Decimal 1, "iTerminal" Index 1] []),
    row!(0x01 _ 0x24 0x04 _ _ "audio mixer unit" ["bDescriptorSubtype" Hexadecimal 1, "bUnitID" Decimal 1, "bNrInPins" Decimal 1] []),
    row!(0x01 _ 0x24 0x05 _ _ "audio selector unit" ["bDescriptorSubtype" Hexadecimal 1, "bUnitID" Decimal 1, "bNrInPins" Decimal 1] []),
    row!(0x01 _ 0x24 0x06 _ _ "audio feature unit" ["bDescriptorSubtype" Hexadecimal 1, "bUnitID" Decimal 1, "bSourceID" Decimal 1, "bControlSize" Decimal 1] []),
    row!(0x01 _ 0x24 0x07 _ _ "audio processing unit" ["bDescriptorSubtype" Hexadecimal 1, "bUnitID" Decimal 1, "wProcessType" Hexadecimal 2, "bNrInPins" Decimal 1] []),
    row!(0x01 _ 0x24 0x08 _ _ "audio extension unit" ["bDescriptorSubtype" Hexadecimal 1, "bUnitID" Decimal 1, "wExtensionCode" Hexadecimal 2, "bNrInPins" Decimal 1] []),
    row!(0x02 _ 0x24 0x01 _ _ "audio streaming" ["bDescriptorSubtype" Hexadecimal 1, "bTerminalLink" Decimal 1, "bDelay" Decimal 1, "wFormatTag" Hexadecimal 2] []),
    row!(0x02 _ 0x24 0x02 0x01 5 "audio format type I" ["bDescriptorSubtype" Hexadecimal 1, "bFormatType" Decimal 1, "bNrChannels" Decimal 1, "bSubframeSize" Decimal 1, "bBitResolution" Decimal 1, "bSamFreqType" Decimal 1, "tLowerSamFreq" Decimal 3, "tUpperSamFreq" Decimal 3] []),
    row!(0x02 _ 0x24 0x02 0x01 _ "audio format type I" ["bDescriptorSubtype" Hexadecimal 1, "bFormatType" Decimal 1, "bNrChannels" Decimal 1, "bSubframeSize" Decimal 1, "bBitResolution" Decimal 1, "bSamFreqType" Decimal 1] ["tSamFreq" Decimal 3]),
    row!(0x02 _ 0x24 0x02 0x02 6 "audio format type II" ["bDescriptorSubtype" Hexadecimal 1, "bFormatType" Decimal 1, "wMaxBitRate" Decimal 2, "wSamplesPerFrame" Decimal 2, "bSamFreqType" Decimal 1, "tLowerSamFreq" Decimal 3, "tUpperSamFreq" Decimal 3] []),
    row!(0x02 _ 0x24 0x02 0x02 _ "audio format type II" ["bDescriptorSubtype" Hexadecimal 1, "bFormatType" Decimal 1, "wMaxBitRate" Decimal 2, "wSamplesPerFrame" Decimal 2, "bSamFreqType" Decimal 1] ["tSamFreq" Decimal 3]),
    row!(0x02 _ 0x24 0x02 0x03 5 "audio format type III" ["bDescriptorSubtype" Hexadecimal 1, "bFormatType" Decimal 1, "bNrChannels" Decimal 1, "bSubframeSize" Decimal 1, "bBitResolution" Decimal 1, "bSamFreqType" Decimal 1, "tLowerSamFreq" Decimal 3, "tUpperSamFreq" Decimal 3] []),
    row!(0x02 _ 0x24 0x02 0x03 _ "audio format type III" ["bDescriptorSubtype" Hexadecimal 1, "bFormatType" Decimal 1, "bNrChannels" Decimal 1, "bSubframeSize" Decimal 1, "bBitResolution" Decimal 1, "bSamFreqType" Decimal 1] ["tSamFreq" Decimal 3]),
    row!(0x02 _ 0x24 0x02 _ _ "audio format type" ["bDescriptorSubtype" Hexadecimal 1, "bFormatType" Decimal 1] []),
    row!(0x02 _ 0x24 0x03 _ _ "audio format specific" ["bDescriptorSubtype" Hexadecimal 1, "wFormatTag" Hexadecimal 2] []),
    row!(0x02 _ 0x25 0x01 _ _ "audio data endpoint" ["bDescriptorSubtype" Hexadecimal 1, "bmAttributes" Hexadecimal 1, "bLockDelayUnits" Hexadecimal 1, "wLockDelay" Decimal 2] []),
    row!(0x03 _ 0x24 0x01 _ _ "MIDI header" ["bDescriptorSubtype" Hexadecimal 1, "bcdMSC" Release 2, "wTotalLength" Decimal 2] []),
    row!(0x03 _ 0x24 0x02 _ _ "MIDI in jack" ["bDescriptorSubtype" Hexadecimal 1, "bJackType" Hexadecimal 1, "bJackID" Decimal 1, "iJack" Index 1] []),
    row!(0x03 _ 0x24 0x03 _ _ "MIDI out jack" ["bDescriptorSubtype" Hexadecimal 1, "bJackType" Hexadecimal 1, "bJackID" Decimal 1, "bNrInputPins" Decimal 1] []),
    row!(0x03 _ 0x24 0x04 _ _ "MIDI element" ["bDescriptorSubtype" Hexadecimal 1, "bElementID" Decimal 1, "bNrInputPins" Decimal 1] []),
    row!(0x03 _ 0x25 0x01 _ _ "MIDI data endpoint" ["bDescriptorSubtype" Hexadecimal 1, "bNumEmbMIDIJack" Decimal 1] ["baAssocJackID" Decimal 1]),
    row!(_ _ 0x24 _ _ _ "audio class" ["bDescriptorSubtype" Hexadecimal 1] []),
    row!(_ _ 0x25 _ _ _ "audio endpoint" ["bDescriptorSubtype" Hexadecimal 1] []),
];

/// Communications: CDC 1.2 and its subclasses, NCM 1.0, MBIM 1.0.
static COMMUNICATIONS_ROWS: [ClassDescriptor; 18] = [
    row!(_ _ 0x24 0x00 _ _ "CDC header" ["bDescriptorSubtype" Hexadecimal 1, "bcdCDC" Release 2] []),
    row!(_ _ 0x24 0x01 _ _ "CDC call management" ["bDescriptorSubtype" Hexadecimal 1, "bmCapabilities" CallManagement 1, "bDataInterface" Decimal 1] []),
    row!(_ _ 0x24 0x02 _ _ "CDC abstract control" ["bDescriptorSubtype" Hexadecimal 1, "bmCapabilities" AbstractControl 1] []),
    row!(_ _ 0x24 0x03 _ _ "CDC direct line" ["bDescriptorSubtype" Hexadecimal 1, "bmCapabilities" Hexadecimal 1] []),
    row!(_ _ 0x24 0x04 _ _ "CDC telephone ringer" ["bDescriptorSubtype" Hexadecimal 1, "bRingerVolSteps" Decimal 1, "bNumRingerPatterns" Decimal 1] []),
    row!(_ _ 0x24 0x05 _ _ "CDC telephone capabilities" ["bDescriptorSubtype" Hexadecimal 1, "bmCapabilities" Hexadecimal 4] []),
    row!(_ _ 0x24 0x06 _ _ "CDC union" ["bDescriptorSubtype" Hexadecimal 1, "bControlInterface" Decimal 1] ["bSubordinateInterface" Decimal 1]),
    row!(_ _ 0x24 0x07 _ _ "CDC country selection" ["bDescriptorSubtype" Hexadecimal 1, "iCountryCodeRelDate" Index 1] ["wCountryCode" Hexadecimal 2]),
    row!(_ _ 0x24 0x0f _ _ "CDC Ethernet networking" ["bDescriptorSubtype" Hexadecimal 1, "iMACAddress" Index 1, "bmEthernetStatistics" Hexadecimal 4, "wMaxSegmentSize" Decimal 2, "wNumberMCFilters" Hexadecimal 2, "bNumberPowerFilters" Decimal 1] []),
    row!(_ _ 0x24 0x11 _ _ "CDC wireless handset control" ["bDescriptorSubtype" Hexadecimal 1, "bcdVersion" Release 2] []),
    row!(_ _ 0x24 0x12 _ _ "CDC mobile direct line" ["bDescriptorSubtype" Hexadecimal 1, "bcdVersion" Release 2, "bGUID" Guid 16] []),
    row!(_ _ 0x24 0x13 _ _ "CDC mobile direct line detail" ["bDescriptorSubtype" Hexadecimal 1, "bGuidDescriptorType" Hexadecimal 1] ["bDetailData" Hexadecimal 1]),
    row!(_ _ 0x24 0x14 _ _ "CDC device management" ["bDescriptorSubtype" Hexadecimal 1, "bcdVersion" Release 2, "wMaxCommand" Decimal 2] []),
    row!(_ _ 0x24 0x15 _ _ "CDC OBEX" ["bDescriptorSubtype" Hexadecimal 1, "bcdVersion" Release 2] []),
    row!(_ _ 0x24 0x1a _ _ "CDC network control" ["bDescriptorSubtype" Hexadecimal 1, "bcdNcmVersion" Release 2, "bmNetworkCapabilities" Hexadecimal 1] []),
    row!(_ _ 0x24 0x1b _ _ "CDC mobile broadband" ["bDescriptorSubtype" Hexadecimal 1, "bcdMBIMVersion" Release 2, "wMaxControlMessage" Decimal 2, "bNumberFilters" Decimal 1, "bMaxFilterSize" Decimal 1, "wMaxSegmentSize" Decimal 2, "bmNetworkCapabilities" Hexadecimal 1] []),
    row!(_ _ 0x24 0x1c _ _ "CDC mobile broadband, extended" ["bDescriptorSubtype" Hexadecimal 1, "bcdMBIMExtendedVersion" Release 2, "bMaxOutstandingCommandMessages" Decimal 1, "wMTU" Decimal 2] []),
    row!(_ _ 0x24 _ _ _ "CDC functional" ["bDescriptorSubtype" Hexadecimal 1] []),
];

/// HID: HID 1.11, 6.2.1.
static HID_ROWS: [ClassDescriptor; 1] = [
    row!(_ _ 0x21 _ _ _ "HID" ["bcdHID" Release 2, "bCountryCode" Decimal 1, "bNumDescriptors" Decimal 1] ["bDescriptorType" ReportType 1, "wDescriptorLength" Decimal 2]),
];

/// Mass storage: USB Attached SCSI.
static MASS_STORAGE_ROWS: [ClassDescriptor; 1] = [
    row!(0x06 0x62 0x24 _ _ _ "UAS pipe usage" ["bPipeID" Decimal 1, "bReserved" Hexadecimal 1] []),
];

/// Hubs: USB 2.0, 11.23.2.1.
static HUB_ROWS: [ClassDescriptor; 1] = [
    row!(_ _ 0x29 _ _ _ "hub" ["bNbrPorts" Decimal 1, "wHubCharacteristics" Hexadecimal 2, "bPwrOn2PwrGood" Decimal 1, "bHubContrCurrent" Decimal 1] []),
];

/// CDC data: CDC 1.2.
static CDC_DATA_ROWS: [ClassDescriptor; 3] = [
    row!(_ _ 0x24 0x00 _ _ "CDC header" ["bDescriptorSubtype" Hexadecimal 1, "bcdCDC" Release 2] []),
    row!(_ _ 0x24 0x06 _ _ "CDC union" ["bDescriptorSubtype" Hexadecimal 1, "bControlInterface" Decimal 1] ["bSubordinateInterface" Decimal 1]),
    row!(_ _ 0x24 _ _ _ "CDC functional" ["bDescriptorSubtype" Hexadecimal 1] []),
];

/// Smart cards: CCID 1.1.
static SMART_CARD_ROWS: [ClassDescriptor; 1] = [
    row!(_ _ 0x21 _ _ _ "CCID" ["bcdCCID" Release 2, "bMaxSlotIndex" Decimal 1, "bVoltageSupport" Hexadecimal 1, "dwProtocols" Hexadecimal 4, "dwDefaultClock" Decimal 4, "dwMaximumClock" Decimal 4, "bNumClockSupported" Decimal 1, "dwDataRate" Decimal 4, "dwMaxDataRate" Decimal 4, "bNumDataRatesSupported" Decimal 1, "dwMaxIFSD" Decimal 4, "dwSynchProtocols" Hexadecimal 4, "dwMechanical" Hexadecimal 4, "dwFeatures" Hexadecimal 4, "dwMaxCCIDMessageLength" Decimal 4, "bClassGetResponse" Hexadecimal 1, "bClassEnvelope" Hexadecimal 1, "wLcdLayout" Hexadecimal 2, "bPINSupport" Hexadecimal 1, "bMaxCCIDBusySlots" Decimal 1] []),
];

/// Video control, and streams without compression and as MJPEG: UVC 1.5.
static VIDEO_ROWS: [ClassDescriptor; 17] = [
    row!(0x01 _ 0x24 0x01 _ _ "video control header" ["bDescriptorSubtype" Hexadecimal 1, "bcdUVC" Release 2, "wTotalLength" Decimal 2, "dwClockFrequency" Decimal 4, "bInCollection" Decimal 1] ["baInterfaceNr" Decimal 1]),
    row!(0x01 _ 0x24 0x02 _ _ "video input terminal" ["bDescriptorSubtype" Hexadecimal 1, "bTerminalID" Decimal 1, "wTerminalType" VideoTerminal 2, "bAssocTerminal" Decimal 1, "iTerminal" Index 1] []),
    row!(0x01 _ 0x24 0x03 _ _ "video output terminal" ["bDescriptorSubtype" Hexadecimal 1, "bTerminalID" Decimal 1, "wTerminalType" VideoTerminal 2, "bAssocTerminal" Decimal 1, "bSourceID" Decimal 1, "iTerminal" Index 1] []),
    row!(0x01 _ 0x24 0x04 _ _ "video selector unit" ["bDescriptorSubtype" Hexadecimal 1, "bUnitID" Decimal 1, "bNrInPins" Decimal 1] []),
    row!(0x01 _ 0x24 0x05 _ _ "video processing unit" ["bDescriptorSubtype" Hexadecimal 1, "bUnitID" Decimal 1, "bSourceID" Decimal 1, "wMaxMultiplier" Decimal 2, "bControlSize" Decimal 1] []),
    row!(0x01 _ 0x24 0x06 _ _ "video extension unit" ["bDescriptorSubtype" Hexadecimal 1, "bUnitID" Decimal 1, "guidExtensionCode" Guid 16, "bNumControls" Decimal 1, "bNrInPins" Decimal 1] []),
    row!(0x01 _ 0x24 0x07 _ _ "video encoding unit" ["bDescriptorSubtype" Hexadecimal 1, "bUnitID" Decimal 1, "bSourceID" Decimal 1, "iEncoding" Index 1, "bControlSize" Decimal 1] []),
    row!(0x01 _ 0x25 0x03 _ _ "video interrupt endpoint" ["bDescriptorSubtype" Hexadecimal 1, "wMaxTransferSize" Decimal 2] []),
    row!(0x02 _ 0x24 0x01 _ _ "video input header" ["bDescriptorSubtype" Hexadecimal 1, "bNumFormats" Decimal 1, "wTotalLength" Decimal 2, "bEndpointAddress" Hexadecimal 1, "bmInfo" Hexadecimal 1, "bTerminalLink" Decimal 1, "bStillCaptureMethod" Decimal 1, "bTriggerSupport" Decimal 1, "bTriggerUsage" Decimal 1, "bControlSize" Decimal 1] []),
    row!(0x02 _ 0x24 0x02 _ _ "video output header" ["bDescriptorSubtype" Hexadecimal 1, "bNumFormats" Decimal 1, "wTotalLength" Decimal 2, "bEndpointAddress" Hexadecimal 1, "bTerminalLink" Decimal 1, "bControlSize" Decimal 1] []),
    row!(0x02 _ 0x24 0x03 _ _ "video still image" ["bDescriptorSubtype" Hexadecimal 1, "bEndpointAddress" Hexadecimal 1, "bNumImageSizePatterns" Decimal 1] []),
    row!(0x02 _ 0x24 0x04 _ _ "video format uncompressed" ["bDescriptorSubtype" Hexadecimal 1, "bFormatIndex" Decimal 1, "bNumFrameDescriptors" Decimal 1, "guidFormat" Guid 16, "bBitsPerPixel" Decimal 1, "bDefaultFrameIndex" Decimal 1, "bAspectRatioX" Decimal 1, "bAspectRatioY" Decimal 1, "bmInterlaceFlags" Hexadecimal 1, "bCopyProtect" Decimal 1] []),
    row!(0x02 _ 0x24 0x05 _ 23 "video frame uncompressed" ["bDescriptorSubtype" Hexadecimal 1, "bFrameIndex" Decimal 1, "bmCapabilities" Hexadecimal 1, "wWidth" Decimal 2, "wHeight" Decimal 2, "dwMinBitRate" Decimal 4, "dwMaxBitRate" Decimal 4, "dwMaxVideoFrameBufferSize" Decimal 4, "dwDefaultFrameInterval" FrameInterval 4, "bFrameIntervalType" Decimal 1, "dwMinFrameInterval" FrameInterval 4, "dwMaxFrameInterval" FrameInterval 4, "dwFrameIntervalStep" FrameInterval 4] []),
    row!(0x02 _ 0x24 0x05 _ _ "video frame uncompressed" ["bDescriptorSubtype" Hexadecimal 1, "bFrameIndex" Decimal 1, "bmCapabilities" Hexadecimal 1, "wWidth" Decimal 2, "wHeight" Decimal 2, "dwMinBitRate" Decimal 4, "dwMaxBitRate" Decimal 4, "dwMaxVideoFrameBufferSize" Decimal 4, "dwDefaultFrameInterval" FrameInterval 4, "bFrameIntervalType" Decimal 1] ["dwFrameInterval" FrameInterval 4]),
    row!(0x02 _ 0x24 0x06 _ _ "video format MJPEG" ["bDescriptorSubtype" Hexadecimal 1, "bFormatIndex" Decimal 1, "bNumFrameDescriptors" Decimal 1, "bmFlags" Hexadecimal 1, "bDefaultFrameIndex" Decimal 1, "bAspectRatioX" Decimal 1, "bAspectRatioY" Decimal 1, "bmInterlaceFlags" Hexadecimal 1, "bCopyProtect" Decimal 1] []),
    row!(0x02 _ 0x24 0x07 _ 23 "video frame MJPEG" ["bDescriptorSubtype" Hexadecimal 1, "bFrameIndex" Decimal 1, "bmCapabilities" Hexadecimal 1, "wWidth" Decimal 2, "wHeight" Decimal 2, "dwMinBitRate" Decimal 4, "dwMaxBitRate" Decimal 4, "dwMaxVideoFrameBufferSize" Decimal 4, "dwDefaultFrameInterval" FrameInterval 4, "bFrameIntervalType" Decimal 1, "dwMinFrameInterval" FrameInterval 4, "dwMaxFrameInterval" FrameInterval 4, "dwFrameIntervalStep" FrameInterval 4] []),
    row!(0x02 _ 0x24 0x07 _ _ "video frame MJPEG" ["bDescriptorSubtype" Hexadecimal 1, "bFrameIndex" Decimal 1, "bmCapabilities" Hexadecimal 1, "wWidth" Decimal 2, "wHeight" Decimal 2, "dwMinBitRate" Decimal 4, "dwMaxBitRate" Decimal 4, "dwMaxVideoFrameBufferSize" Decimal 4, "dwDefaultFrameInterval" FrameInterval 4, "bFrameIntervalType" Decimal 1] ["dwFrameInterval" FrameInterval 4]),
];

/// Other streams of video: UVC 1.5.
static FURTHER_VIDEO_ROWS: [ClassDescriptor; 11] = [
    row!(0x02 _ 0x24 0x0a _ _ "video format MPEG-2 TS" ["bDescriptorSubtype" Hexadecimal 1, "bFormatIndex" Decimal 1, "bDataOffset" Decimal 1, "bPacketLength" Decimal 1, "bStrideLength" Decimal 1, "guidStrideFormat" Guid 16] []),
    row!(0x02 _ 0x24 0x0c _ _ "video format DV" ["bDescriptorSubtype" Hexadecimal 1, "bFormatIndex" Decimal 1, "dwMaxVideoFrameBufferSize" Decimal 4, "bFormatType" Hexadecimal 1] []),
    row!(0x02 _ 0x24 0x0d _ _ "video color matching" ["bDescriptorSubtype" Hexadecimal 1, "bColorPrimaries" Hexadecimal 1, "bTransferCharacteristics" Hexadecimal 1, "bMatrixCoefficients" Hexadecimal 1] []),
    row!(0x02 _ 0x24 0x10 _ _ "video format frame based" ["bDescriptorSubtype" Hexadecimal 1, "bFormatIndex" Decimal 1, "bNumFrameDescriptors" Decimal 1, "guidFormat" Guid 16, "bBitsPerPixel" Decimal 1, "bDefaultFrameIndex" Decimal 1, "bAspectRatioX" Decimal 1, "bAspectRatioY" Decimal 1, "bmInterlaceFlags" Hexadecimal 1, "bCopyProtect" Decimal 1, "bVariableSize" Decimal 1] []),
    row!(0x02 _ 0x24 0x11 _ 19 "video frame, frame based" ["bDescriptorSubtype" Hexadecimal 1, "bFrameIndex" Decimal 1, "bmCapabilities" Hexadecimal 1, "wWidth" Decimal 2, "wHeight" Decimal 2, "dwMinBitRate" Decimal 4, "dwMaxBitRate" Decimal 4, "dwDefaultFrameInterval" FrameInterval 4, "bFrameIntervalType" Decimal 1, "dwBytesPerLine" Decimal 4, "dwMinFrameInterval" FrameInterval 4, "dwMaxFrameInterval" FrameInterval 4, "dwFrameIntervalStep" FrameInterval 4] []),
    row!(0x02 _ 0x24 0x11 _ _ "video frame, frame based" ["bDescriptorSubtype" Hexadecimal 1, "bFrameIndex" Decimal 1, "bmCapabilities" Hexadecimal 1, "wWidth" Decimal 2, "wHeight" Decimal 2, "dwMinBitRate" Decimal 4, "dwMaxBitRate" Decimal 4, "dwDefaultFrameInterval" FrameInterval 4, "bFrameIntervalType" Decimal 1, "dwBytesPerLine" Decimal 4] ["dwFrameInterval" FrameInterval 4]),
    row!(0x02 _ 0x24 0x12 _ _ "video format stream based" ["bDescriptorSubtype" Hexadecimal 1, "bFormatIndex" Decimal 1, "guidFormat" Guid 16, "dwPacketLength" Decimal 4] []),
    row!(0x02 _ 0x24 0x13 _ _ "video format H264" ["bDescriptorSubtype" Hexadecimal 1, "bFormatIndex" Decimal 1, "bNumFrameDescriptors" Decimal 1, "bDefaultFrameIndex" Decimal 1, "bMaxCodecConfigDelay" Decimal 1, "bmSupportedSliceModes" Hexadecimal 1, "bmSupportedSyncFrameTypes" Hexadecimal 1, "bResolutionScaling" Decimal 1, "Reserved1" Hexadecimal 1, "bmSupportedRateControlModes" Hexadecimal 1, "wMaxMBperSecOneResolutionNoScalability" Decimal 2, "wMaxMBperSecTwoResolutionsNoScalability" Decimal 2, "wMaxMBperSecThreeResolutionsNoScalability" Decimal 2, "wMaxMBperSecFourResolutionsNoScalability" Decimal 2, "wMaxMBperSecOneResolutionTemporalScalability" Decimal 2, "wMaxMBperSecTwoResolutionsTemporalScalability" Decimal 2, "wMaxMBperSecThreeResolutionsTemporalScalability" Decimal 2, "wMaxMBperSecFourResolutionsTemporalScalability" Decimal 2, "wMaxMBperSecOneResolutionTemporalQualityScalability" Decimal 2, "wMaxMBperSecTwoResolutionsTemporalQualityScalability" Decimal 2, "wMaxMBperSecThreeResolutionsTemporalQualityScalability" Decimal 2, "wMaxMBperSecFourResolutionsTemporalQualityScalability" Decimal 2, "wMaxMBperSecOneResolutionTemporalSpatialScalability" Decimal 2, "wMaxMBperSecTwoResolutionsTemporalSpatialScalability" Decimal 2, "wMaxMBperSecThreeResolutionsTemporalSpatialScalability" Decimal 2, "wMaxMBperSecFourResolutionsTemporalSpatialScalability" Decimal 2, "wMaxMBperSecOneResolutionFullScalability" Decimal 2, "wMaxMBperSecTwoResolutionsFullScalability" Decimal 2, "wMaxMBperSecThreeResolutionsFullScalability" Decimal 2, "wMaxMBperSecFourResolutionsFullScalability" Decimal 2] []),
    row!(0x02 _ 0x24 0x14 _ _ "video frame H264" ["bDescriptorSubtype" Hexadecimal 1, "bFrameIndex" Decimal 1, "wWidth" Decimal 2, "wHeight" Decimal 2, "wSARwidth" Decimal 2, "wSARheight" Decimal 2, "wProfile" Hexadecimal 2, "bLevelIDC" Decimal 1, "wConstrainedToolset" Hexadecimal 2, "bmSupportedUsages" Hexadecimal 4, "bmCapabilities" Hexadecimal 2, "bmSVCCapabilities" Hexadecimal 4, "bmMVCCapabilities" Hexadecimal 4, "dwMinBitRate" Decimal 4, "dwMaxBitRate" Decimal 4, "dwDefaultFrameInterval" FrameInterval 4, "bNumFrameIntervals" Decimal 1] ["dwFrameInterval" FrameInterval 4]),
    row!(_ _ 0x24 _ _ _ "video class" ["bDescriptorSubtype" Hexadecimal 1] []),
    row!(_ _ 0x25 _ _ _ "video endpoint" ["bDescriptorSubtype" Hexadecimal 1] []),
];

/// Application specific: DFU 1.1.
static APPLICATION_ROWS: [ClassDescriptor; 1] = [
    row!(0x01 _ 0x21 _ _ _ "DFU functional" ["bmAttributes" FirmwareUpgrade 1, "wDetachTimeOut" Decimal 2, "wTransferSize" Decimal 2, "bcdDFUVersion" Release 2] []),
];

/// Class specific types of any class that has no other row.
static OTHER_ROWS: [ClassDescriptor; 3] = [
    row!(_ _ 0x21 _ _ _ "class specific descriptor" [] []),
    row!(_ _ 0x24 _ _ _ "class specific interface" [] []),
    row!(_ _ 0x25 _ _ _ "class specific endpoint" [] []),
];
// end
