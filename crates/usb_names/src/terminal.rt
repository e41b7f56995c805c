//! Names of types of terminals.
ghost use Rattle.std.specs.Prelude.{◌≡◌, map};
ghost use Rattle.usb_names.specs.Named.{row_of};
ghost use Rattle.usb_names.specs.Terminals as tables;

use crate::named::{Named, Names};

/// The names of types of terminals of audio, by wTerminalType.
#[tactic(auto, unfolding(crate::specs::Terminals::audio_terminals))]
pub fn audio_terminals() -> Names<u16>
    ensures { map row_of result.rows.now ≡ tables.audio_terminals }
{
    Names {
        rows: &AUDIO_TERMINALS,
    }
}

/// The names of types of terminals of video, by wTerminalType.
#[tactic(auto, unfolding(crate::specs::Terminals::video_terminals))]
pub fn video_terminals() -> Names<u16>
    ensures { map row_of result.rows.now ≡ tables.video_terminals }
{
    Names {
        rows: &VIDEO_TERMINALS,
    }
}

// made by tables.py
static AUDIO_TERMINALS: [Named<u16>; 56] = [
    (0x0100, "USB undefined"),
    (0x0101, "USB streaming"),
    (0x01ff, "USB vendor specific"),
    (0x0200, "input undefined"),
    (0x0201, "microphone"),
    (0x0202, "desktop microphone"),
    (0x0203, "personal microphone"),
    (0x0204, "omni-directional microphone"),
    (0x0205, "microphone array"),
    (0x0206, "processing microphone array"),
    (0x0300, "output undefined"),
    (0x0301, "speaker"),
    (0x0302, "headphones"),
    (0x0303, "head mounted display audio"),
    (0x0304, "desktop speaker"),
    (0x0305, "room speaker"),
    (0x0306, "communication speaker"),
    (0x0307, "low frequency effects speaker"),
    (0x0400, "bi-directional undefined"),
    (0x0401, "handset"),
    (0x0402, "headset"),
    (0x0403, "speakerphone"),
    (0x0404, "echo-suppressing speakerphone"),
    (0x0405, "echo-canceling speakerphone"),
    (0x0500, "telephony undefined"),
    (0x0501, "phone line"),
    (0x0502, "telephone"),
    (0x0503, "down line phone"),
    (0x0600, "external undefined"),
    (0x0601, "analog connector"),
    (0x0602, "digital audio interface"),
    (0x0603, "line connector"),
    (0x0604, "legacy audio connector"),
    (0x0605, "S/PDIF interface"),
    (0x0606, "1394 DA stream"),
    (0x0607, "1394 DV stream soundtrack"),
    (0x0700, "embedded undefined"),
    (0x0701, "level calibration noise source"),
    (0x0702, "equalization noise"),
    (0x0703, "CD player"),
    (0x0704, "DAT"),
    (0x0705, "DCC"),
    (0x0706, "minidisk"),
    (0x0707, "analog tape"),
    (0x0708, "phonograph"),
    (0x0709, "VCR audio"),
    (0x070a, "video disk audio"),
    (0x070b, "DVD audio"),
    (0x070c, "TV tuner audio"),
    (0x070d, "satellite receiver audio"),
    (0x070e, "cable tuner audio"),
    (0x070f, "DSS audio"),
    (0x0710, "radio receiver"),
    (0x0711, "radio transmitter"),
    (0x0712, "multi-track recorder"),
    (0x0713, "synthesizer"),
];

static VIDEO_TERMINALS: [Named<u16>; 12] = [
    (0x0100, "USB vendor specific"),
    (0x0101, "USB streaming"),
    (0x0200, "ITT vendor specific"),
    (0x0201, "camera"),
    (0x0202, "media transport input"),
    (0x0300, "OTT vendor specific"),
    (0x0301, "display"),
    (0x0302, "media transport output"),
    (0x0400, "external vendor specific"),
    (0x0401, "composite connector"),
    (0x0402, "S-video connector"),
    (0x0403, "component connector"),
];
// end
