//! What USB 2.0 forbids in control transfers, as far as a recording shows it.

/// What a control transfer shows that USB 2.0 forbids. The definition of each, over a list of transfers, is in
/// `specs/TransferFindings.antt`.
///
/// ```rust
/// for finding in Finding::ALL {
///     println!(rt; "{} {} ({})", finding.name(), finding.message(), finding.section())?;
/// }
/// ```
#[derive(Clone, Copy, Debug, PartialEq, Eq, Hash)]
pub enum Finding {
    /// More bytes came or went than wLength says (8.5.3 and 9.3.5).
    MoreThanAsked,
    /// A descriptor came of another type than was asked for (9.4.3).
    OtherType,
    /// Of a descriptor neither all bytes came that it says that it has, nor as many as wLength says (9.4.3).
    OtherLength,
    /// A byte of a descriptor came that was another one before, with no reset between (9.4.3 and 9.6).
    OtherBytes,
    /// STALL of a descriptor of which the device gave bytes before, with no reset between (9.4.3).
    RefusesGiven,
    /// STALL of the device descriptor or of configuration 0, which all devices have (9.4.3).
    RefusesRequired,
    /// STALL of a configuration that bNumConfigurations of the device, or of its qualifier, counts (9.6.1 and 9.6.2).
    RefusesCounted,
    /// STALL of a string of which a descriptor has the index, in a language of the list, or of that list (9.6.7).
    RefusesNamed,
    /// STALL of GET_STATUS of the device, which has an address (9.4.5).
    RefusesStatus,
    /// STALL of SET_ADDRESS by a device that has address 0 (9.4.6).
    RefusesAddress,
    /// STALL of SET_CONFIGURATION with 0, or with bConfigurationValue of a configuration of the device (9.4.7).
    RefusesConfiguration,
    /// SET_CONFIGURATION done with a value that no configuration of the device has (9.2.7 and 9.4.7).
    TakesConfiguration,
    /// STALL of GET_CONFIGURATION, or an answer of neither 0 nor the value of a configuration (9.4.2).
    OtherConfiguration,
    /// A configuration came that bNumConfigurations doesn't count (9.4.3 and 9.6.1).
    GivesUncounted,
    /// GET_CONFIGURATION answered with another value than was set (9.4.2).
    OtherValue,
    /// Another status of the device, an interface or an endpoint than its descriptors, and the features that were set, give (9.4.5).
    OtherStatus,
    /// A feature that the device doesn't have is set or cleared, or STALL of one that it has (9.4.1 and 9.4.9).
    OtherFeature,
    /// Another alternate setting than was chosen, one chosen that an interface doesn't have, or STALL of one that it has (9.4.4 and
    /// 9.4.10).
    OtherSetting,
}

impl Finding {
    /// All findings, in the order in which those of one transfer are reported.
    pub const ALL: [Finding; 18] = [
        Finding::MoreThanAsked,
        Finding::OtherType,
        Finding::OtherLength,
        Finding::OtherBytes,
        Finding::RefusesGiven,
        Finding::RefusesRequired,
        Finding::RefusesCounted,
        Finding::RefusesNamed,
        Finding::RefusesStatus,
        Finding::RefusesAddress,
        Finding::RefusesConfiguration,
        Finding::TakesConfiguration,
        Finding::OtherConfiguration,
        Finding::GivesUncounted,
        Finding::OtherValue,
        Finding::OtherStatus,
        Finding::OtherFeature,
        Finding::OtherSetting,
    ];

    /// Its name: T1 is of one transfer, C1 to C17 are of a device's conversation.
    pub fn name(self) -> &'static str {
        match self {
            Finding::MoreThanAsked => "T1",
            Finding::OtherType => "C1",
            Finding::OtherLength => "C2",
            Finding::OtherBytes => "C3",
            Finding::RefusesGiven => "C4",
            Finding::RefusesRequired => "C5",
            Finding::RefusesCounted => "C6",
            Finding::RefusesNamed => "C7",
            Finding::RefusesStatus => "C8",
            Finding::RefusesAddress => "C9",
            Finding::RefusesConfiguration => "C10",
            Finding::TakesConfiguration => "C11",
            Finding::OtherConfiguration => "C12",
            Finding::GivesUncounted => "C13",
            Finding::OtherValue => "C14",
            Finding::OtherStatus => "C15",
            Finding::OtherFeature => "C16",
            Finding::OtherSetting => "C17",
        }
    }

    /// What was wrong, in words.
    pub fn message(self) -> &'static str {
        match self {
            Finding::MoreThanAsked => "more bytes than wLength",
            Finding::OtherType => "a descriptor of another type than was asked for",
            Finding::OtherLength => "neither all bytes of the descriptor nor wLength bytes",
            Finding::OtherBytes => "the same descriptor had other bytes before",
            Finding::RefusesGiven => "the device has it: it gave bytes of it",
            Finding::RefusesRequired => "the device has it: all devices do",
            Finding::RefusesCounted => "the device has it: bNumConfigurations counts it",
            Finding::RefusesNamed => "the device has it: a descriptor names it",
            Finding::RefusesStatus => "the device has an address, so it answers",
            Finding::RefusesAddress => "the device has no address yet, so it takes one",
            Finding::RefusesConfiguration =>
                "the device takes 0 and the value of each configuration",
            Finding::TakesConfiguration => "no configuration of the device has this value",
            Finding::OtherConfiguration => "the device answers 0 or the value of a configuration",
            Finding::GivesUncounted => "bNumConfigurations doesn't count it",
            Finding::OtherValue => "the device answers the value that was set",
            Finding::OtherStatus => "the device answers by its descriptors and what was set",
            Finding::OtherFeature => "the device takes a feature that it has and no other",
            Finding::OtherSetting => "the device answers by the settings that it has",
        }
    }

    /// The sections of USB 2.0 that say so.
    pub fn section(self) -> &'static str {
        match self {
            Finding::MoreThanAsked => "8.5.3, 9.3.5",
            Finding::OtherType | Finding::OtherLength => "9.4.3",
            Finding::OtherBytes => "9.4.3, 9.6",
            Finding::RefusesGiven | Finding::RefusesRequired => "9.4.3",
            Finding::RefusesCounted => "9.6.1, 9.6.2",
            Finding::RefusesNamed => "9.6.7",
            Finding::RefusesStatus => "9.4.5",
            Finding::RefusesAddress => "9.4.6",
            Finding::RefusesConfiguration => "9.4.7",
            Finding::TakesConfiguration => "9.2.7, 9.4.7",
            Finding::OtherConfiguration => "9.4.2",
            Finding::GivesUncounted => "9.4.3, 9.6.1",
            Finding::OtherValue => "9.4.2",
            Finding::OtherStatus => "9.4.5",
            Finding::OtherFeature => "9.4.1, 9.4.9",
            Finding::OtherSetting => "9.4.4, 9.4.10",
        }
    }
}
