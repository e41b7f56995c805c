//! The functions of these laws do nothing: their contracts are the laws.
ghost use Rattle.usb_recorded_runs.specs.Laws.{CapturedRunsAreRead, DescriptorsHaveLengths, DescriptorsHaveTypes, EnumerationsAreRuns, FilesAreDescriptions, HandshakesAreLost, NoAnswerContradicts, NoConversationAnswersOtherwise, NoConversationContradicts, NoCountedDescriptorIsRefused, NoDescriptorChanges, NoDeviceAnswersSo, NoEnumerationAnswersOtherwise, NoGivenDescriptorIsRefused, NoLongPacketIsFound, NoNamedStringIsRefused, NoPacketIsDamaged, NoPacketIsLong, NoRequiredDescriptorIsRefused, NoShortPacketLacks, NoStatusGoesWrong, NoToggleIsWrong, NoTransferHasMore, RecordedRunsAreRead, RunsOfBytesAreRuns, SetupsAreTaken, SuccessesGiveDumps, SuccessesGiveFiles, TransfersEndRight, TransfersShowAnswers};

use usb_bus::laws::{a_device_keeps_its_table, an_enumeration_ends_well};

/// A run over a bus of bytes that changes no bit is a run under fates, and each packet of it that arrives is legal.
pub fn a_run_of_bytes_is_a_run()
    ensures { RunsOfBytesAreRuns }
{}

/// An enumeration of a new device is such a run, where its descriptors are bytes. The host sends requests whose fields are within
/// their widths, to addresses of 7 bits, and the device answers with bytes, in packets that are no longer than bMaxPacketSize0.
pub fn an_enumeration_is_a_run()
    ensures { EnumerationsAreRuns }
{
    a_device_keeps_its_table();
}

/// The packets of a run that arrive are read back to the transactions of the run: of one whose token is lost there is nothing,
/// and of another its token, its data and its handshake, as far as each arrives.
pub fn a_recorded_run_is_read()
    ensures { RecordedRunsAreRead }
{}

/// So are the bytes of a capture file of them.
pub fn a_captured_run_is_read()
    ensures { CapturedRunsAreRead }
{}

/// In none of these packets damage is found.
pub fn no_packet_is_damaged()
    ensures { NoPacketIsDamaged }
{}

/// Of the findings in transactions neither `NoRequest` nor `SetupRefused` is ever there.
pub fn each_setup_is_taken()
    ensures { SetupsAreTaken }
{}

/// `Toggle` is never found: a packet that comes again after a loss has the toggle that it had.
pub fn no_toggle_is_wrong()
    ensures { NoToggleIsWrong }
{
    a_device_keeps_its_table();
}

/// `Long` is found nowhere where nothing else is known of a packet size than the device's own.
pub fn no_packet_is_long()
    ensures { NoPacketIsLong }
{}

/// Nor is it found anywhere in an enumeration of a new device, which says no other packet size of itself.
pub fn no_long_packet_is_found()
    ensures { NoLongPacketIsFound }
{
    a_device_keeps_its_table();
}

/// Nor is `NoShortPacket`: a data stage ends with all bytes that were asked for, or with a packet that is shorter than a whole one.
pub fn no_short_packet_lacks()
    ensures { NoShortPacketLacks }
{
    a_device_keeps_its_table();
}

/// Nor is `StatusDirection`: after a complete data stage the status stage goes the other way.
pub fn no_status_goes_wrong()
    ensures { NoStatusGoesWrong }
{
    a_device_keeps_its_table();
}

/// Of the findings in control transfers neither `MoreThanAsked` nor `RefusesStatus` is ever there.
pub fn no_transfer_has_more()
    ensures { NoTransferHasMore }
{
    a_device_keeps_its_table();
}

/// Nor is `OtherBytes`: a device never says something else of a descriptor.
pub fn no_descriptor_changes()
    ensures { NoDescriptorChanges }
{
    a_device_keeps_its_table();
}

/// Nor is `OtherType`, of a device with accepted descriptors.
pub fn each_descriptor_has_its_type()
    ensures { DescriptorsHaveTypes }
{
    a_device_keeps_its_table();
}

/// Each transfer ends as it does with this device: one that is refused is of a request that the device refuses, and one that reads a
/// descriptor has as many bytes of it as were asked for, or all.
pub fn each_transfer_ends_right()
    ensures { TransfersEndRight }
{
    a_device_keeps_its_table();
}

/// So `OtherLength` is never found: of a descriptor come as many bytes as it says that it has, or as many as were asked for.
pub fn each_descriptor_has_its_length()
    ensures { DescriptorsHaveLengths }
{
    a_device_keeps_its_table();
}

/// Nor is `RefusesGiven`: what a device has said of a descriptor it has.
pub fn no_given_descriptor_is_refused()
    ensures { NoGivenDescriptorIsRefused }
{
    a_device_keeps_its_table();
}

/// Nor is `RefusesRequired`: a device has a device descriptor and a configuration.
pub fn no_required_descriptor_is_refused()
    ensures { NoRequiredDescriptorIsRefused }
{
    a_device_keeps_its_table();
}

/// Nor is `RefusesCounted`: a device has as many configurations as it says, at each speed.
pub fn no_counted_descriptor_is_refused()
    ensures { NoCountedDescriptorIsRefused }
{
    a_device_keeps_its_table();
}

/// Nor is `RefusesNamed`: a device has each string that it was seen to name, in each language that it was seen to list.
pub fn no_named_string_is_refused()
    ensures { NoNamedStringIsRefused }
{
    a_device_keeps_its_table();
}

/// `NoHandshake` is found only where an answer or an ACK was lost, or where the device has another address, as one that has not
/// received the ACK of its SET_ADDRESS.
pub fn a_handshake_lacks_by_a_loss()
    ensures { HandshakesAreLost }
{}

/// Nine of the findings in control transfers are in no answer of a device to a request, whatever it was asked before: `MoreThanAsked`,
/// `OtherType`, `OtherBytes`, `RefusesStatus`, `RefusesAddress`, `RefusesConfiguration`, `TakesConfiguration`, `OtherConfiguration` and
/// `GivesUncounted`.
pub fn no_device_answers_so()
    ensures { NoDeviceAnswersSo }
{
    a_device_keeps_its_table();
}

/// A descriptor file that is made of such a recording is the description's own, byte for byte. Without the other speed, whose
/// qualifier may not have come, it is the file without it; and a dump is the device descriptor with its configurations.
pub fn a_device_file_is_the_description()
    ensures { FilesAreDescriptions }
{
    a_device_keeps_its_table();
}

/// They are in none of a whole conversation, from its first transfer on.
pub fn no_conversation_contradicts()
    ensures { NoConversationContradicts }
{
    a_device_keeps_its_table();
}

/// Four more are in no conversation with a device on a bus that loses nothing, also where it is reset meanwhile: `OtherValue`,
/// `OtherStatus`, `OtherFeature` and `OtherSetting`. What is known of its state by its transfers is its state.
pub fn no_conversation_answers_otherwise()
    ensures { NoConversationAnswersOtherwise }
{
    a_device_keeps_its_table();
}

/// Each transfer of a recorded enumeration whose end is seen shows the device's answer: with STALL a request that the device refuses in its
/// state, and no bytes; as done one that it carries out, without data; and else all bytes of its answer.
pub fn each_transfer_shows_an_answer()
    ensures { TransfersShowAnswers }
{
    a_device_keeps_its_table();
}

/// So none of the nine findings is in a recorded enumeration, whatever was lost on the bus.
pub fn no_answer_contradicts()
    ensures { NoAnswerContradicts }
{
    a_device_keeps_its_table();
    no_device_answers_so();
}

/// Nor are `OtherValue`, `OtherStatus`, `OtherFeature` and `OtherSetting`, whose requests an enumerating host doesn't send.
pub fn no_enumeration_answers_otherwise()
    ensures { NoEnumerationAnswersOtherwise }
{}

/// Where the enumeration has succeeded there is such a file, with all that the description has.
pub fn an_enumeration_gives_its_file()
    ensures { SuccessesGiveFiles }
{
    a_device_keeps_its_table();
    an_enumeration_ends_well();
}

/// Of a host that has asked for less there is at least the dump, if it takes no device whose strings are missing.
pub fn an_enumeration_gives_its_dump()
    ensures { SuccessesGiveDumps }
{
    a_device_keeps_its_table();
    an_enumeration_ends_well();
}
