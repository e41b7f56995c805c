//! What holds of two ends over a bus that loses packets and handshakes: how they stand together on the way, what comes of
//! transfers, attempts and talks, and how an enumeration ends.
//!
//! The functions of these laws do nothing: their contracts are the laws.
ghost use Rattle.usb_device.specs.Requests.{answer};
ghost use Rattle.usb_file_data.specs.declared.file.DescriptorFile.{DescriptorFile};
ghost use Rattle.usb_bus.specs.Beside.{IsTable};
ghost use Rattle.usb_bus.specs.Arrivals.{WritesComeOnce};
ghost use Rattle.usb_bus.specs.Laws.{AnyChoiceEndsWell, EnumerationsEndWell, OwnersChangeNoChoice, OwnersChangeNothing, RespondersAreBeside, UsesFates, AttemptsHaveCauses, AttemptsStayTogether, ResetsBringTogether, RespondersAreOneDevice, RespondersKeepTables, TalksAreDetermined, TalksHaveCauses, TestsEndAsKnown, TransfersHaveCauses, TransfersReadOneAnswer, TransfersStayTogether};

use crate::lemmas::{
    a_host_keeps_the_image, a_run_ends_well, all_that_is_there_is_asked, descriptions_are_read,
};

/// A transfer begun at the device's address. The host still waits for its SETUP's ACK, or both ends are in this transfer: the
/// host has kept as many packets as the device counts acknowledged, or one more; of a write the device has kept as many as
/// the host counts acknowledged, or one more; in the status stages either end may be one handshake behind the other. Each
/// strike has a loss of its own.
pub fn both_ends_stay_in_one_transfer()
    ensures { TransfersStayTogether }
{}

/// Transfers by a plan, with no bus reset between them. The law of one transfer holds of the one that is under way, or the ACK of a
/// SET_ADDRESS's status stage was lost, which is one loss at least, and every later transaction is silent.
pub fn an_attempt_stays_together_or_falls_silent()
    ensures { AttemptsStayTogether }
{}

/// Attempts, each after a bus reset, which brings both ends together again: the device is as a new one and the host at its
/// first request, and the law of an attempt holds from there. A failed attempt costs a loss of its own, or more busy
/// transactions than the NAK limit.
pub fn a_reset_brings_both_ends_together()
    ensures { ResetsBringTogether }
{
    an_attempt_stays_together_or_falls_silent();
    an_attempt_has_causes();
}

/// A transfer begun at the device's address. Completed, it brought the device's answer, and the device is in the state that
/// the answer gives, or the ACK of a SET_ADDRESS was lost; or it was a write, whose data came to their owner whole, and he
/// accepted them. Failed, it or its data were refused, or it had three losses, or more busy transactions than the NAK limit.
pub fn a_transfer_has_causes()
    ensures { TransfersHaveCauses }
{}

/// All data of a write come to the device at most once in a transfer, so that its owner judges them once; and just once in one
/// that completed, after its last SETUP.
#[tactic(auto, using(crate::proofs::ArrivedLemmas::come_once))]
pub fn the_data_of_a_write_come_once()
    ensures { WritesComeOnce }
{}

/// Transfers by a plan, with no bus reset between them: a success has all replies, and a failed attempt has a cause. Where
/// the last transfer is no SET_ADDRESS, a success leaves the device in the state that its answers give.
pub fn an_attempt_has_causes()
    ensures { AttemptsHaveCauses }
{}

/// Requests one after another, each with its data, with no bus reset between them: a talk that stops has a cause, and one that
/// doesn't has all replies of the device's table. A write is done where its owner accepts its data.
#[tactic(auto, using(crate::proofs::Talks::talk_ends))]
pub fn a_talk_has_causes()
    ensures { TalksHaveCauses }
{}

/// The same requests under the same fates have one talk, so that a run has no more transactions than there were.
pub fn a_talk_is_determined()
    ensures { TalksAreDetermined }
{}

/// The device's answers to requests are a table that these laws are about. Bytes go to the host and are no more than it
/// asked for, data are taken only where some go to the device, and what is only done has no data stage. SET_ADDRESS changes
/// the address, and nothing else does; a class or vendor request with the same bRequest is another request.
#[tactic(auto, using(crate::proofs::TableLemmas::table_kept))]
pub fn a_device_keeps_its_table()
    ensures { (f : DescriptorFile) → IsTable (answer f) }
{}

/// A device whose owner answers what it refuses, right after each SETUP that was taken, and judges the data of a write right
/// after its last packet, goes step by step as one device does, whose table is the device's own with the owner's answers
/// beside it.
#[tactic(auto, using(crate::proofs::ResponderSteps::one_device))]
pub fn a_responder_makes_one_device()
    ensures { RespondersAreOneDevice }
{}

/// Whatever the owner answers, the device's table with it is a table that these laws are about.
#[tactic(auto, using(crate::proofs::ResponderTables::beside_kept))]
pub fn a_responder_keeps_a_table()
    ensures { RespondersKeepTables }
{}

/// A transfer brings one answer of an owner who answers otherwise at each moment, and never pieces of two; its data are
/// judged by one.
#[tactic(auto, using(crate::proofs::ResponderMoments::one_answer))]
pub fn a_transfer_reads_one_answer()
    ensures { TransfersReadOneAnswer }
{}

/// Over every bus, an enumeration of a device with a description ends with a report of that description and the device
/// configured, or with a cause, and with no attempt and no transaction too many. A host that asks for less reports what it asks
/// for of that description, and passes over no string.
pub fn an_enumeration_ends_well()
    ensures everything { EnumerationsEndWell }
    ensures any_choice { AnyChoiceEndsWell }
{
    no_owner_changes_an_enumeration();
    a_device_keeps_its_table();
}

/// The same holds where the device's owner answers what the device refuses, as far as that is open to him: what an
/// enumeration reads, and how it ends, is not his.
pub fn no_owner_changes_an_enumeration()
    ensures everything { OwnersChangeNothing }
    ensures any_choice { OwnersChangeNoChoice }
{
    a_run_ends_well();
    all_that_is_there_is_asked();
}

/// An owner who answers with bytes is such an owner, whatever he answers.
pub fn a_responder_is_such_an_owner()
    ensures { RespondersAreBeside }
{
    a_device_keeps_its_table();
    a_responder_keeps_a_table();
}

/// An enumeration of a device under test, each of whose answers is allowed beside a device with these descriptors (see
/// [`judge`](usb_device::judge)), is an enumeration of that device: a success has read just these descriptors. It never asks
/// for the status of a device, nor for what the device refuses and an owner may answer, nor for what a device may either do or
/// refuse, so what is allowed there changes nothing of it.
pub fn a_device_under_test_is_known()
    ensures { TestsEndAsKnown }
{
    a_host_keeps_the_image();
    descriptions_are_read();
    an_enumeration_ends_well();
}

/// Of the fates of a list, those that were used lose no more, and are no more often busy.
pub fn used_fates_are_of_the_list()
    ensures { UsesFates }
{}
