//! A set, built descriptor by descriptor.
ghost use Rattle.std.specs.Prelude.{◌≡◌, ◌≤◌, None, OnOk, OnErr, IfOk, length, true, false};
ghost use Rattle.usb_set.specs.Building.{Adds, BeginsWith, has_setting};
ghost use Rattle.usb_set.specs.Faults.{is_set_type, is_whole, item_fault};
ghost use Rattle.usb_set.specs.Layout.{has_typed_raw};
ghost use Rattle.std.specs.Prelude.{slice_index};

use crate::attachment::{attach, read_configuration};
use crate::descriptor_check::{fault_in_item, is_in_setting};
use crate::fault::SetWhy;
use crate::tree::Configuration;
use std::alloc::{AllocError, Global};
use usb_fields::known_bytes;

/// The set that has this first descriptor and no other. Its wTotalLength is ignored.
///
/// ```rust
/// let set = begin_set(alloc, &[9, 2, 0, 0, 1, 1, 0, 0x80, 50])?;
/// assert_eq!(rt; (set.value, set.power), (1, 50));
/// ```
///
/// # Requires
///
/// The bytes are as many as their bLength says, at least 9, and their bDescriptorType is CONFIGURATION or
/// OTHER_SPEED_CONFIGURATION.
///
/// # Errors
///
/// Out of memory.
pub fn begin_set(alloc: Global, header: &[u8]) -> Result<Configuration, AllocError>
    requires long { 9 ≤ length header.now }
    requires whole { is_whole header.now ≡ true }
    requires kind { is_set_type (slice_index header.now 1) ≡ true }
    ensures begins { IfOk result (λ c. BeginsWith header.now c) }
    ensures raws { IfOk result (λ c. has_typed_raw c ≡ false) }
{
    known_bytes(header);
    read_configuration(alloc, header)
}

/// What is wrong with a whole descriptor as the set's next one, where it has room for `room` bytes more.
///
/// ```rust
/// // An endpoint before any interface.
/// assert_eq!(rt; next_fault(&set, 100, &[7, 5, 0x81, 3, 8, 0, 10]), Some(SetWhy::Stray));
/// ```
pub fn next_fault(set: &Configuration, room: usize, descriptor: &[u8]) -> Option<SetWhy>
    ensures { result ≡ item_fault room (has_setting set.now) descriptor.now }
{
    fault_in_item(room, is_in_setting(set), descriptor)
}

/// Adds a descriptor, which belongs to the nearest one before it that can own it: the set has its descriptors and this
/// one after them. When out of memory the set stays.
///
/// ```rust
/// add_descriptor(alloc, &mut set, &[9, 4, 0, 0, 1, 3, 0, 0, 0])?;
/// assert_eq!(rt; set.settings.len(), 1);
/// ```
///
/// # Requires
///
/// The bytes are as many as their bLength says, and [`next_fault`] finds nothing wrong with them where there is room.
///
/// # Errors
///
/// Out of memory.
pub fn add_descriptor(
    alloc: Global,
    set: &mut Configuration,
    descriptor: &[u8],
) -> Result<(), AllocError>
    requires fine { item_fault (length descriptor.now) (has_setting set.old) descriptor.now ≡ None }
    requires whole { is_whole descriptor.now ≡ true }
    ensures adds { OnOk result (Adds set.old descriptor.now set.new) }
    ensures raws { OnOk result (has_typed_raw set.old ≡ false → has_typed_raw set.new ≡ false) }
    ensures err { OnErr result (set.new ≡ set.old) }
{
    known_bytes(descriptor);
    attach(alloc, set, descriptor[1], &descriptor[2..])
}
