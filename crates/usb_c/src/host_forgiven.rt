//! What a host has passed over.
ghost use Rattle.std.specs.Prelude.{◌≡◌, is_some, slice_get, unwrap_or};
ghost use Rattle.std.specs.Option.{option_map};
ghost use Rattle.usb_c.specs.Hosts.{forgiven_in, trouble_numbers};

use crate::host_handle::NzgHost;
use crate::outcome::{NzgTrouble, trouble_numbers};
use std::alloc::Global;
use std::mem::replace;
use usb_host::Trouble;

/// The trouble of this number, from 0 on, that the host has passed over since the last bus reset: a string that the device
/// refused or that was none. False where there is none: the trouble is then as it was.
#[unsafe(no_mangle)]
pub extern "C" fn nzg_host_forgiven(
    alloc: Global,
    host: &mut NzgHost,
    number: usize,
    trouble: &mut NzgTrouble,
) -> bool
    ensures held { host.new.held ≡ host.old.held }
    ensures trouble { trouble.new ≡ unwrap_or (option_map trouble_numbers (forgiven_in host.old.held number)) trouble.old }
    ensures found { result ≡ is_some (forgiven_in host.old.held number) }
{
    let Some(held) = replace(host, NzgHost::empty(alloc)).into_box() else {
        return false;
    };
    let found = tell_forgiven(held.forgiven(), number, trouble);
    *host = NzgHost::of(held);
    found
}

/// Reports the trouble of this number, if there is one.
fn tell_forgiven(forgiven: &[Trouble], number: usize, trouble: &mut NzgTrouble) -> bool
    ensures trouble { trouble.new ≡ unwrap_or (option_map trouble_numbers (slice_get forgiven.now number)) trouble.old }
    ensures found { result ≡ is_some (slice_get forgiven.now number) }
{
    match forgiven.get(number) {
        Some(passed_over) => {
            *trouble = trouble_numbers(*passed_over);
            true
        }
        None => false,
    }
}
