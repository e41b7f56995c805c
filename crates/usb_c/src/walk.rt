//! The walk from a descriptor to the next one.
ghost use Rattle.std.specs.Prelude.{◌≡◌, is_some, unwrap_or};
ghost use Rattle.usb_walk.specs.WalkedDescriptors.{next_of};

use usb_walk::WalkedDescriptor;

/// The first descriptor after `{0}`, or the one after another one. False where none can stand there: nothing changes then.
#[unsafe(no_mangle)]
pub extern "C" fn nzg_next(bytes: &[u8], descriptor: &mut WalkedDescriptor) -> bool
    ensures moved { descriptor.new ≡ unwrap_or (next_of bytes.now descriptor.old) descriptor.old }
    ensures found { result ≡ is_some (next_of bytes.now descriptor.old) }
{
    descriptor.next_in(bytes)
}
