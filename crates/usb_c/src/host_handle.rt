//! A host that C holds by a pointer.
ghost use Rattle.std.specs.Prelude.{◌≡◌, Option, Some, None};
ghost use Rattle.usb_c.specs.inside.Owning.{held_by, owned};
ghost use Rattle.usb_host.specs.contracts.host.Host.{the_row};
ghost use Rattle.usb_host.specs.Steps.{HostView};

use crate::handle::Handle;
use std::alloc::Global;
use std::marker::Model;
use usb_host::Host;

/// A host on the heap, or none, which is null. C sees a struct with one pointer in it, since a
/// `Global` takes no bytes, and neither reads nor changes what it points to.
#[repr(C)]
pub struct NzgHost {
    at: *mut u8,
    alloc: Global,
    pub ghost held: { Option HostView },
}

impl Model for NzgHost {
    ghost also_owns = { λ h. owned the_row h.alloc h.at h.held };
}

impl NzgHost {
    /// None.
    pub(crate) fn empty(alloc: Global) -> NzgHost
        ensures { result.held ≡ None }
    {
        NzgHost::from_handle(Handle::empty(alloc))
    }

    /// That of a box.
    pub(crate) fn of(value: Box<Host>) -> NzgHost
        ensures { result.held ≡ Some value.value }
    {
        NzgHost::from_handle(Handle::of(value))
    }

    /// The box again, if there is one.
    pub(crate) fn into_box(self) -> Option<Box<Host>>
        ensures { held_by result ≡ self.held }
    {
        self.into_handle().into_box()
    }

    fn from_handle(handle: Handle<Host>) -> NzgHost
        ensures { result.held ≡ handle.held }
    {
        let Handle { at, alloc } = handle;
        NzgHost {
            at: at as *mut u8,
            alloc,
        }
    }

    fn into_handle(self) -> Handle<Host>
        ensures { result.held ≡ self.held }
    {
        let NzgHost { at, alloc } = self;
        Handle {
            at: at as *mut Host,
            alloc,
        }
    }
}

impl Drop for NzgHost {
    fn drop(self) {
        let _held = self.into_box();
    }
}
