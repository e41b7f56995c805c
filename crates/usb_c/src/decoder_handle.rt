//! A decoder that C holds by a pointer.
ghost use Rattle.std.specs.Prelude.{◌≡◌, Option, Some, None};
ghost use Rattle.usb_c.specs.inside.Owning.{held_by, owned};
ghost use Rattle.usb_set.specs.contracts.decoder.Decoder.{the_row};
ghost use Rattle.usb_set.specs.Decoding.{Decoding};

use crate::handle::Handle;
use std::alloc::Global;
use std::marker::Model;
use usb_set::Decoder;

/// A decoder on the heap, or none, which is null. C sees a struct with one pointer in it, since a
/// `Global` takes no bytes, and neither reads nor changes what it points to.
#[repr(C)]
pub struct NzgDecoder {
    at: *mut u8,
    alloc: Global,
    pub ghost held: { Option Decoding },
}

impl Model for NzgDecoder {
    ghost also_owns = { λ h. owned the_row h.alloc h.at h.held };
}

impl NzgDecoder {
    /// None.
    pub(crate) fn empty(alloc: Global) -> NzgDecoder
        ensures { result.held ≡ None }
    {
        NzgDecoder::from_handle(Handle::empty(alloc))
    }

    /// That of a box.
    pub(crate) fn of(value: Box<Decoder>) -> NzgDecoder
        ensures { result.held ≡ Some value.value }
    {
        NzgDecoder::from_handle(Handle::of(value))
    }

    /// The box again, if there is one.
    pub(crate) fn into_box(self) -> Option<Box<Decoder>>
        ensures { held_by result ≡ self.held }
    {
        self.into_handle().into_box()
    }

    fn from_handle(handle: Handle<Decoder>) -> NzgDecoder
        ensures { result.held ≡ handle.held }
    {
        let Handle { at, alloc } = handle;
        NzgDecoder {
            at: at as *mut u8,
            alloc,
        }
    }

    fn into_handle(self) -> Handle<Decoder>
        ensures { result.held ≡ self.held }
    {
        let NzgDecoder { at, alloc } = self;
        Handle {
            at: at as *mut Decoder,
            alloc,
        }
    }
}

impl Drop for NzgDecoder {
    fn drop(self) {
        let _held = self.into_box();
    }
}
