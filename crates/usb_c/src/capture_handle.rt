//! A reader of a recording that C holds by a pointer.
ghost use Rattle.std.specs.Prelude.{◌≡◌, Option, Some, None};
ghost use Rattle.usb_c.specs.inside.Owning.{held_by, owned};
ghost use Rattle.usb_capture_lines.specs.contracts.recording_reader.RecordingReader.{the_row};
ghost use Rattle.usb_capture_lines.specs.declared.recording_reader.RecordingReader.{RecordingReader};

use crate::handle::Handle;
use std::alloc::Global;
use std::marker::Model;
use usb_capture_lines::RecordingReader;

/// A reader of a recording on the heap, or none, which is null. C sees a struct with one pointer in it, since a
/// `Global` takes no bytes, and neither reads nor changes what it points to.
#[repr(C)]
pub struct NzgCapture {
    at: *mut u8,
    alloc: Global,
    pub ghost held: { Option RecordingReader },
}

impl Model for NzgCapture {
    ghost also_owns = { λ h. owned the_row h.alloc h.at h.held };
}

impl NzgCapture {
    /// None.
    pub(crate) fn empty(alloc: Global) -> NzgCapture
        ensures { result.held ≡ None }
    {
        NzgCapture::from_handle(Handle::empty(alloc))
    }

    /// That of a box.
    pub(crate) fn of(value: Box<RecordingReader>) -> NzgCapture
        ensures { result.held ≡ Some value.value }
    {
        NzgCapture::from_handle(Handle::of(value))
    }

    /// The box again, if there is one.
    pub(crate) fn into_box(self) -> Option<Box<RecordingReader>>
        ensures { held_by result ≡ self.held }
    {
        self.into_handle().into_box()
    }

    fn from_handle(handle: Handle<RecordingReader>) -> NzgCapture
        ensures { result.held ≡ handle.held }
    {
        let Handle { at, alloc } = handle;
        NzgCapture {
            at: at as *mut u8,
            alloc,
        }
    }

    fn into_handle(self) -> Handle<RecordingReader>
        ensures { result.held ≡ self.held }
    {
        let NzgCapture { at, alloc } = self;
        Handle {
            at: at as *mut RecordingReader,
            alloc,
        }
    }
}

impl Drop for NzgCapture {
    fn drop(self) {
        let _held = self.into_box();
    }
}
