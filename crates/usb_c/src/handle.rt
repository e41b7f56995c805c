// A value on the heap by its pointer, or none, which is null. An export takes no struct with a type parameter, so each of
// C's handles is a struct of its own, and this one holds what all of them do.
ghost use Rattle.std.specs.Prelude.{◌≡◌, Option, Some, None};
ghost use Rattle.usb_c.specs.inside.Owning.{held_by, owned};

use std::alloc::Global;
use std::marker::Model;
use std::ptr::null_mut;

pub(crate) struct Handle<T> {
    pub(crate) at: *mut T,
    pub(crate) alloc: Global,
    pub(crate) ghost held: { Option T },
}

impl<T> Model for Handle<T> {
    ghost also_owns = { λ h. owned T.row h.alloc h.at h.held };
}

impl<T: Drop> Handle<T> {
    pub(crate) fn empty(alloc: Global) -> Handle<T>
        ensures { result.held ≡ None }
    {
        Handle {
            at: null_mut(),
            alloc,
        }
    }

    pub(crate) fn of(value: Box<T>) -> Handle<T>
        ensures { result.held ≡ Some value.value }
    {
        let (at, alloc) = Box::into_raw_with_allocator(value);
        Handle { at, alloc }
    }

    pub(crate) fn into_box(self) -> Option<Box<T>>
        ensures { held_by result ≡ self.held }
    {
        let Handle { at, alloc } = self;
        if at.is_null() {
            None
        } else {
            unsafe { Some(Box::from_raw(alloc, at)) }
        }
    }
}
