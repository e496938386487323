//! The handle, through which C holds a value of this library.

ghost use Rattle.std.specs.Prelude.{◌≡◌, Option, Some, None, option_map, is_some, IsSome, IsNone};
ghost use Rattle.codec_payload_c_path.specs.declared.object.PathObject.{PathObject as Held};

use crate::loose::Loose;
use crate::object::PathObject;
use std::alloc::Global;
use std::marker::Model;
use std::{mem, ptr};

/// A pointer to a value on the heap, or to nothing. It has no `Drop`, so a place is never dropped together with a value that it
/// owns.
#[repr(C)]
pub struct Place {
    at: *mut u8,
    ghost value: { Option Held },
}

impl Model for Place {
    ghost use Rattle.codec_payload_c_path.specs.Owned.{owns_object};

    ghost also_owns = { λ p. owns_object p.at p.value };
}

// A place may move to another thread with the value that it owns.
unsafe impl Send for Place {}

impl Place {
    fn none() -> Place
        ensures { result.value ≡ None }
    {
        Place {
            at: ptr::null_mut(),
        }
    }

    /// Drops a place that owns nothing.
    fn gone(self)
        requires { IsNone self.value }
    {
        let Place { at: _ } = self;
    }

    fn of_loose(loose: Loose<PathObject, Global>) -> Place
        ensures { result.value ≡ Some loose.value }
    {
        let Loose { at, alloc: _ } = loose;
        Place { at: at as *mut u8 }
    }

    fn into_loose(self, alloc: Global) -> Loose<PathObject, Global>
        requires { IsSome self.value }
        ensures { self.value ≡ Some result.value }
    {
        let Place { at } = self;
        let at = at as *mut PathObject;
        Loose { at, alloc }
    }

    fn of(value: Box<PathObject>) -> Place
        ensures { result.value ≡ Some value.value }
    {
        Place::of_loose(Loose::of(value))
    }

    fn into_box(self, alloc: Global) -> Box<PathObject>
        requires { IsSome self.value }
        ensures { self.value ≡ Some result.value }
    {
        self.into_loose(alloc).into_box()
    }
}

/// A handle in the memory of C. All zero bytes are an empty handle.
#[repr(C)]
pub struct PathHandle {
    full: bool,
    place: Place,
    ghost sound: { full ≡ is_some place.value },
}

impl PathHandle {
    /// Takes the value out of the handle, which is empty after that.
    pub fn take(&mut self, alloc: Global) -> Option<Box<PathObject>>
        ensures value { option_map (λ b. b.value) result ≡ self.old.place.value }
        ensures empty { self.new.place.value ≡ None }
    {
        let empty = PathHandle {
            full: false,
            place: Place::none(),
        };
        let PathHandle { full, place } = mem::replace(self, empty);
        if full {
            Some(place.into_box(alloc))
        } else {
            place.gone();
            None
        }
    }

    /// Puts a value in an empty handle.
    pub fn put(&mut self, value: Box<PathObject>)
        requires { self.old.place.value ≡ None }
        ensures { self.new.place.value ≡ Some value.value }
    {
        let holding = PathHandle {
            full: true,
            place: Place::of(value),
        };
        let PathHandle { full: _, place } = mem::replace(self, holding);
        place.gone();
    }
}

/// Requires a value that may move to another thread.
fn may_leave<T: Send>(_value: &T) {}

/// Proves that a handle may move to another thread.
pub fn handle_may_leave(handle: &PathHandle) {
    may_leave(handle);
}
