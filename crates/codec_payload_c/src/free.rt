//! Releasing the contents of a handle.

ghost use Rattle.std.specs.Prelude.{◌≡◌, None};

use codec_payload_handle::handle::Handle;
use std::alloc::Global;

/// Releases the contents of the handle, if it has any.
#[unsafe(no_mangle)]
pub extern "C" fn cpay_free(alloc: Global, handle: &mut Handle)
    ensures { handle.new.place.value ≡ None }
{
    drop(handle.take(alloc));
}
