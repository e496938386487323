//! The first setting of a session that no session can meet.

ghost use Rattle.std.specs.Prelude.{◌≡◌, ◌≢◌, Bool};
ghost use Rattle.codec_payload_c_receiving.specs.SessionFaults.{ChecksSettings, fault_for_c};
ghost use Rattle.codec_payload_c_receiving.specs.SessionFormats.{is_in_range};

use codec_payload_c_receiving::session_faults::{SettingsFault, first_fault, write_fault};
use codec_payload_c_receiving::session_settings::{SessionFormat, SessionSettings};
use codec_payload_handle::status;
use std::alloc::Global;

/// Reports the first setting that no session can meet. `cpay_session_new` with the same arguments and an empty handle then answers
/// the same, unless memory runs out.
#[unsafe(no_mangle)]
pub extern "C" fn cpay_session_settings_check(
    alloc: Global,
    settings: &SessionSettings,
    formats: &[SessionFormat],
    no_media: &[u8],
    fault: &mut SettingsFault,
) -> u32
    ensures checks { ChecksSettings (fault_for_c settings.now formats.now no_media.now) result fault.old fault.new }
    // `cpay_session_new` accepts exactly settings without a fault.
    ensures accepted { result ≡ 0 → is_in_range settings.now formats.now no_media.now ≡ Bool.true }
    ensures refused { result ≡ 37 → is_in_range settings.now formats.now no_media.now ≡ Bool.false }
    ensures unchanged { result ≢ 0 → result ≢ 37 → fault.new ≡ fault.old }
{
    match first_fault(alloc, settings, formats, no_media) {
        Ok(found) => write_fault(found, fault),
        Err(status) => status,
    }
}
