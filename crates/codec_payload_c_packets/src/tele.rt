//! Reports on telephone events (RFC 4733, section 2.3).

ghost use Rattle.std.specs.Prelude.{◌≡◌, slice_get};

use codec_payload_core::tele::{TelephoneEvent, TelephoneEvents};

/// Returns the report with this index, if there is one.
pub fn report_at(reports: &mut TelephoneEvents, index: usize) -> Option<TelephoneEvent>
    ensures { result ≡ slice_get reports.old index }
{
    reports.nth(index)
}
