//! The metadata of the packets of a popped unit, apart from its bytes.

ghost use Rattle.std.specs.Prelude.{◌≡◌, ◌<◌, [], length};
ghost use Rattle.codec_payload_metadata.specs.Release.{AreValues};

use codec_payload_base::wire::ExtensionValues;
use codec_payload_metadata::known::PackedMeta;
use std::alloc::Global;
use std::marker::Model;

/// The metadata of the packets of a popped unit, in memory that is used again; see [`super::PoppedUnit::move_packets`].
#[derive(Debug, Drop)]
pub struct PoppedPackets {
    pub(super) metas: Vec<PackedMeta>,
}

impl Model for PoppedPackets {
    ghost use Rattle.std.specs.Prelude.{List};
    ghost use Rattle.codec_payload_metadata.specs.declared.meta.RtpMeta.{RtpMeta};

    ghost Value = { List RtpMeta };

    ghost view = { λ p. p.metas.items };
}

impl PoppedPackets {
    /// Returns no packets. Allocates nothing.
    pub fn new(alloc: Global) -> Self
        ensures { result ≡ [] }
    {
        PoppedPackets {
            metas: Vec::new(alloc),
        }
    }

    /// Returns their number.
    pub fn packets(&self) -> usize
        ensures { result ≡ length self.now }
    {
        self.metas.len()
    }

    /// Returns the values of header extensions of their unit, as [`super::PoppedUnit::ext_vals`] does.
    pub fn ext_vals(&self) -> ExtensionValues
        requires { 0 < length self.now }
        ensures { AreValues self.now result }
    {
        values_among(&self.metas)
    }
}

/// Returns the values of header extensions of a unit with these packets.
pub(super) fn values_among(metas: &[PackedMeta]) -> ExtensionValues
    requires { 0 < length metas.now }
    ensures { AreValues metas.now result }
{
    let first = metas[0].values();
    let last = metas[metas.len() - 1].values();
    ExtensionValues {
        abs_capture_time: first.abs_capture_time.or(last.abs_capture_time),
        layers_allocation: first.layers_allocation.or(last.layers_allocation),
        ..last
    }
}
