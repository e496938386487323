//! Freezes of a video, by the rule of the W3C.

ghost use Rattle.std.specs.Prelude.{◌≡◌};
ghost use Rattle.codec_payload_c_packets.specs.Freezes.{freezes_told};

use codec_payload_feedback_freezes::freezes::FreezeCounts;

/// What was counted. Each is modulo 2^64.
#[repr(C)]
#[derive(Drop)]
pub struct FreezeCountsInfo {
    /// How many frames were frozen.
    pub freezes: u64,
    /// How long these frames were shown, in ticks.
    pub frozen: u64,
}

/// Returns the counts for C.
pub fn freezes_told(counts: FreezeCounts) -> FreezeCountsInfo
    ensures { result ≡ freezes_told counts }
{
    FreezeCountsInfo {
        freezes: counts.freezes,
        frozen: counts.frozen,
    }
}
