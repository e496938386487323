//! Theorems about all streams. These functions exist for their contracts; they do nothing.

ghost use Rattle.codec_payload_receiver.specs.KeyframeRuns.{DatagramsLeaveTheGate, DropsFollowKeyframes, PopsFollowKeyframes};
ghost use Rattle.codec_payload_receiver.specs.RedOnce.{ReceivesByRule, StoresEachTimeOnce};

/// If a receiver of RED stores two packets or blocks with one RTP time, at most 64 apart, then both are packets. So if all
/// packets have different RTP times, no time is released twice (RFC 2198).
pub fn stores_each_time_once()
    ensures { StoresEachTimeOnce }
{}

/// A receiver of a stream with RED stores the packets and blocks of each datagram by the rule of [`stores_each_time_once`], and
/// remembers their RTP times.
pub fn receives_by_rule()
    ensures { ReceivesByRule }
{}

/// Over every run of a receiver of video, from its first call on:
///
/// - The latest unit is decodable exactly if it is a keyframe, or each unit is decodable to which it may refer: by its dependency
///   descriptors, by the P_DIFFs of VP9 (RFC 9628, section 4.2), by the ids and layers of VP8 (RFC 7741, section 4.2), or else the
///   unit before it, without a gap.
/// - `wants_keyframe` is true exactly if an event since the last keyframe needs a keyframe.
/// - A receiver that drops units passes on only units that are decodable in this sense.
/// - Datagrams and the end of the stream change neither answer.
pub fn pops_follow_keyframes()
    ensures marks { PopsFollowKeyframes }
    ensures drops { DropsFollowKeyframes }
    ensures others { DatagramsLeaveTheGate }
{}
