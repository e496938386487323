//! Theorems about the numbers, times and packets of a viewer's stream. These functions exist for what they prove; they do nothing.

ghost use Rattle.codec_payload_sending_forward.specs.Forwarding.{RepeatsWhatWasSent};
ghost use Rattle.codec_payload_sending_forward.specs.IdRuns.{FollowsLatestId, KeepsLatestId};
ghost use Rattle.codec_payload_sending_forward.specs.NumberRuns.{KeepsGaps, KeepsNumbers, Renumbers, SendsGiven, SwitchesNext};
ghost use Rattle.codec_payload_sending_forward.specs.Times.{NeverGoesBack, Retimes};
ghost use Rattle.codec_payload_sending_forward.specs.Vp9Numbers.{MovesIds};

/// Proves for each sequence of calls: the number on the wire is the number received plus an offset, less the packets left out
/// before it since the last switch.
pub fn renumbers()
    ensures numbers { Renumbers }
    ensures sent { SendsGiven }
{}

/// Proves that two packets of a stretch have different numbers, as far apart as those of the source, less the packets left out
/// between them. So a loss stays a gap of the same size.
pub fn keeps_gaps()
    ensures { KeepsGaps }
{}

/// Proves that a number keeps its place while other packets come: late packets and retransmissions fit in.
pub fn keeps_numbers()
    ensures { KeepsNumbers }
{}

/// Proves that at a switch the first packet has the number after the highest one so far.
pub fn switches_next()
    ensures { SwitchesNext }
{}

/// Proves for each sequence of calls: the time on the wire is the time received plus an offset, if each packet's time is less than
/// 2^31 ticks from the highest time that was sent before it.
pub fn retimes()
    ensures { Retimes }
{}

/// Proves that the time goes on by the given ticks at a switch, from the highest time that was sent, and never goes back.
pub fn never_goes_back()
    ensures { NeverGoesBack }
{}

/// Proves that a packet is written again as it was sent: its number, its time and its payload stay the same while other packets are
/// written.
pub fn repeats_what_was_sent()
    ensures { RepeatsWhatWasSent }
{}

/// Proves that in a payload of VP9 only PictureID and TL0PICIDX change: the moved payload has the same descriptor with these two
/// fields moved, in their widths, and the same bytes after it.
pub fn moves_vp9_ids()
    ensures { MovesIds }
{}

/// Proves for each sequence of calls: the last PictureID is the one of the packet that has the highest number of all that were sent.
/// Packets may be lost, come late, or be left out above it. The first picture of the next source has the id after it, so no two
/// pictures have one id.
pub fn goes_on_behind_the_latest_picture()
    ensures latest { KeepsLatestId }
    ensures next { FollowsLatestId }
{}
