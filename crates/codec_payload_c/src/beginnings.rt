//! Settings to begin with, by purpose. 1: live media whose lost packets are retransmitted; 2: packets from a file; any other
//! number: live media without retransmission.

ghost use Rattle.std.specs.Prelude.{◌≡◌};
ghost use Rattle.codec_payload_c_receiving.specs.Beginnings.{IsSessionFor, SetsFeedback, live_adaptive_wait, receiver_for};

use codec_payload_c_receiving::adaptive_wait::AdaptiveWaitSettings;
use codec_payload_c_receiving::beginnings::{
    LIMIT, MARK, MAX_UNIT, MILLISECONDS, audio_limits, has_wide_windows, is_video, limits_by,
    live_adaptive_wait, name_fits, no_ids, receiver_that_waits, session_video_limits, set_name,
    unnamed_feedback,
};
use codec_payload_c_receiving::receiver::ReceiverSettings;
use codec_payload_c_receiving::session_names::StreamNameIds;
use codec_payload_c_receiving::session_settings::{SessionSettings, SessionTransport};
use codec_payload_handle::status;

/// Sets how a receiver of this codec begins: windows and wait follow the codec and the purpose.
#[unsafe(no_mangle)]
pub extern "C" fn cpay_receiver_settings_init(
    settings: &mut ReceiverSettings,
    codec: u32,
    rate: u32,
    payload_type: u8,
    purpose: u32,
)
    ensures { settings.new ≡ receiver_for codec rate payload_type purpose }
{
    let limits = limits_by(is_video(codec), purpose);
    let wide = has_wide_windows(codec, purpose);
    *settings = receiver_that_waits(limits, wide, codec, rate, payload_type);
}

/// Sets how a session begins: wait limits follow the purpose, and nothing is requested and reported.
#[unsafe(no_mangle)]
pub extern "C" fn cpay_session_settings_init(settings: &mut SessionSettings, purpose: u32)
    ensures { IsSessionFor purpose settings.new }
{
    *settings = SessionSettings {
        audio: audio_limits(purpose),
        video: session_video_limits(purpose),
        late: live_adaptive_wait(),
        idle_timeout: 30_000,
        bye_wait: 200,
        probation: 2,
        limit: LIMIT,
        max_unit: MAX_UNIT,
        max_streams: 64,
        tick_rate: MILLISECONDS,
        from_keyframe: MARK,
        has_feedback: false,
        feedback: unnamed_feedback(),
        extension_ids: no_ids(),
        has_transport: false,
        transport: SessionTransport {
            interval: 100,
            size: 1_100,
            window: 2_048,
            extension_id: 0,
        },
        name_ids: StreamNameIds {
            mid: 0,
            rid: 0,
            repaired_rid: 0,
        },
        dependency_descriptor: 0,
    };
}

/// Sets that a session sends feedback, with this SSRC and this canonical name of 1 to 255 bytes.
#[unsafe(no_mangle)]
pub extern "C" fn cpay_session_settings_feedback(
    settings: &mut SessionSettings,
    ssrc: u32,
    cname: &[u8],
) -> u32
    ensures { SetsFeedback ssrc cname.now result settings.old settings.new }
{
    if !name_fits(cname) {
        return status::INVALID;
    }
    set_name(settings, ssrc, cname);
    status::OK
}

/// Sets how an adaptive wait begins, for live media and a clock of milliseconds.
#[unsafe(no_mangle)]
pub extern "C" fn cpay_adaptive_wait_settings_init(settings: &mut AdaptiveWaitSettings)
    ensures { settings.new ≡ live_adaptive_wait }
{
    *settings = live_adaptive_wait();
}
