//! Properties of frames, read from their bytes. No call allocates.

ghost use Rattle.std.specs.Prelude.{◌&&◌, nat_le, drop, length};
ghost use Rattle.codec_payload_media.specs.AmrWbFrames.{frame_at};
ghost use Rattle.codec_payload_media.specs.Av1Units.{obu_at};
ghost use Rattle.codec_payload_media.specs.FrameInfo.{info_of};
ghost use Rattle.codec_payload_vpx.specs.Reading.{told};
ghost use Rattle.codec_payload_vpx.specs.Vp9Superframes.{placed_in, unit_frames};
ghost use Rattle.codec_payload_c_packets.specs.Media.{AtOffset, TellsAmrWbFrame, TellsFrame, TellsObu, TellsVp9Frame, WritesHead, WritesRecord, header_in};
ghost use Rattle.codec_payload_handle.specs.Settings.{codec_numbered};

use codec_payload_c_packets::media::{
    AmrWbFrameInfo, FrameFacts, ObuInfo, Vp9FrameInfo, facts_of, fill_record, header_in, status_of,
};
use codec_payload_handle::bytes::fill;
use codec_payload_handle::settings::codec_of;
use codec_payload_handle::status;
use codec_payload_media::amr_wb::front_frame;
use codec_payload_media::av1::av1c::AV1C_FRONT_LEN;
use codec_payload_media::av1::obu::front_obu;
use codec_payload_media::frame_info::frame_info;
use codec_payload_media::opus::OpusHead;
use codec_payload_media::vp9::frame_at;

/// Reads the properties of a frame of a codec.
#[unsafe(no_mangle)]
pub extern "C" fn cpay_frame_info(codec: u32, frame: &[u8], facts: &mut FrameFacts) -> u32
    ensures { TellsFrame (info_of (codec_numbered codec) frame.now) result facts.old facts.new }
{
    match frame_info(codec_of(codec), frame) {
        Ok(info) => {
            *facts = facts_of(&info);
            status::OK
        }
        Err(error) => status_of(error),
    }
}

/// Reads the OBU at an offset of a temporal unit.
#[unsafe(no_mangle)]
pub extern "C" fn cpay_av1_obu(unit: &[u8], offset: usize, info: &mut ObuInfo) -> u32
    ensures { AtOffset unit.now offset (TellsObu (length unit.now) (obu_at (drop offset unit.now))) result info.old info.new }
{
    let Some(rest) = unit.get(offset..) else {
        return status::INVALID;
    };
    if rest.is_empty() {
        return status::NONE;
    }
    let (obu, behind) = match front_obu(rest) {
        Ok(found) => found,
        Err(error) => return status_of(error),
    };
    let (temporal_id, spatial_id) = match obu.extension {
        Some(extension) => (extension.temporal_id, extension.spatial_id),
        None => (0, 0),
    };
    *info = ObuInfo {
        start: unit
            .len()
            .saturating_sub(behind.len())
            .saturating_sub(obu.payload.len()),
        bytes: obu.payload.len(),
        obu_type: obu.obu_type,
        temporal_id,
        spatial_id,
        has_extension: obu.extension.is_some(),
    };
    status::OK
}

/// Reads the frame at an offset of an AMR-WB unit in storage form.
#[unsafe(no_mangle)]
pub extern "C" fn cpay_amr_wb_frame(unit: &[u8], offset: usize, info: &mut AmrWbFrameInfo) -> u32
    ensures { AtOffset unit.now offset (TellsAmrWbFrame (length unit.now) (frame_at (drop offset unit.now))) result info.old info.new }
{
    let Some(rest) = unit.get(offset..) else {
        return status::INVALID;
    };
    if rest.is_empty() {
        return status::NONE;
    }
    let (frame, behind) = match front_frame(rest) {
        Ok(found) => found,
        Err(error) => return status_of(error),
    };
    *info = AmrWbFrameInfo {
        start: unit.len() - behind.len() - frame.speech.len(),
        bytes: frame.speech.len(),
        frame_type: frame.frame_type,
        quality: frame.quality,
    };
    status::OK
}

/// Finds a frame of a VP9 unit by its index, from 0.
#[unsafe(no_mangle)]
pub extern "C" fn cpay_vp9_frame(unit: &[u8], index: usize, info: &mut Vp9FrameInfo) -> u32
    ensures { TellsVp9Frame (told (placed_in index) (unit_frames unit.now)) result info.old info.new }
{
    match frame_at(unit, index) {
        Ok(Some(found)) => {
            *info = Vp9FrameInfo {
                start: found.start,
                bytes: found.frame.len(),
            };
            status::OK
        }
        Ok(None) => status::NONE,
        Err(error) => status_of(error),
    }
}

/// Writes the `av1C` record of a stream, from its sequence header OBU.
#[unsafe(no_mangle)]
pub extern "C" fn cpay_av1c(obu: &[u8], bytes: &mut [u8], size: &mut usize) -> u32
    ensures { WritesRecord obu.now (header_in obu.now) result bytes.old bytes.new size.old size.new }
{
    let header = match header_in(obu) {
        Ok(header) => header,
        Err(answer) => return answer,
    };
    *size = AV1C_FRONT_LEN + obu.len();
    if fill_record(&header, obu, bytes) {
        status::OK
    } else {
        status::TOO_SMALL
    }
}

/// Writes the identification header of an Opus stream.
#[unsafe(no_mangle)]
pub extern "C" fn cpay_opus_head(
    channels: u8,
    pre_skip: u16,
    input_sample_rate: u32,
    bytes: &mut [u8],
) -> u32
    ensures { WritesHead (nat_le 1 channels && nat_le channels 2) (record { channels = channels; pre_skip = pre_skip; input_sample_rate = input_sample_rate }) result bytes.old bytes.new }
{
    if channels == 0 || channels > 2 {
        return status::INVALID;
    }
    let head = OpusHead {
        channels,
        pre_skip,
        input_sample_rate,
    };
    if fill(bytes, &head.to_bytes()) {
        status::OK
    } else {
        status::TOO_SMALL
    }
}
