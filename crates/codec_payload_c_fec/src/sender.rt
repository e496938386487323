//! Senders of FEC.

ghost use Rattle.std.specs.Prelude.{◌≡◌, ◌≢◌};
ghost use Rattle.codec_payload_c_fec.specs.Senders.{FinishesFrame, PutsFec, SendsPacket, protected, rtp_status, send_status};

use crate::lending::{LentPacket, lend};
use crate::status;
use codec_payload_c_path::object::CallerFecSender;
use codec_payload_c_path::writing::put_packet;
use codec_payload_fec::writing::FecWriter;
use codec_payload_rtp::rtp::RtpError;
use codec_payload_sending_fec::fec_sender::FecSendError;

/// Returns the status for bytes that are not an RTP packet.
fn rtp_status(fault: RtpError) -> u32
    ensures { result ≡ rtp_status fault }
{
    match fault {
        RtpError::HeaderTooShort => status::RTP_HEADER_TOO_SHORT,
        RtpError::WrongVersion => status::RTP_VERSION,
        RtpError::CsrcsTooShort => status::RTP_CSRCS_TOO_SHORT,
        RtpError::ExtensionHeaderTooShort => status::RTP_EXTENSION_HEADER_TOO_SHORT,
        RtpError::ExtensionTooShort => status::RTP_EXTENSION_TOO_SHORT,
        RtpError::PaddingOfZero => status::RTP_PADDING_OF_ZERO,
        RtpError::PaddingTooLong => status::RTP_PADDING_TOO_LONG,
    }
}

/// Returns the status for a packet that is not written.
fn send_status(fault: FecSendError) -> u32
    ensures { result ≡ send_status fault }
{
    match fault {
        FecSendError::Rtp(fault) => rtp_status(fault),
        FecSendError::TooLarge => status::FEC_PACKET_TOO_LARGE,
        FecSendError::OtherStream => status::FEC_OTHER_STREAM,
        FecSendError::PayloadType => status::FEC_PACKET_TYPE,
        FecSendError::TooOld => status::FEC_TOO_OLD,
        FecSendError::OutOfMemory => status::OUT_OF_MEMORY,
    }
}

/// Puts a packet in RED, and lends it.
pub fn push(
    caller: &mut CallerFecSender,
    datagram: &[u8],
    packet: &mut LentPacket,
    ends: &mut bool,
) -> u32
    ensures sends { SendsPacket datagram.now caller.old result (record { before = packet.old; packet = packet.new; ends_before = ends.old; ends = ends.new }) caller.new }
    ensures unchanged { result ≢ 0 → (packet.new ≡ packet.old) × (ends.new ≡ ends.old) }
{
    match caller.sender.push(datagram, &mut caller.packet) {
        Ok(ended) => {
            lend(&caller.packet, packet);
            *ends = ended;
            status::OK
        }
        Err(fault) => send_status(fault),
    }
}

/// Makes the FEC of the frame, and writes how many packets it is.
pub fn finish_frame(caller: &mut CallerFecSender, is_keyframe: bool, count: &mut usize) -> u32
    ensures finishes { FinishesFrame is_keyframe caller.old result count.old count.new caller.new }
    ensures unchanged { result ≢ 0 → count.new ≡ count.old }
{
    match caller.sender.finish_frame(is_keyframe, &mut caller.fec) {
        Ok(()) => {
            *count = caller.fec.len();
            status::OK
        }
        Err(_) => status::OUT_OF_MEMORY,
    }
}

/// Writes a packet of the FEC of the latest frame to the output buffer.
pub fn put_fec(caller: &CallerFecSender, place: usize, bytes: &mut [u8], size: &mut usize) -> u32
    ensures puts { PutsFec place caller.now result (record { before = bytes.old; bytes = bytes.new; size_before = size.old; size = size.new }) }
    ensures untouched { result ≢ 0 → bytes.new ≡ bytes.old }
    ensures unchanged { result ≢ 0 → result ≢ 33 → size.new ≡ size.old }
{
    if place >= caller.fec.len() {
        return status::NONE;
    }
    put_packet(caller.fec.get(place), bytes, size)
}

/// Changes the share of protection, from the next FEC on.
pub fn set_protection(caller: &mut CallerFecSender, protection: u8, keyframe_protection: u8)
    ensures { caller.new ≡ protected protection keyframe_protection caller.old }
{
    caller.sender.set_protection(FecWriter {
        protection,
        keyframe_protection,
    });
}
