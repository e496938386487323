//! A sender: its datagrams byte for byte.

use codec_payload_base::wire::{Codec, ExtensionValues, Frequency, MediaTime};
use codec_payload_codec::codec::{CodecPacketizer, NoBox};
use codec_payload_rtp::values::ExtensionIds;
use codec_payload_sending::sender::{Counts, Sample, Sender, SenderSettings};
use std::process::Abort;
use std::test::Fail;

/// Under payload type 96, in payloads of at most two bytes.
fn settings() -> SenderSettings {
    SenderSettings {
        ssrc: 0x0102_0304,
        payload_type: 96,
        first_number: 65_535,
        clock_rate: Frequency::FORTY_EIGHT_KHZ,
        mtu: 2,
        tailroom: 16,
        extension_ids: ExtensionIds {
            audio_level: Some(6),
            ..ExtensionIds::default()
        },
    }
}

/// Three bytes in two packets (RFC 3550, section 5.1), with the level of the audio (RFC 6464) in the one-byte form of RFC 8285.
const SPOKEN: [&[u8]; 2] = [
    &[
        0x90, 0xe0, 0xff, 0xff, 0, 0, 0x03, 0xc0, 1, 2, 3, 4, 0xbe, 0xde, 0, 1, 0x60, 0x8a, 0, 0,
        0x11, 0x22,
    ],
    &[
        0x90, 0xe0, 0, 0, 0, 0, 0x03, 0xc0, 1, 2, 3, 4, 0xbe, 0xde, 0, 1, 0x60, 0x8a, 0, 0, 0x33,
    ],
];

#[test]
fn a_sample_in_two_datagrams(rt: HostRuntime) -> Result<(), Fail> {
    let pack: CodecPacketizer<NoBox> = CodecPacketizer::from_codec(Codec::Opus).ok_or(
        "no packetizer",
    )?;
    let Ok(mut sender) = Sender::new(rt.alloc(), pack, settings()) else {
        return Err("settings out of range".into());
    };
    let speech = Sample {
        rtp_time: MediaTime::new(960, Frequency::FORTY_EIGHT_KHZ),
        bytes: &[0x11, 0x22, 0x33],
        start_of_talk_spurt: true,
        ext_vals: ExtensionValues {
            audio_level: Some(-10),
            voice_activity: Some(true),
            ..ExtensionValues::default()
        },
    };
    assert!(rt; sender.send(&speech).is_ok());
    assert_eq!(rt; sender.len(), 2);
    for place in 0..sender.len().min(2) {
        assert_eq!(rt; sender.datagram(place), SPOKEN[place], "at {place}");
    }
    let counts = Counts {
        packets: 2,
        octets: 3,
        rtp_time: Some(960),
    };
    assert_eq!(rt; sender.counts(), counts);
    assert_eq!(rt; sender.next_number(), 1);
    Ok(())
}
