//! A run with RED.

use crate::asserts::{assert_bytes, assert_same};
use crate::library::{Ended, buffer_of, bytes_of_units, payloader_of, run_steps, samples_of};
use codec_payload_core::red::{RedReceiver, RedSender};
use codec_payload_core::schedule::{RedRun, Step};
use codec_payload_core::wire::{Codec, Frequency, Pt};
use std::alloc::Global;
use std::test::Fail;

const THREE_SAMPLES: [Step; 9] = [
    Step::Send {
        sample: 0,
        mtu: 1_200,
    },
    Step::Send {
        sample: 1,
        mtu: 1_200,
    },
    Step::Send {
        sample: 2,
        mtu: 1_200,
    },
    Step::Push(1),
    Step::Push(2),
    Step::Pop,
    Step::Pop,
    Step::Pop,
    Step::Pop,
];

/// A run of Opus at 48 kHz with RED, in which each payload of type 63 repeats the one before.
fn run_in_red(alloc: Global, frames: &[&[u8]]) -> Result<Ended, Fail> {
    let mut payloader = payloader_of(Codec::Opus, Frequency::FORTY_EIGHT_KHZ)?;
    let mut buffer = buffer_of(alloc, Codec::Opus)?;
    let (red, primary) = (Pt::new_with_value(63), Pt::new_with_value(96));
    let mut sender = RedSender::new(alloc, red, primary, &[1]);
    let receiver = RedReceiver::new(96, 960).ok_or("no receiver")?;
    let red = RedRun {
        sender: &mut sender,
        budget: 1_200,
        receiver: &receiver,
    };
    let samples = samples_of(alloc, frames)?;
    Ok(run_steps(
        alloc,
        &mut payloader,
        &mut buffer,
        &samples,
        &THREE_SAMPLES,
        Some(red),
    )?)
}

/// The payloads sent in three packets.
const PACKETS: [&[u8]; 3] = [
    &[0x60, 1, 2],
    &[0xe0, 0x0f, 0, 2, 0x60, 1, 2, 3, 4],
    &[0xe0, 0x0f, 0, 2, 0x60, 3, 4, 5],
];

/// Time, marker and number of each unit's packet: the samples start talk spurts, and a recovered packet has no marker.
const TOLD: [(u32, bool, u64); 3] = [(960, false, 10), (1_920, true, 11), (2_880, true, 12)];

#[test]
fn program_red_run(rt: HostRuntime) -> Result<(), Fail> {
    let ended = run_in_red(rt.alloc(), &[&[1, 2], &[3, 4], &[5]])?;
    for (packet, wanted) in ended.sink.packets().iter().zip(&PACKETS) {
        assert_same(&rt, "payload types", &packet.pt, &Pt::new_with_value(63));
        assert_bytes(&rt, "what is sent", &packet.payload, wanted);
    }
    let units = bytes_of_units(rt.alloc(), &ended.run)?;
    assert_bytes(&rt, "what comes out", &units, &[1, 2, 3, 4, 5, 255]);
    for (pop, wanted) in ended.run.pops.iter().zip(&TOLD) {
        if let Some(Ok(unit)) = pop {
            let header = unit.meta()[0].header;
            let told = (header.timestamp, header.marker, unit.meta()[0].seq_no.0);
            assert_same(&rt, "what is told", &told, wanted);
        }
    }
    Ok(())
}
