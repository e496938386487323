//! The lines of the output.

use codec_payload_core::buffer::Depacketized;
use codec_payload_core::error::PacketError;
use codec_payload_core::payload::OutgoingPacket;
use codec_payload_core::schedule::{Run, Sent};
use payload_lines::digits::hex_text;
use std::alloc::{AllocError, Global};
use std::fmt::Write;

/// The lines of a run that sent these packets: what each `Send` step gave, and then what each `Pop` step gave.
pub fn printed(alloc: Global, run: &Run, packets: &[OutgoingPacket]) -> Result<String, AllocError> {
    let mut text = String::new(alloc);
    for sent in &run.sends {
        print_sent(alloc, &mut text, sent, packets)?;
    }
    for popped in &run.pops {
        print_popped(alloc, &mut text, popped)?;
    }
    Ok(text)
}

fn print_sent(
    alloc: Global,
    text: &mut String,
    sent: &Sent,
    packets: &[OutgoingPacket],
) -> Result<(), AllocError> {
    match &sent.fault {
        None => writeln!(text, "sent {}", sent.count)?,
        Some(fault) => writeln!(text, "refused {}", fault.number())?,
    }
    for packet in packets.iter().skip(sent.first).take(sent.count) {
        let number = packet.seq_no.0;
        let marker = u8::from(packet.marker);
        let payload = hex_text(alloc, &packet.payload)?;
        writeln!(text, "packet {number} {marker} {payload}")?;
    }
    Ok(())
}

fn print_popped(
    alloc: Global,
    text: &mut String,
    popped: &Option<Result<Depacketized, PacketError>>,
) -> Result<(), AllocError> {
    match popped {
        None => writeln!(text, "none"),
        Some(Err(fault)) => writeln!(text, "fault {}", fault.number()),
        Some(Ok(unit)) => {
            let numbers = unit.seq_range();
            let first = numbers.start().0;
            let last = numbers.end().0;
            let contiguous = u8::from(unit.contiguous);
            let bytes = hex_text(alloc, &unit.bytes)?;
            writeln!(text, "unit {first} {last} {contiguous} {bytes}")
        }
    }
}
