//! Ports with FEC.

ghost use Rattle.std.specs.Prelude.{◌≡◌, ◌≢◌};
ghost use Rattle.codec_payload_fec_port.specs.Ports.{counts_of, port_ended, port_restarted};
ghost use Rattle.codec_payload_c_fec.specs.Ports.{HandsOutPacket, TakesDatagram, TellsCounts, counts_told};

use crate::lending::{LentPacket, lend};
use crate::status;
use codec_payload_c_path::object::CallerFecPort;
use codec_payload_fec_port::fec_stream::FecCounts;
use codec_payload_fec_port::plain::Passed;

/// How many packets there were.
#[repr(C)]
#[derive(Clone, Copy)]
pub struct FecCountsInfo {
    /// Packets of media that came, padding among them.
    pub media: u64,
    /// Packets of FEC that came.
    pub fec: u64,
    /// Packets that were rebuilt.
    pub rebuilt: u64,
}

/// Takes a datagram, and lends the packet that passes in its place. If the datagram passes itself, nothing is written.
pub fn receive(caller: &mut CallerFecPort, datagram: &[u8], passed: &mut LentPacket) -> u32
    ensures takes { TakesDatagram datagram.now caller.old result passed.old passed.new caller.new }
    ensures unchanged { result ≢ 0 → passed.new ≡ passed.old }
{
    match caller.port.receive(datagram, &mut caller.passed) {
        Ok(Passed::AsItIs) => status::OK,
        Ok(Passed::Instead) => {
            lend(&caller.passed, passed);
            status::OK
        }
        Err(_) => status::OUT_OF_MEMORY,
    }
}

/// Lends the next packet that was rebuilt.
pub fn next(caller: &mut CallerFecPort, packet: &mut LentPacket) -> u32
    ensures hands_out { HandsOutPacket caller.old result packet.old packet.new caller.new }
    ensures unchanged { result ≢ 0 → packet.new ≡ packet.old }
{
    match caller.port.next_rebuilt() {
        Ok(Some(rebuilt)) => {
            caller.rebuilt = rebuilt;
            lend(&caller.rebuilt, packet);
            status::OK
        }
        Ok(None) => status::NONE,
        Err(_) => status::OUT_OF_MEMORY,
    }
}

/// Drops all packets of a stream.
pub fn restart(caller: &mut CallerFecPort, ssrc: u32)
    ensures { caller.new ≡ record caller.old { port = port_restarted ssrc caller.old.port } }
{
    caller.port.restart(ssrc);
}

/// Ends a stream.
pub fn end(caller: &mut CallerFecPort, ssrc: u32)
    ensures { caller.new ≡ record caller.old { port = port_ended ssrc caller.old.port } }
{
    caller.port.end(ssrc);
}

/// Describes counts for C.
fn counts_told(counts: FecCounts) -> FecCountsInfo
    ensures { result ≡ counts_told counts }
{
    FecCountsInfo {
        media: counts.media,
        fec: counts.fec,
        rebuilt: counts.rebuilt,
    }
}

/// Returns the counts of all streams.
pub fn counts_of_all(caller: &CallerFecPort) -> FecCountsInfo
    ensures { result ≡ counts_told caller.now.port.counts }
{
    counts_told(caller.port.counts())
}

/// Writes the counts of a stream.
pub fn stream_counts(caller: &CallerFecPort, ssrc: u32, counts: &mut FecCountsInfo) -> u32
    ensures tells { TellsCounts (counts_of ssrc caller.now.port.streams) result counts.old counts.new }
    ensures unchanged { result ≢ 0 → counts.new ≡ counts.old }
{
    match caller.port.counts_of(ssrc) {
        Some(of_stream) => {
            *counts = counts_told(of_stream);
            status::OK
        }
        None => status::NONE,
    }
}
