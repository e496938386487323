//! Exclusive or of byte strings, and of bit strings of packets.

ghost use Rattle.std.specs.Prelude.{◌≡◌, ◌++◌, ◌-◌, IfOk, OnOk, length, replicate, take};
ghost use Rattle.std.specs.Option.{option_map};
ghost use Rattle.codec_payload_fec.specs.FecReading.{fec_of};
ghost use Rattle.codec_payload_fec.specs.Rebuilding.{bytes_of, packet_of};
ghost use Rattle.codec_payload_fec.specs.Strings.{added, bit_string, no_bits, xor, xor_bytes};
ghost use Rattle.codec_payload_fec.specs.Sums.{sum_of};

use crate::packet::FecPacket;
use codec_payload_rtp::rtp::RtpPacket;
use std::alloc::{AllocError, Global};

/// Adds bytes to a sum by exclusive or. Bytes beyond the end of the sum are left out.
pub(crate) fn xor_into(sum: &mut [u8], bytes: &[u8])
    ensures { sum.new ≡ take (length sum.old) (xor_bytes sum.old bytes.now) }
{
    let count = sum.len().min(bytes.len());
    for i in 0..count {
        sum[i] ^= bytes[i];
    }
}

/// Appends zeros up to that length.
fn pad(bytes: &mut Vec<u8>, size: usize) -> Result<(), AllocError>
    ensures { OnOk result (bytes.new.items ≡ bytes.old.items ++ replicate (size - length bytes.old.items) 0) }
{
    let len = bytes.len();
    if len < size {
        bytes.resize(size, 0)?;
    }
    Ok(())
}

/// The exclusive or of bit strings: the fields of the fixed header that FEC protects, the length of what is after it, and these bytes.
#[derive(Drop)]
pub(crate) struct Sum {
    pub(crate) first: u8,
    pub(crate) second: u8,
    pub(crate) time: u32,
    pub(crate) size: u16,
    pub(crate) bytes: Vec<u8>,
}

impl Sum {
    /// Returns the sum of no bit strings. Does not allocate.
    pub(crate) fn zeros(alloc: Global) -> Sum
        ensures { sum_of result ≡ no_bits }
    {
        Sum {
            first: 0,
            second: 0,
            time: 0,
            size: 0,
            bytes: Vec::new(alloc),
        }
    }

    /// Adds the bit string of a packet. The sum becomes as long as the longer one of the two.
    pub(crate) fn add_whole(&mut self, packet: &[u8]) -> Result<(), AllocError>
        ensures { OnOk result (sum_of self.new ≡ xor (sum_of self.old) (bit_string packet.now)) }
    {
        pad(&mut self.bytes, packet.len().saturating_sub(12))?;
        self.add(packet);
        Ok(())
    }

    /// Returns the recovery fields of a packet of FEC, and a copy of its payload.
    pub(crate) fn of(alloc: Global, fec: &FecPacket<'_>) -> Result<Sum, AllocError>
        ensures { IfOk result (λ s. sum_of s ≡ (fec_of fec.now).recovery) }
    {
        Ok(Sum {
            first: fec.first,
            second: fec.second,
            time: fec.time,
            size: fec.length,
            bytes: Vec::from_slice(alloc, fec.payload)?,
        })
    }

    /// Adds the bit string of a packet. Bytes beyond the end of the sum are left out.
    #[tactic(auto, unfolding(crate::specs::Strings::bit_string))]
    pub(crate) fn add(&mut self, packet: &[u8])
        ensures { sum_of self.new ≡ added packet.now (sum_of self.old) }
    {
        let [
            b0,
            b1,
            _n1,
            _n0,
            t3,
            t2,
            t1,
            t0,
            _c3,
            _c2,
            _c1,
            _c0,
            rest @ ..,
        ] = packet
        else {
            return;
        };
        self.first ^= *b0 % 64;
        self.second ^= *b1;
        self.time ^= u32::from_be_bytes([*t3, *t2, *t1, *t0]);
        self.size ^= (rest.len() % 65_536) as u16;
        xor_into(self.bytes.as_mut_slice(), rest);
    }

    /// Returns the first 12 bytes of the packet with this number, this SSRC and these bits.
    fn fixed_header(&self, number: u16, ssrc: u32) -> [u8; 12]
        ensures { result ≡ take 12 (bytes_of number ssrc (sum_of self.now)) }
    {
        let [n1, n0] = number.to_be_bytes();
        let [t3, t2, t1, t0] = self.time.to_be_bytes();
        let [c3, c2, c1, c0] = ssrc.to_be_bytes();
        let first = 128 + self.first % 64;
        [first, self.second, n1, n0, t3, t2, t1, t0, c3, c2, c1, c0]
    }

    /// Returns the packet with this number, this SSRC and these bits. `None`: its length passes the end of the bits, or the bytes are not
    /// an RTP packet.
    #[tactic(auto, unfolding(crate::specs::Rebuilding::packet_of))]
    pub(crate) fn packet(
        &self,
        alloc: Global,
        number: u16,
        ssrc: u32,
    ) -> Result<Option<Vec<u8>>, AllocError>
        ensures { IfOk result (λ p. option_map (λ v. v.items) p ≡ packet_of number ssrc (sum_of self.now)) }
    {
        let size = usize::from(self.size);
        if self.bytes.len() < size {
            return Ok(None);
        }
        let mut packet = Vec::with_capacity(alloc, 12 + size)?;
        packet.extend_from_slice(&self.fixed_header(number, ssrc))?;
        packet.extend_from_slice(&self.bytes.as_slice()[..size])?;
        let is_packet = RtpPacket::parse(packet.as_slice()).is_ok();
        if is_packet {
            Ok(Some(packet))
        } else {
            Ok(None)
        }
    }
}
