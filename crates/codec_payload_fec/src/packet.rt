//! Packets of FEC (RFC 5109, section 7).

ghost use Rattle.std.specs.Prelude.{◌≡◌, ◌++◌, ◌==◌, IsTrue, OnErr, OnOk, false, length, take, true};
ghost use Rattle.codec_payload_base.specs.Answers.{seen};
ghost use Rattle.codec_payload_fec.specs.Fec.{continued_bytes, fec_bytes, fec_fits, front_bytes, mask_of};
ghost use Rattle.codec_payload_fec.specs.FecReading.{fec_at, fec_of, level_at, level_of, level_with};

use std::alloc::AllocError;
use thiserror::Error;

/// A packet of FEC that was read: the payload of its RTP packet, or of its block of RED. It borrows the bytes; reading does not allocate.
#[derive(Clone, Copy, Debug, PartialEq, Eq)]
pub struct FecPacket<'a> {
    /// SN base: the number of the first bit of the mask.
    pub base: u16,
    /// The mask. Bit 15 stands for the number `base`, bit 0 for the number 15 after it.
    pub mask: u16,
    /// The mask's further bits, if L is set. Bit 31 stands for the number 16 after `base`, bit 0 for the number 47 after it.
    pub mask_continued: Option<u32>,
    /// P, X and CC recovery: 0 to 63.
    pub first: u8,
    /// M and PT recovery.
    pub second: u8,
    /// TS recovery.
    pub time: u32,
    /// Length recovery.
    pub length: u16,
    /// The payload of level 0: at most 65,535 bytes.
    pub payload: &'a [u8],
    /// The bytes after level 0: further levels. They are not interpreted.
    pub further: &'a [u8],
}

/// Why bytes are not a packet of FEC: the first fault in reading order.
#[derive(Clone, Copy, Debug, PartialEq, Eq, Error)]
pub enum FecFault {
    /// There are fewer than the 10 bytes of the FEC header.
    #[error("packet of FEC is shorter than its header")]
    HeaderTooShort,
    /// E is set: the RFC reserves it for extensions.
    #[error("packet of FEC has its extension flag set")]
    Extended,
    /// The bytes end inside the header of level 0: 4 bytes, or 8 if L is set.
    #[error("packet of FEC ends inside the header of level 0")]
    LevelTooShort,
    /// No bit of the mask is set: it protects no packet.
    #[error("packet of FEC protects no packet")]
    EmptyMask,
    /// The bytes end inside the payload of level 0.
    #[error("packet of FEC ends inside the payload of level 0")]
    PayloadTooShort,
}

/// The mask and the payload of level 0.
#[derive(Clone, Copy)]
struct Level<'a> {
    mask: u16,
    mask_continued: Option<u32>,
    payload: &'a [u8],
    further: &'a [u8],
}

/// Returns a mask as 48 bits.
fn mask_of(mask: u16, continued: Option<u32>) -> u64
    ensures { result ≡ mask_of mask continued }
{
    let low = match continued {
        None => 0,
        Some(continued) => continued,
    };
    u64::from(mask) * 4_294_967_296 + u64::from(low)
}

/// Cuts the payload off.
fn level_with(
    mask: u16,
    mask_continued: Option<u32>,
    size: u16,
    bytes: &[u8],
) -> Result<Level<'_>, FecFault>
    ensures { seen level_of result ≡ level_with mask mask_continued size bytes.now }
{
    if mask_of(mask, mask_continued) == 0 {
        return Err(FecFault::EmptyMask);
    }
    let size = usize::from(size);
    if bytes.len() < size {
        return Err(FecFault::PayloadTooShort);
    }
    let (payload, further) = bytes.split_at(size);
    Ok(Level {
        mask,
        mask_continued,
        payload,
        further,
    })
}

/// Reads a level with a mask of 48 bits.
#[tactic(auto, unfolding(crate::specs::FecReading::level_at))]
fn read_long(bytes: &[u8]) -> Result<Level<'_>, FecFault>
    ensures { seen level_of result ≡ level_at true bytes.now }
{
    let [p1, p0, m1, m0, c3, c2, c1, c0, rest @ ..] = bytes else {
        return Err(FecFault::LevelTooShort);
    };
    let size = u16::from_be_bytes([*p1, *p0]);
    let mask = u16::from_be_bytes([*m1, *m0]);
    let continued = u32::from_be_bytes([*c3, *c2, *c1, *c0]);
    level_with(mask, Some(continued), size, rest)
}

/// Reads a level with a mask of 16 bits.
#[tactic(auto, unfolding(crate::specs::FecReading::level_at))]
fn read_short(bytes: &[u8]) -> Result<Level<'_>, FecFault>
    ensures { seen level_of result ≡ level_at false bytes.now }
{
    let [p1, p0, m1, m0, rest @ ..] = bytes else {
        return Err(FecFault::LevelTooShort);
    };
    let size = u16::from_be_bytes([*p1, *p0]);
    let mask = u16::from_be_bytes([*m1, *m0]);
    level_with(mask, None, size, rest)
}

/// Reads a level.
fn read_level(is_long: bool, bytes: &[u8]) -> Result<Level<'_>, FecFault>
    ensures { seen level_of result ≡ level_at is_long bytes.now }
{
    if is_long {
        read_long(bytes)
    } else {
        read_short(bytes)
    }
}

/// Appends the further bits of a mask, if there are any.
fn write_continued(continued: Option<u32>, out: &mut Vec<u8>) -> Result<(), AllocError>
    ensures written { OnOk result (out.new.items ≡ out.old.items ++ continued_bytes continued) }
    ensures kept { take (length out.old.items) out.new.items ≡ out.old.items }
{
    match continued {
        None => Ok(()),
        Some(continued) => out.extend_from_slice(&continued.to_be_bytes()),
    }
}

impl<'a> FecPacket<'a> {
    /// Reads the payload of a packet of FEC: the FEC header, and level 0. Bytes after level 0 are returned as `further`.
    ///
    /// # Errors
    ///
    /// The first fault in reading order.
    #[tactic(auto, unfolding(crate::specs::FecReading::fec_at))]
    pub fn read(bytes: &'a [u8]) -> Result<FecPacket<'a>, FecFault>
        ensures { seen fec_of result ≡ fec_at bytes.now }
    {
        let [b0, b1, n1, n0, t3, t2, t1, t0, l1, l0, rest @ ..] = bytes else {
            return Err(FecFault::HeaderTooShort);
        };
        if *b0 >= 128 {
            return Err(FecFault::Extended);
        }
        match read_level(*b0 >= 64, rest) {
            Err(fault) => Err(fault),
            Ok(level) => Ok(FecPacket {
                base: u16::from_be_bytes([*n1, *n0]),
                mask: level.mask,
                mask_continued: level.mask_continued,
                first: *b0 % 64,
                second: *b1,
                time: u32::from_be_bytes([*t3, *t2, *t1, *t0]),
                length: u16::from_be_bytes([*l1, *l0]),
                payload: level.payload,
                further: level.further,
            }),
        }
    }

    /// Returns the mask as 48 bits. Bit 47 stands for the number `base`, bit 0 for the number 47 after it.
    pub fn mask_bits(&self) -> u64
        ensures { result ≡ mask_of self.now.mask self.now.mask_continued }
    {
        mask_of(self.mask, self.mask_continued)
    }

    /// Returns whether the packet can be written: `first` is below 64, the payload has at most 65,535 bytes, and a bit of the mask is
    /// set. A packet that was read fits.
    pub fn fits(&self) -> bool
        ensures { result ≡ fec_fits (fec_of self.now) }
    {
        self.first < 64 && self.payload.len() < 65_536 && self.mask_bits() > 0
    }

    /// Returns the FEC header, and the length and the first 16 bits of the mask of level 0.
    fn heads(&self) -> [u8; 14]
        requires { IsTrue (fec_fits (fec_of self.now)) }
        ensures { result ≡ front_bytes (fec_of self.now) }
    {
        let long = match self.mask_continued {
            None => 0,
            Some(_) => 64,
        };
        let [n1, n0] = self.base.to_be_bytes();
        let [t3, t2, t1, t0] = self.time.to_be_bytes();
        let [l1, l0] = self.length.to_be_bytes();
        let [p1, p0] = (self.payload.len() as u16).to_be_bytes();
        let [m1, m0] = self.mask.to_be_bytes();
        let first = long + self.first;
        [
            first,
            self.second,
            n1,
            n0,
            t3,
            t2,
            t1,
            t0,
            l1,
            l0,
            p1,
            p0,
            m1,
            m0,
        ]
    }

    /// Writes the parts one after another.
    fn write_parts(&self, out: &mut Vec<u8>) -> Result<(), AllocError>
        requires { IsTrue (fec_fits (fec_of self.now)) }
        ensures written { OnOk result (out.new.items ≡ out.old.items ++ fec_bytes (fec_of self.now)) }
        ensures kept { take (length out.old.items) out.new.items ≡ out.old.items }
    {
        out.extend_from_slice(&self.heads())?;
        write_continued(self.mask_continued, out)?;
        out.extend_from_slice(self.payload)?;
        out.extend_from_slice(self.further)
    }

    /// Appends the bytes of the packet: 14, 4 more if there is `mask_continued`, the payload, and `further`. They are read again as this
    /// packet.
    ///
    /// # Errors
    ///
    /// Out of memory: `out` is unchanged.
    pub fn write(&self, out: &mut Vec<u8>) -> Result<(), AllocError>
        requires { IsTrue (fec_fits (fec_of self.now)) }
        ensures ok { OnOk result (out.new.items ≡ out.old.items ++ fec_bytes (fec_of self.now)) }
        ensures err { OnErr result (out.new.items ≡ out.old.items) }
    {
        let len = out.len();
        let answer = self.write_parts(out);
        if answer.is_err() {
            out.truncate(len);
        }
        answer
    }
}
