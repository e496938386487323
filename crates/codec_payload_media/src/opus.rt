//! Opus: packets (RFC 6716, section 3) and the identification header (RFC 7845, section 5.1; docs/use/FORMATS.md, "What a frame says").

ghost use Rattle.std.specs.Prelude.{◌≡◌, ◌*◌, ◌-◌, ◌≤◌, ◌<◌, length, IfOk};
ghost use Rattle.codec_payload_media.specs.OpusPackets.{alike, apart, bandwidth_of, counted_at, frames_at, frames_if, head_bytes, length_at, lengths_at, longest, mode_of, opus_at, ticks_of, unpadded, unpadded_if};
ghost use Rattle.codec_payload_vpx.specs.Reading.{told};

use codec_payload_vpx::error::MediaError;

/// The longest frame, in bytes.
const MAX_FRAME_LEN: usize = 1275;

/// The longest packet, 120 ms, in samples of 48 kHz.
const MAX_PACKET_TICKS: u32 = 5760;

/// The length of an identification header without a table of channels, in bytes.
pub const OPUS_HEAD_LEN: usize = 19;

/// Which coder a packet is of.
#[derive(Clone, Copy, Debug, PartialEq, Eq)]
pub enum OpusMode {
    /// Linear prediction only, for speech.
    Silk,
    /// Both.
    Hybrid,
    /// Transform only, for music and short delays.
    Celt,
}

/// How much of the audible band a packet carries.
#[derive(Clone, Copy, Debug, PartialEq, Eq)]
pub enum OpusBandwidth {
    /// 4 kHz.
    Narrowband,
    /// 6 kHz.
    Mediumband,
    /// 8 kHz.
    Wideband,
    /// 12 kHz.
    SuperWideband,
    /// 20 kHz.
    Fullband,
}

/// What a packet says of its frames.
#[derive(Clone, Copy, Debug, PartialEq, Eq)]
pub struct OpusPacket {
    /// The coder.
    pub mode: OpusMode,
    /// The band.
    pub bandwidth: OpusBandwidth,
    /// 1, or 2 of stereo.
    pub channels: u8,
    /// How long each frame is, in samples of 48 kHz, which are the ticks of the RTP clock: 120 to 2,880.
    pub frame_ticks: u16,
    /// How many frames there are, 1 to 48.
    pub frames: u8,
}

/// The coder of a configuration.
fn mode_of(config: u8) -> OpusMode
    ensures { result ≡ mode_of config }
{
    match config {
        0..=11 => OpusMode::Silk,
        12..=15 => OpusMode::Hybrid,
        _ => OpusMode::Celt,
    }
}

/// The band of a configuration.
fn bandwidth_of(config: u8) -> OpusBandwidth
    ensures { result ≡ bandwidth_of config }
{
    match config {
        0..=3 | 16..=19 => OpusBandwidth::Narrowband,
        4..=7 => OpusBandwidth::Mediumband,
        8..=11 | 20..=23 => OpusBandwidth::Wideband,
        12 | 13 | 24..=27 => OpusBandwidth::SuperWideband,
        _ => OpusBandwidth::Fullband,
    }
}

/// How many samples of 48 kHz a frame of a configuration has.
fn ticks_of(config: u8) -> u16
    requires { config < 32 }
    ensures value { result ≡ ticks_of config }
    ensures least { 120 ≤ result }
    ensures most { result ≤ 2880 }
{
    match config {
        0..=11 => [480, 960, 1920, 2880][usize::from(config % 4)],
        12..=15 => [480, 960][usize::from(config % 2)],
        _ => [120, 240, 480, 960][usize::from(config % 4)],
    }
}

/// `count` frames of one length, together of this size.
fn frames_alike(count: u8, size: usize) -> Result<u8, MediaError>
    requires { 1 ≤ count }
    ensures { result ≡ alike count size }
{
    let each = size / usize::from(count);
    if size % usize::from(count) == 0 && each <= MAX_FRAME_LEN {
        Ok(count)
    } else {
        Err(MediaError::SizesDoNotFit)
    }
}

/// The length of a frame at the front (RFC 6716, section 3.2.1), and the bytes after it.
fn read_length(bytes: &[u8]) -> Result<(usize, &[u8]), MediaError>
    ensures value { told (λ x. (x.0, x.1.now)) result ≡ length_at bytes.now }
    ensures most { IfOk result (λ x. x.0 ≤ 1275) }
{
    let [low, rest @ ..] = bytes else {
        return Err(MediaError::MissingBytes);
    };
    if *low < 252 {
        return Ok((usize::from(*low), rest));
    }
    let [high, rest @ ..] = rest else {
        return Err(MediaError::MissingBytes);
    };
    Ok((usize::from(*low) + 4 * usize::from(*high), rest))
}

/// The sum of the lengths of `count` frames, and the bytes after them.
#[tactic(auto, unfolding(crate::specs::OpusPackets::lengths_at))]
fn read_lengths(count: u8, bytes: &[u8]) -> Result<(usize, &[u8]), MediaError>
    ensures { told (λ x. (x.0, x.1.now)) result ≡ lengths_at count 0 bytes.now }
{
    let mut sum = 0;
    let mut rest = bytes;
    for _ in 0..count {
        let (length, others) = read_length(rest)?;
        sum += length;
        rest = others;
    }
    Ok((sum, rest))
}

/// `count` frames, with a length before them for each except the last.
fn frames_apart(count: u8, bytes: &[u8]) -> Result<u8, MediaError>
    requires { 1 ≤ count }
    ensures { result ≡ apart count bytes.now }
{
    let (sum, rest) = read_lengths(count - 1, bytes)?;
    if rest.len() < sum || MAX_FRAME_LEN < rest.len() - sum {
        return Err(MediaError::SizesDoNotFit);
    }
    Ok(count)
}

/// The bytes between the size of the padding and the padding, which is at the end.
#[tactic(auto, unfolding(crate::specs::OpusPackets::unpadded))]
fn remove_padding(bytes: &[u8]) -> Result<&[u8], MediaError>
    ensures { told (λ x. x.now) result ≡ unpadded (length bytes.now) bytes.now }
{
    let mut room = bytes.len();
    let mut rest = bytes;
    while let [size, others @ ..] = rest {
        let used = 1 + usize::from(*size).min(254);
        if room < used {
            return Err(MediaError::SizesDoNotFit);
        }
        room -= used;
        if *size < 255 {
            let (frames, _) = others.split_at(room);
            return Ok(frames);
        }
        rest = others;
    }
    Err(MediaError::MissingBytes)
}

/// The bytes without their padding, if there is any.
fn remove_padding_if(padded: bool, bytes: &[u8]) -> Result<&[u8], MediaError>
    ensures { told (λ x. x.now) result ≡ unpadded_if padded bytes.now }
{
    if padded {
        remove_padding(bytes)
    } else {
        Ok(bytes)
    }
}

/// The frames of a packet with a frame count, each of this many ticks.
fn frames_counted(ticks: u16, bytes: &[u8]) -> Result<u8, MediaError>
    requires { ticks ≤ 2880 }
    ensures { result ≡ counted_at ticks bytes.now }
{
    let [byte, rest @ ..] = bytes else {
        return Err(MediaError::MissingBytes);
    };
    let count = byte % 64;
    if count == 0 || MAX_PACKET_TICKS < u32::from(count) * u32::from(ticks) {
        return Err(MediaError::ReservedValue);
    }
    let frames = remove_padding_if(byte / 64 % 2 == 1, rest)?;
    if byte / 128 == 1 {
        frames_apart(count, frames)
    } else {
        frames_alike(count, frames.len())
    }
}

impl OpusPacket {
    /// Reads a packet that meets the requirements R1 to R7 of RFC 6716, section 3.4. Reads the first byte, the lengths of frames
    /// and the size of the padding, and does not allocate.
    ///
    /// The first fault from left to right. `MissingBytes`: the packet is empty, or the number of frames, the length of one or the
    /// size of the padding is cut off (R1, R4, R6, R7 of the RFC). `ReservedValue`: no frames, or more than 120 ms (R5).
    /// `SizesDoNotFit`: a frame is longer than 1,275 bytes (R2), frames of one length do not fill the packet (R3, R6), or lengths
    /// exceed the packet (R4, R6, R7).
    pub fn parse(packet: &[u8]) -> Result<OpusPacket, MediaError>
        ensures exact { result ≡ opus_at packet.now }
        ensures some { IfOk result (λ p. 1 ≤ p.frames) }
        ensures longest { IfOk result (λ p. p.frames * p.frame_ticks ≤ longest) }
    {
        let [toc, rest @ ..] = packet else {
            return Err(MediaError::MissingBytes);
        };
        let config = toc / 8;
        let frame_ticks = ticks_of(config);
        let frames = match toc % 4 {
            0 => frames_alike(1, rest.len())?,
            1 => frames_alike(2, rest.len())?,
            2 => frames_apart(2, rest)?,
            _ => frames_counted(frame_ticks, rest)?,
        };
        Ok(OpusPacket {
            mode: mode_of(config),
            bandwidth: bandwidth_of(config),
            channels: toc / 4 % 2 + 1,
            frame_ticks,
            frames,
        })
    }

    /// The duration of the packet, in ticks of the RTP clock, which are samples at 48 kHz. At most 5,760 (120 ms) for a packet from
    /// `parse`.
    pub fn ticks(&self) -> u32
        ensures { result ≡ self.now.frames * self.now.frame_ticks }
    {
        u32::from(self.frames) * u32::from(self.frame_ticks)
    }
}

/// What the identification header of a stream says, of one or two channels in one stream (mapping family 0).
#[derive(Clone, Copy, Debug, PartialEq, Eq)]
pub struct OpusHead {
    /// 1 or 2.
    pub channels: u8,
    /// How many samples of 48 kHz a decoder drops at the start.
    pub pre_skip: u16,
    /// The sampling rate of the input before coding, in Hz; 0 if unknown. It does not determine the decoder's rate.
    pub input_sample_rate: u32,
}

impl OpusHead {
    /// The header as bytes (RFC 7845, section 5.1), with version 1, no gain and mapping family 0. Does not allocate.
    pub fn to_bytes(&self) -> [u8; OPUS_HEAD_LEN]
        requires least { 1 ≤ self.now.channels }
        requires most { self.now.channels ≤ 2 }
        ensures { result ≡ head_bytes self.now }
    {
        let [p0, p1] = self.pre_skip.to_le_bytes();
        let [r0, r1, r2, r3] = self.input_sample_rate.to_le_bytes();
        [
            b'O',
            b'p',
            b'u',
            b's',
            b'H',
            b'e',
            b'a',
            b'd',
            1,
            self.channels,
            p0,
            p1,
            r0,
            r1,
            r2,
            r3,
            0,
            0,
            0,
        ]
    }
}
