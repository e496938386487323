//! A port with FEC.

ghost use Rattle.std.specs.Prelude.{◌≡◌, ◌<◌, ◌⊎◌, [], ◌∷◌, ◌++◌, IfErr, IfOk, IfSome, None, OnErr, OnOk, Some, is_some, length, vec_capacity, vec_len};
ghost use Rattle.std.specs.Option.{option_map};
ghost use Rattle.std.specs.List.{position};
ghost use Rattle.codec_payload_rtp.specs.RtpValues.{packet_of};
ghost use Rattle.codec_payload_fec_port.specs.Plain.{Passes, plain_of};
ghost use Rattle.codec_payload_fec_port.specs.Ports.{added, began, begins, changed, cleared_of, counts_of, ended, fetched, fetched_of, found, handed, held_of, is_waiting, left, new_port, noted, port_ended, port_received, port_restarted, rebuilt_of, taken_in, took_kind, took_known, tried, tried_of, without_waiting};
ghost use Rattle.codec_payload_fec_port.specs.Settings.{fault_of};
ghost use Rattle.codec_payload_fec_port.specs.Streams.{fed, is_of, may_go, rebuilt_in, restarted, tried_in};

use crate::cleared::cleared_at;
use crate::fec_stream::{FecCounts, FecStream, counted, no_counts, with_rebuilt};
use crate::plain::{Kind, Passed, kind_of, packet_at, write_plain};
use crate::port_settings::{FecPortSettings, FecPortSettingsError};
use codec_payload_rtp::rtp::RtpPacket;
use std::alloc::{AllocError, Global};
use std::marker::Model;

/// A packet that was rebuilt and not handed out yet.
#[derive(Drop)]
struct Rebuilt {
    ssrc: u32,
    packet: Vec<u8>,
}

/// Error correction for the streams of a port, in front of a session, a forwarder or a receiver.
///
/// Pass each datagram to [`FecPort::receive`] as it comes, and what it answers to the session. Then pass the session what
/// [`FecPort::next_rebuilt`] returns, until it returns `None`. List the payload type of ULPFEC in `no_media` of the session's settings.
///
/// # Streams
///
/// A stream is an SSRC. It begins with its first packet of RED with one block, or of FEC. If there are [`FecPortSettings::max_streams`], it
/// takes the place of the first stream, in the order in which they began, that has fewer than 16 packets of media and fewer than 16 of
/// FEC, or that had no packet among the latest 16,384 of all streams. If there is none, it does not begin: its packets pass, and none of
/// them is rebuilt.
#[derive(Drop)]
pub struct FecPort {
    alloc: Global,
    settings: FecPortSettings,
    streams: Vec<FecStream>,
    /// The SSRC of the stream that had the latest packet.
    latest: Option<u32>,
    /// How many packets the streams had.
    taken: u64,
    counts: FecCounts,
    waiting: Option<Rebuilt>,
}

impl Model for FecPort {
    ghost use Rattle.std.specs.Option.{option_map};
    ghost use Rattle.codec_payload_fec_port.specs.Ports.{Port, held_of};

    ghost Value = { Port };

    ghost view = { λ s. record { settings = s.settings; streams = s.streams.items; latest = s.latest; taken = s.taken; counts = s.counts; waiting = option_map held_of s.waiting } };
}

/// Returns the place of the stream with this SSRC.
fn place_of(ssrc: u32, streams: &[FecStream]) -> Option<usize>
    ensures value { result ≡ position (is_of ssrc) streams.now }
    ensures within { IfSome result (λ place. place < length streams.now) }
{
    streams.iter().position(|stream| stream.ssrc == ssrc)
}

/// Returns the place of the first stream that a stream that begins may replace.
fn place_to_replace(taken: u64, streams: &[FecStream]) -> Option<usize>
    ensures value { result ≡ position (may_go taken) streams.now }
    ensures within { IfSome result (λ place. place < length streams.now) }
{
    streams.iter().position(|stream| stream.may_go(taken))
}

/// Has the stream with this SSRC take a packet.
fn feed_one(
    ssrc: u32,
    kind: Kind,
    taken: u64,
    datagram: &[u8],
    streams: &mut [FecStream],
) -> Result<(), AllocError>
    ensures ok { OnOk result (streams.new ≡ changed ssrc (fed kind taken datagram.now) streams.old) }
    ensures err { OnErr result (streams.new ≡ streams.old) }
{
    match place_of(ssrc, streams) {
        None => Ok(()),
        Some(place) => streams[place].feed(kind, taken, datagram),
    }
}

/// Returns a packet that was rebuilt of the stream with this SSRC, as FEC protects it.
fn next_of_one(ssrc: u32, streams: &mut [FecStream]) -> Result<Option<Vec<u8>>, AllocError>
    ensures packet { IfOk result (λ p. option_map (λ v. v.items) p ≡ rebuilt_of ssrc streams.old) }
    ensures ok { OnOk result (streams.new ≡ changed ssrc (λ t. (rebuilt_in t).1) streams.old) }
    ensures err { OnErr result (streams.new ≡ changed ssrc tried_in streams.old) }
{
    match place_of(ssrc, streams) {
        None => Ok(None),
        Some(place) => streams[place].next(),
    }
}

/// Drops the packets of the stream with this SSRC.
fn restart_one(ssrc: u32, streams: &mut [FecStream])
    ensures { streams.new ≡ changed ssrc restarted streams.old }
{
    match place_of(ssrc, streams) {
        None => {}
        Some(place) => streams[place].restart(),
    }
}

/// Removes the stream with this SSRC.
fn end_one(ssrc: u32, streams: &mut Vec<FecStream>)
    ensures { streams.new.items ≡ ended ssrc streams.old.items }
{
    match place_of(ssrc, streams.as_slice()) {
        None => {}
        Some(place) => {
            streams.remove(place);
        }
    }
}

/// Returns whether there is a stream with this SSRC.
fn is_known(ssrc: u32, streams: &[FecStream]) -> bool
    ensures { result ≡ is_some (found ssrc streams.now) }
{
    match place_of(ssrc, streams) {
        None => false,
        Some(_) => true,
    }
}

/// Returns the counts of the stream with this SSRC.
fn counts_in(ssrc: u32, streams: &[FecStream]) -> Option<FecCounts>
    ensures { result ≡ counts_of ssrc streams.now }
{
    match place_of(ssrc, streams) {
        None => None,
        Some(place) => Some(streams[place].counts),
    }
}

/// Removes the stream at a place, if one is given.
fn remove_at(leaving: Option<usize>, streams: &mut Vec<FecStream>)
    requires within { IfSome leaving (λ place. place < length streams.old.items) }
    requires room { vec_len streams.old < vec_capacity streams.old }
    ensures items { streams.new.items ≡ left leaving streams.old.items }
    ensures room { vec_len streams.new < vec_capacity streams.new }
{
    if let Some(place) = leaving {
        streams.remove(place);
    }
}

/// Appends a stream, and removes the one at a place, if one is given.
fn put(
    leaving: Option<usize>,
    stream: FecStream,
    streams: &mut Vec<FecStream>,
) -> Result<(), AllocError>
    requires { IfSome leaving (λ place. place < length streams.old.items) }
    ensures ok { OnOk result (streams.new.items ≡ left leaving streams.old.items ++ stream ∷ []) }
    ensures err { OnErr result (streams.new.items ≡ streams.old.items) }
{
    streams.reserve(1)?;
    remove_at(leaving, streams);
    streams.push(stream).unwrap();
    Ok(())
}

/// Returns whether a packet that waits has this SSRC.
fn is_of(ssrc: u32, waiting: &Option<Rebuilt>) -> bool
    ensures { result ≡ is_waiting ssrc (option_map held_of waiting.now) }
{
    match waiting {
        None => false,
        Some(rebuilt) => rebuilt.ssrc == ssrc,
    }
}

impl FecPort {
    /// Returns a port without streams. Does not allocate; a stream takes 16 kB when it begins.
    ///
    /// # Errors
    ///
    /// The fault of the settings ([`FecPortSettings::check`]).
    pub fn new(alloc: Global, settings: FecPortSettings) -> Result<FecPort, FecPortSettingsError>
        ensures ok { IfOk result (λ s. (fault_of settings ≡ None) × (s ≡ new_port settings)) }
        ensures fault { IfErr result (λ fault. fault_of settings ≡ Some fault) }
    {
        settings.check()?;
        Ok(FecPort {
            alloc,
            settings,
            streams: Vec::new(alloc),
            latest: None,
            taken: 0,
            counts: no_counts(),
            waiting: None,
        })
    }

    /// Returns how many packets all streams had, those that ended among them.
    pub fn counts(&self) -> FecCounts
        ensures { result ≡ self.now.counts }
    {
        self.counts
    }

    /// Returns how many packets the stream with this SSRC had since it began. `None`: there is none.
    pub fn counts_of(&self, ssrc: u32) -> Option<FecCounts>
        ensures { result ≡ counts_of ssrc self.now.streams }
    {
        counts_in(ssrc, self.streams.as_slice())
    }

    /// Notes a packet of the stream with this SSRC.
    fn note(&mut self, kind: Kind, ssrc: u32)
        ensures { self.new ≡ noted kind ssrc self.old }
    {
        self.latest = Some(ssrc);
        self.taken = self.taken.wrapping_add(1);
        self.counts = counted(kind, self.counts);
    }

    /// Takes a packet of a stream.
    fn take_known(&mut self, kind: Kind, ssrc: u32, datagram: &[u8]) -> Result<(), AllocError>
        ensures ok { OnOk result (self.new ≡ took_known kind ssrc datagram.now self.old) }
        ensures err { OnErr result (self.new ≡ self.old) }
    {
        let taken = self.taken;
        feed_one(ssrc, kind, taken, datagram, self.streams.as_mut_slice())?;
        self.note(kind, ssrc);
        Ok(())
    }

    /// Adds a stream with this packet, in the place of another one if a place is given.
    fn add(
        &mut self,
        kind: Kind,
        ssrc: u32,
        datagram: &[u8],
        leaving: Option<usize>,
    ) -> Result<(), AllocError>
        requires { IfSome leaving (λ place. place < length self.old.streams) }
        ensures ok { OnOk result (self.new ≡ added kind ssrc datagram.now (left leaving self.old.streams) self.old) }
        ensures err { OnErr result (self.new ≡ self.old) }
    {
        let mut stream = FecStream::new(self.alloc, &self.settings, ssrc)?;
        stream.feed(kind, self.taken, datagram)?;
        put(leaving, stream, &mut self.streams)?;
        self.note(kind, ssrc);
        Ok(())
    }

    /// Takes the first packet of a stream.
    fn begin(&mut self, kind: Kind, ssrc: u32, datagram: &[u8]) -> Result<(), AllocError>
        ensures ok { OnOk result (self.new ≡ began kind ssrc datagram.now self.old) }
        ensures err { OnErr result (self.new ≡ self.old) }
    {
        if self.streams.len() < self.settings.max_streams {
            return self.add(kind, ssrc, datagram, None);
        }
        match place_to_replace(self.taken, self.streams.as_slice()) {
            None => Ok(()),
            place => self.add(kind, ssrc, datagram, place),
        }
    }

    /// Returns whether a packet of this payload type begins a stream.
    fn begins(&self, payload_type: u8) -> bool
        ensures { result ≡ begins self.now.settings payload_type }
    {
        payload_type == self.settings.red_type || payload_type == self.settings.fec_type
    }

    /// Takes a packet of media or of FEC.
    fn take_kind(
        &mut self,
        kind: Kind,
        packet: &RtpPacket<'_>,
        datagram: &[u8],
    ) -> Result<(), AllocError>
        ensures ok { OnOk result (self.new ≡ took_kind kind (packet_of packet.now) datagram.now self.old) }
        ensures err { OnErr result (self.new ≡ self.old) }
    {
        let ssrc = packet.header.ssrc;
        if is_known(ssrc, self.streams.as_slice()) {
            return self.take_known(kind, ssrc, datagram);
        }
        if self.begins(packet.header.payload_type) {
            return self.begin(kind, ssrc, datagram);
        }
        Ok(())
    }

    /// Takes a packet.
    fn take(&mut self, packet: &RtpPacket<'_>, datagram: &[u8]) -> Result<(), AllocError>
        ensures ok { OnOk result (self.new ≡ taken_in (packet_of packet.now) datagram.now self.old) }
        ensures err { OnErr result (self.new ≡ self.old) }
    {
        match kind_of(&self.settings, packet) {
            Kind::Neither => Ok(()),
            kind => self.take_kind(kind, packet, datagram),
        }
    }

    /// Takes a datagram, and answers what to pass to the session in its place: the datagram itself, or the packet that it wrote to `out`,
    /// whose former bytes are dropped. Then take a packet from [`FecPort::next_rebuilt`].
    ///
    /// | datagram | passes |
    /// |---|---|
    /// | a packet of RED with one block of media | the packet as it was before RED (RFC 2198): its header with the payload type of the block, and the contents of the block |
    /// | a packet of RED with one block of FEC, or of FEC | its header with the payload type of FEC, and a byte of padding: a number without media |
    /// | a retransmission (RFC 4588) of a packet in RED, if its media has a payload type for retransmissions | that of the packet before RED |
    /// | any other: RTCP, packets without RED, RED with several blocks, bytes that are no packet | itself |
    ///
    /// What it writes is never longer than the datagram. Media and FEC of a stream are kept, also without RED; retransmissions are not.
    ///
    /// # Errors
    ///
    /// Out of memory: the port is as before, and `out` is empty.
    pub fn receive(&mut self, datagram: &[u8], out: &mut Vec<u8>) -> Result<Passed, AllocError>
        ensures passed { IfOk result (λ p. Passes (plain_of self.old.settings datagram.now) p out.new.items) }
        ensures ok { OnOk result (self.new ≡ port_received datagram.now self.old) }
        ensures err { OnErr result (self.new ≡ self.old) }
        ensures empty { OnErr result (out.new.items ≡ []) }
    {
        out.clear();
        let Some(packet) = packet_at(datagram) else {
            return Ok(Passed::AsItIs);
        };
        let passed = write_plain(&self.settings, packet, out)?;
        match self.take(&packet, datagram) {
            Ok(()) => Ok(passed),
            Err(fault) => {
                out.clear();
                Err(fault)
            }
        }
    }

    /// Has a packet of the stream with this SSRC ready, if there is one.
    fn fetch_of(&mut self, ssrc: u32) -> Result<(), AllocError>
        ensures ok { OnOk result (self.new ≡ fetched_of ssrc self.old) }
        ensures err { OnErr result (self.new ≡ tried_of ssrc self.old) }
    {
        let next = next_of_one(ssrc, self.streams.as_mut_slice())?;
        let Some(packet) = next else {
            return Ok(());
        };
        self.counts = with_rebuilt(self.counts);
        self.waiting = Some(Rebuilt { ssrc, packet });
        Ok(())
    }

    /// Has a packet ready, if there is one.
    fn fetch(&mut self) -> Result<(), AllocError>
        ensures ok { OnOk result (self.new ≡ fetched self.old) }
        ensures err { OnErr result (self.new ≡ tried self.old) }
    {
        if self.waiting.is_some() {
            return Ok(());
        }
        match self.latest {
            None => Ok(()),
            Some(ssrc) => self.fetch_of(ssrc),
        }
    }

    /// Returns the packet that is ready, for a session.
    fn ready(&self) -> Result<Option<Vec<u8>>, AllocError>
        ensures { IfOk result (λ p. option_map (λ v. v.items) p ≡ option_map (cleared_of self.now.settings) self.now.waiting) }
    {
        match &self.waiting {
            None => Ok(None),
            Some(rebuilt) => {
                let late = &self.settings.late_ids;
                let packet = cleared_at(self.alloc, late, rebuilt.packet.as_slice())?;
                Ok(Some(packet))
            }
        }
    }

    /// Returns a packet that was rebuilt, for the session: a whole RTP packet, as it was before RED, with padding in the place of the elements
    /// of its header extension that the sender filled in late (RFC 8285). `None`: no packet can be rebuilt now.
    ///
    /// It tries packets of FEC of the stream that had the latest packet: at most two for each datagram, and rebuilds at most one packet.
    ///
    /// # Errors
    ///
    /// Out of memory: no packet is lost. Call it again.
    pub fn next_rebuilt(&mut self) -> Result<Option<Vec<u8>>, AllocError>
        ensures packet { IfOk result (λ p. option_map (λ v. v.items) p ≡ option_map (cleared_of self.old.settings) (fetched self.old).waiting) }
        ensures ok { OnOk result (self.new ≡ handed self.old) }
        ensures err { OnErr result ((self.new ≡ tried self.old) ⊎ (self.new ≡ fetched self.old)) }
    {
        self.fetch()?;
        let packet = self.ready()?;
        self.waiting = None;
        Ok(packet)
    }

    /// Drops the packet that is ready, if it has this SSRC.
    fn forget(&mut self, ssrc: u32)
        ensures { self.new ≡ without_waiting ssrc self.old }
    {
        if is_of(ssrc, &self.waiting) {
            self.waiting = None;
        }
    }

    /// Drops all packets of the stream with this SSRC: another sender begins under it, with other numbers. Else a packet of the former sender
    /// can be taken for one of the new sender.
    pub fn restart(&mut self, ssrc: u32)
        ensures { self.new ≡ port_restarted ssrc self.old }
    {
        restart_one(ssrc, self.streams.as_mut_slice());
        self.forget(ssrc);
    }

    /// Ends the stream with this SSRC, and frees its memory. It begins again with a packet of RED or of FEC.
    pub fn end(&mut self, ssrc: u32)
        ensures { self.new ≡ port_ended ssrc self.old }
    {
        end_one(ssrc, &mut self.streams);
        self.forget(ssrc);
    }
}
