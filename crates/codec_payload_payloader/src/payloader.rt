//! Packetizes samples and sends the packets to a sink.

ghost use Rattle.std.specs.Prelude.{◌≡◌, ◌∷◌, ◌++◌, ◌+◌, ◌%◌, ◌^◌, ◌<◌, ◌≤◌, ◌⊎◌, [], Option, option_map, OnOk, IfErr, Ok, false};
ghost use Rattle.codec_payload_codec.specs.Packetizers.{packetizer_state_of, packetizer_state_for, configured, is_built_in};
ghost use Rattle.codec_payload_codec.specs.declared.codec.packetizer.CodecPacketizer.TheVariants.{Boxed};
ghost use Rattle.codec_payload_payloader.specs.Packets.{Packet};
ghost use Rattle.codec_payload_payloader.specs.OwnSending.{OwnPacket, OwnSample};
ghost use Rattle.codec_payload_payloader.specs.Sending.{sample_of, packet_for, IsAs, SendsSample, SendsBeginning, SendsNothing};

use crate::sink::{OutgoingPacket, PacketSink};
use codec_payload_base::error::PacketError;
use codec_payload_base::wire::{CodecSpec, ExtensionValues, Frequency, ToPayload};
use codec_payload_codec::codec::{CodecPacketizer, NoBox, Packetizer, Vp9PacketizerMode};
use std::alloc::Global;
use std::marker::Model;

/// Packetizes the samples of one codec and sends the packets.
#[derive(Debug, Drop)]
pub struct Payloader<B = NoBox> {
    packetizer: CodecPacketizer<B>,
    clock_rate: Frequency,
}

impl<B> Model for Payloader<B> {
    ghost use Rattle.codec_payload_payloader.specs.Sending.{Payloading};

    ghost Value = { Payloading };

    ghost use Rattle.codec_payload_codec.specs.Packetizers.{packetizer_state_of};

    ghost view = { λ p. record { packetizer = packetizer_state_of p.packetizer; clock_rate = p.clock_rate } };
}

impl Payloader {
    /// Returns a payloader for a codec, or `None` if the codec has no packetizer.
    ///
    /// `spec` gives the rate of the RTP clock and the layout of payloads. VP9 uses `mode` and `first_id`, the picture id of the
    /// first frame. `first_id` must be below 2^15 for every codec.
    pub fn new(spec: CodecSpec, mode: Vp9PacketizerMode, first_id: u16) -> Option<Self>
        requires { first_id ≤ 32767 }
        ensures { result ≡ option_map (λ packetizer. record { packetizer = configured spec.octet_align packetizer; clock_rate = spec.clock_rate }) (packetizer_state_for mode first_id spec.codec) }
    {
        let mut packetizer = CodecPacketizer::new(spec.codec, mode, first_id)?;
        packetizer.configure_for(&spec);
        Some(Payloader::with_packetizer(packetizer, spec.clock_rate))
    }
}

impl<B: Packetizer> Payloader<B> {
    /// Returns a payloader with this packetizer and this rate of the RTP clock.
    pub fn with_packetizer(packetizer: CodecPacketizer<B>, rate: Frequency) -> Self
        ensures { result ≡ record { packetizer = packetizer_state_of packetizer; clock_rate = rate } }
    {
        Payloader {
            packetizer,
            clock_rate: rate,
        }
    }

    /// Returns the rate of the RTP clock.
    pub fn clock_rate(&self) -> Frequency
        ensures { result ≡ self.now.clock_rate }
    {
        self.clock_rate
    }

    /// Packetizes a sample for an MTU in bytes, and sends its packets in order.
    ///
    /// Only the first packet carries the capture time and the layers allocation. Only the last packet carries the orientation,
    /// content type and timing. Each packet carries all other extension values. Each payload byte is copied once, from the sample
    /// into its packet.
    ///
    /// # Errors
    ///
    /// - A fault of the packetizer: nothing is sent.
    /// - A fault of the sink: the packets before the refused packet are sent, and the packetizer has advanced.
    pub fn push_sample<S: PacketSink>(
        &mut self,
        alloc: Global,
        sample: &ToPayload,
        mtu: usize,
        sink: &mut S,
    ) -> Result<(), PacketError>
        ensures clock { self.new.clock_rate ≡ self.old.clock_rate }
        ensures ok { OnOk result (SendsSample S.accepts S.sent S.next mtu (sample_of sample.now) self.old sink.old self.new sink.new) }
        ensures err { IfErr result (λ fault. SendsNothing mtu (sample_of sample.now) fault self.old sink.old self.new sink.new
            ⊎ SendsBeginning S.accepts S.refuses S.sent S.next mtu (sample_of sample.now) fault self.old sink.old self.new sink.new) }
        // A custom packetizer is called once for the payloads, and once for each marker.
        ensures own { is_built_in self.old.packetizer ≡ false → (before : B) × (after : B)
            × OwnSample B.state B.packetize_step B.marker_step B.marks_spurts B.may_be_asked_for S.accepts S.refuses S.sent S.next self.old.clock_rate mtu (sample_of sample.now) before sink.old result after sink.new }
        ensures kept { S.keeps sink.old sink.new }
    {
        send_sample(
            &mut self.packetizer,
            self.clock_rate,
            alloc,
            sample,
            mtu,
            sink,
        )
    }
}

/// Packetizes a sample and sends its packets, with times by an RTP clock of this rate.
fn send_sample<B: Packetizer, S: PacketSink>(
    packetizer: &mut CodecPacketizer<B>,
    clock_rate: Frequency,
    alloc: Global,
    sample: &ToPayload,
    mtu: usize,
    sink: &mut S,
) -> Result<(), PacketError>
    ensures ok { OnOk result (SendsSample S.accepts S.sent S.next mtu (sample_of sample.now) (record { packetizer = packetizer_state_of packetizer.old; clock_rate = clock_rate }) sink.old (record { packetizer = packetizer_state_of packetizer.new; clock_rate = clock_rate }) sink.new) }
    ensures err { IfErr result (λ fault. SendsNothing mtu (sample_of sample.now) fault (record { packetizer = packetizer_state_of packetizer.old; clock_rate = clock_rate }) sink.old (record { packetizer = packetizer_state_of packetizer.new; clock_rate = clock_rate }) sink.new
        ⊎ SendsBeginning S.accepts S.refuses S.sent S.next mtu (sample_of sample.now) fault (record { packetizer = packetizer_state_of packetizer.old; clock_rate = clock_rate }) sink.old (record { packetizer = packetizer_state_of packetizer.new; clock_rate = clock_rate }) sink.new) }
    ensures own { (before : B) → packetizer.old ≡ Boxed before → (after : B) × (packetizer.new ≡ Boxed after)
        × OwnSample B.state B.packetize_step B.marker_step B.marks_spurts B.may_be_asked_for S.accepts S.refuses S.sent S.next clock_rate mtu (sample_of sample.now) before sink.old result after sink.new }
    ensures kept { S.keeps sink.old sink.new }
{
    let payloads = packetizer.packetize(alloc, mtu, &sample.bytes)?;
    let rtp_time = (sample.rtp_time.rebase(clock_rate).numer() % (1 << 32)) as u32;
    let count = payloads.len();
    let mut place = 0;
    for payload in payloads {
        let ext_vals = sample.ext_vals.for_packet(place, count);
        place += 1;
        let fields = Fields {
            rtp_time,
            ext_vals,
            last: place == count,
        };
        send_payload(packetizer, sample, fields, payload, sink)?;
    }
    Ok(())
}

/// What a packet of a sample has by its place.
#[derive(Clone, Copy)]
struct Fields {
    rtp_time: u32,
    ext_vals: ExtensionValues,
    /// Whether it is the last packet of the sample.
    last: bool,
}

/// Sends one payload of a sample, with the extension values for its place.
fn send_payload<B: Packetizer, S: PacketSink>(
    packetizer: &mut CodecPacketizer<B>,
    sample: &ToPayload,
    fields: Fields,
    payload: Vec<u8>,
    sink: &mut S,
) -> Result<(), PacketError>
    ensures same { packetizer_state_of packetizer.new ≡ packetizer_state_of packetizer.old }
    ensures ok { let told = packet_for (packetizer_state_of packetizer.old) (sample_of sample.now) fields.rtp_time (S.next sink.old) fields.ext_vals fields.last payload.items in
        OnOk result ((packet : Packet) × IsAs (is_built_in (packetizer_state_of packetizer.old)) packet told × (image : Packet) × S.accepts sink.old packet image sink.new
        × (S.sent sink.new ≡ S.sent sink.old ++ image ∷ []) × (S.next sink.new ≡ (S.next sink.old + 1) % 2 ^ 64)) }
    ensures err { let told = packet_for (packetizer_state_of packetizer.old) (sample_of sample.now) fields.rtp_time (S.next sink.old) fields.ext_vals fields.last payload.items in
        IfErr result (λ fault. (packet : Packet) × IsAs (is_built_in (packetizer_state_of packetizer.old)) packet told × S.refuses sink.old packet fault sink.new
        × (S.sent sink.new ≡ S.sent sink.old) × (S.next sink.new ≡ S.next sink.old)) }
    ensures own { (before : B) → packetizer.old ≡ Boxed before → (after : B) × (packetizer.new ≡ Boxed after)
        × OwnPacket B.state B.marker_step B.marks_spurts B.may_be_asked_for S.accepts S.refuses S.sent S.next (sample_of sample.now) fields.rtp_time fields.ext_vals fields.last payload.items before sink.old result after sink.new }
    ensures kept { S.keeps sink.old sink.new }
{
    let starts = packetizer.marks_talkspurt() && sample.start_of_talk_spurt;
    let marker = packetizer.is_marker(&payload, sink.last_packet(), fields.last) || starts;
    let seq_no = sink.next_seq_no();
    sink.send(OutgoingPacket {
        pt: sample.pt,
        seq_no,
        rtp_time: fields.rtp_time,
        wallclock: sample.wallclock,
        marker,
        nackable: packetizer.nackable(),
        ext_vals: fields.ext_vals,
        payload,
    })
}
