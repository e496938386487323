//! The contents of a handle.

use codec_payload_bandwidth_layers::chooser::LayerChoice;
use codec_payload_bandwidth_offer::offer::RateOffer;
use codec_payload_bandwidth_pacer::resends::ResendLimit;
use codec_payload_bandwidth_path::path::ViewerPath;
use codec_payload_base::payloads::Payloads;
use codec_payload_fec::store::PacketStore;
use codec_payload_fec_port::fec_port::FecPort;
use codec_payload_fec_receiver::fec_receiver::FecReceiver;
use codec_payload_sending_fec::fec_sender::FecSender;

/// A path to a viewer, and memory for the choices of layers of a call; it is reused.
#[derive(Drop)]
pub struct CallerPath {
    pub path: ViewerPath,
    pub choices: Vec<LayerChoice>,
}

/// A receiver of FEC, and a packet that it handed out and that the caller has not fetched yet.
#[derive(Drop)]
pub struct CallerFec {
    pub receiver: FecReceiver,
    pub packet: Option<Vec<u8>>,
}

/// A port with FEC, the packet that passes in the place of the latest datagram, and the latest packet that was rebuilt. Both are lent.
#[derive(Drop)]
pub struct CallerFecPort {
    pub port: FecPort,
    pub passed: Vec<u8>,
    pub rebuilt: Vec<u8>,
}

/// A sender of FEC, the latest packet that it put in RED, which is lent, and the FEC of the latest frame.
#[derive(Drop)]
pub struct CallerFecSender {
    pub sender: FecSender,
    pub packet: Vec<u8>,
    pub fec: Payloads,
}

/// A value behind a handle. Each has its own box, so that no handle takes the memory of the largest type.
#[derive(Drop)]
pub enum PathObject {
    Path(Box<CallerPath>),
    ResendLimit(Box<ResendLimit>),
    PacketStore(Box<PacketStore>),
    FecReceiver(Box<CallerFec>),
    RateOffer(Box<RateOffer>),
    FecPort(Box<CallerFecPort>),
    FecSender(Box<CallerFecSender>),
}
