//! RED: payloads that carry older media beside the media of the packet itself (RFC 2198).
//!
//! A payload is a list of headers, then the blocks in the same order. The primary block is the packet's own media and comes last;
//! the others are redundant, and their timestamp offset says how many ticks of the RTP clock older they are. [`RedEncoder`] writes
//! such payloads and [`RedDecoder`] reads them. [`RedSender`] remembers sent payloads and wraps each new payload with some of them.
//! [`RedReceiver`] finds the packets in a payload, including lost packets that a later payload repeats.

mod blocks;
mod receiver;
mod sender;
mod theorems;

pub use blocks::{
    RedBlock, RedDecoder, RedEncoder, RedundantBlock, SamePtBlocks, red_same_pt_blocks,
};
pub use receiver::{Recovered, RedReceiver};
pub use sender::{MAX_RED_RECOVERY_DEPTH, RedSender, constants_of_red};
pub use theorems::recovered_were_sent;
