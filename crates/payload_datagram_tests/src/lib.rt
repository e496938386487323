//! RTP and RTCP packets, a sender and a receiver: the public calls that a program makes for each datagram. Tests of behaviour are in
//! `rust/tests/datagrams` and `rust/tests/rtcp`.
#![tactic(auto)]

#[cfg(test)]
mod packets;
#[cfg(test)]
mod receiver;
#[cfg(test)]
mod rtcp;
#[cfg(test)]
mod sender;
#[cfg(test)]
mod values;
