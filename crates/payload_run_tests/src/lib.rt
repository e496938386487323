//! What only Rattle shows, over `codec_payload_core` alone: the programs of docs/develop/RATTLE.md, a run with RED, and a caller whose contract
//! follows from the library's. Tests of behaviour are in `rust/tests/runs`.
#![tactic(auto)]

#[cfg(test)]
mod asserts;
#[cfg(test)]
mod boxes;
#[cfg(test)]
mod gateway;
#[cfg(test)]
mod library;
#[cfg(test)]
mod own_codec;
#[cfg(test)]
mod red_run;
#[cfg(test)]
mod red_sink;
#[cfg(test)]
mod refused;
#[cfg(test)]
mod use_it;
