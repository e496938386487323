//! What the programs that read lines share: bytes and numbers in lines, the whole of an input, and how a program ends.
#![tactic(auto)]

pub mod digits;
pub mod numbers;
pub mod streams;
