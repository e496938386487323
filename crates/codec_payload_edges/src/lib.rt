//! Where the pictures of a stream of video begin and end. The numbers between the end of one picture and the begin of the next one
//! carry no media.
#![tactic(auto)]

pub mod edge;
pub mod pictures;
pub mod theorems;
