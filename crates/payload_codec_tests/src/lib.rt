//! A worked example of each codec and of RED by its name, both ways, and what only Rattle shows: generic code with the types of the
//! library. Tests of behaviour are in `rust/tests/codecs`.
#![tactic(auto)]

#[cfg(test)]
mod asserts;
#[cfg(test)]
mod audio;
#[cfg(test)]
mod av1;
#[cfg(test)]
mod clones;
#[cfg(test)]
mod media;
#[cfg(test)]
mod recovery;
#[cfg(test)]
mod red;
#[cfg(test)]
mod texts;
#[cfg(test)]
mod vp8;
#[cfg(test)]
mod vp9;
