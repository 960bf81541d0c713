//! Tests of frames and images, against bytes that were worked out by hand. There is nothing here but tests.
#![tactic(auto)]

#[cfg(test)]
mod frames;
#[cfg(test)]
mod images;
