//! What every layer of Tandem speaks of: places, names, extents, the numbers of CSRs, arithmetic,
//! numbers of several bytes, texts that are put into a buffer, and whether a table had room.
#![tactic(auto)]

mod arithmetic;
mod bytes;
pub mod csrs;
mod division;
mod extent;
mod fields;
mod mark;
mod names;
mod puts;
mod room;

pub use arithmetic::{mulh, mulhsu, mulhu, sext};
pub use bytes::Bytes8;
pub use division::{div, div32, divu, divu32, rem, rem32, remu, remu32};
pub use extent::Extent;
pub use fields::{u16_at, u32_at, u64_at};
pub use mark::Mark;
pub use names::{
    OpName, Origin, Place, Position, Source1, places_are_ordered, positions_are_ordered_as_places,
};
pub use puts::put;
pub use room::Took;
