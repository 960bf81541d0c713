//! The messages of a report stream and the frames that spell them.
#![tactic(auto)]

mod checks;
mod codec;
mod csrs;
mod encoding;
mod kinds;
mod laws;
mod list;
mod message;
mod pieces;
mod reading;
mod rules;
mod sizes;
mod source;

pub use codec::decode;
pub use csrs::{CsrList, CsrValue};
pub use encoding::encode;
pub use laws::streams_are_cut_frame_by_frame;
pub use list::MessageList;
pub use message::{
    Body, Form, FrameFault, Head, LineWrite, Message, OpenInfo, Piece, Poke, RdValue, Retire,
    Target,
};
pub use rules::well_formed;
pub use sizes::size;
pub use source::{Arrived, Next, next_message, next_message_into};
