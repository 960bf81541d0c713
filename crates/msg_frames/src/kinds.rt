//! The kinds of frames.

ghost use Rattle.std.specs.Prelude.{◌≡◌};
ghost use Rattle.msg_frames.specs.Kinds.{kind_coded, kind_of, code_of, has_length};

use super::message::Body;

/// The kinds of frames, by which their fields differ.
#[derive(Clone, Copy)]
pub enum Kind {
    /// The first message of a stream.
    Open,
    /// A value set before a hart's first Retire.
    Poke,
    /// A part of a load was performed.
    Read,
    /// A store went into the merge buffer.
    Insert,
    /// A line of the merge buffer became visible to all.
    Write,
    /// A store became visible to all by itself.
    Bypass,
    /// An instruction retired.
    Retire,
    /// The instruction of the tag does not retire.
    Squash,
    /// The last message of a stream.
    End,
}

/// The kind that a byte stands for.
pub fn kind_coded(code: u8) -> Option<Kind>
    ensures { result ≡ kind_coded code }
{
    match code {
        1 => Some(Kind::Open),
        2 => Some(Kind::Poke),
        3 => Some(Kind::Read),
        4 => Some(Kind::Insert),
        5 => Some(Kind::Write),
        6 => Some(Kind::Bypass),
        7 => Some(Kind::Retire),
        8 => Some(Kind::Squash),
        9 => Some(Kind::End),
        _ => None,
    }
}

/// The kind of a message.
pub fn kind_of(body: &Body) -> Kind
    ensures { result ≡ kind_of body.now }
{
    match body {
        Body::Open(_) => Kind::Open,
        Body::Poke(_) => Kind::Poke,
        Body::Read(_) => Kind::Read,
        Body::Insert(_) => Kind::Insert,
        Body::Write(_) => Kind::Write,
        Body::Bypass(_) => Kind::Bypass,
        Body::Retire(_) => Kind::Retire,
        Body::Squash => Kind::Squash,
        Body::End => Kind::End,
    }
}

impl Kind {
    /// The byte that stands for the kind.
    pub fn code(self) -> u8
        ensures { result ≡ code_of self }
    {
        match self {
            Kind::Open => 1,
            Kind::Poke => 2,
            Kind::Read => 3,
            Kind::Insert => 4,
            Kind::Write => 5,
            Kind::Bypass => 6,
            Kind::Retire => 7,
            Kind::Squash => 8,
            Kind::End => 9,
        }
    }

    /// Whether frames of the kind have this many bytes behind the two of the length.
    pub fn has_length(self, length: u16) -> bool
        ensures { result ≡ has_length self length }
    {
        match self {
            Kind::Open => length == 26,
            Kind::Poke => length == 30,
            Kind::Read | Kind::Insert | Kind::Bypass => (28..=35).contains(&length),
            Kind::Write => length == 98,
            Kind::Retire => matches!(length, 50 | 60 | 70 | 80 | 90),
            Kind::Squash | Kind::End => length == 18,
        }
    }
}
