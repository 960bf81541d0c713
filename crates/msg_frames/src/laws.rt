//! What the definitions say of every stream.

ghost use Rattle.std.specs.Prelude.{◌≡◌, ℕ, ◌<◌, ◌++◌, [], ◌∷◌, List, length, true, false, Ok, Err};
ghost use Rattle.msg_frames.specs.declared.message.FrameFault.{FrameFault};
ghost use Rattle.msg_frames.specs.declared.message.Message.{Message};
ghost use Rattle.msg_frames.specs.Cut.{Ending, End, Bad, Short, Cut, needed, is_end, put_front, cut};
ghost use Rattle.msg_frames.specs.Reading.{reading};

/// How a stream is cut into messages: one frame is taken off, and the rest is cut. A law, with
/// nothing to do.
///
/// Fewer bytes than the frame at the front needs end the cut; so does a frame that spells no
/// message, and an End; any other message stands before the messages of the rest.
pub fn streams_are_cut_frame_by_frame()
    ensures short { (bytes : List ℕ) → length bytes < needed bytes →
        cut bytes ≡ record { messages = []; ending = Short (length bytes) } }
    ensures bad { (frame rest : List ℕ) (fault : FrameFault) → length frame ≡ needed frame →
        reading frame ≡ Err fault → cut (frame ++ rest) ≡ record { messages = []; ending = Bad fault } }
    ensures end { (frame rest : List ℕ) (m : Message) → reading frame ≡ Ok m → is_end m.body ≡ true →
        cut (frame ++ rest) ≡ record { messages = m ∷ []; ending = End } }
    ensures message { (frame rest : List ℕ) (m : Message) → reading frame ≡ Ok m → is_end m.body ≡ false →
        cut (frame ++ rest) ≡ put_front m (cut rest) }
{}
