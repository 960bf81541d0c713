//! What merging gives: a law, with nothing to do.

ghost use Rattle.std.specs.Prelude.{◌≡◌, ℕ, List, None};
ghost use Rattle.std.specs.List.{Contains};
ghost use Rattle.merge_buffer.specs.declared.waiting.Part.{Part};
ghost use Rattle.msg_frames.specs.Pieces.{byte_in};
ghost use Rattle.merge_buffer.specs.Parts.{Falls, IsNewestAt, latest_byte};

/// Of Inserts whose numbers fall, merging gives at each address the byte of the newest that has one
/// there, and none where no Insert has one.
pub fn merging_gives_the_newest_byte()
    ensures newest { (ps : List Part) → Falls ps → (x : ℕ) → (p : Part) → IsNewestAt ps x p →
        latest_byte ps x ≡ byte_in p.piece x }
    ensures none { (ps : List Part) → (x : ℕ) → ((p : Part) → Contains ps p → byte_in p.piece x ≡ None) →
        latest_byte ps x ≡ None }
{}
