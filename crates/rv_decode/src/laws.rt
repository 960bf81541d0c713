//! What follows from the listings alone.

ghost use Rattle.std.specs.Prelude.{◌≡◌, ◌↔◌, ◌<◌, ◌^◌, ℕ, Some};
ghost use Rattle.rv_decode.specs.Decoding.{decoding};
ghost use Rattle.rv_decode.specs.Listing.{IsInsn, Encodes};
ghost use Rattle.rv_decode.specs.declared.instruction.Insn.{Insn};

/// An instruction whose parts fit their fields is the decoding of a word, and no other is. So `encode`
/// takes exactly what `decode` gives.
pub fn each_fitting_instruction_has_a_word()
    ensures { (i : Insn) → IsInsn i ↔ ((word : ℕ) × (word < 2 ^ 32) × Encodes word i) }
{}

/// The two listings, from words to instructions and from instructions to words, are one.
pub fn words_are_read_as_what_they_encode()
    ensures { (word : ℕ) (i : Insn) → word < 2 ^ 32 → (decoding word ≡ Some i) ↔ Encodes word i }
{}
