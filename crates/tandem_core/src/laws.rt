//! What the definitions come to: laws, with nothing to do.

ghost use Rattle.std.specs.Prelude.{◌≡◌, ◌++◌, ℕ, List};
ghost use Rattle.msg_frames.specs.Cut.{cut};
ghost use Rattle.elf_image.specs.Images.{Loaded};
ghost use Rattle.tandem_core.specs.declared.limits.Limits.{Limits};
ghost use Rattle.tandem_core.specs.Judgements.{judge_from, judgement};
ghost use Rattle.tandem_core.specs.Headline.{AcceptsLawfulStreams};
ghost use Rattle.tandem_core.specs.Judging.{Lacks};

/// Bytes that decide nothing yet: whatever follows, the judgement goes on from the messages that
/// they spell.
pub fn lacking_goes_on()
    ensures { (image : Loaded) (limits : Limits) (got more : List ℕ) (lacks : Lacks image limits got) →
        judgement image limits (got ++ more)
        ≡ judge_from image limits (got ++ more) lacks.before
        (cut (lacks.part ++ more)).messages (cut (lacks.part ++ more)).ending }
{}

/// The headline, for what is accepted: the verdict on a stream of bytes is ACCEPT exactly where it falls into
/// messages up to an End, these are lawful, and they are not more than the limit. Lawful is: the stream is
/// well-formed, every retirement is the step of the model, every store that retired is written, every
/// successful SC has its LR, and the order of memory is legal.
pub fn lawful_streams_are_accepted()
    ensures { AcceptsLawfulStreams }
{}
