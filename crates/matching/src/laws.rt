//! What the definitions come to: laws, with nothing to do.

ghost use Rattle.std.specs.Prelude.{◌≡◌, ℕ, List, true};
ghost use Rattle.msg_frames.specs.declared.message.Message.{Message};
ghost use Rattle.elf_image.specs.Images.{Loaded};
ghost use Rattle.matching.specs.declared.stores.Fate.TheVariants as Fate;
ghost use Rattle.matching.specs.Tags.{is_younger, last_tag};
ghost use Rattle.matching.specs.Fates.{fate};
ghost use Rattle.matching.specs.Matching.{IsClean};

/// Where no message has a fault, no byte of a store has a fate before the store retires.
pub fn nothing_is_performed_before_it_retires()
    ensures { (image : Loaded) (before : List Message) (h t x : ℕ) → IsClean image before →
        is_younger (last_tag before h) t ≡ true → fate before h t x ≡ Fate.Nothing }
{}
