//! Memory before the first operation.

use elf_image::Image;

/// Memory as it was before the first operation.
pub trait InitialBytes {
    ghost use Rattle.std.specs.Prelude.{◌≡◌, ℕ};

    /// The initial value of the byte at each address.
    ghost initial_of: { Self → ℕ → ℕ };

    /// The initial value of the byte at an address.
    fn initial(&self, addr: u64) -> u8
        ensures { result ≡ initial_of self.now addr };
}

/// An image's byte, or 0 where it has none.
impl InitialBytes for Image {
    ghost use Rattle.elf_image.specs.Images.{loaded_of};
    ghost use Rattle.elf_image.specs.Images.{initial_byte};

    ghost initial_of = { λ image. initial_byte (loaded_of image) };

    fn initial(&self, addr: u64) -> u8 {
        self.byte(addr).unwrap_or(0)
    }
}
