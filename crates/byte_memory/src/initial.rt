//! The values of bytes that were never stored to.

ghost use Rattle.std.specs.Prelude.{◌≡◌, ◌+◌, ◌%◌, ◌<◌, ℕ, None, slice_index, slice_index_or};
ghost use Rattle.elf_image.specs.Images.{loaded_of, initial_byte};
ghost use Rattle.byte_memory.specs.Memory.{value_over};

use crate::writer::Writer;
use elf_image::Image;

/// Gives each byte without a writer its initial value.
pub fn fill_initial(image: &Image, base: u64, values: &mut [u8; 8], last: &[Option<Writer>; 8])
    requires { base % 8 ≡ 0 }
    ensures { (k : ℕ) → k < 8 → slice_index values.new k
        ≡ value_over (initial_byte (loaded_of image.now) (base + k))
        (slice_index_or last.now k None) (slice_index values.old k) }
{
    for k in 0..8u8 {
        if last[k as usize].is_none() {
            values[k as usize] = image.byte(base + u64::from(k)).unwrap_or(0);
        }
    }
}
