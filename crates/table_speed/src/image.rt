//! The image that the runs stand on.

use elf_image::{Image, Ram};
use std::alloc::{AllocError, Global};

const RAM: [Ram; 1] = [Ram {
    base: 0x8000_1000,
    size: 0x1000_0000,
}];

/// One word of code, and RAM.
pub(crate) fn image(alloc: Global) -> Result<Image, AllocError> {
    match Image::flat(alloc, &[0x93, 0, 0x50, 0], 0x8000_0000, &RAM) {
        Ok(image) => Ok(image),
        Err(_) => Err(AllocError),
    }
}
