//! Images: the bytes at each address before a run begins, read from ELF64 files and flat files.
#![tactic(auto)]

mod elf;
mod fault;
mod flat;
mod header;
mod image;
mod limits;
mod program;
mod ram;
mod range;
mod segments;
mod table;

pub use fault::{ImageFault, TooLarge};
pub use image::Image;
pub use limits::{MOST_FILE_BYTES, most_file_bytes_has_its_number};
pub use ram::Ram;
