//! The file header of an ELF64 file.

ghost use Rattle.std.specs.Prelude.{◌≡◌, ◌%◌, ◌^◌, ◌≤◌, true, false, OnOk, IfOk, length, map};
ghost use Rattle.tandem_base.specs.FirstFault.{passed};
ghost use Rattle.elf_image.specs.Elf.{entry_address, table_offset, header_count, has_class, has_entry_size, has_table};
ghost use Rattle.elf_image.specs.Elf.{header_fault, loadable};

use crate::fault::ImageFault;
use tandem_base::{u16_at, u64_at};

/// The file type of an executable, ET_EXEC.
const EXECUTABLE: u16 = 2;

/// The machine number of RISC-V.
const RISC_V: u16 = 243;

/// The bytes of an entry of the program header table.
pub const ENTRY_SIZE: u64 = 56;

/// The fault of the file header.
#[tactic(auto, unfolding(crate::specs::Elf::header_fault))]
pub fn check_header(bytes: &[u8]) -> Result<(), ImageFault>
    requires { length bytes.now ≤ 2 ^ 28 }
    ensures fault { result ≡ passed (header_fault bytes.now) }
    ensures whole { OnOk result (64 ≤ length bytes.now) }
    ensures table { OnOk result (has_table bytes.now ≡ true) }
    ensures aligned { OnOk result (entry_address bytes.now % 4 ≡ 0) }
{
    if bytes.len() < 64 || !bytes.starts_with(b"\x7fELF") {
        return Err(ImageFault::NotElf);
    }
    if !has_class(bytes) {
        return Err(ImageFault::Class);
    }
    if u16_at(16, bytes) != EXECUTABLE {
        return Err(ImageFault::Kind);
    }
    if u16_at(18, bytes) != RISC_V {
        return Err(ImageFault::Machine);
    }
    if entry(bytes) % 4 != 0 {
        return Err(ImageFault::Headers(24));
    }
    if !has_entry_size(bytes) {
        return Err(ImageFault::Headers(54));
    }
    if !has_table(bytes) {
        return Err(ImageFault::Headers(32));
    }
    Ok(())
}

/// The address at which a run begins.
pub fn entry(bytes: &[u8]) -> u64
    requires { 64 ≤ length bytes.now }
    ensures { result ≡ entry_address bytes.now }
{
    u64_at(24, bytes)
}

/// Where the program header table begins in the file.
pub fn table_offset(bytes: &[u8]) -> u64
    requires { 64 ≤ length bytes.now }
    ensures { result ≡ table_offset bytes.now }
{
    u64_at(32, bytes)
}

/// How many entries it has.
pub fn header_count(bytes: &[u8]) -> u16
    requires { 64 ≤ length bytes.now }
    ensures { result ≡ header_count bytes.now }
{
    u16_at(56, bytes)
}

/// Whether the file is ELF64, little-endian, of version 1.
fn has_class(bytes: &[u8]) -> bool
    requires { 64 ≤ length bytes.now }
    ensures { result ≡ has_class bytes.now }
{
    bytes[4] == 2 && bytes[5] == 1 && bytes[6] == 1
}

/// Whether the entries have 56 bytes, where there are any.
fn has_entry_size(bytes: &[u8]) -> bool
    requires { 64 ≤ length bytes.now }
    ensures { result ≡ has_entry_size bytes.now }
{
    header_count(bytes) == 0 || u64::from(u16_at(54, bytes)) == ENTRY_SIZE
}

/// Whether the table lies within the file, where it has entries.
fn has_table(bytes: &[u8]) -> bool
    requires { 64 ≤ length bytes.now }
    ensures { result ≡ has_table bytes.now }
{
    let count = header_count(bytes);
    let table = u128::from(count) * u128::from(ENTRY_SIZE);
    count == 0 || u128::from(table_offset(bytes)) + table <= bytes.len() as u128
}
