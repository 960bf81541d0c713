//! Numbers of several bytes in a row, the lowest byte first, at their offsets.

ghost use Rattle.std.specs.Prelude.{◌≡◌, ◌+◌, ◌≤◌, length};
ghost use Rattle.tandem_base.specs.Fields.{u16_at, u32_at, u64_at};

/// The number of the two bytes from an offset on.
pub fn u16_at(offset: usize, bytes: &[u8]) -> u16
    requires { offset + 2 ≤ length bytes.now }
    ensures { result ≡ u16_at offset bytes.now }
{
    let mut field = [0; 2];
    field.copy_from_slice(&bytes[offset..offset + 2]);
    u16::from_le_bytes(field)
}

/// The number of the four bytes from an offset on.
pub fn u32_at(offset: usize, bytes: &[u8]) -> u32
    requires { offset + 4 ≤ length bytes.now }
    ensures { result ≡ u32_at offset bytes.now }
{
    let mut field = [0; 4];
    field.copy_from_slice(&bytes[offset..offset + 4]);
    u32::from_le_bytes(field)
}

/// The number of the eight bytes from an offset on.
pub fn u64_at(offset: usize, bytes: &[u8]) -> u64
    requires { offset + 8 ≤ length bytes.now }
    ensures { result ≡ u64_at offset bytes.now }
{
    let mut field = [0; 8];
    field.copy_from_slice(&bytes[offset..offset + 8]);
    u64::from_le_bytes(field)
}
