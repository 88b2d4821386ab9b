//! Little-endian numbers at any place of some bytes; bytes past the end count as 0.
ghost use Rattle.std.specs.Prelude.{◌≡◌, slice_index};
ghost use Rattle.paper.specs.Bytes as paper;

fn byte(bytes: &[u8], at: usize) -> u8
    ensures { result ≡ slice_index bytes.now at }
{
    if at < bytes.len() { bytes[at] } else { 0 }
}

/// The number of two bytes from `at` on.
pub fn le16(bytes: &[u8], at: usize) -> u16
    ensures { result ≡ paper.le16 bytes.now at }
{
    if at < bytes.len() {
        u16::from_le_bytes([byte(bytes, at), byte(bytes, at + 1)])
    } else {
        0
    }
}

/// The number of four bytes from `at` on.
pub fn le32(bytes: &[u8], at: usize) -> u32
    ensures { result ≡ paper.le32 bytes.now at }
{
    if at < bytes.len() {
        u32::from(le16(bytes, at)) + 65536 * u32::from(le16(bytes, at + 2))
    } else {
        0
    }
}
