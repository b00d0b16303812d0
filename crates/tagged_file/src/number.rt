// Numbers in the content of a record: the high byte first, and a byte past the end counts 0.
ghost use Rattle.std.specs.Prelude.{◌≡◌, ℕ, ◌+◌, ◌<◌, slice_index};
ghost use Rattle.tagged_file.specs.Numbers.{byte_at, two_at, four_at};

// The byte at a place.
pub fn byte(content: &[u8], at: usize) -> u8
    ensures { result ≡ byte_at content.now at }
{
    content.get(at).copied().unwrap_or(0)
}

// The N bytes from a place on.
fn bytes<const N: usize>(content: &[u8], at: usize) -> [u8; N]
    ensures { (k : ℕ) → k < N → slice_index result k ≡ byte_at content.now (at + k) }
{
    let rest = &content[at.min(content.len())..];
    if let Some(bytes) = rest.first_chunk() {
        return *bytes;
    }
    let mut bytes = [0; N];
    bytes[..rest.len()].copy_from_slice(rest);
    bytes
}

// The two bytes from a place on, as one number.
pub fn number16(content: &[u8], at: usize) -> u16
    ensures { result ≡ two_at content.now at }
{
    u16::from_be_bytes(bytes(content, at))
}

// The four bytes from a place on, as one number.
pub fn number32(content: &[u8], at: usize) -> u32
    ensures { result ≡ four_at content.now at }
{
    u32::from_be_bytes(bytes(content, at))
}
