// Numbers in bytes, little-endian; a byte past the end counts 0.
ghost use Rattle.std.specs.Prelude.{◌≡◌, ℕ, ◌<◌, drop, slice_index};
ghost use Rattle.jobfile.specs.Bytes.{field};

// The number in one byte.
#[tactic(auto, using(crate::proofs::Fields::numbers))]
pub(crate) fn one_byte(bytes: &[u8], a: usize) -> u8
    ensures { result ≡ field bytes.now a 1 }
{
    bytes.get(a).copied().unwrap_or(0)
}

// The N bytes from place a on; a byte past the end counts 0.
fn bytes_at<const N: usize>(bytes: &[u8], a: usize) -> [u8; N]
    ensures { (i : ℕ) → i < N → slice_index result i ≡ field (drop a bytes.now) i 1 }
{
    let rest = bytes_from(bytes, a);
    std::array::from_fn(|i| one_byte(rest, i))
}

// The number in two bytes.
#[tactic(auto, using(crate::proofs::Fields::numbers))]
pub(crate) fn two_bytes(bytes: &[u8], a: usize) -> u16
    ensures { result ≡ field bytes.now a 2 }
{
    // kept: tried: twice the time over `bytes_at`
    if bytes.len() <= a {
        return 0;
    }
    u16::from_le_bytes([one_byte(bytes, a), one_byte(bytes, a + 1)])
}

// The number in four bytes.
#[tactic(auto, using(crate::proofs::Fields::numbers))]
pub(crate) fn four_bytes(bytes: &[u8], a: usize) -> u32
    ensures { result ≡ field bytes.now a 4 }
{
    u32::from_le_bytes(bytes_at(bytes, a))
}

// The bytes from place a on: none past the end.
pub(crate) fn bytes_from(bytes: &[u8], a: usize) -> &[u8]
    ensures { result.now ≡ drop a bytes.now }
{
    bytes.get(a..).unwrap_or(&[])
}
