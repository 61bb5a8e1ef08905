// Numbers as bytes, the highest first.
ghost use Rattle.std.specs.Prelude.{◌≡◌, ◌+◌, ◌*◌, ◌^◌, ◌≤◌, ◌<◌, length};
ghost use Rattle.bits.specs.Number.{number, number_at};

// The number that bytes say, the highest first.
fn number(bytes: &[u8]) -> u32
    requires { length bytes.now ≤ 4 }
    ensures { (result ≡ number bytes.now) × (result < 2 ^ (8 * length bytes.now)) }
{
    let mut n: u32 = 0;
    for byte in bytes {
        n = n * 256 + u32::from(*byte);
    }
    n
}

// The number of the `size` bytes that start at `at`.
pub fn number_at(bytes: &[u8], at: usize, size: usize) -> u32
    requires { (size ≤ 4) × (at + size ≤ length bytes.now) }
    ensures { (result ≡ number_at bytes.now at size) × (result < 2 ^ (8 * size)) }
{
    number(&bytes[at..at + size])
}
