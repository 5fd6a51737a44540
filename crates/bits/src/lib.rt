// Marks one to a bit: a byte holds eight flags, the lowest bit first. A reader of contracts sees the list of flags, 0 or 1 each.
#![tactic(auto)]

ghost use Rattle.std.specs.Prelude.{◌≡◌, ◌<◌, ◌*◌, ◌^◌, length, get_or, set, eqb};
ghost use Rattle.bits.specs.Flags.{flags, flag, total, BitStored};

// Whether the flag at i is 1.
pub fn is_set(bytes: &[u8], i: usize) -> bool
    requires { i < 8 * length bytes.now }
    ensures { result ≡ eqb (get_or (flags bytes.now) i 0) 1 }
{
    (bytes[i / 8] >> (i % 8)) % 2 == 1
}

// A byte with its bit k stored.
fn with_bit(byte: u8, k: usize, on: bool) -> u8
    requires { k < 8 }
    ensures { BitStored byte k (flag on) result }
{
    let bit = 1u8 << k;
    if on {
        return byte | bit;
    }
    byte & !bit
}

// Stores the flag at i.
pub fn put(bytes: &mut [u8], i: usize, on: bool)
    requires { i < 8 * length bytes.old }
    ensures { flags bytes.new ≡ set (flags bytes.old) i (flag on) }
{
    bytes[i / 8] = with_bit(bytes[i / 8], i % 8, on);
}

// How many flags are 1.
pub fn count(bytes: &[u8]) -> usize
    requires { length bytes.now < 2 ^ 32 }
    ensures { result ≡ total (flags bytes.now) }
{
    bytes.iter().map(|b| b.count_ones() as usize).sum()
}
