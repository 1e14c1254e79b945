// How many bits the keys of an outline take.
ghost use Rattle.std.specs.Prelude.{◌≡◌, ◌<◌, ◌≤◌, ◌^◌, nat_lt};
ghost use Rattle.aso_outline.specs.Rules.{bits_for, key_bits};

use aso_outline::Outline;

// The power of two of this exponent is less than the count.
fn is_power_below(bit: u32, count: u32) -> bool
    requires { bit < 32 }
    ensures { result ≡ nat_lt (2 ^ bit) count }
{
    (1u64 << bit) < u64::from(count)
}

// The least number of bits that writes `count - 1`.
fn bits_for(count: u32) -> u32
    ensures value { result ≡ bits_for count }
    ensures bound { result ≤ 32 }
{
    let mut bits = 0;
    for bit in 0..32u32 {
        if is_power_below(bit, count) {
            bits += 1;
        }
    }
    bits
}

/// How many bits the key of a cell takes: for each base dimension those of its greatest leaf ordinal.
pub fn key_bits(outline: &Outline) -> u64
    ensures { result ≡ key_bits outline.now }
{
    outline.keeps_counts();
    let mut bits: u64 = 0;
    for dim in 0..outline.dims() {
        bits += u64::from(bits_for(outline.leaf_count(dim)));
    }
    bits
}
