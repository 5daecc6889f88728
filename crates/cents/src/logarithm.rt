// L(n) of document 01: 2^30 times the binary logarithm of n, by thirty squarings.
ghost use Rattle.std.specs.Prelude.{◌≡◌, ℕ, ◌+◌, ◌*◌, ◌^◌, ◌<◌, ◌≤◌};
ghost use Rattle.cents.specs.Log.{highest_bit, L};

const TURNS: u32 = 30;

// The place of the highest one bit of n, place 0 for n = 1.
pub fn highest_bit(n: u32) -> u32
    requires { 0 < n }
    ensures { (result ≡ highest_bit n) × (2 ^ result ≤ n) × (n < 2 ^ (result + 1)) }
{
    31 - n.leading_zeros()
}

// The squaring of a turn.
fn square(m: u32) -> u64
    ensures { result ≡ m * m }
{
    m as u64 * m as u64
}

pub fn logarithm_of(n: u32) -> u64
    requires { 0 < n }
    ensures { (result ≡ L n) × (result < 2 ^ 35) }
{
    let k = highest_bit(n);
    let mut m = n << (31 - k);
    let mut bits = k as u64;
    for _ in 0..TURNS {
        let q = square(m) / 0x8000_0000;
        if q < 0x1_0000_0000 {
            m = q as u32;
            bits = 2 * bits;
        } else {
            m = (q / 2) as u32;
            bits = 2 * bits + 1;
        }
    }
    bits
}
