// The functions of arithmetic: rounding up, divisors, numbers in bytes and in bits.
#![tactic(auto)]

ghost use Rattle.std.specs.Prelude.{◌≡◌, ◌+◌, ◌*◌, ◌<◌, ◌≤◌, length, drop};
ghost use Rattle.std.proofs.lemmas.List.Edits.{sets};
ghost use Rattle.arith.specs.Need.{need};
ghost use Rattle.arith.specs.Divisor.{gcd, lcm};
ghost use Rattle.arith.specs.Digits.{number, digits};
ghost use Rattle.arith.specs.Bits.{unpacked};

// Ticks that work needs at a speed, rounded up: speed less one is added before dividing.
pub fn time_needed(speed: u32, work: u32) -> u32
    requires { (0 < speed) × (speed ≤ 1000) × (work < 16777216) }
    ensures { result ≡ need speed work }
{
    // A number of 16 bits, and one, is never 0, and the compiler sees it; before a plain `/ speed` it puts a test for 0 and a jump.
    let less = ((speed - 1) as u16) as u32;
    (work + less) / (less + 1)
}

// The greatest common divisor, by recursion on a falling remainder.
fn gcd_of(a: u32, b: u32) -> u32
    ensures { result ≡ gcd a b }
{
    if b == 0 {
        return a;
    }
    gcd_of(b, a % b)
}

// The least common multiple; two numbers of 32 bits never have one that 64 bits do not hold.
pub fn lcm_of(a: u32, b: u32) -> u64
    requires { 0 < a }
    ensures { result ≡ lcm a b }
{
    if b % a == 0 {
        return b as u64;
    }
    let g = gcd_of(a, b);
    let part = a / g;
    (part as u64) * (b as u64)
}

// The number that n bytes of a slice are, most significant first.
pub fn get_number(s: &[u8], at: usize, n: usize) -> u32
    requires { (n ≤ 4) × (at + n ≤ length s.now) }
    ensures { result ≡ number 256 n (drop at s.now) }
{
    let mut acc: u64 = 0;
    for byte in &s[at..at + n] {
        acc = acc * 256 + (*byte as u64);
    }
    acc as u32
}

// Stores the n lowest bytes of a number, most significant first.
pub fn put_number(s: &mut [u8], at: usize, n: usize, x: u32)
    requires { (n ≤ 4) × (at + n ≤ length s.old) }
    ensures { s.new ≡ sets s.old at (digits 256 n x) }
{
    let mut rest: u32 = x;
    for i in (0..n).rev() {
        s[at + i] = (rest % 256) as u8;
        rest /= 256;
    }
}

// The number that n bits of a slice are, most significant first.
pub fn bits_at(s: &[u8], at: usize, n: usize) -> u32
    requires { (n ≤ 20) × (at ≤ 1024) × (at + n ≤ 8 * length s.now) }
    ensures { result ≡ number 2 n (drop at (unpacked s.now)) }
{
    let first = at / 8;
    let bytes = (at + n + 7) / 8 - first;
    let number = get_number(s, first, bytes);
    let beyond = 8 * (first + bytes) - (at + n);
    (number >> beyond) % (1u32 << n)
}
