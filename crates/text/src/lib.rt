// Words and numbers in decimal stored into a lent buffer: each function returns the place past what it stored.
#![tactic(auto)]

pub mod lines;

ghost use Rattle.std.specs.Prelude.{[], ◌∷◌, ◌+◌, ◌≤◌, length};
ghost use Rattle.transcript.specs.Text.{decimal_within, decimal, spaced};
ghost use Rattle.text.specs.Stores.{Put};

// Stores one byte.
pub(crate) fn put_byte(out: &mut [u8], at: usize, b: u8) -> usize
    requires { at + 1 ≤ length out.old }
    ensures { Put 1 out.old at (b ∷ []) result out.new }
{
    out[at] = b;
    at + 1
}

// Stores a word.
pub(crate) fn put_word(out: &mut [u8], at: usize, word: &[u8]) -> usize
    requires { (length word.now ≤ 7) × (at + 7 ≤ length out.old) }
    ensures { Put 7 out.old at word.now result out.new }
{
    let end = at + word.len();
    out[at..end].copy_from_slice(word);
    end
}

// Stores a number in decimal, with at most so many digits before its last.
fn put_digits(out: &mut [u8], at: usize, more: usize, n: u64) -> usize
    requires { (more ≤ 9) × (at + (more + 1) ≤ length out.old) }
    ensures { Put (more + 1) out.old at (decimal_within more n) result out.new }
{
    let last = (n % 10) as u8;
    if more == 0 {
        return put_byte(out, at, 48 + last);
    }
    if n < 10 {
        return put_byte(out, at, 48 + last);
    }
    let next = put_digits(out, at, more - 1, n / 10);
    put_byte(out, next, 48 + last)
}

// Stores a number in decimal.
pub(crate) fn put_decimal(out: &mut [u8], at: usize, n: u64) -> usize
    requires { at + 10 ≤ length out.old }
    ensures { Put 10 out.old at (decimal n) result out.new }
{
    put_digits(out, at, 9, n)
}

// Stores a number with a space before it.
pub(crate) fn put_spaced(out: &mut [u8], at: usize, n: u64) -> usize
    requires { at + 11 ≤ length out.old }
    ensures { Put 11 out.old at (spaced n) result out.new }
{
    let next = put_byte(out, at, b' ');
    put_decimal(out, next, n)
}
