// How the bench program's input is cut into a level block, a plan block and passes.
ghost use Rattle.std.specs.Prelude.{◌≡◌, ◌≤◌, length};
ghost use Rattle.transcript.specs.Listing.{cut_edition, level_cut, plan_cut};

// The edition that an input is cut by: one that is neither 1 nor 2 is refused whatever is cut, and is cut as 1.
fn cut_edition(edition: u32) -> u32
    ensures { result ≡ cut_edition edition }
{
    if edition == 2 {
        return 2;
    }
    1
}

// How many bytes of the input its level block is given: as many as the count needs, or all there are if fewer, or if the count is bad.
pub fn level_cut(input: &[u8]) -> usize
    ensures value { result ≡ level_cut input.now }
    ensures upper_bound { result ≤ length input.now }
{
    let n = input.len();
    if n < 1 {
        return n;
    }
    let count = numeric::bits_at(input, 0, 4) as usize;
    if count < 1 {
        return n;
    }
    if count > 8 {
        return n;
    }
    let size = levels::level_length(count);
    if size < n {
        return size;
    }
    n
}

// How many bytes of the input the reader is given: as many as the count needs, or all there are if fewer, or if the count is bad.
pub fn plan_cut(input: &[u8]) -> usize
    ensures value { result ≡ plan_cut input.now }
    ensures upper_bound { result ≤ length input.now }
{
    let n = input.len();
    if n < 2 {
        return n;
    }
    let edition = cut_edition(numeric::bits_at(input, 0, 4));
    let count = numeric::bits_at(input, 4, 5) as usize;
    if count < 1 {
        return n;
    }
    if count > 16 {
        return n;
    }
    let wanted = plan_reading::fields::block_length(edition, count);
    if wanted < n {
        return wanted;
    }
    n
}
