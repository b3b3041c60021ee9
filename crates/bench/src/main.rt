// The bench program: reads a plan block and passes from standard input, and writes their listing.
#![tactic(auto)]

ghost use Rattle.std.specs.Prelude.{◌≡◌, ◌≤◌, IfOk, length};

use std::io;
use std::io::Read;

// Room for the largest input, and for one byte more, so that a longer one is noticed.
fn input_room() -> [u8; 65537]
    ensures { 65537 ≡ length result }
{
    [0; 65537]
}

// Room for the longest listing.
fn listing_room() -> [u8; 2000000]
    ensures { 2000000 ≡ length result }
{
    [0; 2000000]
}

// Reads until the room is full or the input ends, and says how many bytes there are.
fn read_full<R: Read>(input: &mut R, room: &mut [u8]) -> io::Result<usize>
    ensures { IfOk result (λ n. n ≤ length room.new) }
{
    let mut done = 0;
    while done < room.len() {
        let n = input.read(&mut room[done..])?;
        if n == 0 {
            break;
        }
        done += n;
    }
    Ok(done)
}

fn main(rt: HostRuntime) -> io::Result<()> {
    let mut room = input_room();
    let mut input = rt.reader();
    let n = read_full(&mut input, &mut room)?;
    let mut out = listing_room();
    let m = listing::list_into(&room[..n], &mut out);
    rt.write_all(&out[..m])
}
