// Storing into a state block: a field, an entry, a whole image.
ghost use Rattle.std.specs.Prelude.{◌≡◌, ◌++◌, ◌<◌, ◌≤◌, length, drop};
ghost use Rattle.std.proofs.lemmas.List.Edits.{sets};
ghost use Rattle.reclaiming.specs.StateBlock.{places, remaining_field, state_length, entry_bytes};
ghost use Rattle.state.specs.Code.{entry_at, entry_stored, rest_stored, total_stored};

use crate::{
    ENTRY_LENGTH, FIXED_AT, FIXED_WIDTH, FLOOR_UNIT, PERIOD_AT, PERIOD_WIDTH, REMAINING_AT,
    REMAINING_WIDTH, STATE_LENGTH, TOTAL_AT, TOTAL_WIDTH, UNSPENT_AT, UNSPENT_WIDTH, WORK_AT,
    WORK_WIDTH, WORST_AT, WORST_WIDTH,
};
use plan::Rest;
use reclaiming::Entry;

// Stores what is left of task i's job.
pub fn put_rest(block: &mut [u8], i: usize, rest: Rest)
    requires { (i < places) × (length block.old ≡ state_length) }
    ensures { block.new ≡ rest_stored block.old i rest }
{
    numeric::put_number(block, WORK_AT + ENTRY_LENGTH * i, WORK_WIDTH, rest.work);
    numeric::put_number(
        block,
        UNSPENT_AT + ENTRY_LENGTH * i,
        UNSPENT_WIDTH,
        rest.fixed,
    );
}

// Stores the remaining ticks of task i's job.
pub fn put_remaining(block: &mut [u8], i: usize, x: u32)
    requires { (i < places) × (length block.old ≡ state_length) }
    ensures { block.new ≡ entry_stored block.old remaining_field i x }
{
    numeric::put_number(block, REMAINING_AT + ENTRY_LENGTH * i, REMAINING_WIDTH, x);
}

// Stores the total of the remaining ticks.
pub fn put_total(block: &mut [u8], x: u32)
    requires { length block.old ≡ state_length }
    ensures { block.new ≡ total_stored block.old x }
{
    numeric::put_number(block, TOTAL_AT, TOTAL_WIDTH, x);
}

// Stores an entry.
pub fn put_entry(image: &mut [u8], i: usize, e: Entry)
    requires { (i < places) × (length image.old ≡ state_length) × (e.floor ≤ 15) × (e.worst ≤ 1048575) }
    ensures { image.new ≡ sets image.old (entry_at i) (entry_bytes e) }
{
    let at = ENTRY_LENGTH * i;
    numeric::put_number(image, PERIOD_AT + at, PERIOD_WIDTH, e.period);
    numeric::put_number(
        image,
        WORST_AT + at,
        WORST_WIDTH,
        FLOOR_UNIT * e.floor + e.worst,
    );
    numeric::put_number(image, WORK_AT + at, WORK_WIDTH, e.work);
    numeric::put_number(image, REMAINING_AT + at, REMAINING_WIDTH, e.remaining);
    numeric::put_number(image, FIXED_AT + at, FIXED_WIDTH, e.fixed);
    numeric::put_number(image, UNSPENT_AT + at, UNSPENT_WIDTH, e.unspent);
}

// Stores an image of a state at the front of a buffer.
pub fn store(buffer: &mut [u8], image: &[u8])
    requires { (length image.now ≡ state_length) × (state_length ≤ length buffer.old) }
    ensures { buffer.new ≡ image.now ++ drop state_length buffer.old }
{
    buffer[..STATE_LENGTH].copy_from_slice(image);
}
