// A table of speeds, as the code holds it.
ghost use Rattle.levels.specs.Code.{Table};

// Eight numbers, of which the first so many are the speeds of the levels.
#[derive(Clone, Copy)]
pub struct SpeedTable {
    pub speeds: [u32; 8],
    pub levels: usize,
    pub ghost known: { Table speeds levels },
}
