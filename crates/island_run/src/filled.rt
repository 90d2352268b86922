// A frame whose tables are filled.
ghost use Rattle.colored_bodies.specs.Bindings.{Known};

use island_numbers::IslandLabels;

// The tables of a frame that the run of its islands reads: types and flags of its bodies, endpoints and counts of its constraints (without
// counts they are pairs), their labels, and their numbers sorted by island.
#[derive(Clone, Copy)]
pub struct FilledFrame<'a> {
    pub types: &'a [u8],
    pub flags: &'a [u8],
    pub ends: &'a [u16],
    pub counts: &'a [u8],
    pub labels: IslandLabels<'a>,
    pub numbers: &'a [u16],
    ghost known: { Known types.now },
}
