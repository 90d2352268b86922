// An island as the run lends it.
ghost use Rattle.colored_bodies.specs.Bindings.{Known};

// An island of a frame: its number, the types and flags of the frame's bodies, the endpoints and counts of its constraints, and their numbers by
// rank. Without counts its constraints are pairs.
#[derive(Clone, Copy)]
pub struct Island<'a> {
    pub island: u16,
    pub types: &'a [u8],
    pub flags: &'a [u8],
    pub ends: &'a [u16],
    pub counts: &'a [u8],
    pub numbers: &'a [u16],
    ghost known: { Known types.now },
}
