// The five tables of an islands call as arrays, for the programs that make such calls. Internal: the library is lent its tables.
#![tactic(auto)]

ghost use Rattle.std.specs.Prelude.{◌≡◌, replicate, take};

use island::IslandTables;
use records::first;

// How many places of each table are lent.
#[derive(Clone, Copy)]
pub struct Room {
    pub parents: usize,
    pub sizes: usize,
    pub bodies: usize,
    pub manifolds: usize,
    pub joints: usize,
}

impl Room {
    // Just enough for so many bodies, manifolds and joints.
    pub fn exact(bodies: usize, manifolds: usize, joints: usize) -> Self
        ensures { (result.parents ≡ bodies) × (result.sizes ≡ bodies) × (result.bodies ≡ bodies) × (result.manifolds ≡ manifolds) × (result.joints ≡ joints) }
    {
        Room {
            parents: bodies,
            sizes: bodies,
            bodies,
            manifolds,
            joints,
        }
    }
}

// Tables with room for B bodies, M manifolds and J joints.
#[derive(Clone, Copy)]
pub struct IslandArrays<const B: usize, const M: usize, const J: usize> {
    parents: [u16; B],
    sizes: [u16; B],
    body_islands: [u16; B],
    manifold_islands: [u16; M],
    joint_islands: [u16; J],
}

impl<const B: usize, const M: usize, const J: usize> IslandArrays<B, M, J> {
    // Tables that hold a number everywhere.
    pub fn filled(number: u16) -> Self
        ensures { (result.parents ≡ replicate B number) × (result.sizes ≡ replicate B number) × (result.body_islands ≡ replicate B number)
            × (result.manifold_islands ≡ replicate M number) × (result.joint_islands ≡ replicate J number) }
    {
        IslandArrays {
            parents: [number; B],
            sizes: [number; B],
            body_islands: [number; B],
            manifold_islands: [number; M],
            joint_islands: [number; J],
        }
    }

    // The tables, lent as far as the room says.
    pub fn tables(&mut self, room: Room) -> IslandTables<'_>
        ensures { (result.parents.now ≡ take room.parents self.old.parents) × (result.sizes.now ≡ take room.sizes self.old.sizes) × (result.body_islands.now ≡ take room.bodies self.old.body_islands)
            × (result.manifold_islands.now ≡ take room.manifolds self.old.manifold_islands) × (result.joint_islands.now ≡ take room.joints self.old.joint_islands) }
    {
        IslandTables {
            parents: first(&mut self.parents, room.parents),
            sizes: first(&mut self.sizes, room.sizes),
            body_islands: first(&mut self.body_islands, room.bodies),
            manifold_islands: first(&mut self.manifold_islands, room.manifolds),
            joint_islands: first(&mut self.joint_islands, room.joints),
        }
    }
}
