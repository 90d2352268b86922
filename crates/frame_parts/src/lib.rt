// What fills the tables of a decoded frame, internal to the run: its islands are built, D counted, and the constraints' numbers sorted by
// island, on tables that hold the manifolds' part before the joints'.
#![tactic(auto)]

ghost use Rattle.std.specs.Prelude.{◌+◌, ◌*◌, ◌≤◌, ◌≡◌, cond, ◌++◌, eqb, length, take, drop};
ghost use Rattle.frame.specs.Frames.{degree_max};
ghost use Rattle.frame.specs.Lists.{frame_in};
ghost use Rattle.frame.specs.Refusals.{refused_by};
ghost use Rattle.island.specs.Answers.{answer_islands};
ghost use Rattle.island.specs.Calls.{rooms_of, Built};
ghost use Rattle.island.specs.Lent.{tables_in, SameTables};
ghost use Rattle.island_numbers.specs.Numbers.{by_island, Labels, Sortable};
ghost use Rattle.island_numbers.specs.Tables.{labels_of};
ghost use Rattle.frame_parts.specs.Parts.{Standing, standing_refusal, Countable};

use frame::{Lists, Refusal};
use island::IslandTables;
use island_numbers::IslandLabels;

// The counts of the joints, behind the manifolds'; none if the constraints are pairs.
fn joint_counts<'a>(counts: &'a [u8], manifolds: usize) -> &'a [u8]
    ensures { result.now ≡ drop manifolds counts.now }
{
    counts.get(manifolds..).unwrap_or(&[])
}

// The frame that stands in the tables; without counts its joints are pairs.
pub fn lists_of<'a>(
    types: &'a [u8],
    pairs: &'a [u16],
    manifolds: usize,
    counts: &'a [u8],
    enabled: &'a [u8],
) -> Lists<'a>
    requires { 2 * manifolds ≤ length pairs.now }
    ensures { Standing types.now pairs.now manifolds counts.now enabled.now result }
{
    let (front, rest) = pairs.split_at(2 * manifolds);
    Lists {
        types,
        manifolds: front,
        joint_ends: rest,
        joint_counts: joint_counts(counts, manifolds),
        enabled,
    }
}

// Its islands; without counts the joints are pairs.
pub fn build(lists: Lists<'_>, tables: &mut IslandTables<'_>) -> Result<u16, Refusal>
    ensures built { Built (frame_in lists.entry) (standing_refusal lists.entry (rooms_of (tables_in tables.old)))
        (tables_in tables.old) (tables_in tables.new) (refused_by result) (answer_islands result) }
    ensures same { SameTables tables.old tables.new }
{
    if lists.joint_counts.is_empty() {
        return island::build_with_joints(lists, tables);
    }
    island::build_with_multi_joints(lists, tables)
}

// D, or 0 of a frame whose islands were refused. The table is free.
pub fn degree_of(built: Result<u16, Refusal>, lists: Lists<'_>, on_bodies: &mut [u16]) -> usize
    requires { Countable built lists on_bodies.old }
    ensures { result ≡ cond (eqb (refused_by built) 0) (degree_max (frame_in lists.entry)) 0 }
{
    if built.is_err() {
        return 0;
    }
    degrees::degree(lists.asked(), &mut on_bodies[..lists.types.len()])
}

// The labels of so many manifolds and joints.
pub fn labels_in<'a>(
    tables: &'a IslandTables<'_>,
    manifolds: usize,
    joints: usize,
) -> IslandLabels<'a>
    requires { (manifolds ≤ length tables.now.manifold_islands.now) × (joints ≤ length tables.now.joint_islands.now) }
    ensures { labels_of result ≡ take manifolds tables.now.manifold_islands.now ++ take joints tables.now.joint_islands.now }
{
    IslandLabels {
        manifolds: &tables.manifold_islands[..manifolds],
        joints: &tables.joint_islands[..joints],
    }
}

// The numbers by island, where the label tables hold at least so many manifolds and the rest joints.
pub fn sort(
    tables: &IslandTables<'_>,
    manifolds: usize,
    joints: usize,
    islands: u16,
    keys: &mut [u16],
    scratch_offsets: &mut [u16],
    offsets: &mut [u16],
    numbers: &mut [u16],
)
    requires in_bounds { (manifolds ≤ length tables.now.manifold_islands.now) × (joints ≤ length tables.now.joint_islands.now) × (manifolds + joints ≤ length keys.old) }
    requires labels { Labels islands (take manifolds tables.now.manifold_islands.now ++ take joints tables.now.joint_islands.now) }
    requires sortable { Sortable (manifolds + joints) (take (manifolds + joints) keys.old) scratch_offsets.old offsets.old numbers.old }
    ensures { numbers.new ≡ by_island islands (take manifolds tables.now.manifold_islands.now ++ take joints tables.now.joint_islands.now) }
{
    let labels = labels_in(tables, manifolds, joints);
    island_numbers::sort(
        labels,
        islands,
        &mut keys[..manifolds + joints],
        scratch_offsets,
        offsets,
        numbers,
    );
}
