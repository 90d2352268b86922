// Frames at the limits: prints for each its refusal, or how many islands it has, the last body's label, the sum of the bodies' labels
// (none is 65535), and the parent of body 0 with the size there.
#![tactic(auto)]

use frame::{Lists, Refusal};
use island::IslandTables;
use island_arrays::{IslandArrays, Room};
use records::Heedless;
use std::{array, io};

// As many bodies as a frame may have, and one more; the joints have the same limit.
const MOST: usize = 4096;

const TOO_MANY: usize = 4097;

// Two endpoints for each constraint of a chain or a hub of the most bodies.
const PAIRS: usize = 8190;

// Four for each of the most joints, and for one more.
const ENDS: usize = 4 * MOST;

const TOO_MANY_ENDS: usize = 4 * TOO_MANY;

// The tables of the most bodies, manifolds and joints, and of one more.
type Arrays = IslandArrays<TOO_MANY, TOO_MANY, TOO_MANY>;

// The chain 0-1, 1-2, 2-3, ..
fn rising_chain() -> [u16; PAIRS] {
    array::from_fn(|k| ((k + 1) / 2) as u16)
}

// The same chain from its other end, .., 3-2, 2-1, 1-0.
fn falling_chain() -> [u16; PAIRS] {
    array::from_fn(|k| ((PAIRS - k) / 2) as u16)
}

// Every body on the last one: 0-4095, 1-4095, 2-4095, ..
fn spokes() -> [u16; PAIRS] {
    array::from_fn(|k| if k % 2 == 1 { 4095 } else { (k / 2) as u16 })
}

// Joint i is on the bodies i, i + 1, i + 2 and i + 3 of 4,096, around their end.
fn ends_of_fours<const N: usize>() -> [u16; N] {
    array::from_fn(|k| ((k / 4 + k % 4) % 4096) as u16)
}

// The parent of body 0 and the size there: in every frame here body 0 is at most one link from the root of its set, so this is that
// root and the number of bodies in the set.
fn print_first_set(rt: &impl Print, parents: &[u16], sizes: &[u16]) -> io::Result<()> {
    if let Some(parent) = parents.first() {
        if let Some(size) = sizes.get(usize::from(*parent)) {
            return print!(rt; " parent {parent} size {size}");
        }
    }
    Ok(())
}

// What a frame of islands shows.
fn print_islands(rt: &impl Print, islands: u16, tables: &IslandTables<'_>) -> io::Result<()> {
    let labels = &tables.body_islands;
    print!(rt; " islands {islands}")?;
    if let Some(last) = labels.last() {
        print!(rt; " last {last}")?;
    }
    let sum: u32 = labels
        .iter()
        .fold(0, |sum, x| u32::from(*x).wrapping_add(sum));
    print!(rt; " sum {sum}")?;
    print_first_set(rt, tables.parents, tables.sizes)
}

// The line of one frame, on these tables as far as the room says; `build` is the call.
fn show<F>(rt: &impl Print, name: &str, arrays: &mut Arrays, room: Room, build: F) -> io::Result<()>
where
    F: FnOnce(&mut IslandTables<'_>) -> Result<u16, Refusal> + Drop,
    requires { F.IsAlwaysCallable build }
{
    let mut tables = arrays.tables(room);
    let answer = build(&mut tables);
    print!(rt; "{name}")?;
    match answer {
        Ok(islands) => print_islands(rt, islands, &tables)?,
        Err(refusal) => print!(rt; " refused {refusal}")?,
    }
    println!(rt; "")
}

// A frame without joints.
fn show_manifolds(
    rt: &impl Print,
    name: &str,
    types: &[u8],
    manifolds: &[u16],
    arrays: &mut Arrays,
    room: Room,
) -> io::Result<()> {
    show(
        rt,
        name,
        arrays,
        room,
        |tables| island::build(types, manifolds, tables),
    )
}

// A frame of joints, all enabled.
fn show_joints(
    rt: &impl Print,
    name: &str,
    types: &[u8],
    joint_ends: &[u16],
    enabled: &[u8],
    arrays: &mut Arrays,
    room: Room,
) -> io::Result<()> {
    let lists = Lists {
        types,
        manifolds: &[],
        joint_ends,
        joint_counts: &[],
        enabled,
    };
    show(
        rt,
        name,
        arrays,
        room,
        |tables| island::build_with_joints(lists, tables),
    )
}

// A frame of joints of four bodies each, all enabled.
fn show_fours(
    rt: &impl Print,
    name: &str,
    types: &[u8],
    joint_ends: &[u16],
    joint_counts: &[u8],
    enabled: &[u8],
) -> io::Result<()> {
    let lists = Lists {
        types,
        manifolds: &[],
        joint_ends,
        joint_counts,
        enabled,
    };
    let room = Room::exact(types.len(), 0, joint_counts.len());
    show(rt, name, &mut Arrays::filled(0), room, |tables| {
        island::build_with_multi_joints(lists, tables)
    })
}

// 4,096 bodies in one chain, and 4,095 on one static body.
fn most_bodies(rt: &impl Print) -> io::Result<()> {
    let exact = Room::exact(MOST, MOST - 1, 0);
    let mut arrays = Arrays::filled(0);
    let mut types = [2; MOST];
    show_manifolds(
        rt,
        "chain rising",
        &types,
        &rising_chain(),
        &mut arrays,
        exact,
    )?;
    show_manifolds(
        rt,
        "chain falling",
        &types,
        &falling_chain(),
        &mut arrays,
        exact,
    )?;
    types[MOST - 1] = 0;
    show_manifolds(rt, "static hub", &types, &spokes(), &mut arrays, exact)
}

// Endpoint B - 1, and B.
fn last_endpoint(rt: &impl Print) -> io::Result<()> {
    let exact = Room::exact(2, 1, 0);
    let mut arrays = Arrays::filled(0);
    show_manifolds(rt, "endpoint B - 1", &[2; 2], &[0, 1], &mut arrays, exact)?;
    show_manifolds(rt, "endpoint B", &[2; 2], &[0, 2], &mut arrays, exact)
}

// The rising chain on tables of these lengths, each time on what the time before left there.
fn show_chains(rt: &impl Print, rooms: &[(&str, Room)]) -> io::Result<()> {
    let pairs = rising_chain();
    let mut arrays = Arrays::filled(0);
    for (name, room) in rooms {
        show_manifolds(rt, name, &[2; MOST], &pairs, &mut arrays, *room)?;
    }
    Ok(())
}

// One table an entry short, in a frame whose exact tables `most_bodies` lent.
fn short_tables(rt: &impl Print) -> io::Result<()> {
    let exact = Room::exact(MOST, MOST - 1, 0);
    let parents = Room {
        parents: MOST - 1,
        ..exact
    };
    let bodies = Room {
        bodies: MOST - 1,
        ..exact
    };
    let manifolds = Room {
        manifolds: MOST - 2,
        ..exact
    };
    show_chains(
        rt,
        &[
            ("parents short", parents),
            ("body labels short", bodies),
            ("manifold labels short", manifolds),
        ],
    )
}

// The table of sizes an entry short, and one longer than there are bodies.
fn other_sizes(rt: &impl Print) -> io::Result<()> {
    let exact = Room::exact(MOST, MOST - 1, 0);
    let short = Room {
        sizes: MOST - 1,
        ..exact
    };
    let long = Room {
        sizes: MOST + 1,
        ..exact
    };
    show_chains(rt, &[("sizes short", short), ("sizes long", long)])
}

// The chain by joints, with the joint labels exact and one short.
fn joint_tables(rt: &impl Print) -> io::Result<()> {
    let pairs = rising_chain();
    let exact = Room::exact(MOST, 0, MOST - 1);
    let short = Room::exact(MOST, 0, MOST - 2);
    let mut arrays = Arrays::filled(0);
    show_joints(
        rt,
        "joint labels exact",
        &[2; MOST],
        &pairs,
        &[1; MOST - 1],
        &mut arrays,
        exact,
    )?;
    show_joints(
        rt,
        "joint labels short",
        &[2; MOST],
        &pairs,
        &[1; MOST - 1],
        &mut arrays,
        short,
    )
}

// The most joints, of four bodies each, and one joint too many.
fn most_joints(rt: &impl Print) -> io::Result<()> {
    show_fours(
        rt,
        "4096 joints of four",
        &[2; MOST],
        &ends_of_fours::<ENDS>(),
        &[4; MOST],
        &[1; MOST],
    )?;
    show_fours(
        rt,
        "4097 joints of four",
        &[2; 4],
        &ends_of_fours::<TOO_MANY_ENDS>(),
        &[4; TOO_MANY],
        &[1; TOO_MANY],
    )
}

// One body too many.
fn too_many_bodies(rt: &impl Print) -> io::Result<()> {
    let room = Room::exact(TOO_MANY, 0, 0);
    let mut arrays = Arrays::filled(0);
    show_manifolds(rt, "4097 bodies", &[2; TOO_MANY], &[], &mut arrays, room)?;
    show_manifolds(rt, "4096 bodies", &[2; MOST], &[], &mut arrays, room)
}

fn show_all(rt: &impl Print) -> io::Result<()> {
    most_bodies(rt)?;
    last_endpoint(rt)?;
    short_tables(rt)?;
    other_sizes(rt)?;
    joint_tables(rt)?;
    most_joints(rt)?;
    too_many_bodies(rt)
}

// No exit status tells of a write that failed.
fn main(rt: HostRuntime) {
    let _ = show_all(&Heedless { to: &rt });
}
