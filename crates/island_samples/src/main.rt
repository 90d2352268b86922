// The samples of weighted union, of logged bodies and of joints with two to four bodies, each an islands call on fresh tables, a line
// each: how many islands, then of each body its root, the links to it and the size at the root, then the labels of bodies, manifolds
// and joints, where a dash is none. After a refusal the two tables of parents and sizes are printed as they were left. A place that was
// not lent is a dash too; every lent place holds 9 before the call.
#![tactic(auto)]

use frame::{Frame, Lists, Refusal};
use island::IslandTables;
use island_arrays::{IslandArrays, Room};
use records::Heedless;
use std::{fmt, io};

// A sample: its name, and the frame. Joints without counts are pairs.
#[derive(Clone, Copy)]
struct Sample<'a> {
    name: &'a str,
    types: &'a [u8],
    manifolds: &'a [u16],
    joint_ends: &'a [u16],
    joint_counts: Option<&'a [u8]>,
    enabled: &'a [u8],
}

impl Sample<'_> {
    // How many joints the frame has.
    fn joints(&self) -> usize {
        match self.joint_counts {
            Some(counts) => counts.len(),
            None => self.joint_ends.len() / 2,
        }
    }
}

// The tables of at most 16 bodies, 8 manifolds and 7 joints.
type Arrays = IslandArrays<16, 8, 7>;

// Enough for each sample.
const AMPLE: Room = Room {
    parents: 16,
    sizes: 16,
    bodies: 16,
    manifolds: 8,
    joints: 7,
};

// Room for 8 bodies, 4 manifolds and 4 joints: that of the frames whose joints have counts.
const COUNTED: Room = Room {
    parents: 8,
    sizes: 8,
    bodies: 8,
    manifolds: 4,
    joints: 4,
};

// Where the links of a body end, and how many there are.
#[derive(Clone, Copy)]
struct Way {
    root: usize,
    links: usize,
}

// The number at a place of a table: none beyond its end, and none for the label of what has no island.
fn at(values: &[u16], place: usize) -> Option<u16> {
    values.get(place).copied().filter(|x| *x != Frame::NONE)
}

// The way of a body in a table of parents, cut after as many links as there are bodies: it ends in any table.
fn way_of(parents: &[u16], bodies: usize, body: usize) -> Way {
    let mut root = body;
    // `root` is `links` links on from `body`.
    for links in 0..bodies {
        match at(parents, root).map(usize::from) {
            Some(parent) if parent != root => root = parent,
            _ => return Way { root, links },
        }
    }
    Way {
        root,
        links: bodies,
    }
}

// A number, or a dash for none.
fn put<D: fmt::Display + Drop>(rt: &impl Print, value: Option<D>) -> io::Result<()> {
    match value {
        Some(value) => print!(rt; " {value}"),
        None => print!(rt; " -"),
    }
}

// A word, and a value for each number below `count`; nothing where `count` is 0.
fn put_each<D: fmt::Display + Drop, F: Fn(usize) -> Option<D> + Drop>(
    rt: &impl Print,
    word: &str,
    count: usize,
    value: F,
) -> io::Result<()>
    requires { F.IsAlwaysCallable value }
{
    if count == 0 {
        return Ok(());
    }
    print!(rt; " {word}")?;
    for i in 0..count {
        put(rt, value(i))?;
    }
    Ok(())
}

// The sets of the bodies: of each its root, the links to it and the size there.
fn put_sets(rt: &impl Print, bodies: usize, parents: &[u16], sizes: &[u16]) -> io::Result<()> {
    let way = |body| way_of(parents, bodies, body);
    put_each(rt, "roots", bodies, |body| Some(way(body).root))?;
    put_each(rt, "links", bodies, |body| Some(way(body).links))?;
    put_each(rt, "sizes", bodies, |body| at(sizes, way(body).root))
}

// The first `count` values of a table.
fn put_values(rt: &impl Print, word: &str, count: usize, values: &[u16]) -> io::Result<()> {
    put_each(rt, word, count, |i| at(values, i))
}

// The answer and the sets: by their roots after acceptance, else the two tables as they are.
fn put_answer(
    rt: &impl Print,
    answer: Result<u16, Refusal>,
    bodies: usize,
    tables: &IslandTables<'_>,
) -> io::Result<()> {
    match answer {
        Ok(count) => {
            print!(rt; " islands {count}")?;
            put_sets(rt, bodies, tables.parents, tables.sizes)
        }
        Err(refusal) => {
            print!(rt; " refused {refusal}")?;
            put_values(rt, "parents", bodies, tables.parents)?;
            put_values(rt, "sizes", bodies, tables.sizes)
        }
    }
}

// The islands call of a sample.
fn build(sample: Sample<'_>, tables: &mut IslandTables<'_>) -> Result<u16, Refusal> {
    let lists = Lists {
        types: sample.types,
        manifolds: sample.manifolds,
        joint_ends: sample.joint_ends,
        joint_counts: sample.joint_counts.unwrap_or(&[]),
        enabled: sample.enabled,
    };
    match sample.joint_counts {
        None => island::build_with_joints(lists, tables),
        Some(_) => island::build_with_multi_joints(lists, tables),
    }
}

// What a sample's line says behind its name.
fn put_line(
    rt: &impl Print,
    sample: Sample<'_>,
    answer: Result<u16, Refusal>,
    tables: &IslandTables<'_>,
) -> io::Result<()> {
    let bodies = sample.types.len();
    let manifolds = sample.manifolds.len() / 2;
    put_answer(rt, answer, bodies, tables)?;
    put_values(rt, "bodies", bodies, tables.body_islands)?;
    put_values(rt, "manifolds", manifolds, tables.manifold_islands)?;
    put_values(rt, "joints", sample.joints(), tables.joint_islands)
}

// The line of a sample, on tables of these lengths.
fn show(rt: &impl Print, sample: Sample<'_>, room: Room) -> io::Result<()> {
    let mut arrays = Arrays::filled(9);
    let mut tables = arrays.tables(room);
    let answer = build(sample, &mut tables);
    print!(rt; "{}", sample.name)?;
    put_line(rt, sample, answer, &tables)?;
    println!(rt; "")
}

// A frame of manifolds.
fn manifold_sample<'a>(
    rt: &impl Print,
    name: &'a str,
    types: &'a [u8],
    manifolds: &'a [u16],
) -> io::Result<()> {
    let sample = Sample {
        name,
        types,
        manifolds,
        joint_ends: &[],
        joint_counts: None,
        enabled: &[],
    };
    show(rt, sample, AMPLE)
}

// Every body dynamic.
fn dynamic_samples(rt: &impl Print) -> io::Result<()> {
    manifold_sample(rt, "pair", &[2; 2], &[1, 0])?;
    manifold_sample(rt, "rising link", &[2; 3], &[1, 2, 0, 1])?;
    manifold_sample(rt, "cycle", &[2; 3], &[1, 2, 0, 2, 0, 1])?;
    manifold_sample(rt, "two pairs", &[2; 4], &[2, 3, 0, 1, 0, 3])?;
    manifold_sample(rt, "larger set", &[2; 5], &[3, 4, 2, 4, 0, 1, 1, 2])?;
    manifold_sample(
        rt,
        "four pairs",
        &[2; 8],
        &[6, 7, 4, 5, 2, 3, 0, 1, 5, 7, 1, 3, 7, 3],
    )?;
    manifold_sample(
        rt,
        "falling chain",
        &[2; 6],
        &[5, 4, 4, 3, 3, 2, 2, 1, 1, 0],
    )?;
    manifold_sample(rt, "rising chain", &[2; 6], &[0, 1, 1, 2, 2, 3, 3, 4, 4, 5])
}

// 16 bodies, joined pairwise at their roots, by manifolds and then by joints: the most links that so many bodies can have.
fn eight_pairs(rt: &impl Print) -> io::Result<()> {
    let sample = Sample {
        name: "eight pairs",
        types: &[2; 16],
        manifolds: &[0, 1, 2, 3, 4, 5, 6, 7, 8, 9, 10, 11, 12, 13, 14, 15],
        joint_ends: &[0, 2, 4, 6, 8, 10, 12, 14, 0, 4, 8, 12, 0, 8],
        joint_counts: None,
        enabled: &[1; 7],
    };
    show(rt, sample, AMPLE)
}

// Labels go by the lowest body of a set, and a static body is a set of its own.
fn labelled_samples(rt: &impl Print) -> io::Result<()> {
    manifold_sample(
        rt,
        "static end",
        &[2, 2, 2, 0, 2, 2],
        &[4, 5, 1, 2, 2, 4, 0, 3],
    )?;
    manifold_sample(rt, "root above lowest", &[2, 2, 2], &[1, 2, 0, 2])?;
    manifold_sample(rt, "lower root", &[2; 6], &[0, 5, 1, 2, 5, 2])?;
    manifold_sample(rt, "static first", &[0, 2, 2, 2, 2], &[3, 4, 1, 2, 0, 1])
}

// A joint between a body and itself leaves each body alone; a size table with fewer places than bodies leaves every table as it was.
fn refused_samples(rt: &impl Print) -> io::Result<()> {
    let own = Sample {
        name: "own joint",
        types: &[2, 2],
        manifolds: &[],
        joint_ends: &[0, 0],
        joint_counts: None,
        enabled: &[1],
    };
    show(
        rt,
        own,
        Room {
            parents: 2,
            sizes: 2,
            ..AMPLE
        },
    )?;
    let short = Sample {
        name: "sizes short",
        types: &[2, 2],
        manifolds: &[0, 1],
        joint_ends: &[],
        joint_counts: None,
        enabled: &[],
    };
    show(
        rt,
        short,
        Room {
            parents: 2,
            sizes: 1,
            ..AMPLE
        },
    )
}

// A logged body (type 3) connects nothing and has no label, nor has a constraint without a dynamic body; type 4 is not known.
fn logged_samples(rt: &impl Print) -> io::Result<()> {
    manifold_sample(rt, "logged between", &[2, 3, 2], &[0, 1, 2, 1])?;
    manifold_sample(rt, "logged and joined", &[2, 2, 3], &[0, 2, 1, 2, 0, 1])?;
    manifold_sample(rt, "logged alone", &[3, 0, 3], &[0, 1, 2, 0, 0, 2])?;
    manifold_sample(rt, "type 4", &[2, 4], &[0, 1])
}

// A frame whose joints have counts, on tables for 8 bodies, 4 manifolds and 4 joints.
fn counted_sample<'a>(
    rt: &impl Print,
    name: &'a str,
    types: &'a [u8],
    manifolds: &'a [u16],
    joint_ends: &'a [u16],
    joint_counts: &'a [u8],
    enabled: &'a [u8],
) -> io::Result<()> {
    let sample = Sample {
        name,
        types,
        manifolds,
        joint_ends,
        joint_counts: Some(joint_counts),
        enabled,
    };
    show(rt, sample, COUNTED)
}

// Joints of two to four bodies connect their dynamic bodies, whatever the others are.
fn counted_samples(rt: &impl Print) -> io::Result<()> {
    counted_sample(
        rt,
        "static end first",
        &[2, 2, 0],
        &[],
        &[2, 0, 1],
        &[3],
        &[1],
    )?;
    counted_sample(
        rt,
        "first with each",
        &[2; 4],
        &[],
        &[3, 2, 1, 0],
        &[4],
        &[1],
    )?;
    counted_sample(
        rt,
        "third end",
        &[2; 4],
        &[],
        &[0, 1, 3, 2, 1],
        &[3, 2],
        &[1, 1],
    )?;
    counted_sample(
        rt,
        "logged among four",
        &[0, 2, 3, 2],
        &[],
        &[0, 1, 2, 3],
        &[4],
        &[1],
    )
}

// Joints beside manifolds, a disabled joint, and none.
fn mixed_samples(rt: &impl Print) -> io::Result<()> {
    counted_sample(
        rt,
        "two, three and four",
        &[2, 2, 3, 2, 0, 2],
        &[0, 2, 3, 4],
        &[3, 2, 5, 1, 0, 4, 9, 9, 4, 5, 1, 2],
        &[3, 3, 2, 4],
        &[1, 1, 0, 1],
    )?;
    counted_sample(
        rt,
        "none dynamic",
        &[3, 3, 0],
        &[0, 1],
        &[0, 1, 2],
        &[3],
        &[1],
    )?;
    counted_sample(
        rt,
        "around static and kinematic",
        &[2, 0, 1, 2, 2],
        &[3, 4],
        &[0, 1, 2, 3],
        &[4],
        &[1],
    )?;
    counted_sample(
        rt,
        "disabled joint of three",
        &[2; 3],
        &[],
        &[0, 1, 2],
        &[3],
        &[0],
    )?;
    counted_sample(rt, "no counts", &[2; 2], &[0, 1], &[], &[], &[])
}

// What questions 4 and 5 refuse of joints with counts. Question 5 is asked of disabled joints too.
fn refused_counts(rt: &impl Print) -> io::Result<()> {
    counted_sample(rt, "count 5", &[2; 5], &[], &[0, 1, 2, 3, 4], &[5], &[1])?;
    counted_sample(
        rt,
        "count 5 disabled",
        &[2; 5],
        &[],
        &[0, 1, 2, 3, 4],
        &[5],
        &[0],
    )?;
    counted_sample(rt, "count 0", &[2; 2], &[], &[], &[0], &[1])?;
    counted_sample(
        rt,
        "two enabled bytes",
        &[2, 2, 0],
        &[],
        &[2, 0, 1],
        &[3],
        &[1, 1],
    )?;
    counted_sample(
        rt,
        "counts 1 and 5",
        &[2; 6],
        &[],
        &[0, 1, 2, 3, 4, 5],
        &[1, 5],
        &[1, 1],
    )?;
    counted_sample(
        rt,
        "counts 1 and 4",
        &[2; 6],
        &[],
        &[0, 1, 2, 3, 4, 5],
        &[1, 4],
        &[1, 1],
    )
}

// What questions 4 and 7 refuse of their ends. Question 7 is not asked of disabled joints.
fn refused_ends(rt: &impl Print) -> io::Result<()> {
    counted_sample(rt, "ends without counts", &[2; 2], &[], &[0, 1], &[], &[])?;
    counted_sample(rt, "one end twice", &[2; 3], &[], &[0, 1, 0], &[3], &[1])?;
    counted_sample(
        rt,
        "one end twice disabled",
        &[2; 3],
        &[],
        &[0, 1, 0],
        &[3],
        &[0],
    )?;
    counted_sample(rt, "end B", &[2; 3], &[], &[0, 1, 3], &[3], &[1])
}

// One manifold and one joint of three bodies, on tables of these lengths.
fn room_sample(rt: &impl Print, name: &str, room: Room) -> io::Result<()> {
    let sample = Sample {
        name,
        types: &[2; 3],
        manifolds: &[0, 1],
        joint_ends: &[2, 1, 0],
        joint_counts: Some(&[3]),
        enabled: &[1],
    };
    show(rt, sample, room)
}

// Tables of just its size, and each of them with an entry too few.
fn room_samples(rt: &impl Print) -> io::Result<()> {
    let exact = Room::exact(3, 1, 1);
    room_sample(rt, "room", exact)?;
    room_sample(
        rt,
        "short parents",
        Room {
            parents: 2,
            ..exact
        },
    )?;
    room_sample(rt, "short sizes", Room { sizes: 2, ..exact })?;
    room_sample(rt, "short body labels", Room { bodies: 2, ..exact })?;
    room_sample(
        rt,
        "short manifold labels",
        Room {
            manifolds: 0,
            ..exact
        },
    )?;
    room_sample(rt, "short joint labels", Room { joints: 0, ..exact })
}

// Every sample of request 7, in the order of its page; besides, two pairs of which the lower body asked has the higher root, a size table
// that is too short, logged bodies, and joints of two to four bodies.
fn show_all(rt: &impl Print) -> io::Result<()> {
    dynamic_samples(rt)?;
    eight_pairs(rt)?;
    labelled_samples(rt)?;
    refused_samples(rt)?;
    logged_samples(rt)?;
    counted_samples(rt)?;
    mixed_samples(rt)?;
    refused_counts(rt)?;
    refused_ends(rt)?;
    room_samples(rt)
}

// No exit status tells of a write that failed.
fn main(rt: HostRuntime) {
    let _ = show_all(&Heedless { to: &rt });
}
