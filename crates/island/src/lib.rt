// Islands: the sets of dynamic bodies that live constraints connect, and the labels of bodies, manifolds and joints. A manifold is on two bodies, a
// joint on two, or on two to four where joints have counts.
// Every table is lent by the caller; a call that is refused says so by the first question that got a "no".
// Cost: two lookups for each live constraint between dynamic bodies and one for each body (crate island_sets, after Tarjan 1975), and else
// a few passes over the bodies and the constraints.
#![tactic(auto)]

ghost use Rattle.std.specs.Prelude.{◌≡◌, ◌&&◌, [], ◌/◌, ◌%◌, ◌≤◌, eqb, length};
ghost use Rattle.frame.specs.Asked.{frame_asked};
ghost use Rattle.frame.specs.Frames.{frame_of, end_count, counts_known};
ghost use Rattle.frame.specs.Lists.{frame_in};
ghost use Rattle.frame.specs.Questions.{asked, types_known, bits};
ghost use Rattle.frame.specs.Refusals.{refused_by};
ghost use Rattle.island.specs.Calls.{rooms_of, roomy, early_questions, island_refusal, multi_early_questions, multi_island_refusal, Built};
ghost use Rattle.island.specs.Answers.{answer_islands};
ghost use Rattle.island.specs.Lent.{tables_in, SameTables};
ghost use Rattle.island.specs.Steps.{Sized, Ready, Labelled, BuiltSized, Room, BuiltFront};

use frame::asked::AskedLists;
use frame::refusal::ask;
use frame::{Frame, Lists, Refusal};
use island_labels::NONE;
use island_sets::BodySets;

// The tables that an islands call is lent: two to join bodies in, and three for the labels.
#[derive(Drop)]
pub struct IslandTables<'a> {
    pub parents: &'a mut [u16],
    pub sizes: &'a mut [u16],
    pub body_islands: &'a mut [u16],
    pub manifold_islands: &'a mut [u16],
    pub joint_islands: &'a mut [u16],
}

impl IslandTables<'_> {
    // Question 6 of so many bodies, manifolds and joints.
    pub fn has_room_for(&self, bodies: usize, manifolds: usize, joints: usize) -> bool
        ensures { result ≡ roomy bodies manifolds joints (rooms_of (tables_in self.now)) }
    {
        (bodies <= self.parents.len())
            & (bodies <= self.sizes.len())
            & (bodies <= self.body_islands.len())
            & (manifolds <= self.manifold_islands.len())
            & (joints <= self.joint_islands.len())
    }
}

// The labels of a frame whose constraints are joined. Answers how many islands there are.
fn label_frame(
    lists: AskedLists<'_>,
    parents: &[u16],
    body_islands: &mut [u16],
    manifold_islands: &mut [u16],
    joint_islands: &mut [u16],
) -> u16
    requires { Ready (frame_asked lists) parents.now body_islands.old manifold_islands.old joint_islands.old }
    ensures { Labelled (frame_asked lists.entry) body_islands.new manifold_islands.new joint_islands.new result }
{
    let islands = island_labels::number(lists.types, parents, body_islands);
    island_labels::label_each(lists.manifolds, body_islands, manifold_islands);
    island_labels::label_joints(lists.joints, body_islands, joint_islands);
    islands
}

// A frame on tables of just its sizes: question 7 while it is joined, then its labels.
fn build_sized(
    lists: AskedLists<'_>,
    parents: &mut [u16],
    sizes: &mut [u16],
    body_islands: &mut [u16],
    manifold_islands: &mut [u16],
    joint_islands: &mut [u16],
) -> Result<u16, Refusal>
    requires sized { Sized (frame_asked lists) parents.old body_islands.old manifold_islands.old joint_islands.old }
    requires sizes_len { length sizes.old ≡ length parents.old }
    ensures { BuiltSized (frame_asked lists.entry) parents.new sizes.new body_islands.new manifold_islands.new joint_islands.new result }
{
    island_sets::reset(parents, sizes);
    let mut sets = BodySets { parents, sizes };
    body_islands.fill(NONE);
    if !island_joins::join_frame(lists, &mut sets, body_islands) {
        sets.reset();
        body_islands.fill(NONE);
        manifold_islands.fill(NONE);
        joint_islands.fill(NONE);
        return Err(Refusal::Endpoints);
    }
    let islands = label_frame(
        lists,
        sets.parents(),
        body_islands,
        manifold_islands,
        joint_islands,
    );
    Ok(islands)
}

// A frame of so many joints that passed questions 3 to 6, on the first places of its tables.
fn build_front(
    lists: AskedLists<'_>,
    joints: usize,
    tables: &mut IslandTables<'_>,
) -> Result<u16, Refusal>
    requires { Room (frame_asked lists) (length lists.manifolds.pairs.now / 2) joints (tables_in tables.old) }
    ensures built { BuiltFront (frame_asked lists.entry) (tables_in tables.old) (tables_in tables.new) result }
    ensures same { SameTables tables.old tables.new }
{
    let bodies = lists.types.len();
    let parents = &mut *tables.parents;
    let sizes = &mut *tables.sizes;
    let body_islands = &mut *tables.body_islands;
    let manifold_islands = &mut *tables.manifold_islands;
    let joint_islands = &mut *tables.joint_islands;
    build_sized(
        lists,
        &mut parents[..bodies],
        &mut sizes[..bodies],
        &mut body_islands[..bodies],
        &mut manifold_islands[..lists.manifolds.pairs.len() / 2],
        &mut joint_islands[..joints],
    )
}

// Question 4 of joints that are pairs.
fn pairs_agree(lists: Lists<'_>) -> bool
    ensures { result ≡ (eqb (length lists.entry.manifolds.now % 2) 0 && eqb (length lists.entry.joint_ends.now % 2) 0
        && eqb (length lists.entry.enabled.now) (length lists.entry.joint_ends.now / 2)) }
{
    (lists.manifolds.len() % 2 == 0)
        & (lists.joint_ends.len() % 2 == 0)
        & (lists.enabled.len() == lists.joint_ends.len() / 2)
}

// Question 4 of joints with a count each.
fn counts_agree(lists: Lists<'_>) -> bool
    requires { length lists.joint_counts.now ≤ 4096 }
    ensures { result ≡ (eqb (length lists.entry.manifolds.now % 2) 0
        && eqb (end_count lists.entry.joint_counts.now) (length lists.entry.joint_ends.now)
        && eqb (length lists.entry.enabled.now) (length lists.entry.joint_counts.now)) }
{
    (lists.manifolds.len() % 2 == 0)
        & (frame::multi::sum_counts(lists.joint_counts) == lists.joint_ends.len())
        & (lists.enabled.len() == lists.joint_counts.len())
}

// Question 5 of types and enabled bytes.
fn values_known(lists: Lists<'_>) -> bool
    ensures { result ≡ (types_known lists.entry.types.now && bits lists.entry.enabled.now) }
{
    frame::at_most(lists.types, Frame::MAX_TYPE) & frame::at_most(lists.enabled, 1)
}

// Questions 3 to 6 of a frame whose joints are pairs.
fn ask_pairs(lists: Lists<'_>, tables: &IslandTables<'_>) -> Result<(), Refusal>
    ensures { refused_by result ≡ asked (early_questions lists.entry.types.now lists.entry.manifolds.now lists.entry.joint_ends.now lists.entry.enabled.now
        (rooms_of (tables_in tables.now))) }
{
    let bodies = lists.types.len();
    let manifolds = lists.manifolds.len() / 2;
    let joints = lists.joint_ends.len() / 2;
    ask(frame::few_each(bodies, manifolds, joints), Refusal::TooMany)?;
    ask(pairs_agree(lists), Refusal::Lengths)?;
    ask(values_known(lists), Refusal::Values)?;
    ask(
        tables.has_room_for(bodies, manifolds, joints),
        Refusal::Room,
    )
}

// Questions 3 to 6 of a frame whose joints have a count each.
fn ask_counted(lists: Lists<'_>, tables: &IslandTables<'_>) -> Result<(), Refusal>
    ensures { refused_by result ≡ asked (multi_early_questions lists.entry.types.now lists.entry.manifolds.now lists.entry.joint_ends.now
        lists.entry.joint_counts.now lists.entry.enabled.now (rooms_of (tables_in tables.now))) }
{
    let bodies = lists.types.len();
    let manifolds = lists.manifolds.len() / 2;
    let joints = lists.joint_counts.len();
    ask(frame::few_each(bodies, manifolds, joints), Refusal::TooMany)?;
    ask(counts_agree(lists), Refusal::Lengths)?;
    let known = values_known(lists) & frame::multi::counts_known(lists.joint_counts);
    ask(known, Refusal::Values)?;
    ask(
        tables.has_room_for(bodies, manifolds, joints),
        Refusal::Room,
    )
}

// The islands of a frame whose joints are pairs, with an enabled byte each. Counts are not read.
pub fn build_with_joints(lists: Lists<'_>, tables: &mut IslandTables<'_>) -> Result<u16, Refusal>
    ensures built { Built (frame_of lists.entry.types.now lists.entry.manifolds.now lists.entry.joint_ends.now lists.entry.enabled.now)
        (island_refusal lists.entry.types.now lists.entry.manifolds.now lists.entry.joint_ends.now lists.entry.enabled.now
        (rooms_of (tables_in tables.old)))
        (tables_in tables.old) (tables_in tables.new) (refused_by result) (answer_islands result) }
    ensures same { SameTables tables.old tables.new }
{
    ask_pairs(lists, tables)?;
    let pairs = Lists {
        joint_counts: &[],
        ..lists
    };
    build_front(pairs.asked(), lists.joint_ends.len() / 2, tables)
}

// The islands of a frame whose joints have two to four bodies each, with a count and an enabled byte each.
pub fn build_with_multi_joints(
    lists: Lists<'_>,
    tables: &mut IslandTables<'_>,
) -> Result<u16, Refusal>
    ensures built { Built (frame_in lists.entry)
        (multi_island_refusal lists.entry.types.now lists.entry.manifolds.now lists.entry.joint_ends.now lists.entry.joint_counts.now
        lists.entry.enabled.now (rooms_of (tables_in tables.old)))
        (tables_in tables.old) (tables_in tables.new) (refused_by result) (answer_islands result) }
    ensures same { SameTables tables.old tables.new }
{
    ask_counted(lists, tables)?;
    build_front(lists.asked(), lists.joint_counts.len(), tables)
}

// The islands of a frame without joints; the table of the joints' labels may have any length, and stays as it was.
pub fn build(types: &[u8], manifolds: &[u16], tables: &mut IslandTables<'_>) -> Result<u16, Refusal>
    ensures built { Built (frame_of types.now manifolds.now [] [])
        (island_refusal types.now manifolds.now [] [] (rooms_of (tables_in tables.old)))
        (tables_in tables.old) (tables_in tables.new) (refused_by result) (answer_islands result) }
    ensures same { SameTables tables.old tables.new }
{
    let lists = Lists {
        types,
        manifolds,
        joint_ends: &[],
        joint_counts: &[],
        enabled: &[],
    };
    build_with_joints(lists, tables)
}
