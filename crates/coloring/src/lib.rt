// Internal: the color stage of an update (constraint_coloring.rs, the coloring loop of `rebuild`), in the order of Welsh and Powell
// (1967): open a color, walk the list once and give it to every uncolored constraint that it fits, open the following color. The list
// order is ours. While a color is open, a dynamic body is busy (1, else 0) if a constraint of the color is on it: the color fits a
// constraint if no body of it is busy. A walk lists the constraints of its color, in list order; when the color is closed they get its
// number. Cost: a constraint is met once for each color up to its own.
#![tactic(auto)]

ghost use Rattle.std.specs.Prelude.{◌≡◌, true, ℕ, ◌<◌, ◌≤◌, ltb, length, get_or};
ghost use Rattle.lists.specs.Basics.{all};
ghost use Rattle.parts.specs.Parts.{parts_at};
ghost use Rattle.coloring.specs.Coloring.{Ready, Colored, Opened, Walked};
ghost use Rattle.coloring.specs.Steps.{MadeBusy, Closable, Closed};

use parts::Ends;

// Which constraints fit one of the first colors, this many, the processor can't predict, so these walks don't branch on it. Later walks
// leave most constraints uncolored, so they pass one at its first busy body.
const UNPREDICTED: usize = 8;

// Makes those of the bodies busy that are dynamic, if the color fits (1); if not (0), none.
fn make_busy(dynamic_bodies: &[u8], bodies: &[u16], fits: u16, busy_bodies: &mut [u16])
    requires busy_bodies_len { (length busy_bodies.old ≡ length dynamic_bodies.now) × (all (λ b. ltb b (length dynamic_bodies.now)) bodies.now ≡ true) }
    requires fits_bound { (fits ≤ 1) × ((b : ℕ) → b < length busy_bodies.old → get_or busy_bodies.old b 0 ≤ 1) }
    ensures { MadeBusy dynamic_bodies.now fits bodies.now busy_bodies.old busy_bodies.new }
{
    // The bodies passed are busy if they are dynamic and the color fits, and the others what they were.
    for &body in bodies {
        let place = usize::from(body);
        let dynamic = u16::from(dynamic_bodies[place] == 1);
        busy_bodies[place] |= dynamic & fits;
    }
}

// The walk for a color: the first `count` of the remaining constraints are uncolored; those that the color does not fit stay, in list
// order, and the others are listed from place `start` on. Answers how many stay.
#[inline(always)]
fn walk(
    dynamic_bodies: &[u8],
    ends: Ends<'_>,
    remaining: &mut [u16],
    colored_constraints: &mut [u16],
    busy_bodies: &mut [u16],
    color: usize,
    start: usize,
    count: usize,
) -> usize
    requires counted { length colored_constraints.old ≡ ends.count }
    requires opened { Opened dynamic_bodies.now (parts_at (length colored_constraints.old) ends.bounds.now ends.endpoints.now) color start count remaining.old colored_constraints.old busy_bodies.old }
    ensures { Walked dynamic_bodies.now (parts_at (length colored_constraints.old) ends.entry.bounds.now ends.entry.endpoints.now) color start count result remaining.new colored_constraints.new busy_bodies.new }
{
    let predicted = UNPREDICTED <= color;
    // Of those passed, the first `left` of the remaining stay uncolored, and the others are listed up to place `end`.
    let mut left = 0;
    let mut end = start;
    'walk: for passed in 0..count {
        let constraint = remaining[passed];
        let bodies = ends.part(usize::from(constraint));
        let mut busy = 0;
        // `busy` is 1 if a body passed is busy, else 0.
        'bodies: for &body in bodies {
            busy |= busy_bodies[usize::from(body)];
            if predicted & (busy == 1) {
                remaining[left] = constraint;
                left += 1;
                continue 'walk;
            }
        }
        // It is put in both lists, and the one advances in which it stays.
        let fits = 1 - busy;
        remaining[left] = constraint;
        left += usize::from(busy);
        colored_constraints[end] = constraint;
        end += usize::from(fits);
        make_busy(dynamic_bodies, bodies, fits, busy_bodies);
    }
    left
}

// Gives the color to its members, and makes their bodies idle.
#[inline(always)]
fn close_color(
    ends: Ends<'_>,
    members: &[u16],
    color: usize,
    constraint_colors: &mut [u16],
    busy_bodies: &mut [u16],
)
    requires counted { length constraint_colors.old ≡ ends.count }
    requires closable { Closable (parts_at (length constraint_colors.old) ends.bounds.now ends.endpoints.now) color members.now constraint_colors.old busy_bodies.old }
    ensures { Closed (parts_at (length constraint_colors.old) ends.entry.bounds.now ends.entry.endpoints.now) color members.now constraint_colors.old busy_bodies.old constraint_colors.new busy_bodies.new }
{
    // The members passed have the color, and their bodies are idle.
    for &member in members {
        let constraint = usize::from(member);
        constraint_colors[constraint] = color as u16;
        tables::clear_each(ends.part(constraint), busy_bodies);
    }
}

// The colors of all constraints, the members of all groups, where each group starts, with the end, and how many groups there are: the
// first color that no constraint needs.
#[inline(always)]
pub fn color_constraints(
    dynamic_bodies: &[u8],
    ends: Ends<'_>,
    remaining: &mut [u16],
    constraint_colors: &mut [u16],
    color_offsets: &mut [u16],
    colored_constraints: &mut [u16],
    busy_bodies: &mut [u16],
) -> usize
    requires counted { length constraint_colors.old ≡ ends.count }
    requires ready { Ready dynamic_bodies.now (parts_at (length constraint_colors.old) ends.bounds.now ends.endpoints.now) remaining.old constraint_colors.old color_offsets.old colored_constraints.old busy_bodies.old }
    ensures { Colored dynamic_bodies.now (parts_at (length constraint_colors.old) ends.entry.bounds.now ends.entry.endpoints.now) color_offsets.old constraint_colors.new color_offsets.new colored_constraints.new busy_bodies.new result }
{
    let constraint_count = constraint_colors.len();
    busy_bodies.fill(0);
    tables::number_all(&mut remaining[..constraint_count]);
    color_offsets[0] = 0;
    let mut uncolored_count = constraint_count;
    // The first `uncolored_count` of the remaining are promised no color below `color`; all others have theirs, and are listed.
    let mut color = 0;
    'colors: loop {
        if uncolored_count == 0 {
            break 'colors color;
        }
        let start = constraint_count - uncolored_count;
        uncolored_count = walk(
            dynamic_bodies,
            ends,
            remaining,
            colored_constraints,
            busy_bodies,
            color,
            start,
            uncolored_count,
        );
        let end = constraint_count - uncolored_count;
        close_color(
            ends,
            &colored_constraints[start..end],
            color,
            constraint_colors,
            busy_bodies,
        );
        color += 1;
        color_offsets[color] = end as u16;
    }
}
