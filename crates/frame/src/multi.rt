// Constraints of two to four endpoints. They have a count each, and their endpoints stand constraint after constraint without gaps: what
// several calls ask of such lists (questions 4, 5 and 7).
ghost use Rattle.std.specs.Prelude.{◌≡◌, ◌&&◌, ◌≤◌, ltb, length};
ghost use Rattle.lists.specs.Basics.{all, distinct, mem};
ghost use Rattle.frame.specs.Frames.{counted, counts_known, end_count, fits};

use crate::Frame;

// Is this the number of endpoints of a constraint, two to four?
pub fn counted(count: usize) -> bool
    ensures { result ≡ counted count }
{
    (Frame::MIN_ENDS <= count) & (count <= Frame::MAX_ENDS)
}

// Question 5 of lent counts: is each two to four?
pub fn counts_known(counts: &[u8]) -> bool
    ensures { result ≡ counts_known counts.now }
{
    counts
        .iter()
        .fold(true, |known, &count| known & counted(usize::from(count)))
}

// The sum of lent counts: how many endpoints question 4 wants.
pub fn sum_counts(counts: &[u8]) -> usize
    requires { length counts.now ≤ 8192 }
    ensures { result ≡ end_count counts.now }
{
    counts.iter().map(|&count| usize::from(count)).sum()
}

// Does x stand in a list? It looks no further than to where it does: the library's `contains` looks at several entries at once, which are
// never more than three here.
fn stands_in(x: u16, list: &[u16]) -> bool
    ensures { result ≡ mem x list.now }
{
    list.iter().any(|&other| x == other)
}

// Are the numbers of a list all different and below n?
pub fn distinct_below(list: &[u16], n: usize) -> bool
    ensures { result ≡ (distinct list.now && all (λ x. ltb x n) list.now) }
{
    // The numbers passed are below n, and none of them stands again behind its place.
    for (i, &x) in list.iter().enumerate() {
        if (n <= usize::from(x)) | stands_in(x, &list[i + 1..]) {
            return false;
        }
    }
    true
}

// Question 7 of the endpoints of a live constraint: two to four, all different and below the number of bodies.
#[tactic(auto, unfolding(crate::specs::Frames::fits))]
pub fn ends_fit(bodies: usize, ends: &[u16]) -> bool
    ensures { result ≡ fits bodies ends.now }
{
    if !counted(ends.len()) {
        return false;
    }
    distinct_below(ends, bodies)
}
