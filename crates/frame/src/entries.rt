// The joints of a version 2 file, entry after entry: an enabled byte, a count of two to four, and as many endpoints of 16 bits. The place
// of an entry is found only by a walk over those before it.
ghost use Rattle.std.specs.Prelude.{◌≡◌, ◌+◌, ◌*◌, ◌≤◌, length};
ghost use Rattle.frame.specs.Questions.{bits};
ghost use Rattle.frame.specs.Files.{entry_refusal, entries_refusal, places_from, halves_from, live_from, count_j, joints_at};
ghost use Rattle.frame.specs.Joints.{Walks, Walkable, Entered, Placeable};
ghost use Rattle.frame.specs.Refusals.{refused_by};

use crate::multi::counted;
use crate::{HEADER, JointBytes, PAIR, Refusal, ask, half_at};

// The entry at a place of the file: cut off before its count is met (4), a wrong count (5), or cut off behind it (4).
#[tactic(auto, unfolding(crate::specs::Files::entry_refusal))]
fn ask_entry(bytes: &[u8], at: usize) -> Result<(), Refusal>
    requires { at ≤ length bytes.now }
    ensures { refused_by result ≡ entry_refusal bytes.now at }
{
    ask(at + 2 <= bytes.len(), Refusal::Lengths)?;
    let count = usize::from(bytes[at + 1]);
    ask(counted(count), Refusal::Values)?;
    ask(at + (2 + 2 * count) <= bytes.len(), Refusal::Lengths)
}

// The walk over a part's entries; behind the last one nothing may be left over. How many endpoints they have together.
pub fn walk(part: JointBytes<'_>) -> Result<usize, Refusal>
    ensures { Walks part.entry.bytes.now part.entry.from part.entry.joints result }
{
    ask(part.from <= part.bytes.len(), Refusal::Lengths)?;
    let mut at = part.from;
    let mut ends: usize = 0;
    // The entries before place `at` pass and have `ends` endpoints.
    for _j in 0..part.joints {
        ask_entry(part.bytes, at)?;
        let count = usize::from(part.bytes[at + 1]);
        at += 2 + 2 * count;
        ends += count;
    }
    ask(at == part.bytes.len(), Refusal::Lengths)?;
    Ok(ends)
}

// Question 5 of the enabled bytes of a part's entries.
#[tactic(auto, using(crate::proofs::Walks::walk_outside))]
pub fn enabled_known(part: JointBytes<'_>) -> bool
    requires { entries_refusal part.bytes.now part.from part.joints ≡ 0 }
    ensures { result ≡ bits (live_from part.entry.bytes.now part.entry.from part.entry.joints) }
{
    let mut at = part.from;
    // The entries before place `at` have known bytes.
    for _j in 0..part.joints {
        if 1 < part.bytes[at] {
            return false;
        }
        at += 2 + 2 * usize::from(part.bytes[at + 1]);
    }
    true
}

// Numbers of 16 bits, from place `from` on.
fn decode_halves(bytes: &[u8], from: usize, halves: &mut [u16])
    requires { from + 2 * length halves.old ≤ length bytes.now }
    ensures { halves.new ≡ halves_from bytes.now from (length halves.old) }
{
    for (k, half) in halves.iter_mut().enumerate() {
        *half = half_at(bytes, from + 2 * k);
    }
}

// The entries that start at `from`: their endpoints one entry after another, their counts and their enabled bytes.
#[tactic(auto, using(crate::proofs::Walks::walk_outside))]
pub fn decode(bytes: &[u8], from: usize, ends: &mut [u16], counts: &mut [u8], enabled: &mut [u8])
    requires { Walkable bytes.now from ends.old counts.old enabled.old }
    ensures { Entered bytes.now from (length enabled.old) ends.new counts.new enabled.new }
{
    let mut at = from;
    let mut k = 0;
    // The first j entries stand before place `at`, and their endpoints before entry k.
    for (j, byte) in enabled.iter_mut().enumerate() {
        let count = usize::from(bytes[at + 1]);
        *byte = bytes[at];
        counts[j] = bytes[at + 1];
        decode_halves(bytes, at + 2, &mut ends[k..k + count]);
        at += 2 + 2 * count;
        k += count;
    }
}

// The places of all entries of a file.
#[tactic(auto, using(crate::proofs::Walks::walk_outside))]
pub fn entry_places(bytes: &[u8], places: &mut [u16])
    requires { Placeable bytes.now places.old }
    ensures { places.new ≡ places_from bytes.now (joints_at bytes.now) (count_j bytes.now) }
{
    let mut at = HEADER + usize::from(half_at(bytes, 5)) + PAIR * usize::from(half_at(bytes, 7));
    // The places filled are those of the entries before place `at`.
    for place in places.iter_mut() {
        *place = at as u16;
        at += 2 + 2 * usize::from(bytes[at + 1]);
    }
}
