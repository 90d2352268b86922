// Reads the line that asks for a test lift: seed, bodies, manifolds and joints, in decimal, parted by one space. `read_line` answers
// every text. A number has at most 19 digits, so that 64 bits hold it.
#![tactic(auto)]

ghost use Rattle.std.specs.Prelude.{◌≡◌, true, false, MatchOption};
ghost use Rattle.lift_line.specs.Lines.{end_of, number_at, followed, line_of};

use frame_file::Sizes;
use tables::entry_or;

// The digits that a number can have.
const MOST_DIGITS: usize = 19;

// What a line asks for.
#[derive(Clone, Copy, Debug, PartialEq, Eq)]
pub struct Wanted {
    pub seed: u32,
    pub sizes: Sizes,
}

// A number and the place after it.
#[derive(Clone, Copy)]
struct Number {
    value: usize,
    end: usize,
}

// The number at a place: its digits, at most 19. Without a digit it is 0 and ends where it starts.
fn number_at(text: &[u8], at: usize) -> Number
    ensures { (result.value ≡ number_at text.now at) × (result.end ≡ end_of text.now at) }
{
    let mut value = 0;
    // `value` is the number of the first `read` digits.
    for read in 0..MOST_DIGITS {
        let end = at + read;
        let byte = entry_or(text, end, 0);
        if !byte.is_ascii_digit() {
            return Number { value, end };
        }
        value = 10 * value + usize::from(byte - b'0');
    }
    Number {
        value,
        end: at + MOST_DIGITS,
    }
}

// The number at a place, if it has digits and the byte `stop` follows. Behind the text's end `past` follows.
fn number_before(text: &[u8], at: usize, stop: u8, past: u8) -> Option<Number>
    ensures { MatchOption result (followed text.now at stop past ≡ false) (λ n. (followed text.now at stop past ≡ true) × (n.value ≡ number_at text.now at) × (n.end ≡ end_of text.now at)) }
{
    let number = number_at(text, at);
    if at < number.end && entry_or(text, number.end, past) == stop {
        Some(number)
    } else {
        None
    }
}

// Reads the line that a text begins with.
pub fn read_line(text: &[u8]) -> Option<Wanted>
    ensures { result ≡ line_of text.now }
{
    let seed = number_before(text, 0, b' ', 0)?;
    let bodies = number_before(text, seed.end + 1, b' ', 0)?;
    let manifolds = number_before(text, bodies.end + 1, b' ', 0)?;
    let joints = number_before(text, manifolds.end + 1, b'\n', b'\n')?;
    let sizes = Sizes {
        bodies: bodies.value,
        manifolds: manifolds.value,
        joints: joints.value,
    };
    let Ok(seed) = u32::try_from(seed.value) else {
        return None;
    };
    Some(Wanted { seed, sizes })
}
