// The bytes that the program `turns` prints, written behind what stands in a lent buffer: a head, a line of a turn, a refusal, and the
// lines of a turn table as far as the buffer goes. The public functions answer every buffer and every place: where fewer bytes
// are left than a line may have, nothing is written.
#![tactic(auto)]

ghost use Rattle.std.specs.Prelude.{◌≡◌, ◌∷◌, [], ◌+◌, ◌-◌, ◌*◌, ◌≤◌, ◌<◌, true, leb, length, map};
ghost use Rattle.frame.specs.Files.{count_m, count_j, second, halves_from};
ghost use Rattle.schedules.specs.Print.{decimal, line, head_of, turn_line, refusal_line};
ghost use Rattle.print_fields.specs.Puts.{if_left, if_room};
ghost use Rattle.printing.specs.Turns.{Standing, EndsStand, longest_turn, ready, if_ready, turns_from, Placed, Lines};
ghost use Rattle.turn_table.specs.Turns.{turn_numbers};
ghost use Rattle.writer.specs.Wrote.{Wrote, SameBytes};

use frame::Frame;
use print_fields::{put_field, put_number};
use tables::entry_or;
use turn_table::Turn;
use writer::Writer;

// No head, refusal or turn of two bodies is longer.
pub const MAX_LINE: usize = 111;

// No turn of three or four bodies is longer.
const MAX_TURN: usize = 147;

// A file whose turns are printed, and a table with the places of its joints' entries.
#[derive(Clone, Copy)]
pub struct PrintedFrame<'a> {
    pub bytes: &'a [u8],
    pub places: &'a [u16],
}

// Where two to four endpoints of a constraint stand in a file, one behind another, near enough to count their places.
#[derive(Clone, Copy)]
pub struct Ends {
    pub at: usize,
    pub count: usize,
    ghost few: { (2 ≤ count) × (count ≤ 4) },
    ghost near: { at + 2 * (count - 1) < 1048576 },
}

// The most bytes that the line of a turn of two to four bodies has.
fn turn_most(count: usize) -> usize
    ensures { result ≡ longest_turn count }
{
    if count <= 2 { MAX_LINE } else { MAX_TURN }
}

// The head: the four carried numbers, each after its word.
pub fn put_head(out: &mut Writer<'_>, islands: usize, turns: usize, takes: usize, degree: usize)
    ensures { Wrote (if_room (length out.old.out.now) out.old.at (head_of islands turns takes degree)) out.old out.new }
{
    if !out.has_room(MAX_LINE) {
        return;
    }
    put_field(out, b"islands", islands, b' ');
    put_field(out, b"turns", turns, b' ');
    put_field(out, b"takes", takes, b' ');
    put_field(out, b"degree", degree, b'\n');
}

// The endpoints that stand in a file, each with a space behind it, the last one with the newline.
fn put_ends(out: &mut Writer<'_>, frame: &[u8], ends: Ends)
    requires { out.old.at + 21 * ends.count ≤ length out.old.out.now }
    ensures { Wrote (line (map decimal (halves_from frame.now ends.at ends.count))) out.old out.new }
{
    let last = ends.count - 1;
    // The first i endpoints are put.
    for i in 0..last {
        put_number(out, frame::half_or_zero(frame, ends.at + 2 * i), b' ');
    }
    put_number(out, frame::half_or_zero(frame, ends.at + 2 * last), b'\n');
}

// The line of a turn: island, group, constraint and its two to four endpoints, which stand in a file; answers whether there was room.
fn put_turn_line(out: &mut Writer<'_>, turn: Turn, frame: &[u8], ends: Ends) -> bool
    ensures wrote { Wrote (if_left (longest_turn ends.count) (length out.old.out.now) out.old.at (turn_line turn.island turn.group turn.number (halves_from frame.now ends.at ends.count))) out.old out.new }
    ensures room { result ≡ leb (out.old.at + longest_turn ends.count) (length out.old.out.now) }
{
    if !out.has_room(turn_most(ends.count)) {
        return false;
    }
    put_number(out, usize::from(turn.island), b' ');
    put_number(out, usize::from(turn.group), b' ');
    put_number(out, usize::from(turn.number), b' ');
    put_ends(out, frame, ends);
    true
}

// A refusal, by its number.
pub fn put_refusal(out: &mut Writer<'_>, number: usize)
    ensures { Wrote (if_room (length out.old.out.now) out.old.at (refusal_line number)) out.old out.new }
{
    if !out.has_room(MAX_LINE) {
        return;
    }
    put_field(out, b"refused", number, b'\n');
}

// A count of endpoints as it is from 2 to 4, else 2.
fn two_to_four(count: usize) -> usize
    ensures few { (2 ≤ result) × (result ≤ 4) }
    ensures kept { 2 ≤ count → count ≤ 4 → result ≡ count }
{
    if (count < Frame::MIN_ENDS) | (Frame::MAX_ENDS < count) {
        return Frame::MIN_ENDS;
    }
    count
}

// Where the endpoints of a constraint of the file stand: of a manifold, and on version 1, by arithmetic; of a joint of version 2
// behind its entry's count, and the entry is where `places` says. Where the table is not the file's, it is two to four
// numbers anywhere.
fn ends_of(frame: PrintedFrame<'_>, constraint: usize) -> Ends
    requires { constraint < 131072 }
    ensures { constraint < count_m frame.entry.bytes.now + count_j frame.entry.bytes.now → (second frame.entry.bytes.now ≡ true → Standing frame.entry.bytes.now frame.entry.places.now) → EndsStand frame.entry.bytes.now constraint result.at result.count }
{
    if frame::is_second(frame.bytes) {
        let manifolds = frame::half_or_zero(frame.bytes, 7);
        if manifolds <= constraint {
            let place = usize::from(entry_or(frame.places, constraint - manifolds, 0));
            return Ends {
                at: place + 2,
                count: two_to_four(frame::byte_or_zero(frame.bytes, place + 1)),
            };
        }
    }
    Ends {
        at: frame::ends_at(frame.bytes, constraint),
        count: 2,
    }
}

// The line of a turn, with its constraint's endpoints out of the file; answers whether it is put: not where there is no such constraint, or
// no room.
fn put_turn(out: &mut Writer<'_>, turn: Turn, frame: PrintedFrame<'_>) -> bool
    ensures same { SameBytes out.old out.new }
    ensures wrote { (second frame.entry.bytes.now ≡ true → Standing frame.entry.bytes.now frame.entry.places.now) → Wrote (if_ready frame.entry.bytes.now (length out.old.out.now) out.old.at turn.island turn.group turn.number) out.old out.new }
    ensures put { (second frame.entry.bytes.now ≡ true → Standing frame.entry.bytes.now frame.entry.places.now) → result ≡ ready frame.entry.bytes.now (length out.old.out.now) out.old.at turn.number }
{
    let constraint = usize::from(turn.number);
    if frame::constraint_count(frame.bytes) <= constraint {
        return false;
    }
    let ends = ends_of(frame, constraint);
    put_turn_line(out, turn, frame.bytes, ends)
}

// The part of a turn table from a turn on.
fn turns_from(turns: &[u16], first: usize) -> &[u16]
    ensures { result.now ≡ turns_from turns.now first }
{
    if turns.len() / 3 < first {
        return &[];
    }
    &turns[3 * first..]
}

// The turn that three entries of a turn table are.
fn turn_in(numbers: &[u16]) -> Turn
    requires { length numbers.now ≡ 3 }
    ensures { turn_numbers result ≡ numbers.now }
{
    Turn {
        island: numbers[0],
        group: numbers[1],
        number: numbers[2],
    }
}

// The lines of a file's turn table from turn `first` on, as far as there is room; answers the first turn that is left. Of a version 2
// file nothing is promised of the text unless `places` has its joints' places.
pub fn put_turns(
    out: &mut Writer<'_>,
    turns: &[u16],
    first: usize,
    frame: PrintedFrame<'_>,
) -> usize
    ensures same { SameBytes out.old out.new }
    ensures lines { Placed frame.entry.bytes.now turns.now frame.entry.places.now → Lines frame.entry.bytes.now turns.now first out.old out.new result }
{
    let mut turn = first;
    // The lines of the turns from `first` to `turn` are put.
    for numbers in turns_from(turns, first).chunks_exact(3) {
        let row = turn_in(numbers);
        if !put_turn(out, row, frame) {
            return turn;
        }
        turn += 1;
    }
    turn
}
