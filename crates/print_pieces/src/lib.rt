// What the program `turns` prints for one input, made piece by piece in a buffer: the first line, a run's head or a refusal, and a line a
// turn. A piece is as much as the buffer has room for; a piece of no bytes says that all is printed. Input above the longest frame's
// length is refused 3 before any question. The pieces from first to last are the whole print (`WholePrint` in specs/Pieces).
#![tactic(auto)]

ghost use Rattle.std.specs.Prelude.{◌+◌, ◌*◌, ◌≤◌, ◌≡◌, true, length, take};
ghost use Rattle.frame.specs.Questions.{asked};
ghost use Rattle.frame.specs.Files.{second, file_questions};
ghost use Rattle.print_fields.specs.Puts.{longest};
ghost use Rattle.printing.specs.Turns.{Standing, Placed, Lines};
ghost use Rattle.writer.specs.Wrote.{Wrote, SameBytes};
ghost use Rattle.print_pieces.specs.Pieces.{answer_line, InputAnswered, PiecePlaced, FirstPiece, NextPiece};

use frame::{Frame, Refusal};
use printing::PrintedFrame;
use run_answer::Report;
use writer::Writer;

// The program's buffers: the input, with one byte more than a frame can have; the turn table of the largest frame; the places of its
// joints; the output.
pub const INPUT: usize = Frame::MAX_BYTES + 1;

pub const TURNS: usize = 3 * Frame::MAX_PAIRS;

pub const PLACES: usize = Frame::MAX_JOINTS;

pub const OUTPUT: usize = 65536;

// They are large enough, and none is above 64 KiB. Proved; nothing calls it.
pub fn buffers_fit() -> bool
    ensures { result ≡ true }
{
    (Frame::MAX_BYTES < INPUT)
        & (INPUT <= 65536)
        & (3 * Frame::MAX_PAIRS <= TURNS)
        & (2 * TURNS <= 65536)
        & (Frame::MAX_JOINTS <= PLACES)
        & (2 * PLACES <= 65536)
        & (OUTPUT <= 65536)
}

// A piece: its bytes in the buffer, how many turns the run has, and the first turn that is left to print.
#[derive(Clone, Copy)]
pub struct Piece {
    pub size: usize,
    pub turns: usize,
    pub next: usize,
}

// The answer to an input, with its turns in the turn table.
fn answer_to(frame: &[u8], turns: &mut [u16; TURNS]) -> Result<Report, Refusal>
    ensures { InputAnswered frame.now turns.old turns.new result }
{
    if Frame::MAX_BYTES < frame.len() {
        return Err(Refusal::TooMany);
    }
    standalone_run::run_file(frame, turns)
}

// The places of an accepted file's joints, from the table's first entry on; version 1 needs none.
fn place_joints(frame: &[u8], places: &mut [u16; PLACES])
    requires { asked (file_questions frame.now) ≡ 0 }
    ensures { second frame.now ≡ true → Standing frame.now places.new }
{
    if frame::is_second(frame) {
        let joints = frame::half_or_zero(frame, 9);
        frame::entries::entry_places(frame, &mut places[..joints]);
    }
}

// The line that comes first for an answer.
fn put_first_line(text: &mut Writer<'_>, answer: Result<Report, Refusal>)
    requires { text.old.at + longest ≤ length text.old.out.now }
    ensures { Wrote (answer_line answer) text.old text.new }
{
    match answer {
        Err(refusal) => printing::put_refusal(text, usize::from(refusal.number())),
        Ok(report) => printing::put_head(
            text,
            report.islands,
            report.turns,
            report.takes,
            report.degree,
        ),
    }
}

// The part of the turn table that holds turns.
fn used(turns: &[u16], count: usize) -> &[u16]
    ensures { result.now ≡ take (3 * count) turns.now }
{
    if count <= turns.len() / 3 {
        return &turns[..3 * count];
    }
    turns
}

// Ends a piece with the lines from turn `first` on.
fn put_lines(
    text: &mut Writer<'_>,
    frame: PrintedFrame<'_>,
    turns: &[u16],
    count: usize,
    first: usize,
) -> Piece
    ensures same { SameBytes text.old text.new }
    ensures size { (result.size ≡ text.new.at) × (result.turns ≡ count) }
    ensures lines { Placed frame.entry.bytes.now (take (3 * count) turns.now) frame.entry.places.now → Lines frame.entry.bytes.now (take (3 * count) turns.now) first text.old text.new result.next }
{
    let next = printing::put_turns(text, used(turns, count), first, frame);
    Piece {
        size: text.at,
        turns: count,
        next,
    }
}

// The first piece of an input's print. Where there are turns of a version 2 file, its joints' places are left in the table.
pub fn first_piece(
    frame: &[u8],
    turns: &mut [u16; TURNS],
    places: &mut [u16; PLACES],
    out: &mut [u8; OUTPUT],
) -> Piece
    ensures piece { FirstPiece frame.now turns.old out.old turns.new out.new result }
    ensures placed { PiecePlaced frame.now result places.new }
{
    let answer = answer_to(frame, turns);
    let count = answer.unwrap_or_default().turns;
    if 0 < count {
        place_joints(frame, places);
    }
    let mut text = Writer { out, at: 0 };
    put_first_line(&mut text, answer);
    let printed = PrintedFrame {
        bytes: frame,
        places,
    };
    put_lines(&mut text, printed, turns, count, 0)
}

// The piece after another one of the same print. Of a version 2 file nothing is promised unless `places` has its joints' places.
pub fn next_piece(
    frame: &[u8],
    turns: &[u16; TURNS],
    places: &[u16; PLACES],
    out: &mut [u8; OUTPUT],
    piece: Piece,
) -> Piece
    ensures { PiecePlaced frame.now piece places.now → NextPiece frame.now turns.now out.old piece out.new result }
{
    let mut text = Writer { out, at: 0 };
    let printed = PrintedFrame {
        bytes: frame,
        places,
    };
    put_lines(&mut text, printed, turns, piece.turns, piece.next)
}
