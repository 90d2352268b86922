// Replays the oracle's frames (oracle/record writes the list to crates/replay_frames/stdin): runs each stored file again and compares,
// byte by byte, the refusal, the four numbers and the whole turn table, which is filled with a pattern first. Prints how many frames
// there were, how many of them are refused, how many answers differ, and a sum over all bytes of the list.
//
// The list is records of kind 1. A question is the length of the turn table in 16 bits, and the file. An answer is the refusal or 0,
// the four numbers and the turn table in 16 bits each. The other tables have the largest frame's sizes.
#![tactic(auto)]

use frame::refusal::refusal_number;
use records::{Heedless, Reader, Tally, Writer, first};
use std::io;

// The most bytes that a question and an answer have.
const QUESTION: usize = 40974;

const ANSWER: usize = 49161;

// The most numbers that a turn table has.
const TURNS: usize = 24576;

// What the turn table holds before the run.
const PATTERN: u16 = 43981;

type Answer = Writer<ANSWER>;

// What a question asks: a frame to run. One of another kind is answered as one, and not counted as a frame.
#[derive(Clone, Copy, Debug, PartialEq, Eq)]
enum Kind {
    Frame,
    Other,
}

impl From<u8> for Kind {
    fn from(number: u8) -> Self {
        match number {
            1 => Kind::Frame,
            _ => Kind::Other,
        }
    }
}

// How many frames there were, and how many questions are refused.
#[derive(Clone, Copy, Debug, Default)]
struct Counts {
    frames: u32,
    refused: u32,
}

impl Counts {
    fn add(&mut self, kind: Kind, refused: bool) {
        if kind == Kind::Frame {
            self.frames = self.frames.saturating_add(1);
        }
        if refused {
            self.refused = self.refused.saturating_add(1);
        }
    }
}

// The run of a question's file, and its answer.
fn answer(kind: Kind, question: &[u8], counts: &mut Counts, out: &mut Answer) {
    let mut question = Reader::new(question);
    let lent = usize::from(question.half());
    let mut turns = [PATTERN; TURNS];
    let turns = first(&mut turns, lent);
    let ran = standalone_run::run_file(question.rest(), turns);
    counts.add(kind, ran.is_err());
    out.clear();
    out.byte(refusal_number(&ran));
    for number in <[usize; 4]>::from(ran.unwrap_or_default()) {
        out.half((number % 65536) as u16);
    }
    out.halves(turns);
}

fn show(rt: &impl Print, counts: Counts, tally: Tally) -> io::Result<()> {
    println!(rt; "frames {}", counts.frames)?;
    println!(rt; "refused {}", counts.refused)?;
    println!(rt; "{tally}")
}

// No exit status tells of a write that failed.
fn main(rt: HostRuntime) {
    let mut counts = Counts::default();
    let tally = records::replay(
        rt.reader(),
        &mut [0; QUESTION],
        &mut [0; ANSWER],
        &mut Answer::new(),
        |kind, question, out| answer(kind, question, &mut counts, out),
    );
    let _ = show(&Heedless { to: &rt }, counts, tally);
}
