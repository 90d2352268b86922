// Replays the oracle's answers (oracle/record writes the list to crates/replay/stdin): asks each stored question again and compares,
// byte by byte, what the proved code answers. Prints how many questions of each kind there were, how many answers differ, and a sum
// over all bytes of the list.
#![tactic(auto)]

mod bindings;
mod histories;

use records::{Heedless, Tally, Writer};
use std::io;

// An answer has at most so many bytes.
pub type Answer = Writer<2048>;

// A question has at most so many bytes.
const QUESTION: usize = 1024;

// What a question asks: a history of updates, or a binding with takes. One of another kind is answered as a binding, and counted as neither.
#[derive(Clone, Copy, Debug, PartialEq, Eq)]
enum Kind {
    History,
    Binding,
    Other,
}

impl From<u8> for Kind {
    fn from(number: u8) -> Self {
        match number {
            1 => Kind::History,
            2 => Kind::Binding,
            _ => Kind::Other,
        }
    }
}

// How many questions of each kind there were.
#[derive(Clone, Copy, Debug, Default)]
struct Counts {
    histories: u32,
    bindings: u32,
}

impl Counts {
    fn add(&mut self, kind: Kind) {
        let count = match kind {
            Kind::History => &mut self.histories,
            Kind::Binding => &mut self.bindings,
            Kind::Other => return,
        };
        *count = count.saturating_add(1);
    }
}

// Past a question's end zeros are read, as many as the longest question has room for.
fn answer(kind: Kind, question: &[u8], out: &mut Answer) {
    let mut whole = [0; QUESTION];
    for (to, &byte) in whole.iter_mut().zip(question) {
        *to = byte;
    }
    match kind {
        Kind::History => histories::answer(&whole, out),
        Kind::Binding | Kind::Other => bindings::answer(&whole, out),
    }
}

fn show(rt: &impl Print, counts: Counts, tally: Tally) -> io::Result<()> {
    println!(rt; "histories {}", counts.histories)?;
    println!(rt; "bindings {}", counts.bindings)?;
    println!(rt; "{tally}")
}

// No exit status tells of a write that failed.
fn main(rt: HostRuntime) {
    let mut counts = Counts::default();
    let tally = records::replay(
        rt.reader(),
        &mut [0; QUESTION],
        &mut [0; 2048],
        &mut Answer::new(),
        |kind, question, out| {
            counts.add(kind);
            out.clear();
            answer(kind, question, out);
        },
    );
    let _ = show(&Heedless { to: &rt }, counts, tally);
}
