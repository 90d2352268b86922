// The oracle's stored answers, as the programs that replay them read, make and compare them: bytes, with numbers of 16 bits high byte first.
//
// A list is records of a kind, the lengths of the question and of the answer in 16 bits each, the question and the answer. A head of zeros
// ends the list. A list that is cut off goes on as zeros, and so ends there; lengths in a head are cut to what a question and an answer may have.
//
// Besides, the first places of a table, for the programs that lend only those, the step of a sum over a list, and printing that heeds no failure.
#![tactic(auto)]

ghost use Rattle.std.specs.Prelude.{◌≡◌, ◌↔◌, ◌+◌, ◌*◌, ◌%◌, IsTrue, take};

mod reader;
mod writer;

pub use reader::Reader;
use std::convert::AsSlice;
use std::io::Read;
use std::{fmt, io};
pub use writer::Writer;

// As many records as a list may have.
const MOST_RECORDS: u32 = 1000000;

// What was replayed: how many answers differ, and the sum of the list's bytes.
#[derive(Clone, Copy, Debug)]
pub struct Tally {
    pub differ: u32,
    pub sum: u32,
}

impl fmt::Display for Tally {
    fn fmt<W: fmt::Write>(&self, f: &mut fmt::Formatter<W>) -> fmt::Result {
        let Tally { differ, sum } = *self;
        write!(f, "differ {differ}\nsum {sum}")
    }
}

// A record that was read.
#[derive(Clone, Copy)]
pub struct Record<'a, K> {
    pub kind: K,
    pub question: &'a [u8],
    pub answer: &'a [u8],
}

// A list as it is read, and the sum of its bytes so far.
#[derive(Drop)]
struct List<R> {
    input: R,
    sum: u32,
}

// Prints on past a write that fails, and tells nothing of it.
#[derive(Clone, Copy)]
pub struct Heedless<'a, P> {
    pub to: &'a P,
}

impl<P: Print> Print for Heedless<'_, P> {
    fn print<D: fmt::Display + Drop>(&self, value: D) -> io::Result<()> {
        let _ = self.to.print(value);
        Ok(())
    }

    fn println<D: fmt::Display + Drop>(&self, value: D) -> io::Result<()> {
        let _ = self.to.println(value);
        Ok(())
    }

    fn write_all(&self, bytes: &[u8]) -> io::Result<()> {
        let _ = self.to.write_all(bytes);
        Ok(())
    }
}

// A sum that any wrong number below 65,521 changes: 31 has an inverse modulo this prime.
pub fn mix(sum: u32, x: u32) -> u32
    ensures { result ≡ (sum % 65521 * 31 + x % 65521) % 65521 }
{
    ((sum % 65521) * 31 + x % 65521) % 65521
}

impl<R: Read> List<R> {
    // Fills a part with the list's next bytes, as far as the list goes.
    fn fill(&mut self, part: &mut [u8]) {
        let _ = self.input.read_exact(part);
        self.sum = part.iter().fold(self.sum, |sum, &x| mix(sum, u32::from(x)));
    }

    // The list's next bytes, as many as a length in a head says and the room has; past the list's end they are zeros.
    fn part<'a>(&mut self, length: u16, room: &'a mut [u8]) -> &'a [u8] {
        let part = first(room, usize::from(length));
        part.fill(0);
        self.fill(part);
        part
    }

    // The next record, if the list goes on.
    fn record<'a, K: From<u8>>(
        &mut self,
        question: &'a mut [u8],
        answer: &'a mut [u8],
    ) -> Option<Record<'a, K>> {
        let mut bytes = [0; 5];
        self.fill(&mut bytes);
        let mut head = Reader::new(&bytes);
        let kind = head.byte();
        let question = self.part(head.half(), question);
        let answer = self.part(head.half(), answer);
        if kind == 0 {
            return None;
        }
        Some(Record {
            kind: K::from(kind),
            question,
            answer,
        })
    }
}

// The first places of a table, at most `count`.
pub fn first<T>(table: &mut [T], count: usize) -> &mut [T]
    ensures { result.now ≡ take count table.old }
{
    let count = count.min(table.len());
    &mut table[..count]
}

// Whether an answer is the stored one.
fn agrees<A: AsSlice<u8>>(answer: &A, stored: &[u8]) -> bool
    ensures { IsTrue result ↔ (A.items answer.now ≡ stored.now) }
{
    answer.as_slice() == stored
}

// Asks each question of a list again, and compares the answers, byte by byte, with the stored ones. A question and an answer are read
// into the two lent tables, and each answer replaces the one before in `out`: by value it would be copied several times.
pub fn replay<K, A, R, F>(
    input: R,
    question: &mut [u8],
    stored: &mut [u8],
    out: &mut A,
    mut answer: F,
) -> Tally
where
    K: From<u8>,
    A: AsSlice<u8>,
    R: Read + Drop,
    F: FnMut(K, &[u8], &mut A) + Drop,
    requires { F.IsAlwaysCallable answer }
{
    let mut list = List { input, sum: 0 };
    let mut differ: u32 = 0;
    for _ in 0..MOST_RECORDS {
        let Some(record) = list.record::<K>(question, stored) else {
            break;
        };
        answer(record.kind, record.question, out);
        if !agrees(out, record.answer) {
            differ = differ.saturating_add(1);
        }
    }
    Tally {
        differ,
        sum: list.sum,
    }
}
