// The program `generate_frame`: a line of four numbers from standard input, seed, bodies, manifolds and joints, in decimal and parted by
// one space; the test lift that it asks for, in the file form, to standard output. A lift that can't be made is `refused N`. A line that
// can't be read gets a message on standard error, and nothing goes to standard output. What is printed is made by `lift_print`.
#![tactic(auto)]

ghost use Rattle.std.specs.Prelude.{◌≤◌, length};

use std::io::Read;

// One byte more than a line can have that is read: four numbers of 19 digits and three spaces.
const LINE: usize = 80;

// Fills the buffer as far as the input goes, and answers how many bytes were read. A read that fails ends the input.
fn read_full(input: &mut impl Read, buffer: &mut [u8]) -> usize
    ensures { result ≤ length buffer.new }
{
    let mut filled = 0;
    for _ in 0..LINE {
        match input.read(&mut buffer[filled..]) {
            Ok(0) | Err(_) => break,
            Ok(size) => filled += size,
        }
    }
    filled
}

// No exit status tells of a write that failed.
fn main(rt: HostRuntime) {
    let mut text = [0; LINE];
    let read = read_full(&mut rt.reader(), &mut text);
    let mut out = [0; generator::MAX_BYTES];
    let Some(size) = lift_print::put_print(&text[..read], &mut out) else {
        let _ = eprintln!(rt;
            "generate_frame: write one line of four numbers of at most 19 digits, parted by one space: seed bodies manifolds joints (the seed at most 4294967295)"
        );
        return;
    };
    let _ = rt.write_all(out.get(..size).unwrap_or(&[]));
}
