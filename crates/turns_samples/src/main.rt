// What the program `turns` writes for each of several inputs: their number in one byte, then each after its length in three, the
// high one first.
#![tactic(auto)]

use print_pieces::INPUT;

// Standard input, by its file descriptor.
const STDIN: i32 = 0;

// The next input's length; past the end zeros are read.
fn read_length() -> usize {
    let mut length = [0; 4];
    io::read_full(STDIN, &mut length[1..]);
    u32::from_be_bytes(length) as usize
}

// Reads the next input, as far as it goes, and prints what `turns` writes for it; nothing where its length is above the longest.
fn print_next() {
    let length = read_length();
    let mut room = [0; INPUT];
    if length <= INPUT {
        let size = io::read_full(STDIN, &mut room[..length]);
        frame_print::print_frame(&room[..size]);
    }
}

fn main() {
    let mut count = [0; 1];
    io::read_full(STDIN, &mut count);
    for _ in 0..count[0] {
        print_next();
    }
}
