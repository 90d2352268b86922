// One input read and printed: read, ask for the next piece, write it, until there is none. The pieces are made in `print_pieces`, which says
// what they are. Nothing goes to standard error.
#![tactic(auto)]

// Standard input and output, by their file descriptors.
const STDIN: i32 = 0;

const STDOUT: i32 = 1;

// Prints an input.
pub fn print_frame(frame: &[u8]) {
    let mut turns = [0u16; print_pieces::TURNS];
    let mut places = [0u16; print_pieces::PLACES];
    let mut out = [0u8; print_pieces::OUTPUT];
    let mut piece = print_pieces::first_piece(frame, &mut turns, &mut places, &mut out);
    // All pieces before this one are written.
    while 0 < piece.size {
        io::write_all(STDOUT, &out[..piece.size]);
        piece = print_pieces::next_piece(frame, &turns, &places, &mut out, piece);
    }
}

// Prints what standard input holds, as far as one byte past the longest frame.
pub fn print_input() {
    let mut frame = [0u8; print_pieces::INPUT];
    let size = io::read_full(STDIN, &mut frame);
    print_frame(&frame[..size]);
}
