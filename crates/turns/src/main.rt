// The program `turns`: a frame in the file form from standard input, its turns to standard output.
#![tactic(auto)]

fn main() {
    frame_print::print_input();
}
