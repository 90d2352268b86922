// The program `turns` on an input of one byte more than the longest frame.
#![tactic(auto)]

fn main() {
    frame_print::print_input();
}
