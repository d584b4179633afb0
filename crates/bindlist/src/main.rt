// The program: the block on standard input, its listing on standard output. It is run on block E.
#![tactic(auto)]

fn main() {
    console::list_input();
}
