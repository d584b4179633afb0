// `bindlist` on a block of 80 values, 640 bytes.
#![tactic(auto)]

fn main() {
    console::list_input();
}
