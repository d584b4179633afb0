// `bindlist` on 648 bytes, 81 records.
#![tactic(auto)]

fn main() {
    console::list_input();
}
