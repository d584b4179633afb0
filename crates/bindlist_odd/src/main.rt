// `bindlist` on 63 bytes, which are no whole records.
#![tactic(auto)]

fn main() {
    console::list_input();
}
