// `bindlist` on 649 bytes, of which 648 are looked at.
#![tactic(auto)]

fn main() {
    console::list_input();
}
