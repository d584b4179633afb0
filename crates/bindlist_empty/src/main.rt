// `bindlist` on no input at all.
#![tactic(auto)]

fn main() {
    console::list_input();
}
