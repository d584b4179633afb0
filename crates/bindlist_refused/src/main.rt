// `bindlist` on C10: a name read in the step that writes it.
#![tactic(auto)]

fn main() {
    console::list_input();
}
