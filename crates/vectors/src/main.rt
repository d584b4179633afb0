// Runs cases that the independent implementation made, and says how many of them the library answers alike: `tools/make-vectors`.
#![tactic(auto)]

fn main() {
    answering::compare_input();
}
