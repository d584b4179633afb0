// Runs what document 01 says is run and compared: the cases of `tools/make-cases`, whose answers were worked out from it.
#![tactic(auto)]

fn main() {
    answering::answer_input();
}
