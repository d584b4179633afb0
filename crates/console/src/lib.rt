// Standard input as a block, its listing to standard output: what every program of the listing does. No contract can say what is read or
// written, so everything that matters stands in `listing`.
#![tactic(auto)]

// Reads at most 648 bytes, which are 81 records, so that any longer input is refusal 02.
pub fn list_input() {
    let mut block = [0u8; 648];
    let n = io::read_full(0, &mut block);
    let listing = listing::list(&block[..n]);
    let text = listing.text;
    let length = listing.length;
    io::write_all(1, &text[..length]);
}
