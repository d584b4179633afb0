// The run of a block: the word of each value, value after value, and of those the words that go out.
// Kept: the bytes b are a premise of contracts: a ghost field may speak of fields alone, and none holds them.
ghost use Rattle.std.specs.Prelude.{◌≡◌, ℕ, ◌+◌, ◌≤◌, List};
ghost use Rattle.ranges.specs.Below.{filled};
ghost use Rattle.reader.specs.Block.{values};
ghost use Rattle.reader.specs.TableLaws.{Shows};
ghost use Rattle.runner.specs.BlockRun.{word_of};
ghost use Rattle.runner.specs.TableRuns.{word_by, sent_by};

use crate::{arithmetic, words};
use reader::kinds::{Kind, Operation};
use reader::{Entry, Table};

// The word of a value: as it came in, the left source's, the literal, or what the operation gives of its sources.
#[tactic(auto, unfolding(crate::specs::TableRuns::word_by))]
fn word_of(e: Entry, incoming: u16, left: u16, right: u16) -> u16
    ensures { result ≡ word_by e incoming left right }
{
    if let Some(Kind::Incoming) = e.kind {
        return incoming;
    }
    match e.operation {
        Some(Operation::Move) => left,
        Some(Operation::Constant) => e.literal,
        operation => arithmetic::result_by(operation, left, right),
    }
}

// The words of the values; the rest of the 80 are 0.
pub(crate) fn words_of(t: Table, incoming: &[u16]) -> [u16; 80]
    requires { t.values ≤ 80 }
    ensures { (b : List ℕ) → Shows t b → result ≡ filled 80 (values b) 0 (word_of b incoming.now) }
{
    let mut all = [0u16; 80];
    for v in 0..t.values {
        let e = t.entries[v];
        let left = words::word_at(&all, usize::from(e.left));
        let right = words::word_at(&all, usize::from(e.right));
        all[v] = word_of(e, words::word_at(incoming, v), left, right);
    }
    all
}

// Of the words by value those that the outgoing records send, in record order; the rest of the 80 are 0.
pub(crate) fn sent_of(t: Table, all: [u16; 80]) -> [u16; 80]
    requires { t.values + t.outgoing ≤ 80 }
    ensures { result ≡ filled 80 t.outgoing 0 (sent_by t all) }
{
    let mut sent = [0u16; 80];
    for j in 0..t.outgoing {
        sent[j] = words::word_at(&all, usize::from(t.entries[t.values + j].sent));
    }
    sent
}
