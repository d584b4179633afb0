// The scans of a whole block, record by record: the first fault, how many records are of a kind, T.
// Kept: `as` narrows a number whose bound is proved; `try_from` would test it again.
ghost use Rattle.std.specs.Prelude.{◌≡◌, ◌≤◌, eqb};
ghost use Rattle.ranges.specs.Below.{count_below};
ghost use Rattle.reader.specs.Block.{kind, records, values, last_step};
ghost use Rattle.reader.specs.Judging.{found_in};
ghost use Rattle.reader.specs.Refusals.{formed_as};

use crate::refusals::Fault;
use crate::{fields, judging};

// The first record with a fault, in a block of at most 80.
pub(crate) fn first_fault(block: &[u8]) -> Result<(), Fault>
    requires { records block.now ≤ 80 }
    ensures { formed_as result ≡ found_in block.now }
{
    let mut learned = judging::nothing_learned();
    for i in 0..block.len() / 8 {
        let start = 8 * i;
        let end = start + 8;
        match judging::judge(&block[start..end], learned) {
            Ok(next) => learned = next,
            Err(reason) => return Err(Fault {
                reason,
                at: i as u8,
            }),
        }
    }
    Ok(())
}

// How many records are of the kind k.
pub(crate) fn count_of(block: &[u8], k: u8) -> usize
    ensures { result ≡ count_below (records block.now) (λ i. eqb (kind block.now i) k) }
{
    let mut count = 0;
    for i in 0..block.len() / 8 {
        if fields::field(block, i, 0) == k {
            count += 1;
        }
    }
    count
}

pub(crate) fn count_values(block: &[u8]) -> usize
    ensures { result ≡ values block.now }
{
    count_of(block, 1) + count_of(block, 2)
}

pub(crate) fn last_step(block: &[u8]) -> u8
    ensures { result ≡ last_step block.now }
{
    let mut last: u8 = 0;
    for i in 0..block.len() / 8 {
        last = last.max(fields::record_of(block, i).birth);
    }
    last
}
