// The fields of one record, and what they alone say of it. b is a block or one record's eight bytes; i is the record's place in it.
ghost use Rattle.std.specs.Prelude.{◌≡◌};
ghost use Rattle.reader.specs.Block.{field as field_of, literal as literal_of};
ghost use Rattle.reader.specs.Records.{record_of};

use crate::Record;

// Byte k of the record i, 0 past the end.
pub(crate) fn field(b: &[u8], i: usize, k: usize) -> u8
    ensures { result ≡ field_of b.now i k }
{
    if i <= b.len() / 8 {
        let start = 8 * i;
        if k < b.len() - start {
            return b[start + k];
        }
    }
    0
}

fn literal(b: &[u8], i: usize) -> u16
    ensures { result ≡ literal_of b.now i }
{
    u16::from_le_bytes([field(b, i, 6), field(b, i, 7)])
}

#[tactic(auto, unfolding(crate::specs::Records::record_of, crate::specs::Block::birth))]
pub(crate) fn record_of(b: &[u8], i: usize) -> Record
    ensures { result ≡ record_of b.now i }
{
    let kind = field(b, i, 0);
    let step = field(b, i, 1);
    let operation = field(b, i, 2);
    let operates = kind == 2;
    Record {
        kind,
        step,
        operation,
        name: field(b, i, 3),
        left: field(b, i, 4),
        right: field(b, i, 5),
        literal: literal(b, i),
        birth: if operates { step } else { 0 },
        reads_left: operates && operation != 2,
        reads_right: operates && 3 <= operation,
    }
}
