// The table of a readable block: an entry a record, and of each value the last boundary that it occupies.
// Kept: `as` narrows a number whose bound is proved; `try_from` would test it again.
// Kept: the bytes b are a premise of contracts: a ghost field may speak of fields alone, and none holds them.
ghost use Rattle.std.specs.Prelude.{◌≡◌, cond, List, ℕ, ◌-◌, ◌≤◌, ◌<◌, length, get_or, max, ◌%◌};
ghost use Rattle.std.specs.List.{fold, list_any};
ghost use Rattle.ranges.specs.Below.{filled};
ghost use Rattle.reader.specs.Block.{records, values, value_for};
ghost use Rattle.reader.specs.Sources.{Noted};
ghost use Rattle.reader.specs.Table.{no_entry, entry_of, entries_of, lasts_of, no_table, table_of, entry_reads, entry_sends, before_reading, last_in, Entered};

use crate::kinds::{Kind, Operation};
use crate::{Entry, Named, Table, fields, kinds, scanning, sources};
use std::array;

// The value that the name n has in step s, where it is asked for.
fn source_if(asked: bool, names: &[Option<Named>], s: u8, n: u8) -> u8
    requires { length names.now ≤ 80 }
    ensures { (b : List ℕ) → Noted names.now b → result ≡ cond asked (value_for b (length names.now) s n) 0 }
{
    if asked {
        return sources::value_for(names, s, n) as u8;
    }
    0
}

// names are those of the values.
#[tactic(auto, unfolding(crate::specs::Table::entry_of, crate::specs::Records::record_of, crate::specs::Kinds::kind_at, crate::specs::Kinds::operation_at))]
fn entry_of(block: &[u8], names: &[Option<Named>], i: usize) -> Entry
    requires { length names.now ≤ 80 }
    ensures { length names.now ≡ values block.now → Noted names.now block.now → result ≡ entry_of block.now i }
{
    let f = fields::record_of(block, i);
    Entry {
        kind: Kind::try_from(f.kind).ok(),
        step: f.step,
        operation: Operation::try_from(f.operation).ok(),
        computes: f.reads_right,
        class: kinds::class_read(f.operation),
        name: f.name,
        literal: f.literal,
        birth: f.birth,
        left: source_if(f.reads_left, names, f.step, f.left),
        right: source_if(f.reads_right, names, f.step, f.right),
        sent: source_if(f.kind == 3, names, 66, f.name),
    }
}

// The entries of a block of at most 80 whole records, of which the m first make values.
// Kept: a loop over the records, since `from_fn` would make 80 entries of a block of one record too.
fn entries(block: &[u8], m: usize) -> [Entry; 80]
    requires { (length block.now % 8 ≡ 0) × (records block.now ≤ 80) × (m ≤ 80) × (m ≡ values block.now) }
    ensures { result ≡ entries_of block.now }
{
    let names = sources::names(block);
    let own = &names[..m];
    let mut all = [Entry::default(); 80];
    for i in 0..block.len() / 8 {
        let e = entry_of(block, own, i);
        all[i] = e;
    }
    all
}

impl Entry {
    // Its record reads the value v.
    fn reads(&self, v: u8) -> bool
        ensures { result ≡ entry_reads self.now v }
    {
        let reads_left = matches!(self.kind, Some(Kind::Operation))
            && !matches!(self.operation, Some(Operation::Constant))
            && self.left == v;
        reads_left || self.computes && self.right == v
    }

    // It sends v out.
    fn sends(&self, v: u8) -> bool
        ensures { result ≡ entry_sends self.now v }
    {
        matches!(self.kind, Some(Kind::Outgoing)) && self.sent == v
    }

    // j - 1 if it reads v in step j.
    fn before_reading(&self, v: u8) -> u8
        ensures { result ≡ before_reading self.now v }
    {
        if self.reads(v) {
            return self.step.saturating_sub(1);
        }
        0
    }
}

// The largest of j - 1 for each reading of v in step j.
fn last_reading(entries: &[Entry], v: u8) -> u8
    ensures { result ≡ fold (λ far e. max far (before_reading e v)) 0 entries.now }
{
    entries
        .iter()
        .map(|e| e.before_reading(v))
        .max()
        .unwrap_or(0)
}

// An outgoing record gets v.
fn is_sent(entries: &[Entry], v: u8) -> bool
    ensures { result ≡ list_any (λ e. entry_sends e v) entries.now }
{
    entries.iter().any(|e| e.sends(v))
}

// The last boundary that the value v occupies: the largest of its birth, j - 1 for each reading in step j, and T if an outgoing record gets it.
#[tactic(auto, unfolding(crate::specs::Table::last_in))]
fn last_boundary(entries: &[Entry], t: u8, v: usize) -> u8
    requires { (v < length entries.now) × (length entries.now ≤ 80) }
    ensures { result ≡ last_in entries.now t v }
{
    let number = v as u8;
    let birth = entries[v].birth;
    let reading = last_reading(entries, number);
    let sending = if is_sent(entries, number) { t } else { 0 };
    birth.max(reading.max(sending))
}

// The last boundaries of the m values.
fn last_boundaries(entries: &[Entry], m: usize, t: u8) -> [u8; 80]
    requires { (m ≤ length entries.now) × (length entries.now ≤ 80) }
    ensures { result ≡ filled 80 m 0 (last_in entries.now t) }
{
    let mut lasts = [0; 80];
    for v in 0..m {
        lasts[v] = last_boundary(entries, t, v);
    }
    lasts
}

// What the crates above need of a block, by value; all 0 where it cannot be read.
pub fn table(block: &[u8]) -> Table
    ensures { result ≡ table_of block.now }
{
    let Ok(readable) = crate::read(block) else {
        return Table::default();
    };
    let records = block.len() / 8;
    let values = scanning::count_values(block);
    let last_step = readable.last_step;
    let all = entries(block, values);
    let lasts = last_boundaries(&all[..records], values, last_step);
    Table {
        entries: all,
        lasts,
        incoming: scanning::count_of(block, 1),
        values,
        outgoing: scanning::count_of(block, 3),
        last_step,
    }
}
