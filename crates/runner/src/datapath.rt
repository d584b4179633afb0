// The run of a bound datapath: what buses carry, what units give and what registers take in a step, and the register file boundary by boundary.
ghost use Rattle.std.specs.Prelude.{◌≡◌, ℕ, ◌+◌, ◌<◌, ◌≤◌, true, List, slice_index_or};
ghost use Rattle.ranges.specs.Below.{tabulate};
ghost use Rattle.reader.specs.Block.{kind, values, last_step};
ghost use Rattle.reader.specs.Kinds.{incomes};
ghost use Rattle.reader.specs.Table.{no_entry};
ghost use Rattle.runner.specs.DatapathRun.{arriving as arriving_at, file_after, file_at};
ghost use Rattle.runner.specs.BoundTables.{Laid, holds, takes_by, takes_in, alone_in, left_by};
ghost use Rattle.runner.specs.Fillings.{step_filling, written_by};

use crate::filling::Filling;
use crate::{arithmetic, words};
use reader::kinds::{Kind, Operation};
use reader::{Entry, Place, Table};

// What operations may take one after another but not together: a bus or a unit, by its number.
#[derive(Clone, Copy)]
pub enum Shared {
    Bus(u8),
    Unit(u8),
}

// Whether the record is an operation that is written in the step k.
#[tactic(auto, unfolding(crate::specs::Fillings::written_by))]
fn written(e: Entry, k: u8) -> bool
    ensures { result ≡ written_by e k }
{
    matches!(e.kind, Some(Kind::Operation)) & (e.step == k)
}

// Whether the record is incoming.
fn enters(e: Entry) -> bool
    ensures { result ≡ incomes e.kind }
{
    matches!(e.kind, Some(Kind::Incoming))
}

// How often an operation takes a bus or a unit in the step k.
#[tactic(auto, unfolding(crate::specs::BoundTables::takes_by, crate::specs::Fillings::written_by))]
fn takes_by(e: Entry, p: Place, k: u8, s: Shared) -> usize
    ensures { result ≡ takes_by e p k s }
{
    let operates = written(e, k);
    let computes = e.computes & (e.step == k);
    match s {
        Shared::Bus(n) => {
            usize::from(operates & (p.left == n))
                + usize::from(computes & (p.right == n))
                + usize::from(computes & (p.result == n))
        }
        Shared::Unit(u) => usize::from(computes & (p.unit == u)),
    }
}

// A block and a binding, as they were read.
// Kept: the bytes b and d are premises of contracts: a ghost field may speak of fields alone, and none holds them.
#[derive(Clone, Copy)]
pub struct Datapath {
    pub table: Table,
    pub places: [Place; 80],
    ghost few: { table.values ≤ 80 },
}

impl Datapath {
    // How often the operations take a bus or a unit in the step k.
    fn takes(&self, k: u8, s: Shared) -> usize
        ensures { (b d : List ℕ) → Laid self.now.table self.now.places b d → result ≡ takes_in b d k s }
    {
        let mut taken: usize = 0;
        for v in 0..self.table.values {
            taken += takes_by(self.table.entries[v], self.places[v], k, s);
        }
        taken
    }

    // The word x over a bus or from a unit in the step k: 0 where not exactly one takes it.
    #[tactic(auto, unfolding(crate::specs::BoundTables::alone_in))]
    fn alone(&self, k: u8, s: Shared, x: u16) -> u16
        ensures { (b d : List ℕ) → Laid self.now.table self.now.places b d → result ≡ alone_in b d k s x }
    {
        let taken = self.takes(k, s);
        if taken == 1 { x } else { 0 }
    }

    // What the register of the value v has in the file.
    fn held(&self, file: &[u16; 80], v: usize) -> u16
        ensures { result ≡ holds self.now.places file.now v }
    {
        let register = match self.places.get(v) {
            Some(p) => p.register,
            None => 0,
        };
        words::word_at(file, usize::from(register))
    }

    // What an operation sends over its left bus: its literal, or what the register of its left value has.
    #[tactic(auto, unfolding(crate::specs::BoundTables::left_by))]
    fn left_of(&self, e: Entry, file: &[u16; 80]) -> u16
        ensures { result ≡ left_by e self.now.places file.now }
    {
        match e.operation {
            Some(Operation::Constant) => e.literal,
            _ => self.held(file, usize::from(e.left)),
        }
    }

    // What the bus into the register of the operation v has in the step k, which began with the file.
    fn arriving(&self, file: &[u16; 80], k: u8, v: usize) -> u16
        requires { v < 80 }
        ensures { (b d : List ℕ) → Laid self.now.table self.now.places b d → v < values b → kind b v ≡ 2 → result ≡ arriving_at b d file.now k v }
    {
        let e = self.table.entries[v];
        let p = self.places[v];
        let left = self.alone(k, Shared::Bus(p.left), self.left_of(e, file));
        if !e.computes {
            return left;
        }
        let from_right = self.held(file, usize::from(e.right));
        let right = self.alone(k, Shared::Bus(p.right), from_right);
        let made = arithmetic::result_by(e.operation, left, right);
        let given = self.alone(k, Shared::Unit(p.unit), made);
        self.alone(k, Shared::Bus(p.result), given)
    }

    // The value v, written in the step k, goes into the register file. Its sources are read as the step began.
    fn step_value(&self, k: u8, v: usize, s: &mut Filling)
        requires { (v < 80) × (written_by (slice_index_or self.now.table.entries v no_entry) k ≡ true) }
        ensures { (b d f : List ℕ) → Laid self.now.table self.now.places b d → v < values b → s.old ≡ step_filling b d f k v → s.new ≡ step_filling b d f k (v + 1) }
    {
        let seen = s.began;
        s.take(self.places[v].register, self.arriving(&seen, k, v));
    }

    // The register file after the step k, which began with the file.
    fn after_step(&self, file: [u16; 80], k: u8) -> [u16; 80]
        ensures { (b d : List ℕ) → Laid self.now.table self.now.places b d → result ≡ file_after b d k file }
    {
        let mut s = Filling::new(file);
        for v in 0..self.table.values {
            if written(self.table.entries[v], k) {
                self.step_value(k, v, &mut s);
            }
        }
        s.words
    }

    // The register file at entry, over the file that the caller lent.
    fn at_entry(&self, incoming: &[u16], file: [u16; 80]) -> [u16; 80]
        ensures { (b d : List ℕ) → Laid self.now.table self.now.places b d → result ≡ file_at b d incoming.now file 0 }
    {
        let mut s = Filling::new(file);
        for v in 0..self.table.values {
            if enters(self.table.entries[v]) {
                s.take(self.places[v].register, words::word_at(incoming, v));
            }
        }
        s.words
    }

    // The register file at T.
    pub(crate) fn file_at_end(&self, incoming: &[u16], file: [u16; 80]) -> [u16; 80]
        ensures { (b d : List ℕ) → Laid self.now.table self.now.places b d → result ≡ file_at b d incoming.now file (last_step b) }
    {
        let mut now = self.at_entry(incoming, file);
        for k in 0..self.table.last_step {
            let next = self.after_step(now, k + 1);
            now = next;
        }
        now
    }

    // What the register of each value has in the file.
    pub(crate) fn held_of(&self, file: &[u16; 80]) -> [u16; 80]
        ensures { result ≡ tabulate 80 (holds self.now.places file.now) }
    {
        std::array::from_fn(|v| self.held(file, v))
    }
}
