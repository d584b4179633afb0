// The reader: bytes come in, and what a block or a binding holds goes out by value. Every function of this file that takes bytes takes any.
// Kept: `as` narrows a number whose bound is proved; `try_from` would test it again.
#![tactic(auto)]

ghost use Rattle.std.specs.Prelude.{◌≡◌};
ghost use Rattle.reader.specs.Block.{reading};
ghost use Rattle.reader.specs.Binding.{form_of, places_of};
ghost use Rattle.reader.specs.Refusals.{read_as, formed_as};

use std::array;

mod fields;
mod judging;
pub mod kinds;
mod placing;
pub mod refusals;
mod scanning;
mod sources;
pub mod tables;
pub mod uses;

use kinds::{Class, Kind, Operation};
use refusals::{Fault, Reason, Refusal};

// What `read` says of a readable block: the count of values and T.
#[derive(Clone, Copy)]
pub struct Readable {
    pub values: u8,
    pub last_step: u8,
}

// One record: its fields, its birth, and whether it reads the left and the right name.
// Kept: kind and operation are bytes here, since the judge sees any byte, and 3 and 5 say which of them are none.
#[derive(Clone, Copy)]
pub struct Record {
    pub kind: u8,
    pub step: u8,
    pub operation: u8,
    pub name: u8,
    pub left: u8,
    pub right: u8,
    pub literal: u16,
    pub birth: u8,
    pub reads_left: bool,
    pub reads_right: bool,
}

// What the crates above need of one record: what it is and does, whether it is one of the operations 3 to 8 and their class, its fields, the
// birth, and the values that it reads left and right or sends out, by their numbers, 0 where it reads or sends none.
// Kept: left, right and sent are numbers and no Options, since `table_of`, which docs/PROMISES.md names, says 0 where nothing is read or sent.
#[derive(Clone, Copy, Default)]
pub struct Entry {
    pub kind: Option<Kind>,
    pub step: u8,
    pub operation: Option<Operation>,
    pub computes: bool,
    pub class: Class,
    pub name: u8,
    pub literal: u16,
    pub birth: u8,
    pub left: u8,
    pub right: u8,
    pub sent: u8,
}

// An entry a record, a last occupied boundary a value, and the counts; all 0 where the block cannot be read.
// Kept: no ghost field says `values ≤ 80`, since `uses::uses`, which docs/PROMISES.md names, takes any table.
#[derive(Clone, Copy, Default)]
pub struct Table {
    pub entries: [Entry; 80],
    pub lasts: [u8; 80],
    pub incoming: usize,
    pub values: usize,
    pub outgoing: usize,
    pub last_step: u8,
}

// One place of a binding: its register, its unit and its three buses as they stand there.
#[derive(Clone, Copy)]
pub struct Place {
    pub register: u8,
    pub unit: u8,
    pub left: u8,
    pub right: u8,
    pub result: u8,
}

// Where the value on a bus comes from: a register or a unit, each by its number, or a literal by its value.
#[derive(Clone, Copy, PartialEq, Eq)]
pub enum Source {
    Register(u8),
    Unit(u8),
    Literal(u16),
}

// Where it goes: a unit's left or right port, or a register.
#[derive(Clone, Copy, PartialEq, Eq)]
pub enum Sink {
    Left(u8),
    Right(u8),
    Register(u8),
}

// One use of a bus: whether it is made, in which step, and its connection, a source with a sink.
// Kept: made stands beside the rest, since `uses_in`, which docs/PROMISES.md names, says the step, the source and the sink of a use that is not made too.
#[derive(Clone, Copy)]
pub struct Use {
    pub made: bool,
    pub step: u8,
    pub source: Source,
    pub sink: Sink,
}

impl Use {
    ghost use Rattle.std.specs.Prelude.{◌≡◌};
    ghost use Rattle.reader.specs.Uses.{if_made};

    // The use where it is made: who allots buses and who checks them work with an Option.
    pub fn if_made(self) -> Option<Use>
        ensures { result ≡ if_made self }
    {
        self.made.then_some(self)
    }
}

// What the records before one told of a name: the smallest birth of a value of it (66 where it has none) and the mark of the last record of it.
#[derive(Clone, Copy, Default)]
pub struct Known {
    pub earliest: u16,
    pub latest: u16,
}

// What the records before one told: the kind and the step of the last, and what is known of each name.
// Kept: the kind is a byte, as in `Record`.
#[derive(Clone, Copy)]
pub struct Learned {
    pub kind: u8,
    pub step: u8,
    pub names: [Known; 64],
}

// The name and the birth of a value.
#[derive(Clone, Copy)]
pub struct Named {
    pub name: u8,
    pub birth: u8,
}

// The latest value found so far of those born below a step: its number and its birth.
#[derive(Clone, Copy)]
pub struct Latest {
    pub at: usize,
    pub birth: u8,
}

// The entry point: whether the block can be read.
pub fn read(block: &[u8]) -> Result<Readable, Refusal>
    ensures { read_as result ≡ reading block.now }
{
    if block.len() % 8 != 0 {
        return Err(Reason::PartOfRecord.into());
    }
    if 80 < block.len() / 8 {
        return Err(Reason::TooManyRecords.into());
    }
    scanning::first_fault(block)?;
    Ok(Readable {
        values: scanning::count_values(block) as u8,
        last_step: scanning::last_step(block),
    })
}

// The places of a binding, by value, whatever its bytes; what it does not have is 0.
pub fn places(binding: &[u8]) -> [Place; 80]
    ensures { result ≡ places_of binding.now }
{
    array::from_fn(|v| placing::place_at(binding, v))
}

// Whether a binding of a readable block is well formed; where the block cannot be read, nothing is said against it.
pub fn form(block: &[u8], binding: &[u8]) -> Result<(), Fault>
    ensures { formed_as result ≡ form_of block.now binding.now }
{
    if read(block).is_err() {
        return Ok(());
    }
    if binding.len() % 8 != 0 {
        return Err(Fault {
            reason: Reason::PartOfPlace,
            at: 0,
        });
    }
    let values = scanning::count_values(block);
    if binding.len() / 8 != values {
        return Err(Fault {
            reason: Reason::OtherPlaces,
            at: 0,
        });
    }
    placing::first_fault(block, binding, values)
}
