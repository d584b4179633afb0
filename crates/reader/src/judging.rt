// The judge of one record: it gets the record's eight bytes and what the records before told, and nothing else.
ghost use Rattle.std.specs.Prelude.{◌≡◌};
ghost use Rattle.reader.specs.Judging.{nothing, known_of, earliest_after, learned_after, order_known, twice_known, born_known, missing_known, judgement_of, judged_by};
ghost use Rattle.reader.specs.Records.{record_of, kind_fault_of, range_fault_of, unused_fault_of, mark_of};

use crate::refusals::Reason;
use crate::{Known, Learned, Record, fields};

pub(crate) fn nothing_learned() -> Learned
    ensures { result ≡ nothing }
{
    let none = Known {
        earliest: 66,
        latest: 0,
    };
    Learned {
        kind: 0,
        step: 0,
        names: [none; 64],
    }
}

// What a record's own fields say of it.
impl Record {
    #[tactic(auto, unfolding(crate::specs::Records::kind_fault_of))]
    fn kind_fault(&self) -> bool
        ensures { result ≡ kind_fault_of self.now }
    {
        !matches!(self.kind, 1..=3)
    }

    #[tactic(auto, unfolding(crate::specs::Records::range_fault_of))]
    fn range_fault(&self) -> bool
        ensures { result ≡ range_fault_of self.now }
    {
        self.kind == 2 && !(matches!(self.step, 1..=64) && matches!(self.operation, 1..=8))
            || 63 < self.name
            || self.reads_left && 63 < self.left
            || self.reads_right && 63 < self.right
    }

    #[tactic(auto, unfolding(crate::specs::Records::unused_fault_of))]
    fn unused_fault(&self) -> bool
        ensures { result ≡ unused_fault_of self.now }
    {
        let operates = self.kind == 2;
        !operates && !(self.step == 0 && self.operation == 0)
            || !self.reads_left && self.left != 0
            || !self.reads_right && self.right != 0
            || !(operates && self.operation == 2) && self.literal != 0
    }

    fn mark(&self) -> u16
        ensures { result ≡ mark_of self.now }
    {
        256 * u16::from(self.kind) + u16::from(self.birth)
    }
}

// What the records before say of the record f.
impl Learned {
    // What is known of the name n, all 0 past the end.
    fn known_of(&self, n: u8) -> Known
        ensures { result ≡ known_of self.now n }
    {
        self.names.get(usize::from(n)).copied().unwrap_or_default()
    }

    #[tactic(auto, unfolding(crate::specs::Judging::order_known))]
    fn order_fault(&self, f: &Record) -> bool
        ensures { result ≡ order_known f.now self.now }
    {
        f.kind < self.kind || self.kind == 2 && f.kind == 2 && f.step < self.step
    }

    #[tactic(auto, unfolding(crate::specs::Judging::twice_known))]
    fn twice_fault(&self, f: &Record) -> bool
        ensures { result ≡ twice_known f.now self.now }
    {
        self.known_of(f.name).latest == f.mark()
    }

    // The name n has a value born below s.
    fn born(&self, s: u8, n: u8) -> bool
        ensures { result ≡ born_known self.now s n }
    {
        self.known_of(n).earliest < u16::from(s)
    }

    #[tactic(auto, unfolding(crate::specs::Judging::missing_known))]
    fn missing_fault(&self, f: &Record) -> bool
        ensures { result ≡ missing_known f.now self.now }
    {
        f.reads_left && !self.born(f.step, f.left)
            || f.reads_right && !self.born(f.step, f.right)
            || f.kind == 3 && !self.born(66, f.name)
    }

    // The first of 3 to 8 that the record gives.
    #[tactic(auto, unfolding(crate::specs::Judging::judgement_of))]
    fn judgement(&self, f: &Record) -> Result<(), Reason>
        ensures { result ≡ judgement_of f.now self.now }
    {
        if f.kind_fault() {
            return Err(Reason::Kind);
        }
        if self.order_fault(f) {
            return Err(Reason::Order);
        }
        if f.range_fault() {
            return Err(Reason::Range);
        }
        if f.unused_fault() {
            return Err(Reason::Unused);
        }
        if self.twice_fault(f) {
            return Err(Reason::Twice);
        }
        if self.missing_fault(f) {
            return Err(Reason::Missing);
        }
        Ok(())
    }

    // The smallest birth of a value of the record's name, after the record too.
    fn earliest_after(&self, f: &Record) -> u16
        ensures { result ≡ earliest_after f.now self.now }
    {
        let known = self.known_of(f.name).earliest;
        if f.kind == 1 || f.kind == 2 {
            return known.min(u16::from(f.birth));
        }
        known
    }

    // What is known with the record too; of a name past the end nothing changes.
    #[tactic(auto, unfolding(crate::specs::Judging::learned_after))]
    fn after(&self, f: &Record) -> Learned
        ensures { result ≡ learned_after f.now self.now }
    {
        let mut names = self.names;
        let at = usize::from(f.name);
        if at < names.len() {
            names[at] = Known {
                earliest: self.earliest_after(f),
                latest: f.mark(),
            };
        }
        Learned {
            kind: f.kind,
            step: f.step,
            names,
        }
    }
}

// What is known after the record too, or what is wrong with it.
#[tactic(auto, unfolding(crate::specs::Judging::judged_by))]
pub(crate) fn judge(part: &[u8], l: Learned) -> Result<Learned, Reason>
    ensures { result ≡ judged_by (record_of part.now 0) l }
{
    let f = fields::record_of(part, 0);
    l.judgement(&f)?;
    Ok(l.after(&f))
}
