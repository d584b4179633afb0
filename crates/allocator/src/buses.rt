// Buses: the connections of a block whose registers and units are fixed, in order of first use, and the bus of each use.
// uses are those of the block, the use at p of the value v at 3 * v + p.
// Kept: `as` narrows a number whose bound is proved; `try_from` would test it again.
// Kept: the bytes b and d are premises of contracts: a ghost field may speak of fields alone, and none holds them.
ghost use Rattle.std.specs.Prelude.{◌≡◌, ℕ, List, ◌&&◌, ◌||◌, ◌≤◌, ◌<◌, ◌%◌, eqb, length};
ghost use Rattle.ranges.specs.Below.{keep_below};
ghost use Rattle.allocator.specs.Words.{digit};
ghost use Rattle.allocator.specs.Links.{same_use, step_of, first_at, first_in, bus_node, Steps, Uses};
ghost use Rattle.allocator.specs.Written.{Bused};

use super::graphs;
use super::graphs::Node;
use arrayvec::ArrayVec;
use reader::Use;
use reader::kinds::Class;

// The uses, and the numbers of those that are the first of their connection.
// Kept: numbers and not the uses themselves, since an ArrayVec of uses would want a blank use to fill it.
#[derive(Drop)]
pub struct Connections<'a> {
    pub uses: &'a [Option<Use>],
    pub firsts: ArrayVec<u8, 240>,
    ghost few: { length uses.now ≤ 240 },
    ghost listed: { firsts.items ≡ keep_below (length uses.now) (first_in uses.now) },
}

// Whether both uses are made and have one connection.
fn same(x: Option<Use>, y: Option<Use>) -> bool
    ensures { result ≡ same_use x y }
{
    match (x, y) {
        (Some(x), Some(y)) => (x.source == y.source) & (x.sink == y.sink),
        _ => false,
    }
}

// Whether the use x is made, and no earlier use has its connection.
fn is_first(earlier: &[Option<Use>], x: Option<Use>) -> bool
    ensures { result ≡ first_at earlier.now x }
{
    for other in earlier {
        if same(*other, x) {
            return false;
        }
    }
    x.is_some()
}

// The numbers of the first uses.
fn first_uses(uses: &[Option<Use>]) -> ArrayVec<u8, 240>
    requires { length uses.now ≤ 240 }
    ensures { result.items ≡ keep_below (length uses.now) (first_in uses.now) }
{
    let mut firsts = ArrayVec::new();
    for (u, x) in uses.iter().enumerate() {
        if is_first(&uses[..u], *x) {
            firsts.push(u as u8);
        }
    }
    firsts
}

// The steps so far, with that of y where it has the connection of x.
fn with_step(steps: u64, x: Option<Use>, y: Option<Use>) -> u64
    ensures { (k : ℕ) → k < 64 → digit result k ≡ (digit steps k || same_use y x && eqb k (step_of y % 64)) }
{
    match y {
        Some(own) if same(y, x) => steps | (1u64 << (own.step % 64)),
        _ => steps,
    }
}

// The steps that use the connection of x; step 64 stands at bit 0.
fn steps_of(uses: &[Option<Use>], x: Option<Use>) -> u64
    ensures { Steps uses.now (length uses.now) x result }
{
    let mut steps: u64 = 0;
    for y in uses {
        steps = with_step(steps, x, *y);
    }
    steps
}

// A connection: no interval, and its steps.
fn bus_node(steps: u64) -> Node
    ensures { result ≡ bus_node steps }
{
    Node {
        class: Class::A,
        low: 1,
        high: 0,
        steps,
    }
}

impl<'a> Connections<'a> {
    ghost use Rattle.std.specs.Prelude.{◌≡◌, ℕ, List, ◌≤◌, length};
    ghost use Rattle.ranges.specs.Below.{filled};
    ghost use Rattle.allocator.specs.Words.{leading};
    ghost use Rattle.allocator.specs.Allocation.{first_uses, bus_numbers};
    ghost use Rattle.allocator.specs.Links.{use_at, Nodes, Uses, found_in, bus_in};

    // The connections of the uses.
    pub(crate) fn new(uses: &'a [Option<Use>]) -> Self
        requires { length uses.now ≤ 240 }
        ensures { result.uses.now ≡ uses.now }
    {
        let firsts = first_uses(uses);
        Connections { uses, firsts }
    }

    // The nodes of the connections.
    fn nodes(&self) -> ArrayVec<Node, 240>
        ensures { Nodes self.now.uses.now self.now.firsts.items (length self.now.firsts.items) result.items }
    {
        let mut nodes = ArrayVec::new();
        for u in self.firsts.as_slice() {
            let x = self.uses[usize::from(*u)];
            nodes.push(bus_node(steps_of(self.uses, x)));
        }
        nodes
    }

    // The number of the bus of each connection.
    fn numbers(&self) -> [u8; 240]
        ensures { (b d : List ℕ) → Uses self.now.uses.now b d → leading (length (first_uses b d)) result ≡ bus_numbers b d }
    {
        let nodes = self.nodes();
        graphs::clusters(nodes.as_slice())
    }

    // The node of the connection of x.
    fn node_of(&self, x: Option<Use>) -> Option<usize>
        ensures { result ≡ found_in self.now.uses.now self.now.firsts.items x }
    {
        for (i, u) in self.firsts.as_slice().iter().enumerate() {
            if same(self.uses[usize::from(*u)], x) {
                return Some(i);
            }
        }
        None
    }

    // The bus of the use x, 255 where it is not made.
    fn bus(&self, numbers: [u8; 240], x: Option<Use>) -> u8
        ensures { result ≡ bus_in self.now.uses.now self.now.firsts.items numbers x }
    {
        match self.node_of(x) {
            Some(i) => numbers[i],
            None => 255,
        }
    }

    // The bus of each use.
    fn buses(&self, numbers: [u8; 240]) -> [u8; 240]
        ensures { result ≡ filled 240 (length self.now.uses.now) 0 (λ u. bus_in self.now.uses.now self.now.firsts.items numbers (use_at self.now.uses.now u)) }
    {
        let mut buses = [0u8; 240];
        for (u, x) in self.uses.iter().enumerate() {
            let number = self.bus(numbers, *x);
            buses[u] = number;
        }
        buses
    }
}

// The bus of each use.
pub(crate) fn buses(uses: &[Option<Use>]) -> [u8; 240]
    requires { length uses.now ≤ 240 }
    ensures { (b d : List ℕ) → Uses uses.now b d → Bused result b d }
{
    let connections = Connections::new(uses);
    connections.buses(connections.numbers())
}
