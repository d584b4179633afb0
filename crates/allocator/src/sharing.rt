// Which values may share a register and which operations a unit, as nodes of their graphs.
// Kept: the bytes b are a premise of contracts: a ghost field may speak of fields alone, and none holds them.
ghost use Rattle.std.specs.Prelude.{◌≡◌, List, ℕ, ◌≤◌, length, map};
ghost use Rattle.ranges.specs.Below.{tabulate, keep_below};
ghost use Rattle.allocator.specs.Placing.{life_in, computes_at, unit_node, unit_node_at, register_node, Records};
ghost use Rattle.reader.specs.Block.{values};
ghost use Rattle.allocator.specs.Lives.{Lives};
ghost use Rattle.allocator.specs.Words.{leading};
ghost use Rattle.allocator.specs.Methods.{method_number};
ghost use Rattle.allocator.specs.Allocation.{computing, unit_numbers, registers_by};

use super::graphs::Node;
use super::left_edge::Life;
use super::methods::Method;
use super::{graphs, left_edge};
use arrayvec::ArrayVec;
use reader::Entry;
use reader::kinds::Class;
use std::array;

// The boundaries of each value.
pub(crate) fn lives(entries: [Entry; 80], lasts: [u8; 80]) -> [Life; 80]
    ensures { result ≡ tabulate 80 (life_in entries lasts) }
{
    array::from_fn(|v| Life {
        birth: entries[v].birth,
        last: lasts[v],
    })
}

// A value lives from its birth to its last boundary.
fn register_node(life: Life) -> Node
    ensures { result ≡ register_node life }
{
    Node {
        class: Class::A,
        low: life.birth,
        high: life.last,
        steps: 0,
    }
}

fn register_nodes(lives: &[Life]) -> ArrayVec<Node, 80>
    requires { length lives.now ≤ 80 }
    ensures { result.items ≡ map register_node lives.now }
{
    let mut nodes = ArrayVec::new();
    for life in lives {
        nodes.push(register_node(*life));
    }
    nodes
}

// An operation asks for its unit in its step.
fn unit_node(e: Entry) -> Node
    ensures { result ≡ unit_node e }
{
    Node {
        class: e.class,
        low: e.step,
        high: e.step,
        steps: 0,
    }
}

// The nodes of operations that units compute, in record order.
fn unit_nodes(entries: &[Entry]) -> ArrayVec<Node, 80>
    requires { length entries.now ≤ 80 }
    ensures { result.items ≡ map (unit_node_at entries.now) (keep_below (length entries.now) (computes_at entries.now)) }
{
    let mut nodes = ArrayVec::new();
    for e in entries {
        if e.computes {
            nodes.push(unit_node(*e));
        }
    }
    nodes
}

// The number of the unit of each node.
pub(crate) fn unit_numbers(entries: &[Entry]) -> [u8; 240]
    requires { length entries.now ≤ 80 }
    ensures { (b : List ℕ) → Records entries.now b → leading (length (computing b)) result ≡ unit_numbers b }
{
    let nodes = unit_nodes(entries);
    graphs::clusters(nodes.as_slice())
}

// The register of each value, by the method.
pub(crate) fn registers(lives: &[Life], method: Method) -> [u8; 80]
    requires { length lives.now ≤ 80 }
    ensures { (b : List ℕ) → Lives lives.now b → values b ≡ length lives.now → leading (length lives.now) result ≡ registers_by (method_number method) b }
{
    match method {
        Method::LeftEdge => left_edge::left_edge(lives),
        Method::Merging => {
            let nodes = register_nodes(lives);
            let numbers = graphs::clusters(nodes.as_slice());
            array::from_fn(|v| numbers[v])
        }
    }
}
