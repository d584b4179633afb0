// Graphs by their nodes: what of each node decides which others it is joined to, the rows that this gives, and their clusters.
ghost use Rattle.std.specs.Prelude.{◌≡◌, ◌&&◌, ℕ, ◌≤◌, ltb, length, get_or};
ghost use Rattle.allocator.specs.Merging.{graph_of, merging};
ghost use Rattle.allocator.specs.Words.{bit_of, held, leading};
ghost use Rattle.allocator.specs.Nodes.{no_node, near_nodes, near_in};

use super::merging::Graph;
use super::rows;
use reader::kinds::Class;

// A node: the class of its unit, A for what asks for none, an interval of boundaries or steps from low to high, and a set of steps. Two nodes are joined if they are of one
// class and have no boundary and no step in common.
#[derive(Clone, Copy, Default)]
pub struct Node {
    pub class: Class,
    pub low: u8,
    pub high: u8,
    pub steps: u64,
}

fn near(x: Node, y: Node) -> bool
    ensures { result ≡ near_nodes x y }
{
    let apart = !((x.low <= y.high) & (y.low <= x.high));
    (x.class == y.class) & apart & (rows::count(x.steps, y.steps) == 0)
}

// The row of a node.
fn row_of(nodes: &[Node], own: Node) -> [u64; 4]
    requires { length nodes.now ≤ 240 }
    ensures { (c : ℕ) → bit_of result c ≡ (ltb c (length nodes.now) && near_nodes own (get_or nodes.now c no_node)) }
{
    let mut row = [0u64; 4];
    for (j, other) in nodes.iter().enumerate() {
        let next = rows::put(row, j, near(own, *other));
        row = next;
    }
    row
}

// The graph of the nodes.
fn joined(nodes: &[Node]) -> Graph
    requires { length nodes.now ≤ 240 }
    ensures { (result.count ≡ length nodes.now) × (held result.count result.rows ≡ graph_of (length nodes.now) (near_in nodes.now)) }
{
    let mut rows = [[0u64; 4]; 240];
    for (i, own) in nodes.iter().enumerate() {
        let row = row_of(nodes, *own);
        rows[i] = row;
    }
    Graph {
        rows,
        count: nodes.len(),
    }
}

// The number of each node's cluster.
pub(crate) fn clusters(nodes: &[Node]) -> [u8; 240]
    requires { length nodes.now ≤ 240 }
    ensures { leading (length nodes.now) result ≡ merging (graph_of (length nodes.now) (near_in nodes.now)) }
{
    joined(nodes).clusters()
}
