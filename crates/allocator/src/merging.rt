// Clique merging: the first edge with most common neighbours is merged, until no edge is left.
// Kept: `as` narrows a number whose bound is proved; `try_from` would test it again.
ghost use Rattle.std.specs.Prelude.{◌≡◌, ℕ, ◌<◌, ◌≤◌, get_or};
ghost use Rattle.ranges.specs.Below.{tabulate, filled, count_below};
ghost use Rattle.allocator.specs.Merging.{head_after, is_head, numbered};
ghost use Rattle.allocator.specs.Words.{Clear, leading, Under};

use super::rows;
use std::array;

// An edge, its smaller node first.
// Kept: no ghost field says so, since the definitions of `Merging` make edges of any two numbers.
#[derive(Clone, Copy)]
pub struct Edge {
    pub smaller: usize,
    pub larger: usize,
}

// The edge chosen so far, and how many neighbours its nodes have in common.
#[derive(Clone, Copy)]
pub struct Best {
    pub edge: Edge,
    pub common: usize,
}

// The nodes from 0 on, and the row of those that each is joined to. The rows go by value through each merge.
#[derive(Clone, Copy)]
pub struct Graph {
    pub rows: [[u64; 4]; 240],
    pub count: usize,
    ghost few: { count ≤ 240 },
    ghost clear: { Clear count rows },
}

// Each node is the head of its own cluster.
fn own() -> [u8; 240]
    ensures { result ≡ tabulate 240 (λ k. k) }
{
    array::from_fn(|k| k as u8)
}

// The head of a node whose head was h, once the edge is merged.
fn head_after(h: u8, edge: Edge) -> u8
    requires { edge.smaller < 240 }
    ensures { result ≡ head_after edge.smaller edge.larger h }
{
    if usize::from(h) == edge.larger {
        edge.smaller as u8
    } else {
        h
    }
}

// The head of each node, once the edge is merged.
fn heads_after(heads: [u8; 240], edge: Edge) -> [u8; 240]
    requires { edge.smaller < 240 }
    ensures { result ≡ tabulate 240 (λ k. head_after edge.smaller edge.larger (get_or heads k 0)) }
{
    array::from_fn(|k| head_after(heads[k], edge))
}

// How many of the nodes below each are heads.
fn ranks(heads: [u8; 240]) -> [u8; 256]
    ensures { result ≡ filled 256 240 0 (λ k. count_below k (is_head heads)) }
{
    let mut ranks = [0u8; 256];
    let mut next: u8 = 0;
    for (k, h) in heads.iter().enumerate() {
        ranks[k] = next;
        next += u8::from(usize::from(*h) == k);
    }
    ranks
}

// The number of each node's cluster, by smallest member.
fn numbers(heads: [u8; 240]) -> [u8; 240]
    ensures { (n : ℕ) → n ≤ 240 → Under n heads → leading n result ≡ numbered (leading n heads) }
{
    let ranks = ranks(heads);
    array::from_fn(|k| ranks[usize::from(heads[k])])
}

impl Graph {
    ghost use Rattle.std.specs.Prelude.{◌≡◌, ℕ, ◌<◌};
    ghost use Rattle.allocator.specs.Words.{bit_of, row_has, held, leading};
    ghost use Rattle.allocator.specs.Merging.{near_after, after_merge, most_common, scan_pair, merging};
    ghost use Rattle.allocator.specs.Choosing.{Weighed, edge_of, or_else};

    // The row of k, once the edge is merged.
    fn row_after(&self, edge: Edge, k: usize) -> [u64; 4]
        requires { (edge.smaller < edge.larger) × (edge.larger < 240) × (k < 240) }
        ensures { (c : ℕ) → bit_of result c ≡ near_after (row_has self.now.rows) edge.smaller edge.larger k c }
    {
        if k == edge.larger {
            return [0u64; 4];
        }
        if k == edge.smaller {
            let shared = rows::both(self.rows[edge.smaller], self.rows[edge.larger]);
            return rows::without(shared, edge.larger);
        }
        rows::under(self.rows[k], edge.smaller, edge.larger)
    }

    // The larger node is merged under the smaller: the graph is taken, and the merged one comes back.
    fn merged(self, edge: Edge) -> Graph
        requires { (edge.smaller < edge.larger) × (edge.larger < self.count) }
        ensures { (result.count ≡ self.count) × (held self.count result.rows ≡ after_merge (held self.count self.rows) edge.smaller edge.larger) }
    {
        let mut rows = self.rows;
        for k in 0..self.count {
            let row = self.row_after(edge, k);
            rows[k] = row;
        }
        Graph {
            rows,
            count: self.count,
        }
    }

    // Another pair of nodes, with its common neighbours, where it is an edge and better than the one chosen so far.
    fn better(&self, best: Option<Best>, pair: Edge) -> Option<Best>
        requires { (pair.smaller < pair.larger) × (pair.larger < self.now.count) × Weighed (held self.now.count self.now.rows) best }
        ensures { Weighed (held self.now.count self.now.rows) result × (edge_of (or_else result best) ≡ scan_pair (held self.now.count self.now.rows) pair.smaller pair.larger (edge_of best)) }
    {
        if !rows::bit(&self.rows[pair.smaller], pair.larger) {
            return None;
        }
        let common = rows::common(self.rows[pair.smaller], self.rows[pair.larger]);
        match best {
            Some(b) if common <= b.common => None,
            _ => Some(Best { edge: pair, common }),
        }
    }

    // Of the edges by (smaller, larger) rising, the first with most common neighbours.
    fn choose(&self) -> Option<Edge>
        ensures { result ≡ most_common (held self.now.count self.now.rows) }
    {
        let mut best = None;
        for smaller in 0..self.count {
            for larger in smaller + 1..self.count {
                if let Some(found) = self.better(best, Edge { smaller, larger }) {
                    best = Some(found);
                }
            }
        }
        best.map(|b| b.edge)
    }

    // The number of each node's cluster.
    pub(crate) fn clusters(self) -> [u8; 240]
        ensures { leading self.count result ≡ merging (held self.count self.rows) }
    {
        let mut graph = self;
        let mut heads = own();
        for _ in 0..self.count {
            let Some(edge) = graph.choose() else {
                return numbers(heads);
            };
            let next = graph.merged(edge);
            graph = next;
            let after = heads_after(heads, edge);
            heads = after;
        }
        numbers(heads)
    }
}
