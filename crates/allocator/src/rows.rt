// One row of joined nodes: node k is bit k % 64 of the word k / 64.
// Kept: `as`, since no `From` goes from u32 to usize.
ghost use Rattle.std.specs.Prelude.{◌≡◌, cond, ◌&&◌, true, false, ℕ, ◌<◌, ◌≤◌, eqb};
ghost use Rattle.allocator.specs.Words.{bit_of, shared_digits, shared_bits};

// Whether the row has the node k.
pub(crate) fn bit(row: &[u64; 4], k: usize) -> bool
    requires { k < 256 }
    ensures { result ≡ bit_of row.now k }
{
    let w = row[k / 64];
    (w >> (k % 64)) & 1 == 1
}

// How many steps or nodes both words have.
pub(crate) fn count(x: u64, y: u64) -> usize
    ensures { (result ≡ shared_digits x y) × (result ≤ 64) }
{
    u64::count_ones(x & y) as usize
}

// How many nodes both rows have.
pub(crate) fn common(a: [u64; 4], b: [u64; 4]) -> usize
    ensures { (result ≡ shared_bits a b) × (result ≤ 256) }
{
    count(a[0], b[0]) + count(a[1], b[1]) + count(a[2], b[2]) + count(a[3], b[3])
}

// The nodes that both rows have.
pub(crate) fn both(a: [u64; 4], b: [u64; 4]) -> [u64; 4]
    ensures { (k : ℕ) → bit_of result k ≡ (bit_of a k && bit_of b k) }
{
    [a[0] & b[0], a[1] & b[1], a[2] & b[2], a[3] & b[3]]
}

// The row without the node k.
pub(crate) fn without(row: [u64; 4], k: usize) -> [u64; 4]
    requires { k < 256 }
    ensures { (c : ℕ) → bit_of result c ≡ cond (eqb c k) false (bit_of row c) }
{
    let mut r = row;
    let w = k / 64;
    let m = 1u64 << (k % 64);
    r[w] = r[w] & !m;
    r
}

// The row with the node k, if on.
pub(crate) fn put(row: [u64; 4], k: usize, on: bool) -> [u64; 4]
    requires { k < 256 }
    ensures { (c : ℕ) → bit_of result c ≡ cond (eqb c k && on) true (bit_of row c) }
{
    let mut r = row;
    if on {
        let w = k / 64;
        let m = 1u64 << (k % 64);
        r[w] = r[w] | m;
    }
    r
}

// The row of a node that stays, once j is merged under i: it has i if it had both, and j no more.
pub(crate) fn under(row: [u64; 4], i: usize, j: usize) -> [u64; 4]
    requires { (i < j) × (j < 240) }
    ensures { (c : ℕ) → bit_of result c ≡ cond (eqb c j) false (cond (eqb c i) (bit_of row i && bit_of row j) (bit_of row c)) }
{
    if bit(&row, j) {
        without(row, j)
    } else {
        without(row, i)
    }
}
