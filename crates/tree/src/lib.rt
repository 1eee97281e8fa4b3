// A tree of counts in a slice of words: 2,048 leaves, each of at most 1,024, and every node above them holds the sum of its two children. Word 0 is
// not used, word 1 is the root, the children of word i are words 2 i and 2 i + 1, and leaf k is word 2048 + k. Words from 4096 on are not touched.
#![tactic(auto)]

ghost use Rattle.std.specs.Prelude.{◌≡◌, ℕ, ◌+◌, ◌-◌, ◌*◌, ◌^◌, ◌<◌, ◌≤◌, length, drop, slice_index, slice_set};
ghost use Rattle.tree.specs.Tree.{Found, Light, Over, Sums, added, leftmost, total};

const LEAVES: usize = 2048;

const HEIGHT: usize = 11;

// A piece, whose cells a leaf counts, and a place among those that it counts.
#[derive(Clone, Copy, Debug, PartialEq, Eq, Hash)]
pub struct Spot {
    pub piece: usize,
    pub offset: usize,
}

// The leaf in which a place falls, with the place less all that the leaves before it count.
// Words, here and below, and no type that promises `Sums`: `pieces` writes leaves itself while it moves cells, and has the sums made right once, by `rebuild`.
pub fn find(t: &[u32], place: usize) -> Spot
    requires sums { Sums t.now }
    requires place { place < slice_index t.now 1 }
    ensures { Found t.now place result.piece result.offset }
{
    descend(t, 1, HEIGHT, place)
}

// The same from a node that stands `height` levels above the leaves: there the place counts from the first leaf below it.
fn descend(t: &[u32], node: usize, height: usize, place: usize) -> Spot
    requires { Over t.now node height place }
    ensures { Found t.now (total t.now 2048 (leftmost node height - 2048) + place) result.piece result.offset }
{
    if height == 0 {
        return Spot {
            piece: node - LEAVES,
            offset: place,
        };
    }
    let child = 2 * node;
    let left = t[child] as usize;
    if place < left {
        descend(t, child, height - 1, place)
    } else {
        descend(t, child + 1, height - 1, place - left)
    }
}

// Leaf k becomes `value`, and the nodes above it are added up again.
pub fn set(t: &mut [u32], k: usize, value: u32)
    requires sums { Sums t.old }
    requires leaf { k < 2048 }
    requires value { value ≤ 1024 }
    ensures sums { Sums t.new }
    ensures leaves { (j : ℕ) → j < 2048 → slice_index t.new (2048 + j) ≡ slice_index (slice_set t.old (2048 + k) value) (2048 + j) }
    ensures unused { slice_index t.new 0 ≡ slice_index t.old 0 }
    ensures rest { drop 4096 t.new ≡ drop 4096 t.old }
{
    let mut node = LEAVES + k;
    t[node] = value;
    // Not a `for`, as a node's number halves on the way up.
    while node > 1 {
        node /= 2;
        add_up(t, node);
    }
}

// All nodes above the leaves are added up.
pub fn rebuild(t: &mut [u32])
    requires long { 4096 ≤ length t.old }
    requires light { Light t.old }
    ensures sums { Sums t.new }
    ensures leaves { (j : ℕ) → j < 2048 → slice_index t.new (2048 + j) ≡ slice_index t.old (2048 + j) }
    ensures unused { slice_index t.new 0 ≡ slice_index t.old 0 }
    ensures rest { drop 4096 t.new ≡ drop 4096 t.old }
{
    // By number, as the children of a node are found by its number.
    for node in (1..LEAVES).rev() {
        add_up(t, node);
    }
}

// A node becomes the sum of its children.
fn add_up(t: &mut [u32], node: usize)
    requires long { 4096 ≤ length t.old }
    requires node { node < 2048 }
    requires fits { slice_index t.old (2 * node) + slice_index t.old (2 * node + 1) < 2 ^ 32 }
    ensures { t.new ≡ added t.old node }
{
    t[node] = t[2 * node] + t[2 * node + 1];
}
