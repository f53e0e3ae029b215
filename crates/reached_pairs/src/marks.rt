// Marks: one for each pair of states, which says how the pair was reached.
ghost use Rattle.std.specs.Prelude.{◌≡◌, ◌==◌, ◌+◌, ◌<◌, ◌≤◌, true, false, count_by, length, take};
ghost use Rattle.reached_pairs.specs.Reached.{layer_of, layer_in};
ghost use Rattle.reached_pairs.specs.ReachedByNumber.{Marked, MarkFrom, Entered};

// How many pairs there is room for.
pub const PAIRS: usize = 262144;

// The layer of a pair, which is one more than the number of entries that lead to it; the operation and the number of its inputs, which are the last entry; the pair before it.
// Form 1: where none stands the layer is 0. There is no heap: 262,144 of them stand in one array of the caller, and an `Option` of each would take 12 bytes in place of 8,
// with the layer as a `NonZeroU16` too (by `size_of`).
#[derive(Clone, Copy)]
pub struct Mark {
    pub layer: u16,
    pub operation: u8,
    pub input: u8,
    pub before: u32,
}

// No mark.
pub const NONE: Mark = Mark {
    layer: 0,
    operation: 0,
    input: 0,
    before: 0,
};

// The mark of the initial states.
pub const INITIAL: Mark = Mark {
    layer: 1,
    operation: 0,
    input: 0,
    before: 0,
};

impl Mark {
    // How many entries lead to a pair with this mark.
    pub fn entries(self) -> Option<usize>
        ensures { Entered self.layer result }
    {
        usize::from(self.layer).checked_sub(1)
    }
}

// The pair y gets the mark m, if it has none: the first list that leads to it is the shortest.
pub fn put_mark(marks: &mut [Mark], y: usize, m: Mark)
    requires { (y < length marks.old) × (0 < layer_of m) }
    ensures { Marked y m marks.old marks.new }
{
    if marks[y].layer != 0 {
        return;
    }
    marks[y] = m;
}

// The mark of layer n + 1 for what the pair x leads to by the i-th inputs of operation j.
pub fn mark_from(x: usize, j: usize, i: usize, n: u64) -> Mark
    requires { (x < 262144) × (j < 16) × (i < 64) × (n < 8191) }
    ensures { MarkFrom j i x n result }
{
    Mark {
        layer: (n + 1) as u16,
        operation: j as u8,
        input: i as u8,
        before: x as u32,
    }
}

// Is the pair y of layer n?
pub fn is_of(marks: &[Mark], y: usize, n: u64) -> bool
    requires { y < length marks.now }
    ensures { (result ≡ true → layer_in marks.now y ≡ n) × (result ≡ false → layer_in marks.now y ≡ n → ⊥) }
{
    u64::from(marks[y].layer) == n
}

// How many of the first pairs are of layer n.
pub fn count_layer(marks: &[Mark], pairs: usize, n: u64) -> usize
    requires { pairs ≤ length marks.now }
    ensures { result ≡ count_by (λ m. layer_of m == n) (take pairs marks.now) }
{
    marks[..pairs]
        .iter()
        .filter(|m| u64::from(m.layer) == n)
        .count()
}
