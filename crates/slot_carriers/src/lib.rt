// Carriers by slot: `cells` has four numbers for each slot, of which three are used: how many values its variable has, the shape of its type, and the first number of the type, or, of a
// type of functions, the place where they are listed. The lists of partial and total functions stand behind all cells.
// Form 6: the cells are one list in the definitions (specs/Cells), and a shape is a number in it. As structs with the lists in a second array six functions
// here (`count_of`, `value_at`, `lowest`, `place_of`, `setup::write_cell`, `setup::copy_cells`) would name fields for places; outside this crate nothing reads a place.
// Form 4: `as` where no `from` is: usize has none of u32, nor i64 or u32 of usize.
// Form 5: slots stand as numbers in the lent arrays of plans and nodes too (DECISIONS L9): a type for `slot < 64` would be made of each that is read there,
// where the bound would be shown as it is now, and be turned back into the number for each index.
#![tactic(auto)]

pub mod groups;
pub mod setup;
pub mod type_shapes;

ghost use Rattle.std.specs.Prelude.{◌≡◌, ℕ, ◌<◌, ◌≤◌, get_or, length, pos, nat_abs, ◌+ℤ◌};
ghost use Rattle.slot_carriers.specs.Cells.{count_in, shape_in, value_in, Reached, Readable, Rising, Sought};

use form::node::RAISED;

// How many slots there are; how many numbers the cells have, those of the slots and room for the lists.
// Form 1: these and the next three are lengths and places, no kinds.
pub const SLOTS: usize = 64;

pub const CELLS: usize = 9216;

// The numbers of one slot, and where the shape of its type stands among them, and its first number or the place of its list.
const CELL: usize = 4;

const SHAPE: usize = 1;

const FIRST: usize = 2;

// How many values the variable of a slot has.
pub fn count_of(cells: &[u32; CELLS], slot: usize) -> usize
    requires { slot < 64 }
    ensures { result ≡ count_in cells.now slot }
{
    cells[CELL * slot] as usize
}

// Its d-th value.
pub fn value_at(cells: &[u32; CELLS], slot: usize, d: usize) -> i64
    requires { Reached cells.now slot d }
    ensures { result ≡ value_in cells.now slot d }
{
    if cells[CELL * slot + SHAPE] < type_shapes::PARTIAL {
        return lowest(cells, slot) + d as i64;
    }
    let a = cells[CELL * slot + FIRST];
    i64::from(cells[a as usize + d])
}

// What the values of a slot whose type is not one of functions rise from, by one each.
fn lowest(cells: &[u32; CELLS], slot: usize) -> i64
    requires { (slot < 64) × (shape_in cells.now slot < 5) }
    ensures rises { (d : ℕ) → result +ℤ pos d ≡ value_in cells.now slot d }
    ensures small { nat_abs result ≤ 4294968296 }
{
    if cells[CELL * slot + SHAPE] == type_shapes::RANGE {
        return i64::from(cells[CELL * slot + FIRST]) - RAISED;
    }
    0
}

// The place of x among n numbers from `low` on, if it is one of them.
fn distance(x: i64, low: i64, n: usize) -> Option<usize>
    requires { n ≤ 65536 }
    ensures { Sought (λ d. low +ℤ pos d) n x result }
{
    let d = usize::try_from(x.checked_sub(low)?).ok()?;
    (d < n).then_some(d)
}

// The place of x among numbers that rise, if it is one of them.
fn listed(list: &[u32], x: i64) -> Option<usize>
    requires { Rising list.now }
    ensures { Sought (λ d. pos (get_or list.now d 0)) (length list.now) x result }
{
    let k = u32::try_from(x).ok()?;
    list.binary_search(&k).ok()
}

// The place of x among the values of a slot, if it is one of them.
pub fn place_of(cells: &[u32; CELLS], slot: usize, x: i64) -> Option<usize>
    requires { Readable cells.now slot }
    ensures { Sought (λ d. value_in cells.now slot d) (count_in cells.now slot) x result }
{
    let n = count_of(cells, slot);
    if n == 0 {
        return None;
    }
    if cells[CELL * slot + SHAPE] < type_shapes::PARTIAL {
        return distance(x, lowest(cells, slot), n);
    }
    let a = cells[CELL * slot + FIRST] as usize;
    listed(&cells[a..a + n], x)
}
