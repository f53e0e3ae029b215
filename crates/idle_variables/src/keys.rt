// Keys of bindings: their numbers with the digits of idle variables 0, so that bindings that differ in those alone have one key; marks by keys.
// Form 5: `KeyAsked` is asked of a group and of the cells together, so that a type with it would carry both; callers make a group of a part's sizes in one
// function (`blocks`) and lend the cells in another, where what is asked is shown: with the type it would be shown where the group is made, and that function
// would ask for all that shows it. A struct of both without what is asked: the groups of the definitions (nest_steps/specs/OpenBlocks) are of a part and of masks
// alone, so that it would stand around `KeyGroup`, and each of the five calls would write a literal of it where two arguments stand.
ghost use Rattle.std.specs.Prelude.{◌≡◌, ◌<◌, set};
ghost use Rattle.idle_variables.specs.KeyPromises.{key_in, KeyAsked, MarkSays, Within};

use plans::GroupSize;
use slot_carriers::{CELLS, count_of};

// How many places there are for marks: no state has more bindings.
pub const KEYS: usize = 4096;

// A group of variables: its first slot, its size, and which of them are idle, as bits, the first one's lowest.
#[derive(Clone, Copy)]
pub struct KeyGroup {
    pub first: usize,
    pub size: GroupSize,
    pub idle: u64,
}

// The key of the x-th binding.
pub fn key_at(cells: &[u32; CELLS], g: KeyGroup, x: usize) -> usize
    requires key_asked { KeyAsked cells.now g }
    requires x_lt_count { x < g.size.bindings }
    ensures is { result ≡ key_in cells.now g x }
    ensures low { result < g.size.bindings }
{
    let mut stride = g.size.bindings;
    let mut idle = g.idle;
    let mut rest = x;
    let mut key = 0;
    for slot in g.first..g.first + g.size.variables {
        if idle == 0 {
            break;
        }
        stride /= count_of(cells, slot);
        if idle % 2 == 0 {
            key += rest / stride * stride;
        }
        rest %= stride;
        idle /= 2;
    }
    key + rest
}

// Does the mark stand at the key of the x-th binding?
pub fn is_marked(
    cells: &[u32; CELLS],
    g: KeyGroup,
    x: usize,
    mark: u16,
    marks: &[u16; KEYS],
) -> bool
    requires { KeyAsked cells.now g }
    ensures { MarkSays cells.now g x mark marks.now result }
{
    x < g.size.bindings && marks[key_at(cells, g, x)] == mark
}

// Makes the mark there.
pub fn make_mark(cells: &[u32; CELLS], g: KeyGroup, x: usize, mark: u16, marks: &mut [u16; KEYS])
    requires key_asked { KeyAsked cells.now g }
    requires x_lt_count { x < g.size.bindings }
    ensures { marks.new ≡ set marks.old (key_in cells.now g x) mark }
{
    marks[key_at(cells, g, x)] = mark;
}

// Does the block of `size` places from `first` on lie between two places? Only then is it looked at as a whole.
pub fn is_within(from: usize, end: usize, first: usize, size: usize) -> bool
    ensures { Within from end first size result }
{
    (from..=end).contains(&first) && size <= end - first
}
