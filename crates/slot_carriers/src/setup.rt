// The cells are made of the nodes of declared types in the reader's table.
ghost use Rattle.std.specs.Prelude.{◌≡◌, ◌+◌, ◌<◌, ◌≤◌, get_or, length};
ghost use Rattle.slot_carriers.specs.TypeNodes.{CountIs, FunctionIs, Functions, CellWritten, Placed, CellMade};
ghost use Rattle.slot_carriers.specs.DeclaredGroups.{Declared, CellsMade, Copied};

use crate::{CELL, CELLS, FIRST, SHAPE, type_shapes};
use form::node;
use form::node::GROUPS;

// A declared type by the numbers of its node: its shape, and two numbers that the shape gives a meaning.
#[derive(Clone, Copy)]
pub struct DeclaredType {
    pub shape: u32,
    pub a: u32,
    pub b: u32,
}

// How many values a type has. The sets of n bits are as many as the partial functions from n elements to one.
pub fn type_count(t: DeclaredType) -> u32
    requires { (t.a < 65536) × (t.b < 65536) }
    ensures { CountIs t.shape t.a t.b result }
{
    match t.shape {
        type_shapes::SET => t.a,
        type_shapes::RANGE => t.b,
        type_shapes::POWER => carriers::partial_count(t.a, 1),
        type_shapes::RELATION => carriers::partial_count(t.a * t.b, 1),
        type_shapes::PARTIAL => carriers::partial_count(t.a, t.b),
        _ => carriers::total_count(t.a, t.b),
    }
}

// The d-th of the partial or total functions.
fn function_at(t: DeclaredType, d: u32) -> u32
    ensures { FunctionIs t.shape t.a t.b d result }
{
    if t.shape == type_shapes::PARTIAL {
        return u32::from(carriers::partial_mask(t.a, t.b, d));
    }
    u32::from(carriers::total_mask(t.a, t.b, d))
}

// Writes the first functions of a type, as many as the list is long: they are asked for often, and each takes a loop.
fn set_list(t: DeclaredType, list: &mut [u32])
    requires { length list.old ≤ 9216 }
    ensures long { length list.new ≡ length list.old }
    ensures list { Functions t.shape t.a t.b 0 (length list.old) list.new }
{
    // Form 3: after an adapter of `iter_mut` (`enumerate`, `zip`) nothing is known of what was written.
    for d in 0..list.len() {
        list[d] = function_at(t, d as u32);
    }
}

// The first three numbers of a slot's cell.
fn write_cell(cells: &mut [u32; CELLS], slot: usize, count: u32, shape: u32, first: u32)
    requires { slot < 64 }
    ensures { CellWritten cells.old slot count shape first cells.new }
{
    cells[CELL * slot] = count;
    cells[CELL * slot + SHAPE] = shape;
    cells[CELL * slot + FIRST] = first;
}

// The cell of the variable of a slot, whose type's node is at q; its functions are listed from `at` on. Answers the place behind them.
// Form 6: the lists stand in the same lent array as the cells in front of them, which a slice from `at` on would not have.
fn set_cell(
    table: &[u16; node::NUMBERS],
    q: usize,
    slot: usize,
    at: usize,
    cells: &mut [u32; CELLS],
) -> usize
    requires q_bound { (q + 4 ≤ 16384) × (slot < 64) × (256 ≤ at) × (at ≤ 9216) }
    requires placed { Placed table.now q at }
    ensures { CellMade table.now q slot at cells.old cells.new result }
{
    let t = DeclaredType {
        shape: u32::from(table[q + node::SHAPE]),
        a: u32::from(table[q + node::A]),
        b: u32::from(table[q]),
    };
    let n = type_count(t);
    if t.shape < type_shapes::PARTIAL {
        write_cell(cells, slot, n, t.shape, t.a);
        return at;
    }
    write_cell(cells, slot, n, t.shape, at as u32);
    let end = at + n as usize;
    set_list(t, &mut cells[at..end]);
    end
}

// The cells of one group: `row` is where it stands in `groups`, its number of variables and the places of their nodes; `base` its first slot; lists from `from`
// on. Answers the place behind them.
// Form 5: table and groups are two of the five fields of a `search_groups::Dossier`: with it a caller would be asked for rows as well that are not read, and
// this crate would stand on that one too.
// Form 6: as at `set_cell`.
pub fn set_cells(
    table: &[u16; node::NUMBERS],
    groups: &[u16; GROUPS],
    row: usize,
    base: usize,
    from: usize,
    cells: &mut [u32; CELLS],
) -> usize
    requires row_bound { (row < 160) × (row + 1 + get_or groups.now row 0 ≤ 160) × (base + get_or groups.now row 0 ≤ 64) × (256 ≤ from) }
    requires declared { Declared table.now groups.now (row + 1) (get_or groups.now row 0) from }
    ensures { CellsMade table.now groups.now (row + 1) (get_or groups.now row 0) base from cells.old cells.new result }
{
    let n = usize::from(groups[row]);
    let mut at = from;
    for (i, q) in groups[row + 1..row + 1 + n].iter().enumerate() {
        at = set_cell(table, usize::from(*q) + node::SIZE, base + i, at, cells);
    }
    at
}

// The cells of n variables from one slot on, again from another slot on.
pub fn copy_cells(n: usize, base: usize, to: usize, cells: &mut [u32; CELLS])
    requires { (base + n ≤ to) × (to + n ≤ 64) }
    ensures { Copied n base to cells.old cells.new }
{
    cells.copy_within(CELL * base..CELL * (base + n), CELL * to)
}
