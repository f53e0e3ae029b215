// The lines of a witness: values as document 01 writes them, a line for each variable of a group.
// Form 1: shapes, sizes and places are numbers of the labels, one list of numbers (crates/labels).
// Form 5: eight functions have the names to read and the writer to write. A struct of both is lent to be written, so that each of the eight would promise `new.names ≡ old.names` too; and
// `Adds`, which is said of two writers, would be said of a field of it.
#![tactic(auto)]

ghost use Rattle.std.specs.Prelude.{◌≡◌, [], map, cond, eqb, ◌+◌, ◌*◌, ◌%◌, ◌^◌, ◌≤◌, ◌<◌, length};
ghost use Rattle.std.specs.Int.NonZero.{non_zero_u16_get};
ghost use Rattle.lexical.specs.SymbolPromises.{ending_is};
ghost use Rattle.sets.specs.Sets.{members};
ghost use Rattle.meaning.specs.Values.{natural};
ghost use Rattle.obligations.specs.Report.{braced, ending_bytes};
ghost use Rattle.labels.specs.Labels.{label_of};
ghost use Rattle.pieces.specs.PiecePromises.{Adds};
ghost use Rattle.lines.specs.GroupPlaces.{first_of, slot_of, ending_of};
ghost use Rattle.lines.specs.LinesByNumber.{size_of, element_piece, pair_piece, member_piece, value_piece, ending_byte, byte_piece, line_piece, group_piece};
ghost use Rattle.lines.specs.MembersByNumber.{members_piece};

use form::shapes::{POWER, RANGE, SET};
use labels::{Names, VARIABLE, VARIABLES_FROM};
use lexical::Ending;
use pieces::Writer;
use search_groups::groups::{INPUTS_ROW, STATE_ROW, STATES_ROWS};
use sets::has;
pub use slot_carriers::SLOTS;
use std::num::NonZeroU16;
use table_nodes::slots;

// The greatest length of a line: a name and its ending, " = ", a value of at most 16 pairs, a newline.
pub const LINE: usize = 645;

// How many labels the elements of a given set have, how many bits a set has, and how many sets of that many bits there are.
// Form 1: numbers of document 01 and of the labels, no kinds.
const ELEMENTS: u16 = labels::ELEMENTS as u16;

const BITS: usize = 16;

const SETS: usize = 65536;

// The first places of the groups, of both states and of the first operation's inputs and outputs; in front of them a row has their count.
// Form 1: places among the labels, no kinds.
const ABSTRACT_FIRST: usize = 1;

const CONCRETE_FIRST: usize = ABSTRACT_FIRST + STATE_ROW;

const INPUTS_FIRST: usize = ABSTRACT_FIRST + STATES_ROWS;

const OUTPUTS_FIRST: usize = INPUTS_FIRST + INPUTS_ROW;

// A type, as the labels have it.
#[derive(Clone, Copy)]
struct Shape {
    shape: u16,
    sides: u16,
    size: u16,
}

// A set: the given sets of its members, of pairs how many elements the second given set has, its bits.
#[derive(Clone, Copy)]
struct Set {
    sides: u16,
    size: Option<NonZeroU16>,
    bits: u16,
}

// A group of variables: its first place among the groups, how many variables it has, the slot of its first value, the ending of its names.
#[derive(Clone, Copy)]
pub struct Group {
    pub first: usize,
    pub count: usize,
    pub slot: usize,
    pub ending: Ending,
}

// What the lines of a witness show: the values in their slots, and the names.
#[derive(Clone, Copy)]
pub struct Shown<'a> {
    pub names: Names<'a>,
    pub slots: &'a [i64; SLOTS],
}

// The groups: the states, the inputs, the outputs, the states after.
// Form 1: six cases of its own, no Option or Result.
#[derive(Clone, Copy)]
pub enum Side {
    Abstract,
    Concrete,
    Inputs,
    Outputs,
    AbstractPrimed,
    ConcretePrimed,
}

impl Group {
    // By the first place, how many variables there are, the slot of the first value and the ending of the names.
    fn at(first: usize, count: usize, slot: u16, ending: Ending) -> Group
        ensures { (result.first ≡ first) × (result.count ≡ count) × (result.slot ≡ slot) × (result.ending ≡ ending) }
    {
        Group {
            first,
            count,
            slot: usize::from(slot),
            ending,
        }
    }

    // The group of a side, of so many variables; `row` is how far its operation's rows are from the first operation's.
    pub fn of(side: Side, row: usize, count: usize) -> Group
        requires { row ≤ 120 }
        ensures { (result.first ≡ first_of side row) × (result.count ≡ count) × (result.slot ≡ slot_of side) × (result.ending ≡ ending_of side) }
    {
        match side {
            Side::Abstract => Group::at(ABSTRACT_FIRST, count, slots::ABSTRACT, Ending::Plain),
            Side::Concrete => Group::at(CONCRETE_FIRST, count, slots::CONCRETE, Ending::Plain),
            Side::Inputs => Group::at(INPUTS_FIRST + row, count, slots::INPUTS, Ending::Query),
            Side::Outputs => Group::at(OUTPUTS_FIRST + row, count, slots::OUTPUTS, Ending::Shriek),
            Side::AbstractPrimed => Group::at(
                ABSTRACT_FIRST,
                count,
                slots::ABSTRACT_PRIMED,
                Ending::Prime,
            ),
            Side::ConcretePrimed => Group::at(
                CONCRETE_FIRST,
                count,
                slots::CONCRETE_PRIMED,
                Ending::Prime,
            ),
        }
    }
}

// The type of the variable at a place of the groups.
fn shape_of(names: &Names<'_>, i: usize) -> Shape
    requires { i < 160 }
    ensures { (result.shape ≡ label_of names.now.labels.now i 1) × (result.sides ≡ label_of names.now.labels.now i 2) × (result.size ≡ label_of names.now.labels.now i 3) }
{
    let first = VARIABLES_FROM + VARIABLE * i;
    Shape {
        shape: names.label(first + 1),
        sides: names.label(first + 2),
        size: names.label(first + 3),
    }
}

// An element's place; 0 of a number below 0.
fn natural_of(x: i64) -> usize
    ensures { (result ≡ natural x) × (result < 2 ^ 63) }
{
    x.max(0) as usize
}

// Element k of the given set g.
fn put_element(names: &Names<'_>, g: u16, k: usize, w: &mut Writer<'_>)
    requires { (k < 2 ^ 63) × (w.old.at + 16 ≤ length w.old.out.now) }
    ensures { Adds (element_piece names.now.text.now names.now.labels.now g k) w.old w.new }
{
    let first = usize::from(ELEMENTS) * usize::from(g);
    w.put_letters(names.text, usize::from(names.label(first + k)));
}

// Pair k of two given sets, the second of which has m elements.
// Form 5: that k is one of 16 bits is asked of a pair and of a member. A type for it is a struct with a ghost field, four lines for the two clauses, and what
// is divided here, and asked of the bits there, would be its field instead of k.
fn put_pair(names: &Names<'_>, sides: u16, m: NonZeroU16, k: usize, w: &mut Writer<'_>)
    requires { (k < 16) × (w.old.at + 37 ≤ length w.old.out.now) }
    ensures { Adds (pair_piece names.now.text.now names.now.labels.now sides (non_zero_u16_get m) k) w.old w.new }
{
    let m = usize::from(m.get());
    put_element(names, sides / ELEMENTS, k / m, w);
    w.put_all(b" |-> ");
    put_element(names, sides % ELEMENTS, k % m, w);
}

// A member of a set: an element or a pair.
fn put_member(names: &Names<'_>, t: Set, k: usize, w: &mut Writer<'_>)
    requires { (k < 16) × (w.old.at + 37 ≤ length w.old.out.now) }
    ensures { Adds (member_piece names.now.text.now names.now.labels.now t.sides (size_of t.size) k) w.old w.new }
{
    match t.size {
        None => put_element(names, t.sides, k, w),
        Some(m) => put_pair(names, t.sides, m, k, w),
    }
}

// The members of a set, lowest bit first, a comma between any two.
fn put_members(names: &Names<'_>, t: Set, w: &mut Writer<'_>)
    requires { w.old.at + 622 ≤ length w.old.out.now }
    ensures { Adds (members_piece (member_piece names.now.text.now names.now.labels.now t.sides (size_of t.size)) t.bits [] 0 16) w.old w.new }
{
    let mut before: &[u8] = b"";
    for k in 0..BITS {
        if has(t.bits, k as u64) {
            w.put_all(before);
            put_member(names, t, k, w);
            before = b", ";
        }
    }
}

// A set in braces.
fn put_set(names: &Names<'_>, t: Set, w: &mut Writer<'_>)
    requires { w.old.at + 624 ≤ length w.old.out.now }
    ensures { Adds (braced (map (member_piece names.now.text.now names.now.labels.now t.sides (size_of t.size)) (members t.bits))) w.old w.new }
{
    w.put(b'{');
    put_members(names, t, w);
    w.put(b'}');
}

// The set that a value of a type of sets is.
fn set_of(t: Shape, x: i64) -> Set
    ensures { (result.sides ≡ t.sides) × (size_of result.size ≡ cond (eqb t.shape 3) 0 t.size) × (result.bits ≡ natural x % 65536) }
{
    Set {
        sides: t.sides,
        size: match t.shape {
            POWER => None,
            _ => NonZeroU16::new(t.size),
        },
        bits: (natural_of(x) % SETS) as u16,
    }
}

// A value of a type.
fn put_value(names: &Names<'_>, t: Shape, x: i64, w: &mut Writer<'_>)
    requires { w.old.at + 624 ≤ length w.old.out.now }
    ensures { Adds (value_piece names.now.text.now names.now.labels.now t.shape t.sides t.size x) w.old w.new }
{
    match t.shape {
        SET => put_element(names, t.sides, natural_of(x), w),
        RANGE => w.put_signed(x),
        _ => put_set(names, set_of(t, x), w),
    }
}

// The byte of an ending, where a name has one.
pub fn byte_of(ending: Ending) -> Option<u8>
    ensures { byte_piece result ≡ ending_bytes (ending_is ending) }
{
    match ending {
        Ending::Plain => None,
        Ending::Prime => Some(b'\''),
        Ending::Query => Some(b'?'),
        Ending::Shriek => Some(b'!'),
    }
}

// The ending of a name.
fn put_ending(ending: Ending, w: &mut Writer<'_>)
    requires { w.old.at < length w.old.out.now }
    ensures { Adds (ending_bytes (ending_is ending)) w.old w.new }
{
    if let Some(b) = byte_of(ending) {
        w.put(b);
    }
}

// A line: name, ending, value.
fn put_line(names: &Names<'_>, i: usize, ending: Ending, x: i64, w: &mut Writer<'_>)
    requires { (i < 160) × (w.old.at + 645 ≤ length w.old.out.now) }
    ensures { Adds (line_piece names.now.text.now names.now.labels.now i (ending_byte (ending_is ending)) x) w.old w.new }
{
    let t = shape_of(names, i);
    w.put_letters(
        names.text,
        usize::from(names.label(VARIABLES_FROM + VARIABLE * i)),
    );
    put_ending(ending, w);
    w.put_all(b" = ");
    put_value(names, t, x, w);
    w.put(b'\n');
}

// The lines of a group.
// Form 3: over the slots by `iter().enumerate()` k would be there all the same; by `(g.first..).zip(&s.slots[g.slot..g.slot + g.count])` it would not, but the slice's two ends would.
pub fn put_group(s: &Shown<'_>, g: Group, w: &mut Writer<'_>)
    requires { (g.first + g.count ≤ 160) × (g.slot + g.count ≤ 64) × (w.old.at + 645 * g.count ≤ length w.old.out.now) }
    ensures lines { Adds (group_piece s.now.names.text.now s.now.names.labels.now g.first g.count g.slot (ending_byte (ending_is g.ending)) s.now.slots.now) w.old w.new }
    ensures short { w.new.at ≤ w.old.at + 645 * g.count }
{
    for k in 0..g.count {
        put_line(&s.names, g.first + k, g.ending, s.slots[g.slot + k], w);
    }
}
