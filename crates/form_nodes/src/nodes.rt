// The nodes of a tree, four numbers each (form/specs/Codes.antt).
// Form 5: that a node fits behind the first n numbers is the clause of the writer below. That places are small (`at ≤ 4100`) is one comparison, for the sums
// alone; from `Symbols` it would follow with the clause that the place is inside, which asks more of callers.
// Form 5: what asks no bound on the symbols takes their two lists; `Symbols`, which has one, would ask it of callers.
// Form 6: a writer of `code` and `n` (as `pieces::Writer`) would carry in each contract of the form pass the clause more that it is still of the same array;
// and `Read`, which `?` hands on, has the count as well as the place, since the laws compare the two.
ghost use Rattle.std.specs.Prelude.{◌≡◌, [], ◌∷◌, ◌+◌, ◌≤◌, ◌<◌, length, get_or};
ghost use Rattle.form.specs.Machine.{a_name, an_empty_rest};
ghost use Rattle.form_nodes.specs.FormPromises.{Room, Writes, Reads};
ghost use Rattle.form.specs.Codes.{node};
ghost use Rattle.form_nodes.specs.Derivations.{Made, NameRead, an_operand, name_code, end_code, magnitude_code, division_code, leaf_node, range_node, domain_node};

use crate::kinds::kind_at;
use crate::{Read, Symbols, no_dossier};
use form::{node, shapes};
use lexical::bounds::{LARGEST_NUMBER, SYMBOLS};
use lexical::classes::at_or;
use lexical::codes::is_name;
use lexical::{codes, endings};
use refusals::Fault;

// The last number of a symbol; and of a plain name the code, which its ending is added to.
const LAST_SYMBOL: u16 = SYMBOLS as u16 - 1;

const PLAIN: u16 = codes::PLAIN as u16;

// A node behind the first n numbers.
// Form 4: four stores; by `copy_from_slice` of an array of the four numbers `read` takes 1.05 to 1.10 of the time (the six texts of tests/speed).
pub fn put(code: &mut [u16], n: usize, shape: u16, place: usize, x: u16, y: u16) -> usize
    requires { (n + 4 ≤ length code.old) × (place < 65536) }
    ensures { Writes code.old n (node shape place x y) code.new result }
{
    code[n] = y;
    code[n + node::A] = x;
    code[n + node::PLACE] = place as u16;
    code[n + node::SHAPE] = shape;
    n + node::SIZE
}

impl Read {
    // With a node more behind the numbers that are written; `put` is called where no `Read` has the count, and where nothing goes on behind the node.
    pub fn with_node(self, code: &mut [u16], shape: u16, place: usize, x: u16, y: u16) -> Read
        requires { (self.count + 4 ≤ length code.old) × (place < 65536) }
        ensures { (result.at ≡ self.at) × Writes code.old self.count (node shape place x y) code.new result.count }
    {
        let count = put(code, self.count, shape, place, x, y);
        Read { count, ..self }
    }
}

// The number of a name: of its letters, and its ending.
// Form 1: a node has 0 where no name stands. Ten of the 11 calls are for a place where a name stands and write what they get: with an Option each would turn a
// `None` that does not come into 0; `name_at` alone would make its fault of it.
pub fn name_number(kinds: &[u8], values: &[u16], at: usize) -> u16
    ensures { result ≡ name_code kinds.now values.now at }
{
    let k = kind_at(kinds, at);
    let x = at_or(values, at, 0);
    if LAST_SYMBOL < x || k < codes::PLAIN {
        return 0;
    }
    endings::COUNT * x + (u16::from(k) - PLAIN)
}

impl Symbols<'_> {
    // The number of the name at a place; a fault of the form where none stands.
    pub fn name_at(&self, at: usize) -> Result<u16, Fault>
        ensures { NameRead self.now.kinds.now self.now.values.now at result }
    {
        if !is_name(kind_at(self.kinds, at)) {
            return Err(no_dossier(at));
        }
        Ok(name_number(self.kinds, self.values, at))
    }
}

// An end of a range, plus 1,000.
// Form 1: 0 for a number over 1,000, which no symbol has (`lexical::numbers`): with an Option the three calls would turn a `None` that does not come into 0,
// since a node has a number there.
pub fn signed(kinds: &[u8], values: &[u16], at: usize) -> u16
    requires { at ≤ 4100 }
    ensures { result ≡ end_code kinds.now values.now at }
{
    if kind_at(kinds, at) == codes::DASH {
        return LARGEST_NUMBER.saturating_sub(at_or(values, at + 1, 0));
    }
    let x = at_or(values, at, 0);
    if LARGEST_NUMBER < x {
        return 0;
    }
    LARGEST_NUMBER + x
}

// A divisor's magnitude; the sign, and which of the two divisions it is.
pub fn magnitude(kinds: &[u8], values: &[u16], at: usize) -> u16
    requires { at ≤ 4100 }
    ensures { result ≡ magnitude_code kinds.now values.now at }
{
    if kind_at(kinds, at) == codes::DASH {
        return at_or(values, at + 1, 0);
    }
    at_or(values, at, 0)
}

pub fn division(s: &[u8], at: usize) -> u16
    requires { at ≤ 4100 }
    ensures { result ≡ division_code s.now at }
{
    let remainder = kind_at(s, at) == codes::MOD;
    let negative = kind_at(s, at + 1) == codes::DASH;
    match (remainder, negative) {
        (true, true) => shapes::NEGATIVE_REMAINDER,
        (true, false) => shapes::REMAINDER,
        (false, true) => shapes::NEGATIVE,
        (false, false) => 0,
    }
}

// The node of a number or a name.
pub fn leaf(kinds: &[u8], values: &[u16], at: usize, code: &mut [u16], n: usize) -> usize
    requires { (n + 4 ≤ length code.old) × (at < 65536) }
    ensures { Writes code.old n (leaf_node kinds.now values.now at) code.new result }
{
    if kind_at(kinds, at) == codes::NUMBER {
        let x = at_or(values, at, 0);
        return put(code, n, shapes::NUMBER, at, x, 0);
    }
    let x = name_number(kinds, values, at);
    put(code, n, shapes::NAME, at, x, 0)
}

// The node of a..b.
pub fn put_range(kinds: &[u8], values: &[u16], at: usize, code: &mut [u16], n: usize) -> usize
    requires { (n + 4 ≤ length code.old) × (at ≤ 4096) }
    ensures { Writes code.old n (range_node kinds.now values.now at) code.new result }
{
    let x = signed(kinds, values, at);
    if kind_at(kinds, at) == codes::DASH {
        let upper = signed(kinds, values, at + 3);
        return put(code, n, shapes::RANGE, at + 2, x, upper);
    }
    let upper = signed(kinds, values, at + 2);
    put(code, n, shapes::RANGE, at + 1, x, upper)
}

pub fn put_domain(kinds: &[u8], values: &[u16], at: usize, code: &mut [u16], n: usize) -> usize
    requires { (n + 4 ≤ length code.old) × (at ≤ 4096) }
    ensures { Writes code.old n (domain_node kinds.now values.now at) code.new result }
{
    let k = kind_at(kinds, at);
    if !is_name(k) {
        return put_range(kinds, values, at, code, n);
    }
    let x = name_number(kinds, values, at);
    put(code, n, shapes::SET, at, x, 0)
}

// One name or two behind an `empty`.
pub fn empty(y: &Symbols<'_>, from: Read, code: &mut [u16]) -> Result<Read, Fault>
    requires { Room y.now.kinds.now code.old from.at from.count × (get_or y.now.kinds.now from.at 0 ≡ 47) }
    ensures { Reads y.now.kinds.now (from.at + 1) (from.count + 4) (a_name ∷ an_empty_rest ∷ []) [] result × Made y.now.kinds.now y.now.values.now an_operand from.at from.count code.old code.new result }
{
    let name = from.skip();
    let x = y.name_at(name.at)?;
    let behind = name.skip();
    let Ok(second) = y.name_at(behind.at) else {
        return Ok(behind.with_node(code, shapes::EMPTY_SET, from.at, x, 0));
    };
    let pairs = behind.skip();
    Ok(pairs.with_node(code, shapes::EMPTY_PAIRS, from.at, x, second))
}
