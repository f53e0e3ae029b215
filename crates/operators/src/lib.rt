// What operators do to values: a number is itself, an element its place, a set its bits. An operator is told by its symbol's code:
// the table that the caller lends has it as a number.
// Form 7: the bools are the truth values that connectives and questions are over; none of them says which step to run.
#![tactic(auto)]

ghost use Rattle.std.specs.Prelude.{◌≡◌, Bool, true, false, ◌<◌, pos, nat_abs};
ghost use Rattle.sets.specs.Sets as sets;
ghost use Rattle.evaluation.specs.MeaningValues.{natural};
ghost use Rattle.evaluation.specs.OperatorsByNumber.{Small, IsPlace, IsBits, PrefixTakes, OperatorTakes};
ghost use Rattle.evaluation.specs.OperatorsByNumber as numbered;

use form::operator_codes::{
    AND, DASH, DIFFERS, DOM, EQUALS, IMPLIES, LESS, MINUS, OR, PLUS, SIZE, TIMES, UNION,
};
use form::shapes;

// A set's bits, of a value that is one.
fn bits(x: i64) -> u16
    requires { IsBits x }
    ensures { result ≡ natural x }
{
    x as u16
}

// A prefix at a value; the sides of a set of pairs have n and m elements.
pub fn prefixed(code: u16, n: u16, m: u16, x: i64) -> i64
    requires { PrefixTakes code x }
    ensures { result ≡ numbered.prefixed code n m x }
{
    match code {
        DASH => -x,
        SIZE => i64::from(sets::size(bits(x))),
        DOM => i64::from(sets::dom(u32::from(n), u32::from(m), bits(x))),
        _ => i64::from(sets::ran(u32::from(n), u32::from(m), bits(x))),
    }
}

// The divisor by its magnitude and whether a - stands before it: `how` is NEGATIVE for a -, and REMAINDER more for mod.
fn divisor(magnitude: u16, how: u16) -> i32
    ensures { result ≡ numbered.divisor magnitude how }
{
    if how % shapes::REMAINDER == shapes::NEGATIVE {
        return -i32::from(magnitude);
    }
    i32::from(magnitude)
}

// div and mod.
pub fn divided(magnitude: u16, how: u16, x: i64) -> i64
    requires { Small x }
    ensures { result ≡ numbered.divided magnitude how x }
{
    if how < shapes::REMAINDER {
        return sets::floor_div(x as i32, divisor(magnitude, how));
    }
    sets::floor_mod(x as i32, divisor(magnitude, how))
}

pub fn operated(code: u16, x: i64, y: i64) -> i64
    requires { OperatorTakes code x y }
    ensures { result ≡ numbered.operated code x y }
{
    match code {
        PLUS => x + y,
        DASH => x - y,
        TIMES => x * y,
        UNION => i64::from(sets::union(bits(x), bits(y))),
        MINUS => i64::from(sets::without(bits(x), bits(y))),
        _ => i64::from(sets::inter(bits(x), bits(y))),
    }
}

// The set of the element at place x, or of the pair at the bit x, alone.
pub fn single(x: i64) -> i64
    requires { IsPlace x }
    ensures { result ≡ pos (sets.single (natural x)) }
{
    i64::from(sets::single(x as u32))
}

// The bit of the pair (x, y), where the second side has m elements.
pub fn pair(m: u16, x: i64, y: i64) -> i64
    requires { IsPlace x × IsPlace y }
    ensures { result ≡ pos (sets.pair m (natural x) (natural y)) }
{
    x * i64::from(m) + y
}

// One set with another.
pub fn joined(s: i64, t: i64) -> i64
    requires { IsBits s × IsBits t }
    ensures { result ≡ pos (sets.union (natural s) (natural t)) }
{
    i64::from(sets::union(bits(s), bits(t)))
}

// Is the element at place k, or the pair at the bit k, in the set s?
pub fn has(s: i64, k: i64) -> bool
    requires { IsBits s × IsPlace k }
    ensures { result ≡ sets.has (natural s) (natural k) }
{
    sets::has(bits(s), k as u64)
}

// Is x one of the n numbers from low on?
pub fn in_range(low: i64, n: u16, x: i64) -> bool
    requires { nat_abs low < 131072 }
    ensures { result ≡ numbered.in_range low n x }
{
    (low..low + i64::from(n)).contains(&x)
}

pub fn compared(code: u16, x: i64, y: i64) -> bool
    ensures { result ≡ numbered.compared code x y }
{
    match code {
        EQUALS => x == y,
        DIFFERS => x != y,
        LESS => x < y,
        _ => x <= y,
    }
}

// Does the left part of a connective settle it? `and` is settled by false, `or` by true, `=>` by false.
pub fn settles(code: u16, p: bool) -> bool
    ensures { result ≡ true → (q : Bool) → numbered.connected code p q ≡ numbered.connected code p false }
{
    match code {
        AND | IMPLIES => !p,
        OR => p,
        _ => false,
    }
}

pub fn connected(code: u16, p: bool, q: bool) -> bool
    ensures { result ≡ numbered.connected code p q }
{
    match code {
        AND => p && q,
        OR => p || q,
        IMPLIES => !p || q,
        _ => asked(p, q),
    }
}

// The question itself, or its opposite.
// Form 4: `==` under the name that the definitions give it; every promise about a question is of `numbered.asked`.
pub fn asked(yes: bool, b: bool) -> bool
    ensures { result ≡ numbered.asked yes b }
{
    yes == b
}
