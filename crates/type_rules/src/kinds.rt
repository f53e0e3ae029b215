// Which types fit, and the faults where they do not (specs/TypesByNumber.antt).
ghost use Rattle.std.specs.Prelude.{◌≡◌, ◌+◌, ◌≤◌, ◌<◌, length, get_or, set};
ghost use Rattle.refusals.specs.Refusals.{number_of};
ghost use Rattle.refusals.specs.RefusalNames.{refusal_is};
ghost use Rattle.type_rules.specs.Passes.{refused_key};
ghost use Rattle.type_rules.specs.TypesByNumber.{entry, member_fits, related_fits, shared, key, fault_key, unless_key, lesser, is_given, judged_key, inside_key, is_free, range_fits, size_in, product_fits, over_key, brace_key, NodeAt};

use crate::entries::Kind;
use crate::faults::LeastFault;
use crate::{Node, entries};
use form::node;
use lexical::bounds;
use lexical::classes::at_or;
use refusals::{Fault, Refusal};

// What the name x is; behind the end of the table it is free.
pub fn entry(names: &[Kind], x: usize) -> Kind
    ensures { result ≡ entry names.now x }
{
    at_or(names, x, entries::FREE)
}

// The number at a place.
// Form 1: behind the end it is 0, as FREE is what `entry` answers there; with an Option each of the 16 calls would add `.unwrap_or(0)`.
// Form 2: `at_or` with 0: the 0, which says nothing at any of these calls, stands here once.
pub fn look(numbers: &[u16], x: usize) -> u16
    ensures { result ≡ get_or numbers.now x 0 }
{
    at_or(numbers, x, 0)
}

// The entry x becomes k; behind the end of the table nothing does.
// Form 4: tried by `get_mut`: what the library promises of it says nothing of what the slice ends as, so that `ensures` does not close.
pub fn put<T: Copy>(table: &mut [T], x: usize, k: T)
    ensures { table.new ≡ set table.old x k }
{
    if x < table.len() {
        table[x] = k;
    }
}

pub fn member_fits(k: Kind, l: Kind) -> bool
    ensures { result ≡ member_fits k l }
{
    k.is_element() && k.set_of() == l
}

pub fn related_fits(k: Kind, l: Kind, m: Kind) -> bool
    ensures { result ≡ related_fits k l m }
{
    k.is_element() && l.is_element() && k.pair_with(l) == m
}

// What two items of a brace have in common.
pub fn shared_kind(k: Kind, l: Kind) -> Kind
    ensures { result ≡ shared k l }
{
    if k == l {
        return k;
    }
    entries::NONE
}

// The fault at a place, unless all is well.
// Form 7: `ok` is what a rule says; without this function each of its 13 calls would say `(!..).then_some(Fault { .. })` itself.
pub fn unless(ok: bool, place: usize, refusal: Refusal) -> Option<Fault>
    ensures { fault_key result ≡ unless_key ok (key place (number_of (refusal_is refusal))) }
{
    (!ok).then_some(Fault { place, refusal })
}

// The lesser of two faults.
pub fn lesser_of(a: Option<Fault>, b: Option<Fault>) -> Option<Fault>
    ensures { fault_key result ≡ lesser (fault_key a) (fault_key b) }
{
    match (a, b) {
        (Some(f), Some(g)) => Some(f.min(g)),
        _ => a.or(b),
    }
}

// What a pass answers, which ends at a fault.
pub fn all_well(fault: Option<Fault>) -> Result<(), Fault>
    ensures { refused_key result ≡ fault_key fault }
{
    fault.map_or(Ok(()), Err)
}

// A whole at the place i with the fault `parts` in its parts, of any places.
// Form 2: `judge_least` is the same of faults whose keys have 32 bits; the walks over nodes take that one, since it is faster there.
// Form 7: as `judge_least`.
pub fn judge(fits: bool, i: u16, refusal: Refusal, parts: Option<Fault>) -> Option<Fault>
    ensures { fault_key result ≡ judged_key fits (key i (number_of (refusal_is refusal))) (fault_key parts) }
{
    parts.or(unless(fits, usize::from(i), refusal))
}

// The same of least faults.
// Form 7: as a closure, `fits` would be written `|| ..` at each of the seven calls, and the promise here would want a type parameter, and a clause that it may be run.
pub fn judge_least(fits: bool, i: u16, refusal: Refusal, parts: LeastFault) -> LeastFault
    ensures { fault_key result ≡ judged_key fits (key i (number_of (refusal_is refusal))) (fault_key parts) }
{
    parts.or(LeastFault::unless(fits, u32::from(i), refusal))
}

// The fault of a bound name, where it stands behind the symbol i: `old` is what it was, `over` the fault of what it is bound over, `body` that of its reach.
// Form 2: as `judge`.
pub fn bound_fault(i: u16, old: Kind, over: Option<Fault>, body: Option<Fault>) -> Option<Fault>
    ensures { fault_key result ≡ inside_key (lesser (unless_key (is_free old) (key (i + 1) 8)) (fault_key over)) (fault_key body) }
{
    let here = unless(old.is_free(), usize::from(i) + 1, Refusal::NameInUse);
    lesser_of(here, over).or(body)
}

// The same of least faults.
pub fn bound_least_fault(i: u16, old: Kind, over: LeastFault, body: LeastFault) -> LeastFault
    ensures { fault_key result ≡ inside_key (lesser (unless_key (is_free old) (key (i + 1) 8)) (fault_key over)) (fault_key body) }
{
    let here = LeastFault::unless(old.is_free(), u32::from(i) + 1, Refusal::NameInUse);
    here.lesser(over).or(body)
}

pub fn range_fits(a: u16, b: u16) -> bool
    ensures { result ≡ range_fits a b }
{
    let first = u32::from(a);
    (first..first + bounds::RANGE_NUMBERS).contains(&u32::from(b))
}

// How many elements the given set g has.
pub fn size_in(sizes: &[u16], g: usize) -> u32
    ensures { (result ≡ size_in sizes.now g) × (result < 65536) }
{
    u32::from(look(sizes, g))
}

pub fn product_fits(sizes: &[u16], g: usize, h: usize) -> bool
    ensures { result ≡ product_fits sizes.now g h }
{
    let a = size_in(sizes, g);
    let b = size_in(sizes, h);
    a * b <= bounds::PAIRS
}

// The fault at the place i of pairs over two names, by what these are.
pub fn over_fault(sizes: &[u16], k: Kind, l: Kind, i: usize) -> Option<Fault>
    ensures { fault_key result ≡ over_key sizes.now k l i }
{
    match (k.given(), l.given()) {
        (Some(g), Some(h)) => {
            let fits = product_fits(sizes, usize::from(g), usize::from(h));
            unless(fits, i, Refusal::WideType)
        }
        _ => None,
    }
}

// The first fault of pairs over two names, each at a place of its own, by what these are.
pub fn pairs_fault(
    sizes: &[u16],
    g: Kind,
    h: Kind,
    first: usize,
    second: usize,
    pairs: usize,
) -> Option<Fault>
    ensures { fault_key result ≡ lesser (unless_key (is_given g) (key first 9)) (lesser (unless_key (is_given h) (key second 9)) (over_key sizes.now g h pairs)) }
{
    let one = unless(g.is_given(), first, Refusal::NameUnknown);
    let two = unless(h.is_given(), second, Refusal::NameUnknown);
    lesser_of(one, lesser_of(two, over_fault(sizes, g, h, pairs)))
}

// The fault of a brace of pairs of the type k, whose parts have none.
pub fn brace_fault(sizes: &[u16], k: Kind, i: u16) -> Option<Fault>
    ensures { fault_key result ≡ brace_key sizes.now k i }
{
    match k.pairs() {
        Some((g, h)) => {
            let fits = product_fits(sizes, usize::from(g), usize::from(h));
            unless(fits, usize::from(i), Refusal::WideType)
        }
        None => Some(Fault {
            place: usize::from(i),
            refusal: Refusal::TypesMisfit,
        }),
    }
}

// The place of the last of some nodes, and its two numbers.
pub fn last_node(code: &[u16]) -> Node
    requires { 4 ≤ length code.now }
    ensures { NodeAt code.now (length code.now) result }
{
    let at = code.len() - node::SIZE;
    Node {
        place: code[at + node::PLACE],
        a: code[at + node::A],
        b: code[at],
    }
}
