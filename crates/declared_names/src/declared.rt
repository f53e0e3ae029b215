// Declarations: names that come into use with their types, and names in reach of a predicate.
ghost use Rattle.std.specs.Prelude.{◌≤◌, length};
ghost use Rattle.type_rules.specs.Passes.{refused_key};
ghost use Rattle.type_rules.specs.TypesByNumber.{fault_key};
ghost use Rattle.declared_names.specs.PassPromises.{TypeKinded, TypeFaulted, DeclarationFaulted, Reached, DeclaredSeen, ShownSeen, HiddenSeen, Counted, GivenFaulted, GivenKind, SizeCounted, GivenSeen};

use form::name_endings::PLAIN;
use form::{node, shapes};
use lexical::bounds;
use refusals::{Fault, Refusal};
use type_rules::entries;
use type_rules::entries::Kind;
use type_rules::kinds::{all_well, entry, lesser_of, look, pairs_fault, put, range_fits, unless};

// What a name of a declared type is, by the nodes from the type's on.
// Form 5: that there are four numbers or more is asked here, by `type_fault`, by `size_at` of limits and by `set_type` of table_places. The type of an array asks for just four, which is more of callers,
// and where `&d[node::SIZE..]` stands, `&d.as_chunks::<{ node::SIZE }>().0[1]` would.
pub fn type_kind(t: &[u16], names: &[Kind]) -> Kind
    requires { 4 ≤ length t.now }
    ensures { TypeKinded t.now 0 names.now result }
{
    let g = entry(names, usize::from(t[node::A])).element_of();
    match t[node::SHAPE] {
        shapes::SET => g,
        shapes::RANGE => entries::NUMBER,
        shapes::POWER => g.set_of(),
        _ => g.pair_with(entry(names, usize::from(t[0])).element_of()),
    }
}

// The first fault of a declared type.
pub fn type_fault(t: &[u16], names: &[Kind], sizes: &[u16]) -> Option<Fault>
    requires { 4 ≤ length t.now }
    ensures { TypeFaulted t.now 0 names.now sizes.now (fault_key result) }
{
    let a = t[node::A];
    let b = t[0];
    let i = usize::from(t[node::PLACE]);
    let g = entry(names, usize::from(a));
    match t[node::SHAPE] {
        shapes::SET => unless(g.is_given(), i, Refusal::NameUnknown),
        shapes::RANGE => unless(range_fits(a, b), i, Refusal::WideType),
        shapes::POWER => unless(g.is_given(), i + 1, Refusal::NameUnknown),
        // the arrow stands between the two names
        _ => pairs_fault(sizes, g, entry(names, usize::from(b)), i, i + 2, i + 1),
    }
}

// Declarations, each of which brings its name into reach: the first fault.
pub fn declare(code: &[u16], names: &mut [Kind], sizes: &[u16]) -> Result<(), Fault>
    ensures { DeclaredSeen code.now names.old names.new sizes.now (refused_key result) }
{
    for d in code.as_chunks::<{ node::DECLARATION }>().0 {
        all_well(declaration_fault(d, names, sizes))?;
        reach(d, PLAIN, names);
    }
    Ok(())
}

// The first fault of a declaration, by its nodes.
fn declaration_fault(d: &[u16; node::DECLARATION], names: &[Kind], sizes: &[u16]) -> Option<Fault>
    ensures { DeclarationFaulted d.now 0 names.now sizes.now (fault_key result) }
{
    let old = entry(names, usize::from(d[node::A]));
    let here = unless(
        old.is_free(),
        usize::from(d[node::PLACE]),
        Refusal::NameInUse,
    );
    let of_type = type_fault(&d[node::SIZE..], names, sizes);
    lesser_of(here, of_type)
}

// A declared name comes into reach, with `shift` added to its number.
fn reach(d: &[u16; node::DECLARATION], shift: u16, names: &mut [Kind])
    ensures { Reached d.now 0 shift names.old names.new }
{
    let k = type_kind(&d[node::SIZE..], names);
    put(names, usize::from(d[node::A]) + usize::from(shift), k);
}

// Declared names come into reach.
pub fn show(code: &[u16], shift: u16, names: &mut [Kind])
    ensures { ShownSeen code.now shift names.old names.new }
{
    for d in code.as_chunks::<{ node::DECLARATION }>().0 {
        reach(d, shift, names);
    }
}

// Declared names become k.
pub fn hide(code: &[u16], shift: u16, k: Kind, names: &mut [Kind])
    ensures { HiddenSeen code.now shift k names.old names.new }
{
    for d in code.as_chunks::<{ node::DECLARATION }>().0 {
        put(names, usize::from(d[node::A]) + usize::from(shift), k);
    }
}

// The given sets, and how many elements each has: the first fault.
pub fn give(code: &[u16], names: &mut [Kind], sizes: &mut [u16]) -> Result<(), Fault>
    requires { 8 ≤ length sizes.old }
    ensures { GivenSeen code.now names.old names.new sizes.new (refused_key result) }
{
    let mut g: u8 = 0;
    for n in code.as_chunks::<{ node::SIZE }>().0 {
        all_well(given_fault(n, names))?;
        g = counted(n, g);
        let k = given_kind(n, g);
        put(names, usize::from(n[node::A]), k);
        count_given(n, g, sizes);
    }
    Ok(())
}

// How many given sets have begun behind a node.
fn counted(n: &[u16; node::SIZE], g: u8) -> u8
    ensures { Counted n.now 0 g result }
{
    if n[node::SHAPE] != shapes::GIVEN {
        return g;
    }
    g.saturating_add(1).min(bounds::GIVEN_SETS)
}

// A title stands behind its heading, an element at its own place.
fn given_fault(n: &[u16; node::SIZE], names: &[Kind]) -> Option<Fault>
    ensures { GivenFaulted n.now 0 names.now (fault_key result) }
{
    let old = entry(names, usize::from(n[node::A]));
    let i = usize::from(n[node::PLACE]);
    if n[node::SHAPE] == shapes::GIVEN {
        return unless(old.is_free(), i + 1, Refusal::NameInUse);
    }
    unless(old.is_free(), i, Refusal::NameInUse)
}

// What the title of the given set g is, counted from 1, or one of its elements.
fn given_kind(n: &[u16; node::SIZE], g: u8) -> Kind
    ensures { GivenKind n.now 0 g result }
{
    if n[node::SHAPE] == shapes::GIVEN {
        return entries::given_set(g);
    }
    entries::element_of_set(g)
}

// The given set g, counted from 1, has one more element, or begins.
fn count_given(n: &[u16; node::SIZE], g: u8, sizes: &mut [u16])
    ensures { SizeCounted n.now 0 g sizes.old sizes.new }
{
    let Some(x) = usize::from(g).checked_sub(1) else {
        return;
    };
    if n[node::SHAPE] == shapes::GIVEN {
        put(sizes, x, 0);
        return;
    }
    let m = look(sizes, x);
    if m < u16::from(bounds::ELEMENTS) {
        put(sizes, x, m + 1);
    }
}
