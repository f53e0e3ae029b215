// Names and types: numbers 8, 9, 10, 11 and 14 of document 01, over the nodes of a dossier.
#![tactic(auto)]

ghost use Rattle.std.specs.Prelude.{◌≡◌, length, replicate};
ghost use Rattle.type_rules.specs.Passes.{refused_key};
ghost use Rattle.declared_names.specs.PassPromises.{GivenSeen, CheckSeen};

use crate::passes::{conditions, operations, state, variables_of};
use declared_names::declared::give;
use lexical::{bounds, endings};
use parser::sections::{Bounds, Nodes, States, between};
use refusals::Fault;
use type_rules::entries;
use type_rules::entries::Kind;

mod passes;

// A number for each name, which is a symbol with one of the endings; a number for each given set.
pub const NAMES: usize = bounds::SYMBOLS * endings::COUNT as usize;

pub const SIZES: usize = bounds::GIVEN_SETS as usize;

// The least fault of the pass, with its place by symbols. The nodes are a dossier's, and `at` says where its parts begin.
// `sizes` may hold anything. Left open: the sizes where the given sets have a fault, and those behind the last given set's, since nothing is looked up by
// the number of a given set that there is not.
pub fn least_fault(made: &Nodes<'_>, at: &Bounds, sizes: &mut [u16; SIZES]) -> Result<(), Fault>
    ensures { CheckSeen made.now.numbers.now made.now.end at.now.givens at.now.abstracts at.now.concretes at.now.ainit at.now.operations 16384 sizes.new (refused_key result) }
{
    let mut names = [entries::FREE; NAMES];
    check(made, at, &mut names, sizes)
}

// The same for names with any numbers, in a table that is lent, of any length.
// `names` may hold anything too. What it holds afterwards is left open.
pub fn least_fault_in(
    made: &Nodes<'_>,
    at: &Bounds,
    names: &mut [Kind],
    sizes: &mut [u16; SIZES],
) -> Result<(), Fault>
    ensures { CheckSeen made.now.numbers.now made.now.end at.now.givens at.now.abstracts at.now.concretes at.now.ainit at.now.operations (length names.old) sizes.new (refused_key result) }
{
    names.fill(entries::FREE);
    check(made, at, names, sizes)
}

// The same with a table of names that are all free.
fn check(
    made: &Nodes<'_>,
    at: &Bounds,
    names: &mut [Kind],
    sizes: &mut [u16; SIZES],
) -> Result<(), Fault>
    requires { names.old ≡ replicate (length names.old) 0 }
    ensures { CheckSeen made.now.numbers.now made.now.end at.now.givens at.now.abstracts at.now.concretes at.now.ainit at.now.operations (length names.old) sizes.new (refused_key result) }
{
    let nodes = made.numbers;
    sizes.fill(0);
    let first = between(nodes, at.givens, at.abstracts);
    give(first, names, sizes)?;
    let one = between(nodes, at.abstracts, at.concretes);
    state(one, names, sizes)?;
    let two = between(nodes, at.concretes, at.ainit);
    state(two, names, sizes)?;
    let states = States {
        abstracts: variables_of(one),
        concretes: variables_of(two),
    };
    let three = between(nodes, at.ainit, at.operations);
    let last = between(nodes, at.operations, made.end);
    conditions(three, &states, names, sizes)?;
    operations(last, &states, names, sizes)
}

// The given sets by name, and how many elements each has, from the nodes of their bodies: the first fault of number 8 among them.
// `names` and `sizes` may hold anything. Left open: both where there is a fault, since the passes that take them come behind that for names; and the sizes
// behind the last given set's, since nothing is looked up by the number of a given set that there is not.
pub fn given_sets(code: &[u16], names: &mut [Kind], sizes: &mut [u16; SIZES]) -> Result<(), Fault>
    ensures { GivenSeen code.now (replicate (length names.old) 0) names.new sizes.new (refused_key result) }
{
    names.fill(entries::FREE);
    sizes.fill(0);
    give(code, names, sizes)
}
