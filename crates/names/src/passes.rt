// The parts of a dossier, in the order of the text: the first fault is the least.
// Form 5: names are written and sizes are read: a struct of both would be lent to be written to each of the seven functions here that take them, and each would
// promise besides that the sizes stay.
ghost use Rattle.std.specs.Prelude.{◌≤◌, length};
ghost use Rattle.type_rules.specs.Passes.{refused_key};
ghost use Rattle.declared_names.specs.PassPromises.{DeclaredEnd, PredicateEnd, OperationEnd, ConditionSeen, StateSeen, SideSeen, SidesSeen, OperationSeen, OperationsSeen, ConditionsSeen, VariablesOf};

use declared_names::declared::{declare, hide, show};
use form::name_endings::{PLAIN, PRIMED};
use form::{node, shapes};
use parser::sections::{Nodes, States};
use refusals::{Fault, Refusal};
use type_rules::entries;
use type_rules::entries::Kind;
use type_rules::kinds::{all_well, entry, put, unless};
use typing::types::pred;

// How many numbers declarations have at the beginning of some nodes.
fn declared_end(code: &[u16]) -> usize
    ensures { DeclaredEnd code.now result }
{
    let nodes = Nodes {
        numbers: code,
        end: code.len(),
    };
    nodes.run(0, shapes::DECLARED, shapes::DECLARED)
}

// How many numbers a predicate has at the beginning of some nodes.
fn predicate_end(code: &[u16]) -> usize
    ensures { PredicateEnd code.now result }
{
    let nodes = Nodes {
        numbers: code,
        end: code.len(),
    };
    nodes.skip(0)
}

// A predicate with its node in front.
fn condition(code: &[u16], names: &mut [Kind], sizes: &[u16]) -> Result<(), Fault>
    ensures { ConditionSeen code.now names.old names.new sizes.now (refused_key result) }
{
    all_well(pred(code, names, sizes).fault.get())
}

// A state, from its heading on: its variables are in use behind it.
pub(crate) fn state(code: &[u16], names: &mut [Kind], sizes: &[u16]) -> Result<(), Fault>
    ensures { StateSeen code.now names.old names.new sizes.now (refused_key result) }
{
    let Some(rest) = code.get(node::SIZE..) else {
        return Ok(());
    };
    let (variables, predicate) = rest.split_at(declared_end(rest));
    declare(variables, names, sizes)?;
    let g = condition(predicate, names, sizes);
    hide(variables, PLAIN, entries::USED, names);
    g
}

// A predicate of an operation, with the variables of its state in reach, plain and primed; behind it their plain names are in use.
// Form 2: `set_side` of tables makes the same four calls around another pass; one function for both would take that pass as a closure, which there would write
// places and table, and what a closure has written is known to no law once it is gone (as at `states::all_hold`).
fn side(code: &[u16], variables: &[u16], names: &mut [Kind], sizes: &[u16]) -> Result<(), Fault>
    ensures { SideSeen code.now variables.now names.old names.new sizes.now (refused_key result) }
{
    show(variables, PLAIN, names);
    show(variables, PRIMED, names);
    let f = condition(code, names, sizes);
    hide(variables, PLAIN, entries::USED, names);
    hide(variables, PRIMED, entries::FREE, names);
    f
}

// The two predicates of an operation.
fn sides(code: &[u16], states: &States<'_>, names: &mut [Kind], sizes: &[u16]) -> Result<(), Fault>
    ensures { SidesSeen code.now states.now.abstracts.now states.now.concretes.now names.old names.new sizes.now (refused_key result) }
{
    let (first, second) = code.split_at(predicate_end(code));
    side(first, states.abstracts, names, sizes)?;
    side(second, states.concretes, names, sizes)
}

// An operation, from its heading on, with the variables of both states.
fn operation(
    code: &[u16],
    states: &States<'_>,
    names: &mut [Kind],
    sizes: &[u16],
) -> Result<(), Fault>
    ensures { OperationSeen code.now states.now.abstracts.now states.now.concretes.now names.old names.new sizes.now (refused_key result) }
{
    let Some(rest) = code.get(node::SIZE..) else {
        return Ok(());
    };
    let x = usize::from(code[node::A]);
    let old = entry(names, x);
    let titled = unless(
        old.is_free(),
        usize::from(code[node::PLACE]) + 1,
        Refusal::NameInUse,
    );
    all_well(titled)?;
    put(names, x, entries::USED);
    let (parameters, predicates) = rest.split_at(declared_end(rest));
    declare(parameters, names, sizes)?;
    let h = sides(predicates, states, names, sizes);
    hide(parameters, PLAIN, entries::FREE, names);
    h
}

// How many numbers an operation has at the beginning of some nodes.
fn operation_end(code: &[u16]) -> usize
    requires { 4 ≤ length code.now }
    ensures { OperationEnd code.now result }
{
    let e = node::SIZE + declared_end(&code[node::SIZE..]);
    let p = e + predicate_end(&code[e..]);
    p + predicate_end(&code[p..])
}

// Form 3: how long an operation is, `operation_end` answers; an iterator of them would be a type with laws of its own for this one walk.
pub(crate) fn operations(
    code: &[u16],
    states: &States<'_>,
    names: &mut [Kind],
    sizes: &[u16],
) -> Result<(), Fault>
    ensures { OperationsSeen code.now states.now.abstracts.now states.now.concretes.now names.old sizes.now (refused_key result) }
{
    let mut rest = code;
    while node::SIZE <= rest.len() {
        let (one, behind) = rest.split_at(operation_end(rest));
        operation(one, states, names, sizes)?;
        rest = behind;
    }
    Ok(())
}

// ainit, cinit, retrieve.
// Form 2: `set_conditions` of tables makes the same six calls of `show` and `hide` around another pass; one function for both would take that pass as a closure, as at `side`.
pub(crate) fn conditions(
    code: &[u16],
    states: &States<'_>,
    names: &mut [Kind],
    sizes: &[u16],
) -> Result<(), Fault>
    ensures { ConditionsSeen code.now states.now.abstracts.now states.now.concretes.now names.old names.new sizes.now (refused_key result) }
{
    let (ainit, behind) = code.split_at(predicate_end(code));
    let (cinit, retrieve) = behind.split_at(predicate_end(behind));
    show(states.abstracts, PLAIN, names);
    condition(ainit, names, sizes)?;
    hide(states.abstracts, PLAIN, entries::USED, names);
    show(states.concretes, PLAIN, names);
    condition(cinit, names, sizes)?;
    show(states.abstracts, PLAIN, names);
    let h = condition(retrieve, names, sizes);
    hide(states.abstracts, PLAIN, entries::USED, names);
    hide(states.concretes, PLAIN, entries::USED, names);
    h
}

// The nodes of the variables of a state.
pub(crate) fn variables_of(code: &[u16]) -> &[u16]
    ensures { VariablesOf code.now result.now }
{
    let Some(rest) = code.get(node::SIZE..) else {
        return code;
    };
    let e = declared_end(rest);
    &rest[..e]
}
