// The bodies of states, of conditions and of operations, and a whole dossier: numbers 4, 5 and 6 of document 01, and their nodes.
// Form 5: `Room`, and that a name stands behind the word `op`, are asked as in declarations/contents, which says why each is a clause.
ghost use Rattle.std.specs.Prelude.{◌≡◌, [], ◌∷◌, ◌++◌, ◌+◌, ◌*◌, ◌≤◌, length, get_or};
ghost use Rattle.lexical.specs.Kinds as kind;
ghost use Rattle.lexical.specs.Kinds.{Kind, code_of};
ghost use Rattle.form.specs.Machine.{some_bodies, some_operations, some_parameters};
ghost use Rattle.form_nodes.specs.FormPromises.{Reads, Room};
ghost use Rattle.form_nodes.specs.Derivations as part;
ghost use Rattle.form_nodes.specs.Derivations.{Made, a_condition, a_state, a_where, some_givens, More};
ghost use Rattle.declarations.specs.DossierPromises.{a_condition_to, a_state_of, a_where_of, Sequenced, two_states, three_conditions, Formed};

use declarations::contents::{contents, declarations, givens, parameters, title};
use expressions::Reach;
use expressions::trees::pred;
use form::{node, shapes};
use form_nodes::kinds::kind_at;
use form_nodes::nodes::{name_number, put};
use form_nodes::ranges::close;
use form_nodes::{Read, Symbols, no_dossier};
use lexical::bounds::OPERATIONS;
use lexical::codes;
use refusals::Fault;

// A predicate and the word behind it. The node that counts its numbers is written last, in front of them.
fn condition(y: &Symbols<'_>, from: Read, word: u8, code: &mut [u16]) -> Result<Read, Fault>
    requires { Room y.now.kinds.now code.old from.at (from.count + 4) }
    ensures { ((κ : Kind) → (code_of κ ≡ word) → Reads y.now.kinds.now from.at from.count (a_condition_to κ) [] result) × Made y.now.kinds.now y.now.values.now (a_condition word) from.at from.count code.old code.new result }
{
    let behind = Read {
        count: from.count + node::SIZE,
        ..from
    };
    let body = pred(y, behind, Reach { depth: 0, names: 0 }, code)?;
    let written = (body.count - behind.count) as u16;
    put(code, from.count, shapes::PREDICATE, from.at, written, 0);
    close(y.kinds, body, word)
}

// A state's body, by its heading.
fn state(y: &Symbols<'_>, from: Read, word: u8, code: &mut [u16]) -> Result<Read, Fault>
    requires { Room y.now.kinds.now code.old from.at from.count }
    ensures { ((κ : Kind) → (code_of κ ≡ word) → Reads y.now.kinds.now from.at from.count (a_state_of κ) [] result) × Made y.now.kinds.now y.now.values.now (a_state word) from.at from.count code.old code.new result }
{
    let heading = close(y.kinds, from, word)?;
    let begun = heading.with_node(code, shapes::STATE, from.at, 0, 0);
    let declared = declarations(y, begun, code)?;
    let wheres = close(y.kinds, declared, codes::WHERE)?;
    condition(y, wheres, codes::END, code)
}

// The body of ainit, cinit or retrieve, by its heading.
fn where_of(y: &Symbols<'_>, from: Read, word: u8, code: &mut [u16]) -> Result<Read, Fault>
    requires { Room y.now.kinds.now code.old from.at from.count }
    ensures { ((κ : Kind) → (code_of κ ≡ word) → Reads y.now.kinds.now from.at from.count (a_where_of κ) [] result) × Made y.now.kinds.now y.now.values.now (a_where word) from.at from.count code.old code.new result }
{
    let heading = close(y.kinds, from, word)?;
    let wheres = close(y.kinds, heading, codes::WHERE)?;
    condition(y, wheres, codes::END, code)
}

// The body of an operation behind its name.
fn operation(y: &Symbols<'_>, from: Read, code: &mut [u16]) -> Result<Read, Fault>
    requires { Room y.now.kinds.now code.old from.at from.count × (get_or y.now.kinds.now from.at 0 ≡ 43) × (get_or y.now.kinds.now (from.at + 1) 0 ≡ 2) }
    ensures { Reads y.now.kinds.now (from.at + 1 + 1) (from.count + 4) (some_parameters 0 0 ∷ a_condition_to kind.CONCRETE ++ a_condition_to kind.END) ([]) result × More y.now.kinds.now y.now.values.now part.some_operations from.at from.count code.old code.new result }
{
    let name = from.skip();
    let x = name_number(y.kinds, y.values, name.at);
    let titled = name
        .skip()
        .with_node(code, shapes::OPERATION, from.at, x, 0);
    let taken = parameters(y, titled, code)?;
    let word = close(y.kinds, taken, codes::ABSTRACT)?;
    let abstractly = condition(y, word, codes::CONCRETE, code)?;
    condition(y, abstractly, codes::END, code)
}

// The bodies of operations.
// Form 2: `givens` of declarations walks alike, and says there why each has its own walk.
// Form 3: where the next body stands, says the one that is read.
fn operations(y: &Symbols<'_>, from: Read, code: &mut [u16]) -> Result<Read, Fault>
    requires { Room y.now.kinds.now code.old from.at from.count }
    ensures { Reads y.now.kinds.now from.at from.count (some_operations 0 ∷ []) ([]) result × Made y.now.kinds.now y.now.values.now part.some_operations from.at from.count code.old code.new result }
{
    let mut read = from;
    let mut k: u8 = 0;
    while kind_at(y.kinds, read.at) == codes::OP {
        title(y.kinds, read.at + 1, k, OPERATIONS)?;
        read = operation(y, read, code)?;
        k += 1;
    }
    Ok(read)
}

// The two states.
fn states(y: &Symbols<'_>, from: Read, code: &mut [u16]) -> Result<Read, Fault>
    requires { Room y.now.kinds.now code.old from.at from.count }
    ensures { Reads y.now.kinds.now from.at from.count two_states [] result × Sequenced y.now.kinds.now y.now.values.now (a_state 38 ∷ a_state 39 ∷ []) from.at from.count code.old code.new result }
{
    let first = state(y, from, codes::ABSTRACT, code)?;
    state(y, first, codes::CONCRETE, code)
}

// ainit, cinit and retrieve.
fn conditions(y: &Symbols<'_>, from: Read, code: &mut [u16]) -> Result<Read, Fault>
    requires { Room y.now.kinds.now code.old from.at from.count }
    ensures { Reads y.now.kinds.now from.at from.count three_conditions [] result × Sequenced y.now.kinds.now y.now.values.now (a_where 40 ∷ a_where 41 ∷ a_where 42 ∷ []) from.at from.count code.old code.new result }
{
    let ainit = where_of(y, from, codes::AINIT, code)?;
    let cinit = where_of(y, ainit, codes::CINIT, code)?;
    where_of(y, cinit, codes::RETRIEVE, code)
}

// All bodies.
fn bodies(y: &Symbols<'_>, from: Read, code: &mut [u16]) -> Result<Read, Fault>
    requires { Room y.now.kinds.now code.old from.at from.count }
    ensures { Reads y.now.kinds.now from.at from.count (some_bodies 0 ∷ []) ([]) result × Sequenced y.now.kinds.now y.now.values.now (some_givens ∷ a_state 38 ∷ a_state 39 ∷ a_where 40 ∷ a_where 41 ∷ a_where 42 ∷ part.some_operations ∷ []) from.at from.count code.old code.new result }
{
    let sets = givens(y, from, code)?;
    let both = states(y, sets, code)?;
    let three = conditions(y, both, code)?;
    operations(y, three, code)
}

pub(crate) fn dossier(y: &Symbols<'_>, code: &mut [u16]) -> Result<Read, Fault>
    requires { 4 * length y.now.kinds.now ≤ length code.old }
    ensures { Formed y.now.kinds.now y.now.values.now code.old code.new result }
{
    let listed = contents(y, code)?;
    let read = bodies(y, listed, code)?;
    if read.at < y.kinds.len() {
        return Err(no_dossier(read.at));
    }
    Ok(read)
}
