// The contents of a dossier, given sets and declarations: numbers 4 and 6 of document 01, and their nodes.
// Form 5: a value of the symbols, the lent nodes and what is read, with `Room` as its invariant, would be changed by each function: one that refuses
// would have to show the invariant of what it leaves half read, and a promise would name its fields before and after for what was read and the answer.
// Form 5: that a name stands behind the word (`given`; `operation` of parser, `such` of expressions) the caller has tested, here by `title`. A type of places
// with a name behind them would hold the symbols too, a field and a lifetime more, and say nothing of the word in front, which is another in each of the three.
ghost use Rattle.std.specs.Prelude.{◌≡◌, [], ◌∷◌, ◌++◌, ◌+◌, ◌*◌, ◌≤◌, length, get_or};
ghost use Rattle.lexical.specs.Kinds as kind;
ghost use Rattle.form.specs.Written.{an_element, a_variable};
ghost use Rattle.form.specs.Machine.{exact, a_declared, a_type, a_type_rest, a_dossier, some_bodies, some_elements, some_declarations, some_operations, some_parameters};
ghost use Rattle.form_nodes.specs.FormPromises.{Reads, Room, Shown};
ghost use Rattle.form_nodes.specs.Derivations as part;
ghost use Rattle.form_nodes.specs.Derivations.{Made, NameAt, a_declaration, some_givens, More};
ghost use Rattle.declarations.specs.DossierPromises.{EntriesRead, Few, Titled, five_words, WordsAt, ContentsMade, When, two_states, three_conditions, Arrows, Directs, a_typed, counted_by, more_by};

use form::shapes;
use form_nodes::kinds::kind_at;
use form_nodes::nodes::{name_number, put_range};
use form_nodes::ranges::{close, range};
use form_nodes::{Read, Symbols, no_dossier};
use lexical::codes::is_name;
use lexical::{bounds, codes};
use refusals::{Fault, Refusal};

// Is one more than k read ones within the limit?
fn few(place: usize, k: u8, limit: u8) -> Result<(), Fault>
    ensures { Few place k limit result }
{
    if limit <= k {
        return Err(Fault {
            place,
            refusal: Refusal::ManyDeclared,
        });
    }
    Ok(())
}

// A name that is declared here, behind k others of its kind.
pub fn title(s: &[u8], at: usize, k: u8, limit: u8) -> Result<(), Fault>
    ensures { Titled s.now at k limit result }
{
    if kind_at(s, at) != codes::PLAIN {
        return Err(no_dossier(at));
    }
    few(at, k, limit)
}

// `word NAME` again and again, at most as many as the limit; a node of the shape for each.
// Form 3: an entry is two symbols, and the place of a wrong one or of one too many is a fault of the form. Over `chunks(2)` and `take_while` the place is
// `from.at + 2 * k`, after a walk of its own, and the rest is as at `elements`: no shorter.
fn entries(
    y: &Symbols<'_>,
    from: Read,
    word: u8,
    shape: u16,
    limit: u8,
    code: &mut [u16],
) -> Result<Read, Fault>
    requires { Room y.now.kinds.now code.old from.at from.count × (1 ≤ word) }
    ensures { EntriesRead y.now.kinds.now from.at from.count word limit result × Made y.now.kinds.now y.now.values.now (part.some_entries word shape) from.at from.count code.old code.new result }
{
    let mut read = from;
    let mut k: u8 = 0;
    while kind_at(y.kinds, read.at) == word {
        let name = read.skip();
        title(y.kinds, name.at, k, limit)?;
        let x = name_number(y.kinds, y.values, name.at);
        read = name.skip().with_node(code, shape, name.at, x, 0);
        k += 1;
    }
    Ok(read)
}

// The five words between the entries.
fn words(s: &[u8], from: Read) -> Result<Read, Fault>
    requires { from.at ≤ length s.now }
    ensures { Reads s.now from.at from.count five_words [] result × Shown (WordsAt s.now from.at) from.count result }
{
    let abstracts = close(s, from, codes::ABSTRACT)?;
    let concretes = close(s, abstracts, codes::CONCRETE)?;
    let ainit = close(s, concretes, codes::AINIT)?;
    let cinit = close(s, ainit, codes::CINIT)?;
    close(s, cinit, codes::RETRIEVE)
}

pub fn contents(y: &Symbols<'_>, code: &mut [u16]) -> Result<Read, Fault>
    requires { 4 * length y.now.kinds.now ≤ length code.old }
    ensures { Reads y.now.kinds.now 0 0 (a_dossier ∷ []) (some_bodies 0 ∷ []) result × ContentsMade y.now.kinds.now y.now.values.now code.new result }
{
    let word = close(y.kinds, Read { at: 0, count: 0 }, codes::CONTENTS)?;
    let sets = entries(
        y,
        word,
        codes::GIVEN,
        shapes::GIVEN_ENTRY,
        bounds::GIVEN_SETS,
        code,
    )?;
    let five = words(y.kinds, sets)?;
    let operations = entries(
        y,
        five,
        codes::OP,
        shapes::OPERATION_ENTRY,
        bounds::OPERATIONS,
        code,
    )?;
    close(y.kinds, operations, codes::END)
}

// The elements of a given set, one or more, up to its `end`.
// Form 3: over `(0..).zip(y.kinds[from.at..].iter().take_while(|c| **c == codes::PLAIN))` the loop would say `k` alone, and the symbol that it takes is unread:
// the number and the node ask for its place. The place would be `from.at + k`, after a walk of its own over the symbols, past the ninth too,
// which is the fault; the count of numbers is set in each turn all the same, and the `Read` is made behind the loop: no shorter than these.
fn elements(y: &Symbols<'_>, from: Read, code: &mut [u16]) -> Result<Read, Fault>
    requires { Room y.now.kinds.now code.old from.at from.count }
    ensures { Reads y.now.kinds.now from.at from.count (a_declared (an_element 1) ∷ some_elements 1 ∷ []) (exact kind.END ∷ []) result × Made y.now.kinds.now y.now.values.now part.some_elements from.at from.count code.old code.new result × When (get_or y.now.kinds.now from.at 0 ≡ 2) result }
{
    title(y.kinds, from.at, 0, bounds::ELEMENTS)?;
    let mut read = from;
    let mut k: u8 = 0;
    while kind_at(y.kinds, read.at) == codes::PLAIN {
        few(read.at, k, bounds::ELEMENTS)?;
        let x = name_number(y.kinds, y.values, read.at);
        read = read.skip().with_node(code, shapes::ELEMENT, read.at, x, 0);
        k += 1;
    }
    Ok(read)
}

// The body of a given set behind its name, with the `end`.
fn given(y: &Symbols<'_>, from: Read, code: &mut [u16]) -> Result<Read, Fault>
    requires { Room y.now.kinds.now code.old from.at from.count × (get_or y.now.kinds.now from.at 0 ≡ 37) × (get_or y.now.kinds.now (from.at + 1) 0 ≡ 2) }
    ensures { Reads y.now.kinds.now (from.at + 1 + 1) (from.count + 4) (a_declared (an_element 1) ∷ some_elements 1 ∷ []) ([]) result × More y.now.kinds.now y.now.values.now some_givens from.at from.count code.old code.new result }
{
    let name = from.skip();
    let x = name_number(y.kinds, y.values, name.at);
    let titled = name.skip().with_node(code, shapes::GIVEN, from.at, x, 0);
    let body = elements(y, titled, code)?;
    close(y.kinds, body, codes::END)
}

// The bodies of given sets.
// Form 2: `operations` of parser walks alike. One walk for both would take a trait of a word, a limit and a reader, and as ghost members the machine's item for
// each count, the mark of a name, what is expected behind it and behind all, and the part, with laws of each: more than these eight lines twice.
// Form 3: where the next body stands, says the one that is read.
pub fn givens(y: &Symbols<'_>, from: Read, code: &mut [u16]) -> Result<Read, Fault>
    requires { Room y.now.kinds.now code.old from.at from.count }
    ensures { Reads y.now.kinds.now from.at from.count (some_bodies 0 ∷ []) (two_states ++ (three_conditions ++ (some_operations 0 ∷ []))) result × Made y.now.kinds.now y.now.values.now some_givens from.at from.count code.old code.new result }
{
    let mut read = from;
    let mut k: u8 = 0;
    while kind_at(y.kinds, read.at) == codes::GIVEN {
        title(y.kinds, read.at + 1, k, bounds::GIVEN_SETS)?;
        read = given(y, read, code)?;
        k += 1;
    }
    Ok(read)
}

// The shape of the type that a symbol makes of two given sets, if it is an arrow.
fn arrow_of(k: u8) -> Option<u16>
    ensures { Arrows k result }
{
    match k {
        codes::RELATION => Some(shapes::RELATION),
        codes::PARTIAL => Some(shapes::PARTIAL),
        codes::TOTAL => Some(shapes::TOTAL),
        _ => None,
    }
}

// A type that begins with a name: a given set, or an arrow between two.
fn named(y: &Symbols<'_>, from: Read, code: &mut [u16]) -> Result<Read, Fault>
    requires { Room y.now.kinds.now code.old from.at from.count × NameAt y.now.kinds.now from.at }
    ensures { Reads y.now.kinds.now (from.at + 1) (from.count + 4) (a_type_rest ∷ []) ([]) result × Made y.now.kinds.now y.now.values.now part.a_type from.at from.count code.old code.new result }
{
    let x = name_number(y.kinds, y.values, from.at);
    let arrow = from.skip();
    let Some(shape) = arrow_of(kind_at(y.kinds, arrow.at)) else {
        return Ok(arrow.with_node(code, shapes::SET, from.at, x, 0));
    };
    let to = arrow.skip();
    let Ok(second) = y.name_at(to.at) else {
        return Err(no_dossier(to.at));
    };
    Ok(to.skip().with_node(code, shape, from.at, x, second))
}

fn type_form(y: &Symbols<'_>, from: Read, code: &mut [u16]) -> Result<Read, Fault>
    requires { Room y.now.kinds.now code.old from.at from.count }
    ensures { Reads y.now.kinds.now from.at from.count (a_type ∷ []) ([]) result × Made y.now.kinds.now y.now.values.now part.a_type from.at from.count code.old code.new result }
{
    let k = kind_at(y.kinds, from.at);
    if k == codes::POWER {
        let name = from.skip();
        let x = y.name_at(name.at)?;
        return Ok(name.skip().with_node(code, shapes::POWER, from.at, x, 0));
    }
    if !is_name(k) {
        let ends = range(y, from)?;
        let count = put_range(y.kinds, y.values, from.at, code, from.count);
        return Ok(Read { count, ..ends });
    }
    named(y, from, code)
}

// Behind a declared name: its node, and : type ;
fn declaration(y: &Symbols<'_>, from: Read, code: &mut [u16]) -> Result<Read, Fault>
    requires { Room y.now.kinds.now code.old from.at from.count × NameAt y.now.kinds.now from.at }
    ensures { Reads y.now.kinds.now (from.at + 1) (from.count + 4) a_typed [] result × Made y.now.kinds.now y.now.values.now a_declaration from.at from.count code.old code.new result }
{
    let x = name_number(y.kinds, y.values, from.at);
    let begun = from.skip().with_node(code, shapes::DECLARED, from.at, x, 0);
    let colon = close(y.kinds, begun, codes::COLON)?;
    let typed = type_form(y, colon, code)?;
    close(y.kinds, typed, codes::SEMICOLON)
}

// The declarations of a state, one or more, up to its `where`.
// Form 2: `elements` walks alike, but writes a node of its own for each name; one walk for both would take a trait as at `givens`.
// Form 3: where the next declaration stands, says the one that is read.
pub fn declarations(y: &Symbols<'_>, from: Read, code: &mut [u16]) -> Result<Read, Fault>
    requires { Room y.now.kinds.now code.old from.at from.count }
    ensures { Reads y.now.kinds.now from.at from.count (a_declared (a_variable 1) ∷ a_typed ++ (some_declarations 1 ∷ [])) (exact kind.WHERE ∷ []) result × Made y.now.kinds.now y.now.values.now part.some_declarations from.at from.count code.old code.new result × When (get_or y.now.kinds.now from.at 0 ≡ 2) result }
{
    title(y.kinds, from.at, 0, bounds::VARIABLES)?;
    let mut read = from;
    let mut k: u8 = 0;
    while kind_at(y.kinds, read.at) == codes::PLAIN {
        few(read.at, k, bounds::VARIABLES)?;
        read = declaration(y, read, code)?;
        k += 1;
    }
    Ok(read)
}

// The direction of a parameter.
// Form 1: the two directions; that a name is no parameter is the `None` of `direction_of`.
#[derive(Clone, Copy)]
pub enum Direction {
    Input,
    Output,
}

// That of a name that ends in ? or in !.
fn direction_of(k: u8) -> Option<Direction>
    ensures { Directs k result }
{
    match k {
        codes::INPUT => Some(Direction::Input),
        codes::OUTPUT => Some(Direction::Output),
        _ => None,
    }
}

// How many parameters of each direction there are.
#[derive(Clone, Copy)]
struct Taken {
    inputs: u8,
    outputs: u8,
}

impl Taken {
    // Is one more of this direction within the limit?
    fn room(self, place: usize, c: Direction) -> Result<(), Fault>
        ensures { Few place (counted_by c self.inputs self.outputs) 3 result }
    {
        match c {
            Direction::Input => few(place, self.inputs, bounds::INPUTS),
            Direction::Output => few(place, self.outputs, bounds::OUTPUTS),
        }
    }

    // With one more.
    fn more(self, c: Direction) -> Taken
        requires { (self.inputs ≤ 3) × (self.outputs ≤ 3) }
        ensures { result ≡ more_by c self }
    {
        match c {
            Direction::Input => Taken {
                inputs: self.inputs + 1,
                ..self
            },
            Direction::Output => Taken {
                outputs: self.outputs + 1,
                ..self
            },
        }
    }
}

// The parameters of an operation, up to its `abstract`.
// Form 3: where the next parameter stands, says the declaration that is read.
pub fn parameters(y: &Symbols<'_>, from: Read, code: &mut [u16]) -> Result<Read, Fault>
    requires { Room y.now.kinds.now code.old from.at from.count }
    ensures { Reads y.now.kinds.now from.at from.count (some_parameters 0 0 ∷ []) (exact kind.ABSTRACT ∷ []) result × Made y.now.kinds.now y.now.values.now part.some_parameters from.at from.count code.old code.new result }
{
    let mut read = from;
    let mut taken = Taken {
        inputs: 0,
        outputs: 0,
    };
    while let Some(c) = direction_of(kind_at(y.kinds, read.at)) {
        taken.room(read.at, c)?;
        read = declaration(y, read, code)?;
        taken = taken.more(c);
    }
    Ok(read)
}
