// Number 7 of document 01: headings against the table of contents.
ghost use Rattle.std.specs.Prelude.{◌≡◌, ◌≤◌};
ghost use Rattle.parser.specs.Sections.{Compared, Differs, Headed, heading_of};
ghost use Rattle.refusals.specs.declared.Refusal.TheVariants.{HeadingDiffers};

use crate::sections::Nodes;
use form::node;
use form::shapes::{DECLARED, ELEMENT, PREDICATE};
use refusals::{Fault, Refusal};
use std::ops::Range;

// The fault of number 7 at a symbol.
fn differs(place: usize) -> Fault
    ensures { (result.place ≡ place) × (result.refusal ≡ HeadingDiffers) }
{
    Fault {
        place,
        refusal: Refusal::HeadingDiffers,
    }
}

// The entries that stand at some places against the bodies at others, in order. What belongs to a body has the shapes low to high.
// A wanting body is at the symbol `wanting`. The fault is at the symbol of the first heading that differs, is extra or is wanting.
// Form 3: an entry and a body go on by widths of their own, which their nodes say.
fn compare(
    made: &Nodes<'_>,
    entries: Range<usize>,
    bodies: Range<usize>,
    low: u16,
    high: u16,
    wanting: usize,
) -> Result<(), Fault>
    requires { (entries.start ≤ made.now.end) × (entries.end ≤ made.now.end) × (bodies.start ≤ made.now.end) × (bodies.end ≤ made.now.end) }
    ensures { Compared made.now.numbers.now made.now.end low high entries.end bodies.end wanting entries.start bodies.start (heading_of result) × Differs result }
{
    let mut e = entries.start;
    let mut h = bodies.start;
    while e < entries.end {
        if bodies.end <= h {
            return Err(differs(wanting));
        }
        let x = made.part(e, node::A);
        let y = made.part(h, node::A);
        if x != y {
            return Err(differs(usize::from(made.part(h, node::PLACE))));
        }
        e = made.skip(e);
        h = made.run(made.skip(h), low, high);
    }
    if h < bodies.end {
        return Err(differs(usize::from(made.part(h, node::PLACE))));
    }
    Ok(())
}

// Do the headings agree with the contents? The fault is at the symbol of the first one that does not.
pub(crate) fn headings(made: &Nodes<'_>, symbols: usize) -> Result<(), Fault>
    ensures { Headed made.now.numbers.now made.now.end symbols (heading_of result) × Differs result }
{
    let at = made.sections();
    let wanting = usize::from(made.part(at.abstracts, node::PLACE));
    let entries = at.entries;
    let sets = at.givens..at.abstracts;
    compare(made, 0..entries, sets, ELEMENT, ELEMENT, wanting)?;
    let operations = at.operations..made.end;
    compare(
        made,
        entries..at.givens,
        operations,
        DECLARED,
        PREDICATE,
        symbols,
    )
}
