// Symbols to the structure of a dossier: numbers 4, 5, 6 and 7 of document 01.
#![tactic(auto)]

ghost use Rattle.std.specs.Prelude.{◌≡◌, get_or};
ghost use Rattle.parser.specs.Promises.{Parses};

use crate::bodies::dossier;
use crate::headings::headings;
use crate::sections::Nodes;
use form::node::NUMBERS;
use form_nodes::Symbols;
use lexical::bounds::SYMBOLS;
use refusals::Fault;
use symbols::scan;

mod bodies;
mod headings;
pub mod sections;

// How many symbols a text has, and how many numbers the nodes of its dossier have.
#[derive(Clone, Copy)]
pub struct Structure {
    pub symbols: usize,
    pub numbers: usize,
}

// The structure of a text: its symbols, and the nodes of the dossier that it is.
// Form 5: four arrays of fixed length that the caller of `read` lends and keeps, all written here (no heap).
pub fn parse(
    text: &[u8],
    codes: &mut [u8; SYMBOLS],
    starts: &mut [u16; SYMBOLS],
    values: &mut [u16; SYMBOLS],
    nodes: &mut [u16; NUMBERS],
) -> Result<Structure, Fault>
    ensures { Parses text.now codes.old starts.old values.old nodes.old codes.new starts.new values.new nodes.new result }
{
    let n = scan(text, codes, starts, values)?;
    let y = Symbols {
        kinds: &codes[..n],
        values: &values[..n],
    };
    let starts = &starts[..n];
    // The nodes are made in an array of their own, so that a refusal leaves the lent one as it was.
    let mut made = [0u16; NUMBERS];
    let read = dossier(&y, &mut made).map_err(|f| located(f, starts, text.len()))?;
    let found = Nodes {
        numbers: &made,
        end: read.count,
    };
    headings(&found, n).map_err(|f| located(f, starts, text.len()))?;
    nodes[..read.count].copy_from_slice(&made[..read.count]);
    Ok(Structure {
        symbols: n,
        numbers: read.count,
    })
}

// The first byte of a symbol, or the text's end.
pub fn place_at(starts: &[u16], i: usize, end: usize) -> usize
    ensures { result ≡ get_or starts.now i end }
{
    starts.get(i).map_or(end, |s| usize::from(*s))
}

// A fault by the symbol as one by the first byte of that symbol.
pub fn located(fault: Fault, starts: &[u16], end: usize) -> Fault
    ensures place { result.place ≡ get_or starts.now fault.place end }
    ensures refusal { result.refusal ≡ fault.refusal }
{
    Fault {
        place: place_at(starts, fault.place, end),
        ..fault
    }
}
