// A text read for the calls and the report: its fault, or the arrays of its dossier.
#![tactic(auto)]

ghost use Rattle.std.specs.Prelude.{◌≡◌, ◌≤◌, replicate};
ghost use Rattle.text_readings.specs.TextPromises.{ReadsText, Lent, Counted, Gathered};

use form::node::NUMBERS;
use labels::{LABELS, Sources, gather_elements, gather_titles, gather_variables};
use lexical::bounds::SYMBOLS;
use node_spans::{span, spans};
use parser::sections::Nodes;
use reader::read;
use refusals::Fault;
use search_groups::Dossier;
use search_groups::conjuncts::FIRSTS;
use search_groups::groups::GROUPS;

// How many operations the dossier has whose nodes these are.
fn operations(nodes: &Nodes<'_>) -> usize
    ensures { Counted nodes.now.numbers.now nodes.now.end result }
{
    let mut places = [0u16; span::COUNT];
    spans(nodes, &mut places)
}

// The labels of a dossier.
fn gather(x: &Sources<'_>, labels: &mut [u16; LABELS])
    requires { x.now.nodes.end ≤ 16384 }
    ensures { Gathered x.now.nodes.numbers.now x.now.starts.now x.now.spans.now x.now.table.now x.now.groups.now x.now.nodes.end labels.old labels.new }
{
    gather_elements(x, labels);
    gather_titles(x, labels);
    gather_variables(x, labels);
}

// The arrays of a text that is read, for the search and for the lines of a witness. They are lent, and never copied.
#[derive(Drop)]
pub struct Arrays {
    pub table: [u16; NUMBERS],
    pub rows: [u16; NUMBERS],
    pub firsts: [u16; FIRSTS],
    pub groups: [u16; GROUPS],
    pub labels: [u16; LABELS],
}

impl Arrays {
    pub fn new() -> Arrays
        ensures { (result.table ≡ replicate 16384 0) × (result.rows ≡ replicate 16384 0) × (result.firsts ≡ replicate 40 0) × (result.groups ≡ replicate 160 0) × (result.labels ≡ replicate 720 0) }
    {
        Arrays {
            table: [0; NUMBERS],
            rows: [0; NUMBERS],
            firsts: [0; FIRSTS],
            groups: [0; GROUPS],
            labels: [0; LABELS],
        }
    }

    // How many operations the dossier of a text has, or the fault of the text.
    pub fn read(&mut self, text: &[u8]) -> Result<usize, Fault>
        ensures { ReadsText text.now self.new.table self.new.rows self.new.firsts self.new.groups self.new.labels result }
    {
        let mut codes = [0u8; SYMBOLS];
        let mut starts = [0u16; SYMBOLS];
        let mut values = [0u16; SYMBOLS];
        let mut nodes = [0u16; NUMBERS];
        let mut places = [0u16; span::COUNT];
        let answer = read(
            text,
            &mut codes,
            &mut starts,
            &mut values,
            &mut nodes,
            &mut places,
            &mut self.table,
            &mut self.groups,
            &mut self.rows,
            &mut self.firsts,
        );
        let structure = answer?;
        let made = Nodes {
            numbers: &nodes,
            end: structure.numbers,
        };
        let n = operations(&made);
        let x = Sources {
            nodes: made,
            starts: &starts,
            spans: &places,
            table: &self.table,
            groups: &self.groups,
        };
        gather(&x, &mut self.labels);
        Ok(n)
    }

    // The dossier of a text that was read, with so many operations.
    pub fn dossier(&self, operations: usize) -> Dossier<'_>
        ensures { Lent self.now.table self.now.rows self.now.firsts self.now.groups operations result }
    {
        Dossier {
            table: &self.table,
            rows: &self.rows,
            firsts: &self.firsts,
            groups: &self.groups,
            operations,
        }
    }
}
