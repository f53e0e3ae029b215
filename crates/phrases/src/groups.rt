// Groups of variables: their names, their values one behind the other or in columns.
ghost use Rattle.std.specs.Prelude.{◌≤◌};

use crate::Source;
use labels::{GROUPS, TITLES, VARIABLE, VARIABLES_FROM};
use lexical::bounds::{NAME_LETTERS, OPERATIONS};
use lexical::classes::run_from;
use lines::{Group, LINE, SLOTS, Shown, Side, byte_of, put_group};
use pieces::Writer;
use search_groups::groups::OPERATION_ROWS;
use sheets::Sheet;
use text_places::{SPACE, Span, before, part};

// The columns of the two sides.
// Form 1: these and the next are columns and an indent, no kinds.
pub const LEFT: usize = 14;

pub const RIGHT: usize = 56;

// How far a value goes in that is broken.
pub const DEEPER: usize = 2;

// The group of a letter among the words.
pub fn side_of(letter: u8) -> Option<Side> {
    match letter {
        b'a' => Some(Side::Abstract),
        b'c' => Some(Side::Concrete),
        b'i' => Some(Side::Inputs),
        b'q' => Some(Side::Outputs),
        b'A' => Some(Side::AbstractPrimed),
        b'C' => Some(Side::ConcretePrimed),
        _ => None,
    }
}

// How far the rows of an operation are from the first operation's.
// Form 1: an item of a page may have any number: for one that no operation has it is 0, as for the first; with an Option its one call would turn `None` back into it.
fn row_of(operation: usize) -> usize
    ensures { result ≤ 120 }
{
    if operation < usize::from(OPERATIONS) {
        return OPERATION_ROWS * operation;
    }
    0
}

impl Source<'_> {
    // The group of a side, of an operation.
    pub fn group(&self, side: Side, operation: usize) -> Group {
        let n = self.counts;
        let count = match side {
            Side::Abstract | Side::AbstractPrimed => n.va,
            Side::Concrete | Side::ConcretePrimed => n.vc,
            Side::Inputs => n.vi,
            Side::Outputs => n.vo,
        };
        Group::of(side, row_of(operation), count)
    }
}

// A sheet that is written on, and where the names and values come from.
#[derive(Drop)]
pub struct Pen<'a> {
    pub source: Source<'a>,
    pub sheet: &'a mut Sheet,
}

// Has a number the k-th bit?
// Form 2: `sets::has` is the same of 16 bits; one for both would be a trait over widths for this line.
pub fn has_bit(bits: usize, k: usize) -> bool {
    k < usize::BITS as usize && (bits >> k) % 2 == 1
}

impl Pen<'_> {
    // name = value of the k-th variable of a group.
    fn put_variable(&mut self, g: &Group, k: usize, indent: usize) {
        let s = self.source;
        let first = g.first.saturating_add(k);
        let slot = g.slot.saturating_add(k);
        if first < GROUPS && slot < SLOTS {
            let one = Group {
                first,
                count: 1,
                slot,
                ending: g.ending,
            };
            let mut line = [0u8; LINE];
            let mut w = Writer {
                out: &mut line,
                at: 0,
            };
            let shown = Shown {
                names: s.names,
                slots: s.slots,
            };
            put_group(&shown, one, &mut w);
            let end = w.at;
            self.sheet
                .flow(before(&line, end.saturating_sub(1)), indent);
        }
    }

    // A comma between two variables.
    fn put_comma(&mut self, indent: usize) {
        self.sheet.put(b',', indent);
        self.sheet.put(SPACE, indent);
    }

    // The variables of a group with their values, one behind the other.
    pub fn put_values(&mut self, g: Group, indent: usize) {
        for k in 0..g.count {
            if 0 < k {
                self.put_comma(indent);
            }
            self.put_variable(&g, k, indent);
        }
    }

    // The k-th variable in a column, where there is one.
    fn put_cell(&mut self, g: &Group, k: usize, column: usize) {
        if k < g.count {
            self.sheet.tab(column);
            self.put_variable(g, k, column.saturating_add(DEEPER));
        }
    }

    // A group in a column, a variable in a line.
    pub fn put_column(&mut self, g: Group, column: usize) {
        for k in 0..g.count {
            self.put_cell(&g, k, column);
        }
    }

    // Two groups side by side, a variable of each in a line.
    pub fn put_both(&mut self, g: Group, h: Group) {
        for k in 0..g.count.max(h.count) {
            self.put_cell(&g, k, LEFT);
            self.put_cell(&h, k, RIGHT);
        }
    }

    // The letters of a name of the text, by its label.
    fn put_name(&mut self, label: usize, indent: usize) {
        let s = self.source;
        let text = s.names.text;
        let from = usize::from(s.names.label(label));
        let to = from + run_from(text, from).min(NAME_LETTERS);
        self.sheet.flow(part(text, Span { from, to }), indent);
    }

    // The name of an operation.
    pub fn put_title(&mut self, operation: usize, indent: usize) {
        self.put_name(TITLES.saturating_add(operation), indent);
    }

    // The name of the k-th variable, and the group's ending.
    fn put_named(&mut self, g: &Group, k: usize) {
        let row = g.first.saturating_add(k);
        if row < GROUPS {
            self.put_name(VARIABLES_FROM + VARIABLE * row, DEEPER);
            if let Some(b) = byte_of(g.ending) {
                self.sheet.put(b, DEEPER);
            }
        }
    }

    // The names of the variables of a group that are among the bits.
    pub fn put_names(&mut self, g: Group, bits: usize) {
        let told = (0..g.count).filter(|k| has_bit(bits, *k));
        for (n, k) in told.enumerate() {
            if 0 < n {
                self.put_comma(DEEPER);
            }
            self.put_named(&g, k);
        }
    }
}
