// The report of a text: what the program prints.
#![tactic(auto)]

ghost use Rattle.std.specs.Prelude.{◌≡◌, ◌+◌, ◌≤◌, ◌<◌, true, length, get_or};
ghost use Rattle.refusals.specs.Refusals.{number_of};
ghost use Rattle.refusals.specs.RefusalNames.{refusal_is};
ghost use Rattle.obligations.specs.Report.{count_line};
ghost use Rattle.pieces.specs.PiecePromises.{Adds, letters_at};
ghost use Rattle.reports.specs.ReportPromises.{Reported, RefutedLine, AddsLine, VerdictAsked, AddsVerdict, refusal_piece, listed};
ghost use Rattle.held_checks.specs.Answers.{obligation_is};

use held_checks::{Obligation, counted, obligation_of};
use labels::{Names, TITLES};
use lexical::bounds::OPERATIONS;
use part_places::{find, total};
use parts::search;
use pieces::Writer;
use refusals::Fault;
use search_groups::Dossier;
use text_readings::Arrays;
use witnesses::{WITNESS, put_witness};

// The greatest length of the first line, of the line with the count, and of a report: the first line, a witness, the count.
pub const FIRST_LINE: usize = 39;

const COUNT_LINE: usize = 30;

pub const REPORT: usize = FIRST_LINE + WITNESS + COUNT_LINE;

// The name of the k-th operation.
fn put_title(names: &Names<'_>, k: usize, w: &mut Writer<'_>)
    requires { (k < 16) × (w.old.at + 16 ≤ length w.old.out.now) }
    ensures { Adds (letters_at names.now.text.now (get_or names.now.labels.now (64 + k) 0)) w.old w.new }
{
    w.put_letters(names.text, usize::from(names.label(TITLES + k)));
}

// The first line of a refuted check, by its obligation.
pub fn put_refuted(names: &Names<'_>, o: Obligation, w: &mut Writer<'_>)
    requires listed { listed (obligation_is o) ≡ true }
    requires room { w.old.at + 39 ≤ length w.old.out.now }
    ensures { AddsLine names.now.text.now names.now.labels.now (obligation_is o) w.old w.new }
{
    match o {
        Obligation::Initialisation => w.put_all(b"refuted initialisation\n"),
        Obligation::Applicability(k) => {
            w.put_all(b"refuted applicability ");
            put_title(names, k, w);
            w.put(b'\n');
        }
        Obligation::Correctness(k) => {
            w.put_all(b"refuted correctness ");
            put_title(names, k, w);
            w.put(b'\n');
        }
    }
}

// The line with the count.
fn put_count(n: usize, w: &mut Writer<'_>)
    requires { w.old.at + 30 ≤ length w.old.out.now }
    ensures { Adds (count_line n) w.old w.new }
{
    w.put_all(b"bindings ");
    w.put_decimal(n as u64);
    w.put(b'\n');
}

// The line of a refusal.
fn put_refusal(f: Fault, w: &mut Writer<'_>)
    requires { w.old.at + 53 ≤ length w.old.out.now }
    ensures line { Adds (refusal_piece (number_of (refusal_is f.refusal)) f.place) w.old w.new }
    ensures short { w.new.at ≤ w.old.at + 53 }
{
    w.put_all(b"refused ");
    w.put_decimal(u64::from(f.refusal.number()));
    w.put_all(b" at ");
    w.put_decimal(f.place as u64);
    w.put(b'\n');
}

// The lines of a verdict.
fn put_verdict(names: &Names<'_>, d: &Dossier<'_>, w: &mut Writer<'_>)
    requires room { w.old.at + 19419 ≤ length w.old.out.now }
    requires asked { VerdictAsked names.now.text.now names.now.labels.now d.now.table.now d.now.rows.now d.now.firsts.now d.now.groups.now d.now.operations }
    ensures { AddsVerdict names.now.text.now names.now.labels.now d.now.table.now d.now.rows.now d.now.firsts.now d.now.groups.now d.now.operations w.old w.new }
{
    let all = total(d);
    let found = search(d, 0, all);
    let n = counted(found, all);
    let Some(place) = found else {
        w.put_all(b"accepted\n");
        put_count(n, w);
        return;
    };
    let f = find(d, place);
    put_refuted(names, obligation_of(f.part), w);
    put_witness(names, d, f, w);
    put_count(n, w);
}

// The report of a text in front of the lent bytes, and its length. 1,536 KiB of stack are enough for every text, as for the calls (crates/checker).
// Form 6: there is no heap, so that the caller lends the bytes; `Reported`, and the theorem `CodeReports` (crates/demands) over it, say of all of them what they are behind the call, and of
// the length which of them are the report. A slice handed back would leave them lent for as long as it is used.
pub fn report(text: &[u8], out: &mut [u8; REPORT]) -> usize
    ensures { Reported text.now out.old out.new result }
{
    let mut a = Arrays::new();
    let answer = a.read(text);
    let mut w = Writer { out, at: 0 };
    match answer {
        Err(f) => put_refusal(f, &mut w),
        Ok(operations) => {
            let names = Names {
                text,
                labels: &a.labels,
            };
            let d = a.dossier(operations);
            put_verdict(&names, &d, &mut w);
        }
    }
    w.at
}

// Is the operation of an obligation one of the 16 that a dossier may have?
fn is_listed(o: Obligation) -> bool
    ensures { result ≡ listed (obligation_is o) }
{
    match o {
        Obligation::Initialisation => true,
        Obligation::Applicability(k) | Obligation::Correctness(k) => k < usize::from(OPERATIONS),
    }
}

// The first line of the report of a text that is refuted with an obligation, in front of the lent bytes, and its length; none of a text that is refused, and for an operation that no
// dossier has.
// Form 6: as at `report`.
pub fn refuted_line(text: &[u8], o: Obligation, out: &mut [u8; FIRST_LINE]) -> Option<usize>
    ensures { RefutedLine text.now o out.old out.new result }
{
    let mut a = Arrays::new();
    let answer = a.read(text);
    let Ok(_) = answer else {
        return None;
    };
    if !is_listed(o) {
        return None;
    }
    let names = Names {
        text,
        labels: &a.labels,
    };
    let mut w = Writer { out, at: 0 };
    put_refuted(&names, o, &mut w);
    Some(w.at)
}
