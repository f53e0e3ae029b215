// The five calls on a held check kept in lent bytes: load, advance, verdict, witness, drop. Each reads the held text again.
// Stack: 1,536 KiB are enough for every text and every call. The arrays of a reading stand there, and the walks over nodes go as deep as a chain of operators
// is long. The figure is measured, on the texts that need the most (tests/stack), and not proved.
#![tactic(auto)]

ghost use Rattle.std.specs.Prelude.{◌≡◌, [], true, false, MatchOption};
ghost use Rattle.obligations.specs.Calls as call;
ghost use Rattle.held_checks.specs.HeldBytes.{held_text, is_laid};
ghost use Rattle.held_checks.specs.Answers.{load_answer, advance_answer, verdict_answer, witness_answer, dropped};
ghost use Rattle.held_checks.specs.CallPromises.{Responds};
ghost use Rattle.checker.specs.OpenPromises.{Opens, LastAsked, LastWritten};

use held_checks::{
    HELD, LoadRefusal, Mark, TEXT, Verdict, clear, come_to, fits, laid, lay, length_in, mark_in,
    obligation_of, place_in, told_of_byte,
};
use labels::Names;
use part_places::{find, total};
use parts::search;
use pieces::Writer;
use refusals::Refusal;
use text_readings::Arrays;
use witnesses::{WITNESS, put_witness};

// Number 15: the longest advance.
const LONGEST: usize = 1000000000;

// What is held: the text, the mark, the place, how many operations and how many places there are.
#[derive(Clone, Copy)]
pub struct Opened<'a> {
    pub text: &'a [u8],
    pub mark: Mark,
    pub place: usize,
    pub operations: usize,
    pub all: usize,
}

// The text in the bytes, where they are laid.
fn text_in(held: &[u8; HELD]) -> Option<&[u8]>
    ensures { MatchOption result (is_laid held.now ≡ false) (λ t. (is_laid held.now ≡ true) × (t.now ≡ held_text held.now)) }
{
    if !laid(held) {
        return None;
    }
    let end = TEXT + length_in(held);
    Some(&held[TEXT..end])
}

// What the bytes stand for, with the arrays of its text.
fn open_bytes<'a>(held: &'a [u8; HELD], a: &mut Arrays) -> Option<Opened<'a>>
    ensures { Opens held.now a.new.table a.new.rows a.new.firsts a.new.groups a.new.labels result }
{
    let text = text_in(held)?;
    let operations = a.read(text).ok()?;
    let all = total(&a.dossier(operations));
    let place = place_in(held);
    let mark = mark_in(held)?;
    if !fits(all, place, mark) {
        return None;
    }
    Some(Opened {
        text,
        mark,
        place,
        operations,
        all,
    })
}

// Load a text.
pub fn load(text: &[u8], held: &mut [u8; HELD]) -> Result<(), LoadRefusal>
    ensures { Responds held.old (call.load text.now) held.new [] (load_answer result) }
{
    let mut a = Arrays::new();
    if open_bytes(held, &mut a).is_some() {
        return Err(LoadRefusal::SomethingHeld);
    }
    a.read(text)?;
    lay(text, held);
    Ok(())
}

// Advance by n.
pub fn advance(n: usize, held: &mut [u8; HELD]) -> Result<usize, Refusal>
    ensures { Responds held.old (call.advance n) held.new [] (advance_answer result) }
{
    let mut a = Arrays::new();
    let o = open_bytes(held, &mut a).ok_or(Refusal::NothingHeld)?;
    if o.mark != Mark::Unfinished {
        return Err(Refusal::CheckFinished);
    }
    if !(1..=LONGEST).contains(&n) {
        return Err(Refusal::AdvanceRange);
    }
    let (from, all) = (o.place, o.all);
    let d = a.dossier(o.operations);
    let end = from + n;
    let failing = search(&d, from, end);
    Ok(come_to(held, from, all, failing, end.min(all)))
}

// The verdict so far.
pub fn verdict(held: &[u8; HELD]) -> Result<Verdict, Refusal>
    ensures { Responds held.now call.verdict held.now [] (verdict_answer result) }
{
    let mut a = Arrays::new();
    let o = open_bytes(held, &mut a).ok_or(Refusal::NothingHeld)?;
    if o.mark != Mark::Refuted {
        return told_of_byte(o.mark.into());
    }
    let d = a.dossier(o.operations);
    let f = find(&d, o.place - 1);
    Ok(Verdict::Refuted(obligation_of(f.part)))
}

// The lines of the binding before the place of a held text, in bytes of their own, and their length.
// Form 6: `witness` copies the lines into what it is lent where they fit, and is told their length; a slice of `out` handed back would say the same length, and the promise of
// `put_witness` would be brought over to it.
fn put_last(a: &Arrays, o: Opened<'_>, out: &mut [u8; WITNESS]) -> usize
    requires { LastAsked o.text.now a.now.labels a.now.table a.now.groups o.operations o.place }
    ensures { LastWritten o.entry.text.now a.now.labels a.now.table a.now.groups o.entry.operations o.entry.place out.new result }
{
    let d = a.dossier(o.operations);
    let f = find(&d, o.place - 1);
    let names = Names {
        text: o.text,
        labels: &a.labels,
    };
    let mut w = Writer { out, at: 0 };
    put_witness(&names, &d, f, &mut w);
    w.at
}

// The binding that a refuted check has found, in lent bytes.
pub fn witness(held: &[u8; HELD], lent: &mut [u8]) -> Result<usize, Refusal>
    ensures { Responds held.now (call.witness lent.old) held.now lent.new (witness_answer result) }
{
    let mut a = Arrays::new();
    let o = open_bytes(held, &mut a).ok_or(Refusal::NothingHeld)?;
    if o.mark != Mark::Refuted {
        return Err(Refusal::NoCounterexample);
    }
    let mut out = [0u8; WITNESS];
    let n = put_last(&a, o, &mut out);
    if lent.len() < n {
        return Err(Refusal::ShortBytes);
    }
    lent[..n].copy_from_slice(&out[..n]);
    Ok(n)
}

// Nothing is held any more.
pub fn drop(held: &mut [u8; HELD])
    ensures { Responds held.old call.release held.new [] dropped }
{
    clear(held);
}
