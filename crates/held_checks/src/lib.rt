// The held check in lent bytes, and the answers of the calls. The bytes: 0 the mark, 1 the profile, 2 the operation, 3 spare (all three 0), from 4 on the text's length, from 8 on the
// place, numbers with the lowest byte first, from 16 on the text, and zeros behind it. All zero is nothing held.
// Form 1: the enums are cases of their own, the answers of document 01 and the marks of the held bytes; the constants are places in these bytes, lengths, and numbers of parts of a check.
#![tactic(auto)]

ghost use Rattle.std.specs.Prelude.{◌≡◌, ◌+◌, ◌-◌, ◌^◌, ◌<◌, ◌≤◌, length, take, drop, is_some, unwrap_or};
ghost use Rattle.std.specs.Result.{result_ok};
ghost use Rattle.table_nodes.specs.TableWalkPromises.{patch};
ghost use Rattle.held_checks.specs.HeldBytes.{little_endian, from_bytes, bytes_of, none_held, is_laid, held_mark, held_place, fitting};
ghost use Rattle.held_checks.specs.Answers.{verdict_answer};
ghost use Rattle.held_checks.specs.BytePromises.{all_zero, Turned};
ghost use Rattle.held_checks.specs.declared.LoadRefusal.TheVariants.{Faulty};
ghost use Rattle.held_checks.specs.StepPromises.{Marks, mark_byte, Tells, told_by, place_after, mark_after, PartTold};

use lexical::bounds::TEXT_BYTES;
use refusals::{Fault, Refusal};

#[cfg(test)]
mod tests;

const MARK: usize = 0;

const PROFILE: usize = 1;

const LENGTH: usize = 4;

const LENGTH_BYTES: usize = 4;

const PLACE: usize = 8;

const PLACE_BYTES: usize = 8;

pub const TEXT: usize = 16;

// How many bytes a held check has: 16, and those of the longest text.
pub const HELD: usize = 32784;

// The parts of a check: one of the initialisation, then two of each operation.
pub const OPENING: usize = 1;

pub const OBLIGATIONS: usize = 2;

// An obligation, the last two with the operation's index.
#[derive(Clone, Copy)]
pub enum Obligation {
    Initialisation,
    Applicability(usize),
    Correctness(usize),
}

#[derive(Clone, Copy)]
pub enum Verdict {
    Unfinished,
    Accepted,
    Refuted(Obligation),
}

// Why load takes no text: its fault, or that a check is held.
#[derive(Clone, Copy)]
pub enum LoadRefusal {
    Faulty(Fault),
    SomethingHeld,
}

impl From<Fault> for LoadRefusal {
    ghost from_gives = { λ fault refusal. refusal ≡ Faulty fault };

    fn from(fault: Fault) -> LoadRefusal {
        LoadRefusal::Faulty(fault)
    }
}

// How far a held check is; each has a byte, and where nothing is held that byte is 0.
#[derive(Clone, Copy, PartialEq, Eq)]
pub enum Mark {
    Unfinished = 1,
    Accepted = 2,
    Refuted = 3,
}

impl From<Mark> for u8 {
    ghost from_gives = { λ mark byte. byte ≡ mark_byte mark };

    fn from(mark: Mark) -> u8 {
        mark as u8
    }
}

// The byte where nothing is held, and that of an unfinished check.
const NOTHING: u8 = 0;

const UNFINISHED: u8 = Mark::Unfinished as u8;

// A byte that is of no mark.
#[derive(Clone, Copy)]
pub struct Unmarked;

impl TryFrom<u8> for Mark {
    type Error = Unmarked;

    ghost try_from_gives = { λ byte mark. Marks byte (result_ok mark) };

    fn try_from(byte: u8) -> Result<Mark, Unmarked> {
        match byte {
            1 => Ok(Mark::Unfinished),
            2 => Ok(Mark::Accepted),
            3 => Ok(Mark::Refuted),
            _ => Err(Unmarked),
        }
    }
}

// The number in up to eight bytes.
fn number(bytes: &[u8]) -> usize
    requires { length bytes.now ≤ 8 }
    ensures { result ≡ from_bytes bytes.now }
{
    let mut eight = [0u8; 8];
    eight[..bytes.len()].copy_from_slice(bytes);
    usize::from_le_bytes(eight)
}

// A number is written over up to eight bytes, as `number` reads it.
fn put_number(bytes: &mut [u8], x: usize)
    requires { length bytes.old ≤ 8 }
    ensures { bytes.new ≡ little_endian (length bytes.old) x }
{
    let n = bytes.len();
    bytes.copy_from_slice(&x.to_le_bytes()[..n]);
}

// All bytes are 0.
fn are_zero(bytes: &[u8]) -> bool
    ensures { result ≡ all_zero bytes.now }
{
    bytes.iter().all(|b| *b == 0)
}

// The length of the text that the bytes have, and the place.
pub fn length_in(held: &[u8; HELD]) -> usize
    ensures { result ≡ from_bytes (take 4 (drop 4 held.now)) }
{
    number(&held[LENGTH..LENGTH + LENGTH_BYTES])
}

pub fn place_in(held: &[u8; HELD]) -> usize
    ensures { result ≡ held_place held.now }
{
    number(&held[PLACE..PLACE + PLACE_BYTES])
}

// The bytes have the layout: spare bytes 0, and zeros behind the text.
pub fn laid(held: &[u8; HELD]) -> bool
    ensures { result ≡ is_laid held.now }
{
    let n = length_in(held);
    are_zero(&held[PROFILE..LENGTH]) && n <= TEXT_BYTES && are_zero(&held[TEXT + n..])
}

// The mark of the bytes.
pub fn mark_in(held: &[u8; HELD]) -> Option<Mark>
    ensures { Marks (held_mark held.now) result }
{
    Mark::try_from(held[MARK]).ok()
}

// A mark fits a place of an order of so many places.
pub fn fits(all: usize, place: usize, mark: Mark) -> bool
    ensures { result ≡ fitting all place (mark_byte mark) }
{
    match mark {
        Mark::Unfinished => place < all,
        Mark::Accepted => place == all,
        Mark::Refuted => (1..=all).contains(&place),
    }
}

// Nothing is held.
pub fn clear(held: &mut [u8; HELD])
    ensures { held.new ≡ none_held }
{
    held.fill(0);
}

// The bytes of a text from the place TEXT on.
fn put_text(text: &[u8], held: &mut [u8])
    requires { 16 + length text.now ≤ length held.old }
    ensures { held.new ≡ patch 16 text.now held.old }
{
    held[TEXT..TEXT + text.len()].copy_from_slice(text);
}

// A text is held, at the beginning of its order.
pub fn lay(text: &[u8], held: &mut [u8; HELD])
    requires { length text.now ≤ 32768 }
    ensures { held.new ≡ bytes_of text.now 0 1 }
{
    clear(held);
    held[MARK] = Mark::Unfinished.into();
    put_number(&mut held[LENGTH..LENGTH + LENGTH_BYTES], text.len());
    put_text(text, held);
}

// The held check comes to a place, with a mark.
fn turn(held: &mut [u8; HELD], place: usize, mark: Mark)
    ensures { Turned held.old place (mark_byte mark) held.new }
{
    held[MARK] = mark.into();
    put_number(&mut held[PLACE..PLACE + PLACE_BYTES], place);
}

// The place after a search up to an end: behind the binding that failed, if one did.
pub fn counted(failing: Option<usize>, end: usize) -> usize
    requires { unwrap_or failing end < 2 ^ 62 }
    ensures { result ≡ place_after (is_some failing) (unwrap_or failing end) }
{
    match failing {
        Some(at) => at + 1,
        None => end,
    }
}

// The mark after a search that came to a place.
fn mark_after(failing: Option<usize>, all: usize, place: usize) -> Mark
    ensures { mark_byte result ≡ mark_after (is_some failing) all place }
{
    if failing.is_some() {
        Mark::Refuted
    } else if all <= place {
        Mark::Accepted
    } else {
        Mark::Unfinished
    }
}

// A search from a place on, of so many in all, stopped at a binding that failed or came to its end: the held check comes there. How many bindings were looked at.
pub fn come_to(
    held: &mut [u8; HELD],
    from: usize,
    all: usize,
    failing: Option<usize>,
    end: usize,
) -> usize
    requires { (from ≤ unwrap_or failing end) × (unwrap_or failing end < 2 ^ 62) }
    ensures moved { Turned held.old (place_after (is_some failing) (unwrap_or failing end)) (mark_after (is_some failing) all (place_after (is_some failing) (unwrap_or failing end))) held.new }
    ensures looked { result ≡ place_after (is_some failing) (unwrap_or failing end) - from }
{
    let place = counted(failing, end);
    turn(held, place, mark_after(failing, all, place));
    place - from
}

// The verdict of a mark, where it speaks of no obligation.
pub fn told(mark: Mark) -> Option<Verdict>
    ensures { Tells (mark_byte mark) result }
{
    match mark {
        Mark::Unfinished | Mark::Accepted => told_of_byte(mark.into()).ok(),
        Mark::Refuted => None,
    }
}

// What the call for the verdict answers by the byte of the mark, where it speaks of no obligation.
pub fn told_of_byte(mark: u8) -> Result<Verdict, Refusal>
    ensures { verdict_answer result ≡ told_by mark }
{
    match mark {
        NOTHING => Err(Refusal::NothingHeld),
        UNFINISHED => Ok(Verdict::Unfinished),
        _ => Ok(Verdict::Accepted),
    }
}

// The obligation of a part.
pub fn obligation_of(part: usize) -> Obligation
    ensures { PartTold part result }
{
    let Some(behind) = part.checked_sub(OPENING) else {
        return Obligation::Initialisation;
    };
    let k = behind / OBLIGATIONS;
    if behind % OBLIGATIONS == 0 {
        return Obligation::Applicability(k);
    }
    Obligation::Correctness(k)
}
