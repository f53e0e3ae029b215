// Truths that are remembered: what a conjunct whose last node is a quantifier comes to, by the conjunct and by the values of the at most four slots that it mentions.
// `memo` has for each place where a conjunct can end the list of its slots; behind these the cells, each twice a whole key, and 1 more where the conjunct is true. 0 is nothing:
// who searches (`nest::sweep` and others) makes the memory, of 0s.
// Form 1: the constants are sizes of what is packed into the memory, and marks in it. 0 is what the memory is made with; an Option of a number takes 16 bytes for 8, so that the 64,784 bytes
// that stand on the stack of each search would be 129,568.
// Form 6: of all functions `listed` alone reaches into the lists and `again` alone into the cells; with a struct of two arrays one sum, `ENDS + ..`, would go, and
// each parameter `memo`, here and in five crates above, would name the struct instead.
// Form 5: the memory is lent to be written beside a table that is only read: in a struct of both each function would have to promise that the table is as it was.
#![tactic(auto)]

ghost use Rattle.std.specs.Prelude.{◌≡◌, ◌+◌, ◌<◌, ◌^◌, IfSome, get_or, length};
ghost use Rattle.evaluator.specs.EvaluationPromises.{TruthAnswers};
ghost use Rattle.mentions.specs.MentionPromises.{TruthFree};
ghost use Rattle.truths.specs.Promises.{Asked, Answers};
ghost use Rattle.memo.specs.MemoPromises.{Memo, Lists, Behind, KeyOf, AgainAsked};

use evaluator::{SHAPE_BACK, SLOTS, holds};
use form::node;
use mentions::Mention;
use table_nodes::table_shapes;
use truths::truth;

// How many numbers are kept: lists for ENDS places, then CELLS cells.
pub const NUMBERS: usize = 8098;

const ENDS: usize = 4097;

const CELLS: u64 = 4001;

// A list: six bits for each of four slots, the last one lowest, and MADE more. One with more slots is TOO_MANY.
const SLOT: u64 = 64;

const THREE_SLOTS: u64 = 262144;

const TWO_SLOTS: u64 = 4096;

const MADE: u64 = 16777216;

const TOO_MANY: u64 = 1;

// What stands for no slot is a slot that the conjunct does not mention; the list with four of these, and what is in front of a list that has room.
const BLANK: usize = 63;

const ALL_BLANK: u64 = 33554431;

const ROOM: u64 = 127;

// A value's room in a key, where it is raised, so that it is not negative.
const DIGIT: u64 = 4096;

// The list with a slot more, if the conjunct mentions it; none where there is no room for it.
fn with_slot(t: &[u16; node::NUMBERS], end: usize, s: usize, list: u64) -> Option<u64>
    requires { (s < 63) × TruthFree t.now end 63 × Lists t.now end (s + 1) list }
    ensures { IfSome result (λ r. Lists t.now end s r) }
{
    let mention = Mention { table: t, slot: s };
    if mention.free_pred(end) {
        return Some(list);
    }
    if list / THREE_SLOTS != ROOM {
        return None;
    }
    Some(list % THREE_SLOTS * SLOT + s as u64 + MADE)
}

// The slots that the conjunct mentions, if they are at most four.
fn described(t: &[u16; node::NUMBERS], end: usize) -> Option<u64>
    ensures { IfSome result (λ list. Lists t.now end 0 list) }
{
    let blank = Mention {
        table: t,
        slot: BLANK,
    };
    if !blank.free_pred(end) {
        return None;
    }
    let mut list = ALL_BLANK;
    for s in (0..BLANK).rev() {
        list = with_slot(t, end, s, list)?;
    }
    Some(list)
}

// The list of the conjunct whose last node has this number, made where there is none.
fn listed(t: &[u16; node::NUMBERS], number: usize, memo: &mut [u64; NUMBERS]) -> u64
    requires { (number < 4097) × Memo t.now memo.old }
    ensures stands { result ≡ get_or memo.new number 0 }
    ensures remembers { Memo t.now memo.new }
{
    if memo[number] != 0 {
        return memo[number];
    }
    let list = described(t, node::SIZE * number).unwrap_or(TOO_MANY);
    memo[number] = list;
    list
}

// A key with one more value behind it, if there is room for the value.
fn pushed(k: u64, v: i64) -> Option<u64>
    requires { k < 2 ^ 52 }
    ensures { IfSome result (λ r. Behind k v r) }
{
    let x = u64::try_from(v.checked_add(node::RAISED)?).ok()?;
    if x < DIGIT { Some(DIGIT * k + x) } else { None }
}

// The key of a conjunct with the values in the slots of its list; none where it has no list, or a value has no room.
fn key(list: u64, number: usize, slots: &[i64; SLOTS]) -> Option<u64>
    requires { (0 < number) × (number < 4097) × (length slots.now ≡ 64) }
    ensures { IfSome result (λ k. KeyOf list number slots.now k) }
{
    if list < MADE {
        return None;
    }
    let one = pushed(number as u64, slots[(list / THREE_SLOTS % SLOT) as usize])?;
    let two = pushed(one, slots[(list / TWO_SLOTS % SLOT) as usize])?;
    let three = pushed(two, slots[(list / SLOT % SLOT) as usize])?;
    pushed(three, slots[(list % SLOT) as usize])
}

// The truth of the conjunct up to `end` by its key.
fn again(
    t: &[u16; node::NUMBERS],
    end: usize,
    k: u64,
    slots: &mut [i64; SLOTS],
    memo: &mut [u64; NUMBERS],
) -> bool
    requires again_asked { AgainAsked t.now memo.old end k slots.old }
    requires memo { Memo t.now memo.old }
    ensures answers { TruthAnswers t.now end slots.old result }
    ensures kept { slots.new ≡ slots.old }
    ensures remembers { Memo t.now memo.new }
{
    let at = ENDS + (k % CELLS) as usize;
    if memo[at] / 2 == k {
        return memo[at] % 2 == 1;
    }
    let r = holds(t, end, slots);
    memo[at] = 2 * k + u64::from(r);
    r
}

// The same as `truth`, remembered where the conjunct is a quantifier's.
pub fn recall(
    t: &[u16; node::NUMBERS],
    end: usize,
    slots: &mut [i64; SLOTS],
    memo: &mut [u64; NUMBERS],
) -> bool
    requires asked { Asked t.now end slots.old }
    requires memo { Memo t.now memo.old }
    ensures answers { Answers t.now end slots.old result }
    ensures kept { slots.new ≡ slots.old }
    ensures remembers { Memo t.now memo.new }
{
    if t[end - SHAPE_BACK] != table_shapes::QUANTIFIED || end % node::SIZE != 0 {
        return truth(t, end, slots);
    }
    let number = end / node::SIZE;
    let list = listed(t, number, memo);
    let Some(k) = key(list, number, slots) else {
        return truth(t, end, slots);
    };
    again(t, end, k, slots, memo)
}
