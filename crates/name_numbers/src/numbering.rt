// The names of a text, numbered by the first symbol that has their letters.
//
// The numbers of names that differ stand in a digital tree: slot 2m or 2m + 1 is below node m, by one bit of the letters, and slot 8192 is above all.
// A slot holds a symbol's number and one, or 0. A walk takes a bit of the letters at each node, so it ends within the 128 bits of 16 letters.
// Form 1: 0 is a free slot. The bar is that `read` gets no slower; with an `Option<u16>` in each of the 8,193 slots the scan of the six texts of tests/speed takes
// 1.00 to 1.09 of the time (plain Rust at opt-level 3, best of 200: quantifiers 81 to 88 microseconds). 0 are also the letters of a symbol that is no name, since
// a name has one; the letters of 4,096 symbols as `Option<u128>` would take 128 KB in place of 64.
// Form 5: that i is below 4,096 is asked by five functions. A type for it would be made of the counter of the one loop that asks them, and turned back to a
// number at each place of an array. Letters, tree and what is remembered in one struct would have a fourth part, how many symbols are in it, since `Tree` and
// `Recent` speak of the first i symbols, and each method a clause more, which says what that number is behind it.
ghost use Rattle.std.specs.Prelude.{◌≡◌, cond, ℕ, ◌+◌, ◌≤◌, ◌<◌, eqb, length, drop, get_or};
ghost use Rattle.lexical.specs.Symbols.{run};
ghost use Rattle.lexical.specs.SymbolPromises.{packed, is_name, Rows, walk_from, IsFirst, Tree};
ghost use Rattle.lexical.specs.SymbolPromises.{filled_letters, filled_numbers, filled_values};
ghost use Rattle.name_numbers.specs.RecentNames.{Recent, Recalls, NumberOf};

use lexical::Stop;
use lexical::bounds::SYMBOLS;
use lexical::classes::run_from;
use lexical::codes::is_name;
use lexical::words::packed;

// How many bits the letters of a name have.
const DEEPEST: usize = 128;

// The slot above all, and how many slots the tree has.
const ROOT: usize = 2 * SYMBOLS;

const SLOTS: usize = ROOT + 1;

// How many bytes a name can begin with, and how many names are remembered: one for each.
const LETTERS: u128 = 256;

const RECENT: usize = LETTERS as usize;

// How many letters a name has that begins at `at`; 0 for another symbol.
pub fn name_letters(s: &[u8], code: u8, at: usize) -> usize
    requires { at ≤ length s.now }
    ensures letters { result ≡ cond (is_name code) (length (run (drop at s.now))) 0 }
    ensures inside { at + result ≤ length s.now }
{
    if is_name(code) {
        return run_from(s, at);
    }
    0
}

// The letters of each name, packed as one number; 0 for another symbol.
// Form 6: codes and places are two arrays of fixed length, which the caller of `read` lends (document 01).
// Form 5: text, codes, places and their number go together in `number_names` and here: a struct of these four would be a type more, for this one call.
pub fn pack_names(
    s: &[u8],
    codes: &[u8; SYMBOLS],
    starts: &[u16; SYMBOLS],
    n: usize,
    letters: &mut [u128; SYMBOLS],
)
    requires { Rows s.now codes.now starts.now n }
    ensures { letters.new ≡ filled_letters s.now letters.old }
{
    // Form 3: after an adapter of `iter_mut` (`enumerate`, `zip`) nothing is known of what was written.
    for i in 0..n {
        let at = usize::from(starts[i]);
        let count = name_letters(s, codes[i], at);
        letters[i] = packed(&s[at..at + count]);
    }
}

// The letters of symbol m are a.
pub fn same_letters(letters: &[u128], m: usize, a: u128) -> bool
    requires { m < length letters.now }
    ensures { result ≡ eqb (get_or letters.now m 0) a }
{
    letters[m] == a
}

// The walk by the letters of symbol i.
pub fn walk(letters: &[u128; SYMBOLS], tree: &[u16; SLOTS], i: usize) -> Stop
    requires { (i < 4096) × ((k : ℕ) → get_or tree.now k 0 ≤ 4096) }
    ensures { result ≡ walk_from 128 letters.now tree.now (get_or letters.now i 0) (get_or letters.now i 0) 8192 }
{
    let a = letters[i];
    let mut p = a;
    let mut slot: usize = ROOT;
    for d in 0..DEEPEST {
        let Some(m) = usize::from(tree[slot]).checked_sub(1) else {
            return Stop::Free(slot);
        };
        if same_letters(letters, m, a) {
            return Stop::At(m);
        }
        slot = 2 * m + (p % 2) as usize;
        p /= 2;
    }
    Stop::Deep
}

// The first symbol that has the letters of symbol i, one by one: for a walk that is too deep, which no letters make.
pub fn first_like(letters: &[u128; SYMBOLS], i: usize) -> usize
    requires { i < 4096 }
    ensures { IsFirst letters.now i result }
{
    let a = letters[i];
    letters[..i].iter().position(|b| *b == a).unwrap_or(i)
}

// The number of symbol i, where it is a name: that of the first one with its letters, which is put into the tree if it is i.
pub fn number_of(letters: &[u128; SYMBOLS], tree: &mut [u16; SLOTS], i: usize) -> Option<u16>
    requires { Tree letters.now tree.old i × (i < 4096) }
    ensures { Tree letters.now tree.new (i + 1) × NumberOf letters.now i result }
{
    if letters[i] == 0 {
        return None;
    }
    let w = walk(letters, tree, i);
    match w {
        Stop::At(m) => Some(m as u16),
        Stop::Free(slot) => {
            tree[slot] = (i + 1) as u16;
            Some(i as u16)
        }
        Stop::Deep => Some(first_like(letters, i) as u16),
    }
}

// The first symbol with the letters of symbol i, where it was the last name looked for that begins like it.
pub fn recalled(
    letters: &[u128; SYMBOLS],
    recent: &[Option<u16>; RECENT],
    i: usize,
) -> Option<usize>
    requires { Recent letters.now recent.now i × (i < 4096) }
    ensures { Recalls letters.now i result }
{
    let a = letters[i];
    let m = usize::from(recent[(a % LETTERS) as usize]?);
    same_letters(letters, m, a).then_some(m)
}

// The same as `number_of`: most names were looked for before, and are found without a walk.
pub fn numbered(
    letters: &[u128; SYMBOLS],
    tree: &mut [u16; SLOTS],
    recent: &mut [Option<u16>; RECENT],
    i: usize,
) -> Option<u16>
    requires { Tree letters.now tree.old i × (i < 4096) × Recent letters.now recent.old i }
    ensures { Tree letters.now tree.new (i + 1) × NumberOf letters.now i result × Recent letters.now recent.new (i + 1) }
{
    let a = letters[i];
    if a == 0 {
        return None;
    }
    if let Some(m) = recalled(letters, recent, i) {
        return Some(m as u16);
    }
    let r = number_of(letters, tree, i);
    recent[(a % LETTERS) as usize] = r;
    r
}

// The value of each name: the number of the first symbol that has its letters.
// Form 6: codes, places and values are three arrays of fixed length, which the caller of `read` lends (document 01).
pub fn number_names(
    s: &[u8],
    codes: &[u8; SYMBOLS],
    starts: &[u16; SYMBOLS],
    values: &mut [u16; SYMBOLS],
    n: usize,
)
    requires { Rows s.now codes.now starts.now n × ((i : ℕ) → i < n → get_or values.old i 0 ≡ get_or (filled_numbers s.now) i 0) }
    ensures { values.new ≡ filled_values s.now values.old }
{
    let mut letters = [0u128; SYMBOLS];
    pack_names(s, codes, starts, n, &mut letters);
    let mut tree = [0u16; SLOTS];
    let mut recent = [None; RECENT];
    // Form 3: after an adapter of `iter_mut` (`enumerate`, `zip`) nothing is known of what was written.
    for i in 0..n {
        if let Some(m) = numbered(&letters, &mut tree, &mut recent, i) {
            values[i] = m;
        }
    }
}
