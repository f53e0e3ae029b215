// Sets as bits, and division that rounds toward minus infinity. A set is a `u16`: no set has more than 16 bits (document 01, numbers 6 and 11).
#![tactic(auto)]

ghost use Rattle.std.specs.Prelude.{◌≡◌, ◌<◌, ◌≤◌, ◌/◌, ◌%◌, ◌^◌};
ghost use Rattle.sets.specs.Sets.{has, union, without, inter, single, size, pair, dom, ran};
ghost use Rattle.sets.specs.Division.{floor_div, floor_mod};

// The bits of a set, and as many as a place of a pair.
// Form 4: a constant's value calls no function, so that `as` stands in it.
pub const BITS: u32 = 16;

pub const PLACES: u64 = BITS as u64;

// Is k a member of s?
pub fn has(s: u16, k: u64) -> bool
    ensures { result ≡ has s k }
{
    k < PLACES && (s >> k) % 2 == 1
}

pub fn union(s: u16, t: u16) -> u16
    ensures { result ≡ union s t }
{
    s | t
}

pub fn without(s: u16, t: u16) -> u16
    ensures { result ≡ without s t }
{
    s & !t
}

pub fn inter(s: u16, t: u16) -> u16
    ensures { result ≡ inter s t }
{
    s & t
}

// The set of k alone; of a k past the last bit there is none.
pub fn single(k: u32) -> u16
    ensures { (k < 16 → result ≡ single k) × (16 ≤ k → result ≡ 0) }
{
    1u16.checked_shl(k).unwrap_or(0)
}

// How many members s has.
pub fn size(s: u16) -> u32
    ensures { result ≡ size s }
{
    u16::count_ones(s)
}

// The bit of the pair (i, j), where the second set has m elements.
pub fn pair(m: u32, i: u32, j: u32) -> u64
    ensures { result ≡ pair m i j }
{
    u64::from(i) * u64::from(m) + u64::from(j)
}

// The m bits of s from a place on, moved down to the lowest.
pub fn row(s: u16, from: u64, m: u32) -> u16
    ensures { result ≡ s / 2 ^ from % 2 ^ m }
{
    if from >= PLACES {
        return 0;
    }
    let t = s >> from;
    if m >= BITS {
        return t;
    }
    t % (1 << m)
}

// The first sides of a set of pairs between sets of n and of m elements. As many rows as the word has bits are enough: the others are empty.
// Form 2: `points::masks::mask_of` makes such a mask over usize into 64 bits; with it the loop of three lines would be a closure with three conversions (`n`,
// `i`, the mask).
pub fn dom(n: u32, m: u32, s: u16) -> u16
    ensures { result ≡ dom n m s }
{
    let top = n.min(BITS);
    let mut r: u16 = 0;
    for i in 0..top {
        if row(s, pair(m, i, 0), m) != 0 {
            r += 1 << i;
        }
    }
    r
}

// The second sides.
// Form 3: by `(0..top).fold(0, |r: u16, i: u32| r | row(s, pair(m, i, 0), m))` the answer stays open (`returns`): `fold` promises it over the list of all i.
pub fn ran(n: u32, m: u32, s: u16) -> u16
    ensures { result ≡ ran n m s }
{
    let top = n.min(BITS);
    let mut r: u16 = 0;
    for i in 0..top {
        r |= row(s, pair(m, i, 0), m);
    }
    r
}

// x div y, rounded toward minus infinity: the library's `div_euclid` rounds so where the divisor is above 0, and both signs are turned where it is below.
// Form 1: it is total, as the definition is, which by 0 makes -1 of an x below 0 and 0 of any other; no dossier divides by 0 (document 01, number 14).
pub fn floor_div(x: i32, y: i32) -> i64
    ensures { result ≡ floor_div x y }
{
    let (a, b) = (i64::from(x), i64::from(y));
    let (a, b) = if b < 0 { (-a, -b) } else { (a, b) };
    a.checked_div_euclid(b)
        .unwrap_or(if a < 0 { -1 } else { 0 })
}

// x mod y: what x div y leaves. By 0 it leaves x.
pub fn floor_mod(x: i32, y: i32) -> i64
    ensures { result ≡ floor_mod x y }
{
    i64::from(x) - floor_div(x, y) * i64::from(y)
}
