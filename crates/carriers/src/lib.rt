// The k-th value of a carrier, in the fixed order. An element, a subset and a relation is k itself.
#![tactic(auto)]

ghost use Rattle.std.specs.Prelude.{◌≡◌, true, false, ◌*◌, ◌^◌, ◌<◌, ◌≤◌, pos, ◌+ℤ◌};
ghost use Rattle.meaning.specs.FormTree.{partial, total};
ghost use Rattle.meaning.specs.StaticRulesCarriers.{arrow_count};
ghost use Rattle.carriers.specs.ValuesByNumber.{Room, choices, mask_at, partial_mask, total_mask, digit};
ghost use Rattle.carriers.specs.FunctionKinds.{least_of};

// The k-th number of a range from a on.
// No function of these crates calls it or `digit`: searches read a range's number from the cells and walk bindings in their order. They stand for who has a value's or a
// binding's number, and promise the words of specs/ValuesByNumber for it (`value_at` of a range, `binding_at`).
pub fn number_at(a: i32, k: u32) -> i64
    ensures { result ≡ a +ℤ pos k }
{
    i64::from(a) + i64::from(k)
}

// Which functions: a row of a partial one may be without a bit.
// Form 1: two cases of its own, no Option or Result.
#[derive(Clone, Copy)]
enum Functions {
    Partial,
    Total,
}

impl Functions {
    // How many bits a row has at least.
    fn least(self) -> u32
        ensures { result ≡ least_of self }
    {
        match self {
            Functions::Partial => 0,
            Functions::Total => 1,
        }
    }
}

// Do n rows of m bits fit a set, and can a row have the bits that these functions ask? Rows of more bits than a set has fit only where there are none.
fn room(f: Functions, n: u32, m: u32) -> bool
    ensures { (result ≡ true → Room (least_of f) n m) × (result ≡ false → least_of f ≤ m → n * m ≤ 16 → n ≡ 0) }
{
    (f.least()..=sets::BITS).contains(&m) && sets::pair(m, n, 0) <= sets::PLACES
}

// The k-th set of n rows of m bits, each with one bit at most and as many at least as the functions ask: the digits of k say which bit, the first row's the
// lowest.
// Form 1: where a set cannot hold the pairs it is the empty function, and `count_at` counts that one: no value is missing, and with an Option each of the public functions over them
// would turn `None` back into these numbers, which they promise.
fn mask_at(f: Functions, n: u32, m: u32, k: u32) -> u16
    ensures { (least_of f ≤ m → n * m ≤ 16 → result ≡ mask_at (least_of f) n m k) × (16 < n * m → result ≡ 0) × (m < least_of f → result ≡ 0) }
{
    if !room(f, n, m) {
        return 0;
    }
    let least = f.least();
    let base = m + 1 - least;
    let mut rest = k;
    let mut r: u16 = 0;
    for i in 0..n {
        let d = rest % base + least;
        if d != 0 {
            r += sets::single(i * m + d - 1);
        }
        rest /= base;
    }
    r
}

// The k-th partial function from n elements to m; where a set cannot hold the pairs, none.
pub fn partial_mask(n: u32, m: u32, k: u32) -> u16
    ensures { (n * m ≤ 16 → result ≡ partial_mask n m k) × (16 < n * m → result ≡ 0) }
{
    mask_at(Functions::Partial, n, m, k)
}

// The k-th total function from n elements to m; where a set cannot hold the pairs, or there is nothing to go to, none.
pub fn total_mask(n: u32, m: u32, k: u32) -> u16
    ensures { (0 < m → n * m ≤ 16 → result ≡ total_mask n m k) × (16 < n * m → result ≡ 0) × (m ≡ 0 → result ≡ 0) }
{
    mask_at(Functions::Total, n, m, k)
}

// How many sets of n rows of m bits there are, each row with one bit at most and as many at least as the functions ask.
// Form 1: as `mask_at`.
fn count_at(f: Functions, n: u32, m: u32) -> u32
    ensures { (least_of f ≤ m → n * m ≤ 16 → result ≡ choices (least_of f) m ^ n) × (16 < n * m → result ≡ 1) × (m < least_of f → result ≡ 1) }
{
    if !room(f, n, m) {
        return 1;
    }
    let least = f.least();
    let base = m + 1 - least;
    base.pow(n)
}

// How many partial functions there are from n elements to m; where a set cannot hold the pairs, the empty one alone.
pub fn partial_count(n: u32, m: u32) -> u32
    ensures { (n * m ≤ 16 → result ≡ arrow_count partial n m) × (16 < n * m → result ≡ 1) }
{
    count_at(Functions::Partial, n, m)
}

// How many total functions, with the same for what a set cannot hold.
pub fn total_count(n: u32, m: u32) -> u32
    ensures { (0 < m → n * m ≤ 16 → result ≡ arrow_count total n m) × (16 < n * m → result ≡ 1) × (m ≡ 0 → result ≡ 1) }
{
    count_at(Functions::Total, n, m)
}

// The digit of a variable with `count` values in the number k of a binding, where those after it have `stride` bindings.
// Form 1: the answer where stride or count is 0, which no variable has, is no sign of none: the definitions' numbers are total, and by 0 a quotient is 0 and
// all is left as the remainder. An Option would ask each caller for a case that it does not have.
pub fn digit(stride: u32, count: u32, k: u32) -> u32
    ensures { result ≡ digit stride count k }
{
    let Some(q) = k.checked_div(stride) else {
        return 0;
    };
    q.checked_rem(count).unwrap_or(q)
}
