// What a name is in the table of names, and the type of a term: both are a `Kind`, by numbers in contracts (specs/TypesByNumber.antt).
ghost use Rattle.std.specs.Prelude.{◌≡◌, ◌+◌, ◌-◌, ◌≤◌};
ghost use Rattle.type_rules.specs.TypesByNumber.{is_free, is_number, is_given, is_element, is_set, is_pairs, in_reach, element_of, set_of, pair_of, dom_of, ran_of, given_in, element_in, pairs_in};

use lexical::bounds;
use std::marker::Model;

// The numbers: 0 for a name that is not in use, and no type; 1 a number; 2 in use and out of reach; from each of the four below on, a row of as many as
// there are given sets: these; their elements; sets of them; pairs, which have a row for each set.
// Form 1: a name not in use is a case of its own, FREE. That no type is the same is so in the definitions, where a term that is a name has what the table says of it;
// with an Option for types, each look into the table for a type would turn FREE into none, and each type that is written there back.
#[derive(Clone, Copy, PartialEq, Eq, Drop)]
pub struct Kind {
    code: u16,
}

impl Model for Kind {
    ghost use Rattle.std.specs.Prelude.{ℕ};

    ghost Value = { ℕ };

    ghost view = { λ k. k.code };

    ghost inverse = { λ n. record { code = n } };
}

// Where the rows begin.
// Form 1: an enum in the place of the number was tried, with the given sets as fields (`Given(u8)`, .., `Pairs(u8, u8)`). Reading the texts of tests/speed then takes 1.06 to 1.08
// of the time, with fields of 16 bits 1.06 to 1.09, with the two sets of pairs in one field 1.11 to 1.17 (in plain Rust, one run), since a table of numbers is filled at once and one
// of an enum entry by entry. A long sum, the slowest (52 MB in a second in docs/STATUS.md, where 50 are asked: DECISIONS R8), takes 1.07 to 1.12. The enum also wants a case that no
// name is, for `given_set` of 0, and an equality written by hand, since a derived one would compare what `inverse` gives.
const GIVEN: u16 = 8;

const ELEMENT: u16 = 16;

const SET: u16 = 32;

const PAIRS: u16 = 64;

// How many given sets there are at most.
pub const ROW: u16 = bounds::GIVEN_SETS as u16;

// From a given set to its elements, and from an element to the sets over its given set.
const TO_ELEMENT: u16 = ELEMENT - GIVEN;

const TO_SET: u16 = SET - ELEMENT;

// A name that is not in use.
pub const FREE: Kind = Kind { code: 0 };

// No type.
pub const NONE: Kind = FREE;

pub const NUMBER: Kind = Kind { code: 1 };

// In use, and out of reach.
pub const USED: Kind = Kind { code: 2 };

impl Kind {
    // The kind of a number, whichever it is: what a table has of a name may be any.
    pub fn of_number(code: u16) -> Kind
        ensures { result ≡ code }
    {
        Kind { code }
    }

    // Form 4: the derived comparison under the name that the definitions have; `k == entries::FREE` at the calls would say by numbers in each contract what `is_free` says there.
    pub fn is_free(self) -> bool
        ensures { result ≡ is_free self }
    {
        self == FREE
    }

    // Form 4: as `is_free`.
    pub fn is_number(self) -> bool
        ensures { result ≡ is_number self }
    {
        self == NUMBER
    }

    pub fn is_given(self) -> bool
        ensures { result ≡ is_given self }
    {
        (GIVEN..ELEMENT).contains(&self.code)
    }

    pub fn is_element(self) -> bool
        ensures { result ≡ is_element self }
    {
        (ELEMENT..SET).contains(&self.code)
    }

    // A set, of elements or of pairs.
    pub fn is_set(self) -> bool
        ensures { result ≡ is_set self }
    {
        SET <= self.code
    }

    pub fn is_pairs(self) -> bool
        ensures { result ≡ is_pairs self }
    {
        PAIRS <= self.code
    }

    // A name of this kind stands for a value.
    pub fn in_reach(self) -> bool
        ensures { result ≡ in_reach self }
    {
        self.is_number() || ELEMENT <= self.code
    }

    // Elements of a given set; sets of such elements; sets of pairs of two elements; the sets of the two sides of pairs. Others are of no type.
    pub fn element_of(self) -> Kind
        ensures { result ≡ element_of self }
    {
        if self.is_given() {
            return Kind {
                code: self.code + TO_ELEMENT,
            };
        }
        NONE
    }

    // Form 2: `element_of` with another test and another step; one function for both would be handed the two.
    pub fn set_of(self) -> Kind
        ensures { result ≡ set_of self }
    {
        if self.is_element() {
            return Kind {
                code: self.code + TO_SET,
            };
        }
        NONE
    }

    pub fn pair_with(self, second: Kind) -> Kind
        ensures { result ≡ pair_of self second }
    {
        if self.is_element() && second.is_element() {
            return Kind {
                code: PAIRS + ROW * (self.code - ELEMENT) + (second.code - ELEMENT),
            };
        }
        NONE
    }

    pub fn dom_of(self) -> Kind
        ensures { result ≡ dom_of self }
    {
        if self.is_pairs() {
            return Kind {
                code: SET + (self.code - PAIRS) / ROW,
            };
        }
        NONE
    }

    // Form 2: `dom_of` with the rest in place of the quotient; one function for both would be handed which of the two, a closure over one operator.
    pub fn ran_of(self) -> Kind
        ensures { result ≡ ran_of self }
    {
        if self.is_pairs() {
            return Kind {
                code: SET + (self.code - PAIRS) % ROW,
            };
        }
        NONE
    }

    // Which given set it is; of which one it is an element; of which two elements it has pairs.
    pub fn given(self) -> Option<u16>
        ensures { result ≡ given_in self }
    {
        self.is_given().then_some(self.code.saturating_sub(GIVEN))
    }

    pub fn element(self) -> Option<u16>
        ensures { result ≡ element_in self }
    {
        self.is_element()
            .then_some(self.code.saturating_sub(ELEMENT))
    }

    pub fn pairs(self) -> Option<(u16, u16)>
        ensures { result ≡ pairs_in self }
    {
        let x = self.code.saturating_sub(PAIRS);
        self.is_pairs().then_some((x / ROW, x % ROW))
    }

    // How far behind the first given set it stands; what stands in front of that one has 0.
    // Form 1: by `given`, `size_of` of binding_counts would be `k.given().map_or(0, ..)`, and 0 for a kind that is no given set, where `size_at` of its specs/BindingsByNumber,
    // by which `bindings` says what its caller has to show of the tables, has what stands at k - 8: `bindings` would ask more.
    pub fn from_first_given(self) -> u16
        ensures { result ≡ self - 8 }
    {
        self.code.saturating_sub(GIVEN)
    }
}

// The given set g, counted from 1, and an element of it.
pub fn given_set(g: u8) -> Kind
    ensures { result ≡ 7 + g }
{
    Kind {
        code: GIVEN - 1 + u16::from(g),
    }
}

pub fn element_of_set(g: u8) -> Kind
    ensures { result ≡ 15 + g }
{
    Kind {
        code: ELEMENT - 1 + u16::from(g),
    }
}
