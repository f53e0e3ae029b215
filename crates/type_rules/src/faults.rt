// The least fault of a walk in one number, its key (specs/TypesByNumber.antt).
ghost use Rattle.std.specs.Prelude.{◌≡◌, ◌<◌, None, Some};
ghost use Rattle.std.specs.Option.{option_or};
ghost use Rattle.refusals.specs.Refusals.{number_of};
ghost use Rattle.refusals.specs.RefusalNames.{refusal_is};
ghost use Rattle.type_rules.specs.TypesByNumber.{key, fault_key, unless_key, lesser};

use lexical::classes::at_or;
use refusals::{Fault, Refusal};
use std::marker::Model;

// The least fault that a walk finds in a tree, or none; contracts see the `Option` that `get` answers.
// Form 1: in the key 0 is none. With an `Option<Fault>` in its place, whose parts are written one by one and copied as a whole at each node, reading a long text takes up to 1.5 times
// the time (docs/DESIGN-PASS.md).
#[derive(Clone, Copy, Drop)]
pub struct LeastFault {
    key: u32,
}

impl Model for LeastFault {
    ghost use Rattle.std.specs.Prelude.{◌≡◌, Option};
    ghost use Rattle.std.proofs.Common.{ap};
    ghost use Rattle.refusals.specs.declared.Fault.{Fault};

    ghost Value = { Option Fault };

    ghost use Rattle.type_rules.specs.TypesByNumber.{fault_key};
    ghost use Rattle.type_rules.specs.FaultKeys.{fault_keyed};

    ghost view = { λ a. fault_keyed a.key };

    ghost invariant = { λ a. fault_key (fault_keyed a.key) ≡ a.key };

    ghost inverse = { λ f. record { key = fault_key f } };

    ghost inverse_ok = { λ a h. ap (λ k. record { key = k }) h };
}

// How many numbers of refusals a key has room for at one place.
const ROOM: u32 = 32;

// The refusals by their numbers; the first one where a number has none.
const BY_NUMBER: [Refusal; 25] = [
    Refusal::LongText,
    Refusal::LongText,
    Refusal::UnlistedSymbol,
    Refusal::ManySymbols,
    Refusal::NoDossier,
    Refusal::Deep,
    Refusal::ManyDeclared,
    Refusal::HeadingDiffers,
    Refusal::NameInUse,
    Refusal::NameUnknown,
    Refusal::TypesMisfit,
    Refusal::WideType,
    Refusal::ManyBindings,
    Refusal::LargeSize,
    Refusal::ZeroDivisor,
    Refusal::AdvanceRange,
    Refusal::ShortBytes,
    Refusal::LongText,
    Refusal::LongText,
    Refusal::LongText,
    Refusal::LongText,
    Refusal::NothingHeld,
    Refusal::SomethingHeld,
    Refusal::CheckFinished,
    Refusal::NoCounterexample,
];

impl LeastFault {
    pub fn none() -> LeastFault
        ensures { result ≡ None }
    {
        LeastFault { key: 0 }
    }

    // The fault at a place.
    fn at(place: u32, refusal: Refusal) -> LeastFault
        requires { key place (number_of (refusal_is refusal)) < 4294967296 }
        ensures { result ≡ Some (record { place = place; refusal = refusal }) }
    {
        LeastFault {
            key: place * ROOM + u32::from(refusal.number()) + 1,
        }
    }

    // The fault at a place, unless all is well. The sum of any two numbers of 16 bits, and 1, is such a place.
    // Form 7: `ok` is what a rule says; without this function each of its seven calls would ask by itself whether there is a fault.
    pub fn unless(ok: bool, place: u32, refusal: Refusal) -> LeastFault
        requires { place < 262144 }
        ensures { fault_key result ≡ unless_key ok (key place (number_of (refusal_is refusal))) }
    {
        if ok {
            return LeastFault::none();
        }
        LeastFault::at(place, refusal)
    }

    // The same fault, whose key has 32 bits.
    pub fn of(fault: Option<Fault>) -> LeastFault
        requires { fault_key fault < 4294967296 }
        ensures { result ≡ fault }
    {
        match fault {
            Some(f) => LeastFault::at(f.place as u32, f.refusal),
            None => LeastFault::none(),
        }
    }

    // The lesser of two.
    pub fn lesser(self, other: LeastFault) -> LeastFault
        ensures { fault_key result ≡ lesser (fault_key self) (fault_key other) }
    {
        if self.key == 0 {
            return other;
        }
        if other.key == 0 {
            return self;
        }
        if other.key < self.key {
            return other;
        }
        self
    }

    // The first of two, where there is one.
    pub fn or(self, next: LeastFault) -> LeastFault
        ensures { result ≡ option_or self next }
    {
        if self.key == 0 {
            return next;
        }
        self
    }

    pub fn get(self) -> Option<Fault>
        ensures { result ≡ self }
    {
        let key = self.key.checked_sub(1)?;
        Some(Fault {
            place: (key / ROOM) as usize,
            refusal: at_or(&BY_NUMBER, (key % ROOM) as usize, Refusal::LongText),
        })
    }
}
