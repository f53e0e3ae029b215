// The refusals of document 01: `Refusal` of specs/Refusals.antt, each under the same name (`refusal_is` of specs/RefusalNames.antt).
ghost use Rattle.std.specs.Prelude.{◌≡◌};
ghost use Rattle.refusals.specs.Refusals.{number_of};
ghost use Rattle.refusals.specs.RefusalNames.{refusal_is};

// Form 1: the refusals of document 01 are cases of their own, no Option or Result.
#[derive(Clone, Copy, Debug, PartialEq, Eq, PartialOrd, Ord)]
pub enum Refusal {
    LongText = 1,
    UnlistedSymbol = 2,
    ManySymbols = 3,
    NoDossier = 4,
    Deep = 5,
    ManyDeclared = 6,
    HeadingDiffers = 7,
    NameInUse = 8,
    NameUnknown = 9,
    TypesMisfit = 10,
    WideType = 11,
    ManyBindings = 12,
    LargeSize = 13,
    ZeroDivisor = 14,
    AdvanceRange = 15,
    ShortBytes = 16,
    NothingHeld = 21,
    SomethingHeld = 22,
    CheckFinished = 23,
    NoCounterexample = 24,
}

impl Refusal {
    // The number that document 01 gives it.
    pub fn number(self) -> u8
        ensures { result ≡ number_of (refusal_is self) }
    {
        self as u8
    }
}

// A refusal that comes from a text, and its place there. Of two the one with the lesser place stands first, and at one place the one with the lesser number.
#[derive(Clone, Copy, Debug, PartialEq, Eq, PartialOrd, Ord)]
pub struct Fault {
    pub place: usize,
    pub refusal: Refusal,
}
