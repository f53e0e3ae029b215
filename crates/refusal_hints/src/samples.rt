// Number 4: which symbols could stand at a place. Each is tried there, behind a blank and with nothing behind it; where that is not refused by 4 at the same symbol, some dossier goes on so.
ghost use Rattle.std.specs.Prelude.{◌≡◌, None, IfSome, true, false};

use bounded_texts::BoundedText;
use phrases::texts::{CODES, word};
use phrases::words::SPELLINGS;
use refusals::{Fault, Refusal};
use text_places::Span;
use tried_texts::{TRIAL, tried};

// Words that are tried in a text: as many bytes as tell of a text that it is too long.
pub type Sample = BoundedText<TRIAL>;

// Symbols that stand for a number and for names, by their codes from 1 on.
const STAND_INS: &[u8] = b"0 x x' x? x! ";

// Form 1: counts and bounds of codes, no kinds.
const CLASSES: usize = 5;

// The codes behind these stand for no symbol, up to the first mark's.
const FIRST_MARK: usize = 9;

// Is a text read on past a fault, by this answer: is it not refused so? Refusals before the least one say nothing of it.
pub fn is_past(answer: Option<Fault>, least: Refusal, fault: Fault) -> bool
    ensures read { answer ≡ None → result ≡ true }
    ensures refused_there { IfSome answer (λ f. (f.refusal ≡ fault.refusal) × (f.place ≡ fault.place) → result ≡ false) }
{
    answer.is_none_or(|f| least <= f.refusal && f != fault)
}

// Could a symbol of the code that is one more stand there?
fn stands(text: &[u8], p: usize, code: usize) -> bool {
    let mut sample = Sample::new();
    sample.put(b' ');
    if code < CLASSES {
        sample.put_all(word(STAND_INS, code));
    } else {
        sample.put_all(word(SPELLINGS, code));
    }
    let rest = Span {
        from: p,
        to: text.len(),
    };
    let answer = tried(text, rest, sample.as_slice());
    let fault = Fault {
        refusal: Refusal::NoDossier,
        place: p.saturating_add(1),
    };
    is_past(answer, Refusal::NoDossier, fault)
}

// The bits of all that could stand there.
pub fn could_stand(text: &[u8], p: usize) -> usize {
    (0..CODES)
        .filter(|&code| (code < CLASSES || FIRST_MARK <= code) && stands(text, p, code))
        .fold(0, |bits: usize, code| bits | 1 << code)
}
