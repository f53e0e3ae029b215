// Texts that are tried: what reading answers for a text with other words in some place. An explanation says of a refused text what could stand where it was refused, and each of these sayings
// is the answer for one such text.
#![tactic(auto)]

ghost use Rattle.std.specs.Prelude.{length, take, min};
ghost use Rattle.tried_texts.specs.TrialPromises.{AnswerOf, instead};

use bounded_texts::BoundedText;
use lexical::bounds::TEXT_FRONT;
use refusals::Fault;
use text_places::{Span, before};
use text_readings::Arrays;

// How much of a text is tried.
pub const TRIAL: usize = TEXT_FRONT;

// The fault of a text, if it is not read.
pub fn answer_of(text: &[u8]) -> Option<Fault>
    ensures { AnswerOf text.now result }
{
    let mut a = Arrays::new();
    a.read(text).err()
}

// What reading answers for the text with other words in the place of a span.
pub fn tried(text: &[u8], s: Span, words: &[u8]) -> Option<Fault>
    ensures { AnswerOf (instead text.now s.from s.to words.now) result }
{
    let mut other: BoundedText<TRIAL> = BoundedText::new();
    let behind = s.to.min(text.len());
    other.put_all(before(text, s.from));
    other.put_all(words);
    other.put_all(&text[behind..]);
    answer_of(other.as_slice())
}

// The same with the first n bytes of some words. No crate here calls it: it stands for callers elsewhere, to whom it was public before.
pub fn tried_front(text: &[u8], s: Span, words: &[u8], n: usize) -> Option<Fault>
    ensures { AnswerOf (instead text.now s.from s.to (take (min n (length words.now)) words.now)) result }
{
    tried(text, s, before(words, n))
}
