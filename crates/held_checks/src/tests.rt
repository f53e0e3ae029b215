// `told`, which no program calls.
use crate::{Mark, Verdict, told};

// A number for each verdict.
fn number(verdict: Option<Verdict>) -> Option<u8> {
    match verdict? {
        Verdict::Unfinished => Some(0),
        Verdict::Accepted => Some(1),
        Verdict::Refuted(_) => Some(2),
    }
}

#[test]
fn a_mark_tells_its_verdict(rt: HostRuntime) {
    assert_eq!(rt; number(told(Mark::Unfinished)), Some(0));
    assert_eq!(rt; number(told(Mark::Accepted)), Some(1));
    assert_eq!(rt; number(told(Mark::Refuted)), None);
}
