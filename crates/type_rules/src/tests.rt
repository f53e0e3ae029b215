// `judge` and `bound_fault`, which no crate calls: faults at any place, also at those that no `LeastFault` has.
use crate::entries::{FREE, NUMBER};
use crate::kinds::{bound_fault, judge};
use refusals::{Fault, Refusal};

// A place that no text has.
const FAR: usize = 1 << 40;

fn fault(place: usize, refusal: Refusal) -> Option<Fault> {
    Some(Fault { place, refusal })
}

#[test]
fn a_whole_is_judged_behind_its_parts(rt: HostRuntime) {
    let misfit = Refusal::TypesMisfit;
    let far = fault(FAR, Refusal::NameUnknown);
    assert_eq!(rt; judge(true, 5, misfit, None), None);
    assert_eq!(rt; judge(false, 5, misfit, None), fault(5, misfit));
    assert_eq!(rt; judge(true, 5, misfit, far), far);
    assert_eq!(rt; judge(false, 5, misfit, far), far);
}

#[test]
fn a_bound_name_comes_before_its_reach(rt: HostRuntime) {
    let used = fault(8, Refusal::NameInUse);
    let over = fault(9, Refusal::WideType);
    let body = fault(FAR, Refusal::TypesMisfit);
    assert_eq!(rt; bound_fault(7, FREE, None, None), None);
    assert_eq!(rt; bound_fault(7, FREE, None, body), body);
    assert_eq!(rt; bound_fault(7, FREE, over, body), over);
    assert_eq!(rt; bound_fault(7, NUMBER, over, body), used);
    assert_eq!(rt;
        bound_fault(7, NUMBER, fault(6, Refusal::WideType), body),
        fault(6, Refusal::WideType)
    );
}
