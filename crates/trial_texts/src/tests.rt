//! What no clause says: that texts come out as worked by hand, with ample memory.
use crate::{TrialKind, trial_text};
use std::test::Fail;

#[test]
fn one_state_leads_to_itself(rt: HostRuntime) -> Result<(), Fail> {
    let text = trial_text(rt.alloc(), TrialKind::Dfa, 0, 1)?;
    assert_eq!(rt;
        text.as_slice(),
        b"2 x X^{a,b}\ns0: (1, {a: s0, b: s0})\n".as_slice()
    );
    Ok(())
}

#[test]
fn each_kind_is_drawn_in_its_own_order(rt: HostRuntime) -> Result<(), Fail> {
    let alloc = rt.alloc();
    let moves = trial_text(alloc, TrialKind::Lts, 0, 1)?;
    assert_eq!(rt;
        moves.as_slice(),
        b"P({a,b,c} x X)\ns0: {(a, s0), (b, s0), (c, s0)}\n".as_slice()
    );
    let chances = trial_text(alloc, TrialKind::Chain, 0, 1)?;
    assert_eq!(rt;
        chances.as_slice(),
        b"2 x D X\ns0: (1, {s0: 3/8, s0: 5/8})\n".as_slice()
    );
    let sums = trial_text(alloc, TrialKind::Sums, 7, 2)?;
    assert_eq!(rt;
        sums.as_slice(),
        b"2 x Z^(X)\ns0: (0, {s1: -2, s1: -3, s0: -3})\ns1: (1, {s1: 1, s0: 2})\n".as_slice()
    );
    Ok(())
}
