//! What no clause says: that the calls succeed with ample memory. The expected lists were worked
//! out by hand.

ghost use Rattle.std.specs.Prelude.{◌≡◌, length, IfOk};

use formula_builder::only_cited;
use formulas::{Dag, Formula};
use modalities::Three;
use std::alloc::{AllocError, Global};
use std::test::Fail;

/// Five formulas. Number 2 is cited by none.
fn five(alloc: Global) -> Result<Dag, AllocError>
    ensures { IfOk result (λ dag. length dag ≡ 5) }
{
    let mut dag = Dag::new(alloc);
    dag.push(Formula::True)?;
    dag.push(Formula::At {
        node: 0,
        value: Three::Members(0),
        splitter: 0,
        coarse: 0,
    })?;
    dag.push(Formula::Not(0))?;
    dag.push(Formula::Not(1))?;
    dag.push(Formula::And(0, 3))?;
    Ok(dag)
}

/// The formulas of a list with the numbers that they cite.
fn listed(alloc: Global, dag: &Dag) -> Result<String, AllocError> {
    let mut text = String::new(alloc);
    for k in 0..dag.len() {
        let formula = match dag.formula(k) {
            Formula::True => format!(in alloc; " true")?,
            Formula::Not(i) => format!(in alloc; " not {i}")?,
            Formula::And(i, j) => format!(in alloc; " and {i} {j}")?,
            Formula::At {
                splitter,
                coarse,
                ..
            } => format!(in alloc; " at {splitter} {coarse}")?,
        };
        text.push_str(formula.as_str())?;
    }
    Ok(text)
}

#[test]
fn cited_formulas_are_kept_and_numbered_anew(rt: HostRuntime) -> Result<(), Fail> {
    let alloc = rt.alloc();
    let dag = five(alloc)?;
    assert_eq!(rt;
        listed(alloc, &dag)?.as_str(),
        " true at 0 0 not 0 not 1 and 0 3"
    );
    let wanted = vec![in alloc; 4u32]?;
    let (small, new) = only_cited(alloc, &dag, wanted.as_slice())?;
    assert_eq!(rt;
        listed(alloc, &small)?.as_str(),
        " true at 0 0 not 1 and 0 2"
    );
    assert_eq!(rt; new.as_slice(), [3].as_slice());
    Ok(())
}
