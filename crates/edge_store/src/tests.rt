//! Random builds beside the plain list of edges.

ghost use Rattle.std.specs.Prelude.{◌<◌, ◌≤◌, ◌^◌, length, IfOk, All, AllPairs};
ghost use Rattle.edge_store.specs.Edges.{sources_of, targets_of};

use super::*;
use std::alloc::{AllocError, Global};
use std::process::Abort;
use std::test::Fail;

#[test]
fn four_edges_of_three_states(rt: HostRuntime) -> Result<(), Fail> {
    let edges = vec![in rt.alloc();
        Edge {
            source: 0,
            label: 'a',
            target: 2
        },
        Edge {
            source: 0,
            label: 'b',
            target: 0
        },
        Edge {
            source: 2,
            label: 'c',
            target: 2
        },
        Edge {
            source: 2,
            label: 'd',
            target: 0
        },
    ]?;
    let store = EdgeStore::build(rt.alloc(), 3, edges)?;
    assert_eq!(rt; store.len(), 4);
    assert_eq!(rt; store.states(), 3);
    assert_eq!(rt; store.labels(), ['a', 'b', 'c', 'd'].as_slice());
    assert_eq!(rt; store.from_state(0), ['a', 'b'].as_slice());
    assert_eq!(rt; store.from_state(1), [].as_slice());
    assert_eq!(rt; store.from_state(2), ['c', 'd'].as_slice());
    assert_eq!(rt; store.first_from(2), 2);
    assert_eq!(rt; store.into_state(0), [1, 3].as_slice());
    assert_eq!(rt; store.into_state(1), [].as_slice());
    assert_eq!(rt; store.into_state(2), [0, 2].as_slice());
    assert_eq!(rt;
        (store.source(1), *store.label(1), store.target(1)),
        (0, 'b', 0)
    );
    Ok(())
}

/// A number below n, by a linear congruence.
fn below(seed: &mut u64, n: u32) -> u32
    requires { 0 < n }
    ensures { result < n }
{
    *seed = seed
        .wrapping_mul(6364136223846793005)
        .wrapping_add(1442695040888963407);
    ((*seed >> 33) % n as u64) as u32
}

/// Some edges between n states, each with its number for a label.
fn random_edges(
    alloc: Global,
    seed: &mut u64,
    n: u32,
    wanted: u32,
) -> Result<Vec<Edge<u32>>, AllocError>
    requires some { 0 < n }
    requires small { n < 2 ^ 26 }
    requires few { wanted < 2 ^ 26 }
    ensures few { IfOk result (λ v. length v.items < 2 ^ 26) }
    ensures ascending { IfOk result (λ v. AllPairs (λ a b. a ≤ b) (sources_of v.items)) }
    ensures sources_in { IfOk result (λ v. All (λ s. s < n) (sources_of v.items)) }
    ensures targets_in { IfOk result (λ v. All (λ t. t < n) (targets_of v.items)) }
{
    let mut edges = Vec::with_capacity(alloc, wanted as usize)?;
    let mut source = 0;
    for label in 0..wanted {
        if source + 1 < n {
            source += below(seed, 2);
        }
        let target = below(seed, n);
        edges.push(Edge {
            source,
            label,
            target,
        })?;
    }
    Ok(edges)
}

fn compare(
    rt: &impl Abort,
    alloc: Global,
    store: &EdgeStore<u32>,
    edges: &[Edge<u32>],
) -> Result<(), AllocError> {
    assert_eq!(rt; store.len() as usize, edges.len());
    let mut before = 0;
    for x in 0..store.states() {
        let mut from = Vec::new(alloc);
        let mut into = Vec::new(alloc);
        for edge in edges {
            if edge.source == x {
                from.push(edge.label)?;
            }
            if edge.target == x {
                into.push(edge.label)?;
            }
        }
        assert_eq!(rt; store.from_state(x), from.as_slice(), "from {x}");
        assert_eq!(rt; store.into_state(x), into.as_slice(), "into {x}");
        assert_eq!(rt; store.first_from(x) as u64, before);
        before = before.wrapping_add(from.len() as u64);
    }
    for e in 0..store.len() {
        let kept = Edge {
            source: store.source(e),
            label: *store.label(e),
            target: store.target(e),
        };
        assert_eq!(rt; Some(&kept), edges.get(e as usize));
    }
    Ok(())
}

#[test]
fn random_edges_are_lent_by_source_and_by_target(rt: HostRuntime) -> Result<(), Fail> {
    let mut seed = 7;
    for run in 0..3000 {
        let edges = random_edges(rt.alloc(), &mut seed, 1 + run % 13, run % 29)?;
        let copy = edges.clone()?;
        let store = EdgeStore::build(rt.alloc(), 1 + run % 13, edges)?;
        compare(&rt, rt.alloc(), &store, copy.as_slice())?;
    }
    let none = EdgeStore::<u32>::build(rt.alloc(), 0, Vec::new(rt.alloc()))?;
    compare(&rt, rt.alloc(), &none, [].as_slice())?;
    Ok(())
}
