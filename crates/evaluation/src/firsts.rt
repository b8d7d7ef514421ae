//! Where the edges of each structure begin, where sources ascend.

ghost use Rattle.std.specs.Prelude.{◌≡◌, ◌≤◌, ◌<◌, ◌^◌, length, IfOk, AllPairs};
ghost use Rattle.edge_store.specs.Edges.{below};
ghost use Rattle.edge_store.specs.Stored.{AreStarts};

use std::alloc::{AllocError, Global};

/// How many sources are below a number, where so many are known to be.
fn smaller_sources(sources: &[u32], x: usize, known: usize) -> usize
    requires ascending { AllPairs (λ a b. a ≤ b) sources.now }
    requires known { known ≤ below x sources.now }
    ensures { result ≡ below x sources.now }
{
    let mut at = known;
    while at < sources.len() && (sources[at] as usize) < x {
        at += 1;
    }
    at
}

/// Where the edges of each of so many structures begin, and where those of the last one end.
pub(crate) fn first_edges(
    alloc: Global,
    count: usize,
    sources: &[u32],
) -> Result<Vec<u32>, AllocError>
    requires ascending { AllPairs (λ a b. a ≤ b) sources.now }
    requires few { count < 2 ^ 26 }
    requires few_edges { length sources.now < 2 ^ 26 }
    ensures { IfOk result (λ v. AreStarts count sources.now v.items) }
{
    let mut firsts = Vec::with_capacity(alloc, count + 1)?;
    let mut at = 0;
    for x in 0..count + 1 {
        at = smaller_sources(sources, x, at);
        firsts.push(at as u32)?;
    }
    Ok(firsts)
}
