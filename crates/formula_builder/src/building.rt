//! The certificates of a history.

ghost use Rattle.std.specs.Prelude.{◌≡◌, ◌≢◌, ◌<◌, ◌≤◌, ◌+◌, ◌*◌, ◌^◌, ℕ, List, length, slice_index, All, AllPairs, IfOk, IfSome, IsNone, ◌↔◌};
ghost use Rattle.sorted_systems.specs.Systems.{IsSystem, system_from, class_in};
ghost use Rattle.refiner.specs.History.{Moment, IsLegal};
ghost use Rattle.refiner.specs.declared.parts.Start.{Start};
ghost use Rattle.formula_builder.specs.SortedLayers.{BlocksAreTold};
ghost use Rattle.formula_builder.specs.Books.{IsBegun};
ghost use Rattle.formula_builder.specs.Making.{book_of};

use crate::notes::Notes;
use edge_store::EdgeStore;
use formulas::Dag;
use iface::Iface;
use refiner::{Refined, Start};
use std::alloc::{AllocError, Global};
use std::marker::Model;

/// Formulas, and which of them is that of each block.
#[derive(Drop)]
pub struct Certificates {
    dag: Dag,
    blocks: Vec<u32>,
    block_of: Vec<u32>,
}

impl Model for Certificates {
    ghost use Rattle.std.specs.Prelude.{◌<◌, length, All};
    ghost use Rattle.formula_builder.specs.Certified.{Certified};

    ghost Value = { Certified };

    ghost view = { λ c. record {
      dag = c.dag;
      blocks = c.blocks.items;
      block_of = c.block_of.items;
    } };

    ghost invariant = { λ c. All (λ b. b < length c.blocks.items) c.block_of.items };
}

impl Certificates {
    /// The formulas.
    pub fn dag(&self) -> &Dag
        ensures { result.now ≡ self.now.dag }
    {
        &self.dag
    }

    /// The formula of the block of sorted state x.
    pub fn block_formula(&self, x: u32) -> u32
        requires { x < length self.now.block_of }
        ensures { result ≡ slice_index self.now.blocks (class_in self.now.block_of x) }
    {
        self.blocks[self.block_of[x as usize] as usize]
    }

    /// The formula of the block of x, where y is in another block. It holds at x and fails at y.
    pub fn separating(&self, x: u32, y: u32) -> Option<u32>
        requires x_is_there { x < length self.now.block_of }
        requires y_is_there { y < length self.now.block_of }
        ensures none { IsNone result ↔
            (class_in self.now.block_of x ≡ class_in self.now.block_of y) }
        ensures formula { IfSome result (λ k.
            k ≡ slice_index self.now.blocks (class_in self.now.block_of x)) }
    {
        if self.block_of[x as usize] == self.block_of[y as usize] {
            return None;
        }
        Some(self.block_formula(x))
    }
}

/// The start blocks, told.
fn started(alloc: Global, start: &[Start], blocks: u32) -> Result<Notes, AllocError>
    requires few { length start.now < 2 ^ 26 }
    requires in_range { All (λ (p : Start). p.block < blocks) start.now }
    requires apart { AllPairs (λ (p : Start). λ (q : Start). p.block ≢ q.block) start.now }
    ensures begun { IfOk result (λ n. IsBegun start.now (book_of n)) }
    ensures one_each { IfOk result (λ n. length n.blocks.items ≡ blocks) }
    ensures one_node_each { IfOk result (λ n. length n.nodes.items ≡ blocks) }
{
    let mut notes = Notes::begun(alloc, blocks)?;
    for p in start {
        notes.tell_start(alloc, p)?;
    }
    Ok(notes)
}

/// The formulas of a legal history of rounds: of each last block a formula that holds at exactly
/// its members. The shapes and edges are the system whose history it is; they are not looked at.
/// There are fewer than 2^26 states. The error is want of memory.
///
/// It takes one step for each start block, round and part, and one for each state.
pub fn build<I: Iface>(
    alloc: Global,
    iface: &I,
    shapes: &[I::Shape],
    store: &EdgeStore<I::Label>,
    refined: &Refined,
) -> Result<Certificates, AllocError>
    requires system { IsSystem (I.node iface.now) (I.kin iface.now) (I.fits iface.now)
        (system_from 0 shapes.now store.now.edges) }
    requires few_states { length shapes.now < 2 ^ 26 }
    requires legal { (first : Moment) × (later : List Moment) ×
        IsLegal (I.node iface.now) (I.value iface.now) (system_from 0 shapes.now store.now.edges)
        refined.now first later }
    ensures told { IfOk result (λ c. BlocksAreTold (I.node iface.now) (I.value iface.now)
        (system_from 0 shapes.now store.now.edges) c.dag c.blocks c.block_of) }
    ensures few { IfOk result (λ c. length c.dag ≤ 6 * length shapes.now + 1) }
    ensures same_blocks { IfOk result (λ c. c.block_of ≡ refined.now.block_of) }
{
    let mut notes = started(alloc, refined.start(), refined.blocks())?;
    for k in 0..refined.rounds() {
        let round = refined.round(k);
        notes.tell_round(alloc, &round)?;
    }
    Ok(Certificates {
        dag: notes.dag,
        blocks: notes.blocks,
        block_of: Vec::from_slice(alloc, refined.block_of())?,
    })
}
