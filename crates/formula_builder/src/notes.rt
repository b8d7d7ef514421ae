//! What is written down along a history.

ghost use Rattle.std.specs.Prelude.{◌≡◌, ◌≢◌, ◌<◌, ◌+◌, ◌*◌, ◌^◌, ℕ, List, [], ◌∷◌, ◌++◌, length, slice_index, All, AllPairs, IfOk, OnOk};
ghost use Rattle.formulas.specs.Formulas.{CitesBelow, IsDag};
ghost use Rattle.refiner.specs.declared.parts.Start.{Start};
ghost use Rattle.formula_builder.specs.Books.{IsBegun, IsRoundTold};
ghost use Rattle.formula_builder.specs.Making.{book_of, ArePartsTold, AreSplitsTold, AreStartsTold};
ghost use Rattle.formula_builder.specs.Making.{IsSplitTellable, IsTellable};
ghost use Rattle.formula_builder.specs.Making.{split_seen, round_seen};

use formulas::{Dag, Formula};
use refiner::{Part, Round, Split, Start};
use std::alloc::{AllocError, Global};

/// The formulas so far. By its number, each block has a formula and the node of its members, and
/// each coarse block has a formula.
#[derive(Drop)]
pub(crate) struct Notes {
    pub(crate) dag: Dag,
    pub(crate) blocks: Vec<u32>,
    pub(crate) nodes: Vec<u32>,
    pub(crate) coarse: Vec<u32>,
}

/// Puts a formula last.
fn put(dag: &mut Dag, formula: Formula) -> Result<u32, AllocError>
    requires cites { CitesBelow (length dag.old) formula }
    requires room { length dag.old + 1 < 2 ^ 32 }
    ensures last { IfOk result (λ k. (k ≡ length dag.old) × (dag.new ≡ dag.old ++ formula ∷ [])) }
    ensures ordered { IfOk result (λ _. IsDag dag.new) }
{
    let k = dag.push(formula)?;
    // The formulas stand in their order.
    dag.is_dag();
    Ok(k)
}

impl Notes {
    /// Nothing but the formula that always holds, which is that of coarse block 0, and room for so
    /// many blocks.
    pub(crate) fn begun(alloc: Global, blocks: u32) -> Result<Notes, AllocError>
        ensures starts { IfOk result (λ n. AreStartsTold (book_of n) []) }
        ensures coarse { IfOk result (λ n. n.coarse.items ≡ 0 ∷ []) }
        ensures one_each { IfOk result (λ n. length n.blocks.items ≡ blocks) }
        ensures one_node_each { IfOk result (λ n. length n.nodes.items ≡ blocks) }
    {
        let mut dag = Dag::new(alloc);
        let top = put(&mut dag, Formula::True)?;
        Ok(Notes {
            dag,
            blocks: vec![in alloc; 0u32; blocks as usize]?,
            nodes: vec![in alloc; 0u32; blocks as usize]?,
            coarse: vec![in alloc; top]?,
        })
    }

    /// Tells a start block: a modality over the formula that always holds.
    pub(crate) fn tell_start(&mut self, alloc: Global, start: &Start) -> Result<(), AllocError>
        requires some { 0 < length self.old.dag }
        requires room { length self.old.dag + 1 < 2 ^ 32 }
        requires in_range { start.now.block < length self.old.blocks.items }
        requires one_node_each { length self.old.nodes.items ≡ length self.old.blocks.items }
        ensures told { OnOk result ((starts : List Start) →
            All (λ (p : Start). p.block ≢ start.now.block) starts →
            AreStartsTold (book_of self.old) starts →
            AreStartsTold (book_of self.new) (starts ++ start.now ∷ [])) }
        ensures as_many { length self.new.blocks.items ≡ length self.old.blocks.items }
        ensures as_many_nodes { length self.new.nodes.items ≡ length self.old.nodes.items }
        ensures same_coarse { self.new.coarse ≡ self.old.coarse }
    {
        let value = start.three.copied(alloc)?;
        let at = put(
            &mut self.dag,
            Formula::At {
                node: start.node,
                value,
                splitter: 0,
                coarse: 0,
            },
        )?;
        self.blocks[start.block as usize] = at;
        self.nodes[start.block as usize] = start.node;
        Ok(())
    }

    /// Tells a part of a split: a modality, and its conjunction with the parent's formula.
    fn tell_part(
        &mut self,
        alloc: Global,
        node: u32,
        parent: u32,
        splitter: u32,
        coarse: u32,
        part: &Part,
    ) -> Result<(), AllocError>
        requires room { length self.old.dag + 2 < 2 ^ 32 }
        requires parent_there { parent < length self.old.dag }
        requires splitter_there { splitter < length self.old.dag }
        requires coarse_there { coarse < length self.old.dag }
        requires in_range { part.now.block < length self.old.blocks.items }
        requires one_node_each { length self.old.nodes.items ≡ length self.old.blocks.items }
        ensures told { OnOk result (ArePartsTold (book_of self.old) (book_of self.new)
            node parent splitter coarse (part.now ∷ [])) }
    {
        let value = part.three.copied(alloc)?;
        let at = put(
            &mut self.dag,
            Formula::At {
                node,
                value,
                splitter,
                coarse,
            },
        )?;
        let both = put(&mut self.dag, Formula::And(at, parent))?;
        self.blocks[part.block as usize] = both;
        self.nodes[part.block as usize] = node;
        Ok(())
    }

    /// Tells the parts of a split.
    fn tell_split(
        &mut self,
        alloc: Global,
        splitter: u32,
        coarse: u32,
        split: &Split<'_>,
    ) -> Result<(), AllocError>
        requires splitter_there { splitter < length self.old.dag }
        requires coarse_there { coarse < length self.old.dag }
        requires one_node_each { length self.old.nodes.items ≡ length self.old.blocks.items }
        requires room { length self.old.dag + 2 * length split.now.parts.now < 2 ^ 32 }
        requires tellable { IsSplitTellable (book_of self.old) (split_seen split.now) }
        ensures told { OnOk result (ArePartsTold (book_of self.old) (book_of self.new)
            (slice_index self.old.nodes.items split.now.parent)
            (slice_index self.old.blocks.items split.now.parent)
            splitter coarse split.now.parts.now) }
    {
        // The formulas stand in their order.
        self.dag.is_dag();
        let parent = self.blocks[split.parent as usize];
        let node = self.nodes[split.parent as usize];
        for part in split.parts {
            self.tell_part(alloc, node, parent, splitter, coarse, part)?;
        }
        Ok(())
    }

    /// Tells a round: its splits, the negation of the splitter's formula, and the conjunction of it
    /// with the formula of the coarse block that the splitter leaves.
    pub(crate) fn tell_round(&mut self, alloc: Global, round: &Round<'_>) -> Result<(), AllocError>
        requires one_node_each { length self.old.nodes.items ≡ length self.old.blocks.items }
        requires tellable { IsTellable (book_of self.old) (round_seen round.now) }
        ensures told { OnOk result
            (IsRoundTold (book_of self.old) (book_of self.new) (round_seen round.now)) }
        ensures as_many { OnOk result
            (length self.new.blocks.items ≡ length self.old.blocks.items) }
        ensures as_many_nodes { OnOk result
            (length self.new.nodes.items ≡ length self.old.nodes.items) }
    {
        // The formulas stand in their order.
        self.dag.is_dag();
        let splitter = self.blocks[round.splitter as usize];
        let coarse = self.coarse[round.coarse as usize];
        for k in 0..round.splits.len() {
            let split = round.splits.split(k);
            self.tell_split(alloc, splitter, coarse, &split)?;
        }
        let denied = put(&mut self.dag, Formula::Not(splitter))?;
        let outer = put(&mut self.dag, Formula::And(coarse, denied))?;
        self.coarse.push(splitter)?;
        self.coarse.push(outer)?;
        Ok(())
    }
}
