// The interface of all kinds of layers.
ghost use Rattle.std.specs.Prelude.{◌≡◌};
ghost use Rattle.decoding.specs.Decoded.{node_by, kin_by, value_by, agree_by};
ghost use Rattle.layers.specs.Nest.{any_node, any_kin, any_value, any_agree};
ghost use Rattle.layers.specs.Meanings.{shape_of, label_of, fits_layer, toward_layer};
ghost use Rattle.layers.specs.LayerLaws.{layer_laws};

use crate::layers::Layers;
use crate::moving::Moved;
use crate::packing::{packed, unpacked};
use crate::weight::LayerWeight;
use iface::{Iface, Update, count_labels};
use modalities::Three;
use outside::Steps;
use std::alloc::{AllocError, Global};
use std::sync::ledger::Ledger;

impl Iface for Layers {
    type Shape = u32;

    type Label = u32;

    type Weight = LayerWeight;

    ghost node = { λ l. node_by (shape_of l.shapes.items)
        (label_of l.shapes.items l.weights.items) any_node };

    ghost kin = { λ l. kin_by (shape_of l.shapes.items)
        (label_of l.shapes.items l.weights.items) any_kin };

    ghost fits = { λ l. fits_layer l.shapes.items l.weights.items };

    ghost value = { λ l. value_by (shape_of l.shapes.items)
        (label_of l.shapes.items l.weights.items) (any_value l.denominator) };

    ghost toward = { λ l. toward_layer l.shapes.items l.weights.items };

    ghost agree = { λ l. agree_by (shape_of l.shapes.items)
        (label_of l.shapes.items l.weights.items) any_agree };

    fn node(&self, shape: &u32) -> u32 {
        self.shape(*shape).node
    }

    fn init<L: Ledger>(
        &self,
        alloc: Global,
        shape: &u32,
        labels: &[u32],
        steps: &mut Steps<L>,
    ) -> Result<(LayerWeight, Three), AllocError> {
        count_labels(labels.len(), steps);
        let (weight, three) = self.start(alloc, *shape, labels)?;
        Ok((packed(alloc, weight)?, three))
    }

    fn update<L: Ledger>(
        &self,
        alloc: Global,
        moved: &[u32],
        weight: &mut LayerWeight,
        steps: &mut Steps<L>,
    ) -> Result<Update<LayerWeight>, AllocError> {
        count_labels(moved.len(), steps);
        let Moved {
            rest,
            part,
            three,
            void,
        } = self.moved_out(alloc, moved, unpacked(alloc, weight)?)?;
        let kept = packed(alloc, rest)?;
        let part = packed(alloc, part)?;
        *weight = kept;
        Ok(Update { part, three, void })
    }

    ghost laws = { λ l. layer_laws l.shapes.items l.weights.items l.denominator l.positive };
}
