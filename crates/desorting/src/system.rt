//! The system of sorted states of a coalgebra.

ghost use Rattle.std.specs.Prelude.{◌≡◌, ◌<◌, ◌^◌, length, slice_get, Some, ℕ};
ghost use Rattle.layers.specs.Nest.{any_node};
ghost use Rattle.layers.specs.Meanings.{shape_of};

use edge_store::EdgeStore;
use iface::Iface;
use layers::Layers;

/// Sorted states with their shapes and edges. Shapes and labels are numbers in the tables of the
/// interface. There are fewer than 2^26 sorted states.
#[derive(Drop)]
pub struct System {
    pub(crate) iface: Layers,
    pub(crate) shapes: Vec<u32>,
    pub(crate) store: EdgeStore<u32>,
    pub(crate) states: u32,
    ghost one_shape: { length shapes.items ≡ store.states },
    ghost few: { store.states < 2 ^ 26 },
}

impl System {
    /// How many sorted states there are.
    pub fn sorted(&self) -> u32
        ensures count { result ≡ self.now.store.states }
        ensures few { result < 2 ^ 26 }
    {
        self.store.states()
    }

    /// The interface of all shapes.
    pub fn iface(&self) -> &Layers
        ensures iface { result.now ≡ self.now.iface }
    {
        &self.iface
    }

    /// The shape of each sorted state.
    pub fn shapes(&self) -> &[u32]
        ensures shapes { result.now ≡ self.now.shapes.items }
        ensures one_each { length result.now ≡ self.now.store.states }
    {
        self.shapes.as_slice()
    }

    /// The edges between sorted states.
    pub fn store(&self) -> &EdgeStore<u32>
        ensures store { result.now ≡ self.now.store }
    {
        &self.store
    }

    /// The functor node of a sorted state.
    pub fn node_of(&self, u: u32) -> u32
        requires { u < self.now.store.states }
        ensures node { (s : ℕ) → slice_get self.now.shapes.items u ≡ Some s →
            result ≡ any_node (shape_of self.now.iface.shapes.items s) }
    {
        self.iface.node(&self.shapes[u as usize])
    }

    /// The sorted state of the root structure of a state.
    pub fn root_state(&self, i: u32) -> u32
        requires { i < self.now.states }
        ensures root { result ≡ i }
    {
        i
    }
}
