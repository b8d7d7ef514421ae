//! One compact interface of all kinds of layers.
//!
//! Shape: a shape is a number in a table of functor nodes and kinds, a label is a place or a number
//! in a table of weights, and a weight towards a block takes 24 bytes.
//! Seen as: the sum of the interfaces of sets, weights, distributions and polynomial layers, over
//! what the numbers stand for (`specs/Nest.antt`, `specs/Meanings.antt`).
//! Numbers: a number that stands for nothing is read as a set at node 0, or as the weight 0.
//! Steps: one for each label that a call is given.
#![tactic(auto)]

mod compact;
mod layers;
mod marks;
mod moving;
mod packing;
mod shape;
mod starting;
mod table;
mod weight;

pub use layers::Layers;
pub use shape::{Class, Kind, LayerShape};
pub use table::LayerTable;
pub use weight::{LayerWeight, MarksWeight, Narrow, Opened, PlacesWeight, SumsWeight};
