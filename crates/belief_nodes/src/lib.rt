//! The belief of a query in one window: the fractions of its leaves, and the key by which windows are ordered.
#![tactic(auto)]

mod firsts;
mod greater;
mod keys;
mod laws;
mod leaf_count;
mod length_plug;
mod network;
mod node;
mod table_plug;

pub use firsts::same_leaf;
pub use laws::{
    fractions_are_beliefs, key_encloses, key_levels, key_scored, keys_apart, keys_near,
    keys_of_same,
};
pub use leaf_count::LeafCount;
pub use length_plug::LengthPlug;
pub use network::Network;
pub use node::{BeliefNode, RowRefused};
pub use table_plug::TablePlug;
