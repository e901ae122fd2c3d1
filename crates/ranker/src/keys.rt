// Networks as combinations of their leaves.

use belief_nodes::Network;
use bounded_keys::Combination;

/// A network as the combination of its leaves.
#[derive(Clone, Copy)]
pub struct NetworkKeys<'a> {
    pub network: &'a Network,
}

impl Combination for NetworkKeys<'_> {
    ghost use Rattle.std.specs.Prelude.{length};
    ghost use Rattle.belief_nodes.specs.Network.{network_tree};
    ghost use Rattle.belief_nodes.proofs.Levels.{key_longer};
    ghost use Rattle.ranker.specs.First.{key_by, scale_of};

    ghost leaves = { λ c. length (network_tree c.network.now).leaves };

    ghost scale = { λ c. scale_of (network_tree c.network.now) };

    ghost key_of = { λ c. key_by (network_tree c.network.now) };

    fn key(&self, digits: &[u128]) -> u128 {
        self.network.key(digits)
    }

    ghost least = { λ c beliefs k s. (key_longer (network_tree c.network.now).tree beliefs k s).low };

    ghost most = { λ c beliefs k s. (key_longer (network_tree c.network.now).tree beliefs k s).high };
}
