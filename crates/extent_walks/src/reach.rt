// From where on the arguments of a chain are asked.
ghost use Rattle.std.specs.Prelude.{◌≡◌, IfOk, length};
ghost use Rattle.std.specs.List.{All};
ghost use Rattle.extent_walks.specs.Chains.{IsAsked};

use ri_base::NoMemory;
use std::alloc::Global;

/// A chain that begins at `from` or behind has each of its extents at the number of its argument or behind.
#[derive(Drop)]
pub struct Reach {
    pub from: u32,
    pub lows: Vec<u32>,
}

impl Reach {
    /// Of so many arguments, none of which was asked yet.
    pub fn new(alloc: Global, count: usize) -> Result<Reach, NoMemory>
        ensures count { IfOk result (λ r. length r.lows.items ≡ count) }
        ensures zero { IfOk result (λ r. All (λ l. l ≡ 0) r.lows.items) }
    {
        let lows = vec![in alloc; 0u32; count]?;
        Ok(Reach { from: 0, lows })
    }

    /// Chains are asked for that begin at `low` or behind. Where that is before the place, what was passed is forgotten.
    pub fn ask(&mut self, low: u32)
        ensures { IsAsked low self.old self.new }
    {
        if low < self.from {
            self.clear();
        }
        self.from = low;
        if !self.lows.is_empty() {
            self.lows[0] = low.max(self.lows[0]);
        }
    }

    fn clear(&mut self)
        ensures count { length self.new.lows.items ≡ length self.old.lows.items }
        ensures zero { All (λ l. l ≡ 0) self.new.lows.items }
    {
        for i in 0..self.lows.len() {
            self.lows[i] = 0;
        }
    }
}
