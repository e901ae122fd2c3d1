// The blocks that are kept while a desk is used, or a question is answered.
ghost use Rattle.std.specs.Prelude.{◌≡◌, IfOk};
ghost use Rattle.disk_index.specs.Cache.{nothing_cached};

use disk_index::BlockCache;
use ri_base::NoMemory;
use std::alloc::Global;
use std::num::NonZeroUsize;

/// As many blocks are kept.
const BLOCKS: usize = 1024;

/// A cache in which no block is kept yet.
pub fn block_cache(alloc: Global) -> Result<BlockCache, NoMemory>
    ensures { IfOk result (λ cache. cache ≡ nothing_cached) }
{
    BlockCache::new(alloc, NonZeroUsize::new(BLOCKS).unwrap())
}
