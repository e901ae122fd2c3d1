// A block, once read and then shared.
ghost use Rattle.std.specs.Prelude.{◌≡◌, [], IfOk, length};
ghost use Rattle.seg_codec.specs.declared.blocks.BlockEntry.{BlockEntry};
ghost use Rattle.disk_index.specs.Blocks.{places_of};

use ri_base::{List, NoMemory};
use seg_codec::BlockEntry;
use std::alloc::{AllocError, Global};
use std::marker::Model;
use std::rc::Rc;

/// The places of a term in the documents of a range of 64 ids, seen as the list of its entries. They are shared.
#[derive(Drop)]
pub struct Block {
    shared: Rc<seg_codec::Block>,
}

impl Model for Block {
    ghost use Rattle.std.specs.Prelude.{List};
    ghost use Rattle.seg_codec.specs.declared.blocks.BlockEntry.{BlockEntry};

    ghost Value = { List BlockEntry };

    ghost view = { λ b. b.shared.value.entries };
}

impl Block {
    /// The block that was read.
    pub(crate) fn of(alloc: Global, block: seg_codec::Block) -> Result<Block, NoMemory>
        ensures { IfOk result (λ b. b ≡ block.entries) }
    {
        Ok(Block {
            shared: Rc::new(alloc, block).map_err(AllocError::from)?,
        })
    }

    /// The block without entries.
    pub(crate) fn empty(alloc: Global) -> Result<Block, NoMemory>
        ensures { IfOk result (λ b. b ≡ []) }
    {
        Block::of(
            alloc,
            seg_codec::Block {
                entries: List::new(alloc),
            },
        )
    }

    /// The same block once more; none of it is copied.
    pub fn share(&self) -> Result<Block, NoMemory>
        ensures { IfOk result (λ b. b ≡ self.now) }
    {
        Ok(Block {
            shared: self.shared.clone()?,
        })
    }

    /// Its entries, by rising id.
    pub fn entries(&self) -> &[BlockEntry]
        ensures { result.now ≡ self.now }
    {
        self.shared.entries.as_slice()
    }

    /// The places in the document with this id.
    pub fn places(&self, id: u32) -> &[u32]
        ensures { result.now ≡ places_of id self.now }
    {
        places_in(self.entries(), id)
    }
}

fn places_in(entries: &[BlockEntry], id: u32) -> &[u32]
    ensures { result.now ≡ places_of id entries.now }
{
    for entry in entries {
        if entry.id == id {
            return entry.positions.as_slice();
        }
    }
    &[]
}
