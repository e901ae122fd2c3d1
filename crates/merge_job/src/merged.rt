// What a merge makes.
use deletion_list::DelList;
use ri_base::Sealed;

/// A new part: documents that were copied, and their marks of now.
#[derive(Drop)]
pub struct MergedPart {
    pub docs: Sealed,
    pub marks: DelList,
}

/// The new parts, in order.
#[derive(Drop)]
pub struct Merged {
    pub parts: Vec<MergedPart>,
}
