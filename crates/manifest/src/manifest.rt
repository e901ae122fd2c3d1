// The files of a repository.
use ri_base::{List, Name};

/// The files that a repository has: its segments in order, files that are no longer read, and priors. A new file takes
/// the number `next`. `version` is that of the format.
#[derive(Debug, Drop)]
pub struct Manifest {
    pub version: u32,
    pub next: u64,
    pub segments: List<SegEntry>,
    pub stale: List<u64>,
    pub priors: List<PriorEntry>,
}

/// A segment: the number of its file, how many documents it has, and the ids of those that are dead, rising.
#[derive(Debug, Drop)]
pub struct SegEntry {
    pub number: u64,
    pub docs: u32,
    pub marks: List<u32>,
}

/// A prior: its name, and the number of its file.
#[derive(Debug, Drop)]
pub struct PriorEntry {
    pub name: Name,
    pub number: u64,
}
