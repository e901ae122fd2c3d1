// The manifest of bytes.
ghost use Rattle.std.specs.Prelude.{◌≡◌, ◌==◌, ◌^◌, ◌<◌, [], ℕ, length, map, Ok, IfOk, nat_le};
ghost use Rattle.std.specs.Int.{w32, w64};
ghost use Rattle.ri_base.specs.FieldAnswers.{AnswersPart, Gives};
ghost use Rattle.ri_base.specs.Fields.{ruled};
ghost use Rattle.ri_base.specs.declared.seg_fault.FileName.TheVariants as files;
ghost use Rattle.ri_base.specs.declared.seg_fault.PartName.TheVariants as parts;
ghost use Rattle.manifest.specs.Files.{lists, manifest, manifest_fields, opening};
ghost use Rattle.manifest.specs.Fits.{IsManifest};
ghost use Rattle.manifest.specs.Spelling.{manifest_text};
ghost use Rattle.manifest.specs.declared.manifest.Manifest.{Manifest};

use crate::entries::{priors_at, segments_at, stale_at};
use crate::manifest::{Manifest, PriorEntry, SegEntry};
use ri_base::file_fields::{Broken, kept, magic_at, part_answer, u32_at, u64_at};
use ri_base::{FileName, List, PartName, SegFault};
use std::alloc::Global;

#[tactic(auto, unfolding(ri_base::specs::Fields::ruled))]
fn version_at(bytes: &[u8]) -> Result<(u32, &[u8]), Broken>
    ensures { Gives (λ x. (x.0, x.1.now)) result (ruled w32 (λ n. n == 1) bytes.now) }
{
    let (version, rest) = u32_at(bytes)?;
    kept(version == 1, version, rest, bytes)
}

#[tactic(auto, unfolding(ri_base::specs::Fields::ruled))]
fn next_at(bytes: &[u8]) -> Result<(u64, &[u8]), Broken>
    ensures { Gives (λ x. (x.0, x.1.now)) result (ruled w64 (λ n. nat_le 1 n) bytes.now) }
{
    let (next, rest) = u64_at(bytes)?;
    kept(1 <= next, next, rest, bytes)
}

/// The number of the next file, behind the magic and the version.
#[tactic(auto, unfolding(crate::specs::Files::opening))]
fn opening_at(bytes: &[u8]) -> Result<(u64, &[u8]), Broken>
    ensures { Gives (λ x. (x.0, x.1.now)) result (opening bytes.now) }
{
    let (_magic, rest) = magic_at(b"indriman".as_slice(), bytes)?;
    let (_version, rest) = version_at(rest)?;
    next_at(rest)
}

/// What a manifest lists.
struct Lists {
    segments: Vec<SegEntry>,
    stale: Vec<u64>,
    priors: Vec<PriorEntry>,
}

#[tactic(auto, unfolding(crate::specs::Files::lists))]
fn lists_at(alloc: Global, next: u64, bytes: &[u8]) -> Result<(Lists, &[u8]), Broken>
    ensures { Gives (λ x. ((x.0.segments.items, x.0.stale.items, x.0.priors.items), x.1.now)) result (lists next bytes.now) }
{
    let (segments, used, rest) = segments_at(alloc, next, bytes)?;
    let (stale, used, rest) = stale_at(alloc, next, used, rest)?;
    let (priors, rest) = priors_at(alloc, next, used, rest)?;
    Ok((
        Lists {
            segments,
            stale,
            priors,
        },
        rest,
    ))
}

#[tactic(auto, unfolding(crate::specs::Files::manifest_fields))]
fn manifest_at(alloc: Global, bytes: &[u8]) -> Result<(Manifest, &[u8]), Broken>
    ensures { Gives (λ x. (x.0, x.1.now)) result (manifest_fields bytes.now) }
{
    let (next, rest) = opening_at(bytes)?;
    let (lists, rest) = lists_at(alloc, next, rest)?;
    let Lists {
        segments,
        stale,
        priors,
    } = lists;
    Ok((
        Manifest {
            version: 1,
            next,
            segments: List::of(segments),
            stale: List::of(stale),
            priors: List::of(priors),
        },
        rest,
    ))
}

/// The manifest, all of these bytes.
fn manifest_of(alloc: Global, bytes: &[u8]) -> Result<Manifest, Broken>
    ensures { Gives (λ m. m) result (manifest bytes.now) }
{
    let (manifest, rest) = manifest_at(alloc, bytes)?;
    if rest.len() == 0 {
        Ok(manifest)
    } else {
        Err(Broken::At(rest.len()))
    }
}

#[tactic(auto, using(ri_base::proofs::FieldFaults::answers_part))]
fn answer(alloc: Global, bytes: &[u8]) -> Result<Manifest, SegFault>
    ensures { AnswersPart (λ m. m) result (manifest bytes.now) files.Manifest parts.Manifest (length bytes.now) }
{
    part_answer(
        manifest_of(alloc, bytes),
        FileName::Manifest,
        PartName::Manifest,
        bytes.len() as u64,
    )
}

/// The manifest that these bytes are.
pub fn read_manifest(alloc: Global, bytes: &[u8]) -> Result<Manifest, SegFault>
    // What is read is spelled so.
    ensures found { IfOk result (λ m. (bytes.now ≡ manifest_text m) × IsManifest m) }
    // What is spelled so is read, unless memory runs out.
    ensures only { (m : Manifest) → IsManifest m → bytes.now ≡ manifest_text m → AnswersPart (λ x. x) result (Ok m) files.Manifest parts.Manifest (length bytes.now) }
    // The fault is the first one from the left, at its place.
    ensures exact { AnswersPart (λ m. m) result (manifest bytes.now) files.Manifest parts.Manifest (length bytes.now) }
{
    answer(alloc, bytes)
}
