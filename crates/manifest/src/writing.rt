// The bytes of a manifest.
ghost use Rattle.std.specs.Prelude.{◌≡◌, ◌<◌, ◌++◌, ◌∷◌, ◌^◌, [], Ok, length, map, IfOk, OnOk};
ghost use Rattle.std.specs.Int.{w32, w64, to_le_bytes};
ghost use Rattle.std.specs.List.{All, flat_map};
ghost use Rattle.manifest.specs.Files.{magic, manifest};
ghost use Rattle.manifest.specs.Fits.{IsManifest};
ghost use Rattle.manifest.specs.Listing.{listing};
ghost use Rattle.manifest.specs.Spelling.{manifest_text, spelled_marks, spelled_opening, spelled_prior, spelled_priors, spelled_segment, spelled_segments, spelled_stale};

use crate::manifest::{Manifest, PriorEntry, SegEntry};
use ri_base::file_fields::{put_name, put_u32, put_u64};
use ri_base::{Bytes, Name, NoMemory};
use std::alloc::Global;

fn put_marks(out: &mut Vec<u8>, marks: &[u32]) -> Result<(), NoMemory>
    requires { length marks.now < 2 ^ 32 }
    ensures { OnOk result (out.new.items ≡ out.old.items ++ spelled_marks marks.now) }
{
    put_u32(out, marks.len() as u32)?;
    for mark in marks {
        put_u32(out, *mark)?;
    }
    Ok(())
}

fn put_segment(out: &mut Vec<u8>, entry: &SegEntry) -> Result<(), NoMemory>
    requires { length entry.now.marks < 2 ^ 32 }
    ensures { OnOk result (out.new.items ≡ out.old.items ++ spelled_segment entry.now) }
{
    put_u64(out, entry.number)?;
    put_u32(out, entry.docs)?;
    put_marks(out, entry.marks.as_slice())
}

fn put_segments(out: &mut Vec<u8>, entries: &[SegEntry]) -> Result<(), NoMemory>
    requires few { length entries.now < 2 ^ 32 }
    requires marks { All (λ e. length e.marks < 2 ^ 32) entries.now }
    ensures { OnOk result (out.new.items ≡ out.old.items ++ spelled_segments entries.now) }
{
    put_u32(out, entries.len() as u32)?;
    for entry in entries {
        put_segment(out, entry)?;
    }
    Ok(())
}

fn put_stale(out: &mut Vec<u8>, stale: &[u64]) -> Result<(), NoMemory>
    ensures { OnOk result (out.new.items ≡ out.old.items ++ spelled_stale stale.now) }
{
    put_u64(out, stale.len() as u64)?;
    for number in stale {
        put_u64(out, *number)?;
    }
    Ok(())
}

fn put_prior(out: &mut Vec<u8>, prior: &PriorEntry) -> Result<(), NoMemory>
    ensures { OnOk result (out.new.items ≡ out.old.items ++ spelled_prior prior.now) }
{
    put_name(out, &prior.name)?;
    put_u64(out, prior.number)
}

fn put_priors(out: &mut Vec<u8>, priors: &[PriorEntry]) -> Result<(), NoMemory>
    requires { length priors.now < 256 }
    ensures { OnOk result (out.new.items ≡ out.old.items ++ spelled_priors priors.now) }
{
    out.push(priors.len() as u8)?;
    for prior in priors {
        put_prior(out, prior)?;
    }
    Ok(())
}

fn put_opening(out: &mut Vec<u8>, next: u64) -> Result<(), NoMemory>
    ensures { OnOk result (out.new.items ≡ out.old.items ++ spelled_opening next) }
{
    out.extend_from_slice(b"indriman".as_slice())?;
    put_u32(out, 1)?;
    put_u64(out, next)
}

/// The bytes of the manifest that lists these files.
pub fn listing_bytes(
    alloc: Global,
    next: u64,
    segments: &[SegEntry],
    stale: &[u64],
    priors: &[PriorEntry],
) -> Result<Bytes, NoMemory>
    requires { IsManifest (listing next segments.now stale.now priors.now) }
    ensures { IfOk result (λ b. b ≡ manifest_text (listing next segments.now stale.now priors.now)) }
{
    let mut out = Vec::new(alloc);
    put_opening(&mut out, next)?;
    put_segments(&mut out, segments)?;
    put_stale(&mut out, stale)?;
    put_priors(&mut out, priors)?;
    Ok(Bytes::of(out))
}

fn text_of(alloc: Global, m: &Manifest) -> Result<Bytes, NoMemory>
    requires { IsManifest m.now }
    ensures { IfOk result (λ b. b ≡ manifest_text m.now) }
{
    listing_bytes(
        alloc,
        m.next,
        m.segments.as_slice(),
        m.stale.as_slice(),
        m.priors.as_slice(),
    )
}

/// The bytes of the manifest.
#[tactic(auto, using(crate::proofs::ManifestLaws::bytes_again))]
pub fn manifest_bytes(alloc: Global, m: &Manifest) -> Result<Bytes, NoMemory>
    requires { IsManifest m.now }
    ensures spelled { IfOk result (λ b. b ≡ manifest_text m.now) }
    // What is written is read again as this manifest.
    ensures again { IfOk result (λ b. manifest b ≡ Ok m.now) }
{
    text_of(alloc, m)
}
