// How a run ends.
ghost use Rattle.std.specs.Prelude.{◌≡◌, ◌≢◌, ◌≤◌, ◌⊎◌, ◌++◌, ◌∷◌, [], IfOk, OnOk};
ghost use Rattle.ri_ends.specs.Causes.{Rose};
ghost use Rattle.indri_app.specs.LastLines.{IsClosed, IsLined, file_text, malformed_line, missing_line, part_text, status_of};
ghost use Rattle.indri_app.specs.Runs.{IsEnded, IsReplyStatus, Tells, WritesBy, items_answer};

use crate::Status;
use command_pieces::{CommandFault, Fault, Reply};
use disk_index::segment_name;
use repository::prior_name;
use ri_base::{FileName, NoMemory, PartName};
use ri_ends::{OutFault, Sink};
use std::alloc::Global;

/// Writes the one line of a run without a command. The status says why there is none.
pub fn tell<K: Sink>(sink: &mut K, line: &[u8], told: Status) -> Status
    requires other { told ≢ Status.WriteFault }
    ensures tells { Tells told line.now result (K.taken sink.old) (K.taken sink.new) }
    ensures later { K.faults sink.old ≤ K.faults sink.new }
    ensures write { result ≡ Status.WriteFault → Rose (K.faults sink.old) (K.faults sink.new) }
    ensures same { result ≢ Status.WriteFault → K.faults sink.new ≡ K.faults sink.old }
{
    match sink.write_all(line) {
        Ok(()) => told,
        Err(OutFault::Failed) => Status::WriteFault,
        Err(OutFault::Memory) => Status::Memory,
    }
}

#[tactic(auto, unfolding(repository::specs::Names::manifest_name))]
fn push_file(text: &mut Vec<u8>, file: FileName) -> Result<(), NoMemory>
    ensures { OnOk result (text.new.items ≡ text.old.items ++ file_text file) }
{
    match file {
        FileName::Manifest => text.extend_from_slice(b"manifest")?,
        FileName::Segment(number) => text.extend_from_slice(&segment_name(number))?,
        FileName::Prior(number) => text.extend_from_slice(&prior_name(number))?,
    }
    Ok(())
}

fn part_text(part: PartName) -> &'static [u8]
    ensures { result.now ≡ part_text part }
{
    match part {
        PartName::Manifest => b"Manifest",
        PartName::Header => b"Header",
        PartName::Documents => b"Documents",
        PartName::Dictionary => b"Dictionary",
        PartName::Block => b"Block",
        PartName::Prior => b"Prior",
    }
}

/// `malformed FILE PART PLACE`.
fn malformed_line(
    alloc: Global,
    file: FileName,
    part: PartName,
    place: u64,
) -> Result<Vec<u8>, NoMemory>
    ensures { IfOk result (λ line. line.items ≡ malformed_line file part place) }
{
    let digits = place.to_string(alloc)?;
    let mut line = b"malformed ".to_vec(alloc)?;
    push_file(&mut line, file)?;
    line.push(b' ')?;
    line.extend_from_slice(part_text(part))?;
    line.push(b' ')?;
    line.extend_from_slice(digits.as_bytes())?;
    line.push(b'\n')?;
    Ok(line)
}

/// `missing FILE`.
fn missing_line(alloc: Global, file: FileName) -> Result<Vec<u8>, NoMemory>
    ensures { IfOk result (λ line. line.items ≡ missing_line file) }
{
    let mut line = b"missing ".to_vec(alloc)?;
    push_file(&mut line, file)?;
    line.push(b'\n')?;
    Ok(line)
}

/// Writes a last line. The status says why the run is broken off, even where the sink fails at that line.
#[tactic(auto, using(command_pieces::proofs::Ending::line_whole))]
fn end_with<K: Sink>(sink: &mut K, line: &[u8], status: Status) -> Status
    ensures ended { IsLined line.now status result (K.taken sink.old) (K.taken sink.new) (K.faults sink.old) (K.faults sink.new) }
    ensures later { K.faults sink.old ≤ K.faults sink.new }
{
    match sink.write_all(line) {
        Ok(()) | Err(OutFault::Failed) => status,
        Err(OutFault::Memory) => Status::Memory,
    }
}

/// Writes the last line of a command that is broken off, if it has one.
#[tactic(auto, unfolding(crate::specs::LastLines::absent_line, crate::specs::LastLines::exists_line, crate::specs::LastLines::read_line, crate::specs::LastLines::store_line))]
pub fn close<K: Sink>(alloc: Global, fault: CommandFault, sink: &mut K) -> Status
    ensures closed { IsClosed fault result (K.taken sink.old) (K.taken sink.new) (K.faults sink.old) (K.faults sink.new) }
    ensures later { K.faults sink.old ≤ K.faults sink.new }
    ensures only { (result ≡ status_of fault) ⊎ (result ≡ Status.Memory) }
{
    match fault {
        CommandFault::Read => end_with(sink, b"fault read\n", Status::ReadFault),
        CommandFault::Store => end_with(sink, b"fault store\n", Status::StoreFault),
        CommandFault::NoRepository => end_with(sink, b"norepository\n", Status::NoRepository),
        CommandFault::Exists => end_with(sink, b"exists\n", Status::Exists),
        CommandFault::Malformed { file, part, place } => {
            match malformed_line(alloc, file, part, place) {
                Ok(line) => end_with(sink, &line, Status::Malformed),
                Err(_) => Status::Memory,
            }
        }
        CommandFault::Missing { file } => match missing_line(alloc, file) {
            Ok(line) => end_with(sink, &line, Status::Malformed),
            Err(_) => Status::Memory,
        },
        CommandFault::Write => Status::WriteFault,
        CommandFault::Memory => Status::Memory,
    }
}

/// Ends a run of a command that changes no file by what it answers.
pub fn finish_items<K: Sink>(alloc: Global, answer: Result<bool, Fault>, sink: &mut K) -> Status
    ensures ended { IsEnded (items_answer answer) result (K.taken sink.old) (K.taken sink.new) (K.faults sink.old) (K.faults sink.new) }
    ensures later { K.faults sink.old ≤ K.faults sink.new }
{
    match answer {
        Ok(refused) => finish(alloc, Ok(refused), sink),
        Err(fault) => finish(alloc, Err(CommandFault::of_items(fault)), sink),
    }
}

/// Writes the one piece of an answer, and ends the run.
pub fn write_reply<K: Sink>(alloc: Global, reply: &Reply, sink: &mut K) -> Status
    ensures written { WritesBy result (reply.now ∷ []) (K.taken sink.old) (K.taken sink.new) (K.faults sink.old) (K.faults sink.new) }
    ensures only { IsReplyStatus result }
    ensures later { K.faults sink.old ≤ K.faults sink.new }
    ensures write { result ≡ Status.WriteFault → Rose (K.faults sink.old) (K.faults sink.new) }
{
    match reply.write(sink) {
        Ok(()) => finish_items(alloc, Ok(reply.is_refusal()), sink),
        Err(fault) => finish_items(alloc, Err(fault), sink),
    }
}

/// Ends a run by what its command answers: whether something is refused, or why it is broken off.
pub fn finish<K: Sink>(alloc: Global, answer: Result<bool, CommandFault>, sink: &mut K) -> Status
    ensures ended { IsEnded answer result (K.taken sink.old) (K.taken sink.new) (K.faults sink.old) (K.faults sink.new) }
    ensures later { K.faults sink.old ≤ K.faults sink.new }
{
    match answer {
        Ok(false) => Status::Done,
        Ok(true) => Status::SomeRefused,
        Err(fault) => close(alloc, fault, sink),
    }
}
