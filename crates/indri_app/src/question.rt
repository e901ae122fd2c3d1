// The commands `query` and `explain`.
ghost use Rattle.std.specs.Prelude.{◌≡◌, ◌≤◌, None, Some, true, codes, length, map, IfErr, IfOk, IsErrOf, OnOk};
ghost use Rattle.ri_base.specs.Keeps.{Rose};
ghost use Rattle.store_ends.specs.Files.{Files, IsQuiet};
ghost use Rattle.smoothing.specs.declared.rule.RuleKind.TheVariants.{Dirichlet};
ghost use Rattle.query_refusals.specs.Lines.{refusal_piece};
ghost use Rattle.query_refusals.specs.declared.refusal.QueryRefusal.TheVariants.{NoSuchRank};
ghost use Rattle.repository.specs.Names.{manifest_name};
ghost use Rattle.repository.specs.RealLimits.{StandsFor};
ghost use Rattle.repository.specs.Stands.{Collection};
ghost use Rattle.repository.specs.States.{IsBacked, IsStateIntact, ReadsAs};
ghost use Rattle.holdings.specs.Parts.{live};
ghost use Rattle.query_check.specs.Answers.{whole_checked};
ghost use Rattle.std.specs.Option.{option_map};
ghost use Rattle.desk.specs.Answer.{IsRule};
ghost use Rattle.desk.specs.Priors.{priors_with, run_priors};
ghost use Rattle.desk.specs.Searching.{IsShowable};
ghost use Rattle.desk.specs.Shown.{told_shown};
ghost use Rattle.indri_app.specs.Asked.{AreWhole, IfRefused, IsAnswerOver, IsAskBroken, IsAskFault, IsAskWant, IsAsked, IsFaultOver, IsOpenAskFault, IsIntactWithPriors, ask_fault};
ghost use Rattle.indri_app.specs.Command.{answer_piece};
ghost use Rattle.indri_app.specs.Opened.{IsFileFault, IsWant};

use crate::opening::open_repository;
use crate::texts::{TextFault, read_checked};
use belief_nodes::BeliefNode;
use command_pieces::{CommandFault, Reply};
use desk::{Shown, answer, block_cache, names_of, take_priors};
use query_check::Checked;
use query_refusals::{QueryRefusal, reply_of};
use repository::Repository;
use ri_base::{Name, NoMemory};
use smoothing::RuleKind;
use std::alloc::Global;
use store_ends::Store;

/// Why a question isn't answered.
#[derive(Debug, Drop)]
pub enum AskFault {
    /// Its text is refused.
    Refused(QueryRefusal),
    Broken(CommandFault),
}

/// The name of the query of a command that has but one.
const ONE_QUERY: &[u8] = b"q";

/// The refusal of a rank above the number of results.
fn no_such_rank(alloc: Global) -> Result<Reply, NoMemory>
    ensures { IfOk result (λ reply. reply ≡ refusal_piece (NoSuchRank (codes "q"))) }
{
    let Some(query) = Name::of_lower(alloc, ONE_QUERY)? else {
        unreachable!();
    };
    reply_of(alloc, &QueryRefusal::NoSuchRank { query })
}

/// What is written of an answer.
fn reply_to(alloc: Global, answer: Option<Vec<u8>>) -> Result<Reply, NoMemory>
    ensures { IfOk result (λ reply. reply ≡ answer_piece (option_map (λ t. t.items) answer)) }
{
    match answer {
        Some(text) => Ok(Reply::told(text)),
        None => no_such_rank(alloc),
    }
}

fn ask_fault(fault: TextFault) -> AskFault
    ensures { result ≡ ask_fault fault }
{
    match fault {
        TextFault::Refused(refusal) => AskFault::Refused(refusal),
        TextFault::Memory => AskFault::Broken(CommandFault::Memory),
    }
}

/// What is written of the answer of a checked query over a repository.
fn answer_checked<T: Store>(
    alloc: Global,
    repository: &mut Repository,
    checked: Checked,
    names: &[Name],
    mu: u32,
    shown: &Shown,
    plugs: &mut [Box<dyn BeliefNode>],
    store: &mut T,
) -> Result<Reply, CommandFault>
    requires usable { repository.old.usable ≡ true }
    requires rule { IsRule (Dirichlet mu) }
    requires shown { IsShowable (told_shown shown.now) }
    requires nine { length plugs.old ≡ 9 }
    ensures answered { IsBacked (T.files store.old) repository.old → IfOk result (λ reply. IsAnswerOver (Dirichlet mu) (map (λ plug. meaning plug) plugs.old) names.now (told_shown shown.now) (whole_checked checked) (live (T.files store.old) repository.old.held.parts) reply) }
    ensures honest { IsStateIntact (T.files store.old) repository.old → IfErr result IsWant }
    ensures only { IfErr result IsFileFault }
    ensures quiet { IsQuiet T.files T.layers T.clock T.since T.longest T.held store.old store.new }
    ensures later { T.faults store.old ≤ T.faults store.new }
    ensures store { IsErrOf result CommandFault.Store → Rose (T.faults store.old) (T.faults store.new) }
{
    let Ok(snapshot) = repository.snapshot(alloc) else {
        return Err(CommandFault::Memory);
    };
    let Ok(mut cache) = block_cache(alloc) else {
        return Err(CommandFault::Memory);
    };
    let kind = RuleKind::Dirichlet { mu };
    let generation = repository.generation();
    let answer = match answer(
        alloc, kind, shown, checked, names, plugs, snapshot, generation, store, &mut cache,
    ) {
        Ok(answer) => answer,
        Err(fault) => return Err(CommandFault::of_files(fault)),
    };
    match reply_to(alloc, answer) {
        Ok(reply) => Ok(reply),
        Err(_) => Err(CommandFault::Memory),
    }
}

/// What a query of this text is answered over a repository whose priors are told by their rows.
fn ask_open<T: Store>(
    alloc: Global,
    repository: &mut Repository,
    text: &str,
    mu: u32,
    shown: &Shown,
    plugs: &mut [Box<dyn BeliefNode>],
    store: &mut T,
) -> Result<Reply, AskFault>
    requires usable { repository.old.usable ≡ true }
    requires rule { IsRule (Dirichlet mu) }
    requires shown { IsShowable (told_shown shown.now) }
    requires nine { length plugs.old ≡ 9 }
    ensures asked { (c : Collection) → ReadsAs (T.files store.old) repository.old c → IsBacked (T.files store.old) repository.old → map (λ plug. meaning plug) plugs.old ≡ priors_with c.priors
        → IfOk result (IsAsked c text.now mu (told_shown shown.now)) }
    ensures refused { (c : Collection) → ReadsAs (T.files store.old) repository.old c → IsBacked (T.files store.old) repository.old → IfErr result (IsAskFault c text.now) }
    ensures honest { IsStateIntact (T.files store.old) repository.old → IfErr result IsAskWant }
    ensures only { IfErr result IsOpenAskFault }
    ensures quiet { IsQuiet T.files T.layers T.clock T.since T.longest T.held store.old store.new }
    ensures later { T.faults store.old ≤ T.faults store.new }
    ensures store { IsErrOf result (AskFault.Broken CommandFault.Store) → Rose (T.faults store.old) (T.faults store.new) }
{
    let Ok(names) = names_of(alloc, repository.priors()) else {
        return Err(AskFault::Broken(CommandFault::Memory));
    };
    let checked = match read_checked(alloc, text, &names) {
        Ok(checked) => checked,
        Err(fault) => return Err(ask_fault(fault)),
    };
    match answer_checked(alloc, repository, checked, &names, mu, shown, plugs, store) {
        Ok(reply) => Ok(reply),
        Err(fault) => Err(AskFault::Broken(fault)),
    }
}

/// What a query of this text is answered over the live documents of a store, its priors by their rows.
pub fn ask<T: Store>(
    alloc: Global,
    text: &str,
    mu: u32,
    shown: &Shown,
    plugs: &mut [Box<dyn BeliefNode>],
    store: &mut T,
) -> Result<Reply, AskFault>
    requires rule { IsRule (Dirichlet mu) }
    requires shown { IsShowable (told_shown shown.now) }
    requires plugs { map (λ plug. meaning plug) plugs.old ≡ run_priors }

    // Files that stand for a collection: the answer is that over its live documents, or the first fault of the text. Damage isn't told
    // where all files are read as they were put.
    ensures asked { (c : Collection) → StandsFor c (T.files store.old) → IfOk result (IsAsked c text.now mu (told_shown shown.now)) }
    ensures refused { (c : Collection) → StandsFor c (T.files store.old) → IfErr result (IsAskFault c text.now) }
    ensures honest { (c : Collection) → StandsFor c (T.files store.old) → AreWhole (T.files store.old) → IfErr result IsAskWant }

    // Whatever the files are.
    ensures there { (f : Files) → T.files store.old ≡ Some f → IfErr result (IsFaultOver f) }
    ensures manifest { (f : Files) → T.files store.old ≡ Some f → (f manifest_name).read ≡ None → OnOk result ⊥ }
    ensures intact { (f : Files) → T.files store.old ≡ Some f → OnOk result (IsIntactWithPriors (T.files store.old)) }
    ensures intact_refused { (f : Files) → T.files store.old ≡ Some f → IfErr result (λ fault. IfRefused fault (IsIntactWithPriors (T.files store.old))) }
    ensures only { IfErr result IsAskBroken }
    ensures quiet { IsQuiet T.files T.layers T.clock T.since T.longest T.held store.old store.new }
    ensures later { T.faults store.old ≤ T.faults store.new }
    ensures store { IsErrOf result (AskFault.Broken CommandFault.Store) → Rose (T.faults store.old) (T.faults store.new) }
{
    let mut repository = match open_repository(alloc, store) {
        Ok(repository) => repository,
        Err(fault) => return Err(AskFault::Broken(fault)),
    };
    match take_priors(alloc, &repository, plugs, store) {
        Ok(()) => {}
        Err(fault) => return Err(AskFault::Broken(CommandFault::of_files(fault))),
    }
    ask_open(alloc, &mut repository, text, mu, shown, plugs, store)
}
