// The commands of the command line.
ghost use Rattle.std.specs.Prelude.{◌≡◌, ◌++◌, ◌∷◌, [], IfOk, IfSome, OnOk, Some, drop, map, option_map, true};
ghost use Rattle.std.specs.Str.{is_utf8};
ghost use Rattle.command_words.specs.Asked.{AreInRange, told_labels, told_words};
ghost use Rattle.command_words.specs.Given.{told_given};
ghost use Rattle.command_words.specs.Table.{asks_of, bare_by, command_by, explain_by, gen_by, has_options, only_word, prior_by, query_by, scan_by, session_by};
ghost use Rattle.command_words.specs.Texts.{are_texts};

use crate::given::{Given, given_by};
use crate::labels::labels_of;
use crate::numbers::{number_or, number_to};
use generated_events::MAX_GENERATED;
use ri_base::{ArgList, Name, NoMemory};
use smoothing::MAX_MU;
use std::alloc::Global;

/// The results of a query that may be asked for, at most. A person reads no more, and a run has rarely more.
pub const MAX_RESULTS: u32 = 1000;

/// The results of a query whose words name no number.
pub const DEFAULT_RESULTS: u32 = 10;

/// The mu of a query whose words name none.
pub const DEFAULT_MU: u32 = 2500;

/// A query and what belongs to it.
#[derive(Debug, Drop)]
pub struct Asked {
    pub text: String,
    /// How many results are asked for, from 1 to [`MAX_RESULTS`].
    pub k: u32,
    /// The number of Dirichlet smoothing, from 1 to [`MAX_MU`].
    pub mu: u32,
    /// The topic and the run, where run lines are asked for.
    pub trec: Option<(String, String)>,
}

/// What the words of the command line ask for.
#[derive(Debug, Drop)]
pub enum Words {
    /// The extents of an expression in each document.
    Scan(String),
    /// The first results of a query.
    Query(Asked),
    /// Why the result of this rank, counted from 1, has its score. Its query is asked for as many results.
    Explain(u32, Asked),
    /// A collection in which nothing is.
    Create,
    /// The documents of the input, behind those of the collection.
    Add,
    /// The collection without the documents whose docnos the input names.
    Delete,
    /// The live documents in new parts, and no others.
    Merge,
    /// The rows of the input, for the prior of this name.
    Prior(Name),
    /// A session by the script of the input, of this number of Dirichlet smoothing, from 1 to [`MAX_MU`].
    Session(u32),
    /// A collection that is made of so many documents, from 1 to [`MAX_GENERATED`], and its answer to a query.
    Gen(u32),
}

/// Whether an option stands behind the command.
fn has_options(given: &Given) -> bool
    ensures { result ≡ has_options (told_given given.now) }
{
    given.k.is_some() || given.mu.is_some() || given.topic.is_some() || given.run.is_some()
}

/// The one positional word, where no second one stands.
fn only_word<'a>(given: &Given<'a>) -> Option<&'a str>
    ensures { option_map (λ s. s.now) result ≡ only_word (told_given given.now) }
{
    match given.second {
        None => given.first,
        Some(_) => None,
    }
}

fn scan_words(alloc: Global, given: &Given) -> Result<Option<Words>, NoMemory>
    ensures words { IfOk result (λ words. option_map told_words words ≡ scan_by (told_given given.now)) }
    ensures ranges { IfOk result (λ words. IfSome words AreInRange) }
{
    if has_options(given) {
        return Ok(None);
    }
    match only_word(given) {
        Some(text) => Ok(Some(Words::Scan(text.to_string(alloc)?))),
        None => Ok(None),
    }
}

/// Copies of a topic and a run.
fn copied_labels(
    alloc: Global,
    labels: Option<(&str, &str)>,
) -> Result<Option<(String, String)>, NoMemory>
    ensures { IfOk result (λ copied. told_labels copied ≡ option_map (λ x. (x.0.now, x.1.now)) labels.entry) }
{
    match labels {
        Some((topic, run)) => Ok(Some((topic.to_string(alloc)?, run.to_string(alloc)?))),
        None => Ok(None),
    }
}

fn query_words(alloc: Global, given: &Given) -> Result<Option<Words>, NoMemory>
    ensures words { IfOk result (λ words. option_map told_words words ≡ query_by (told_given given.now)) }
    ensures ranges { IfOk result (λ words. IfSome words AreInRange) }
{
    let (Some(text), None) = (given.first, given.second) else {
        return Ok(None);
    };
    let Some(k) = number_or(DEFAULT_RESULTS, MAX_RESULTS, given.k) else {
        return Ok(None);
    };
    let Some(mu) = number_or(DEFAULT_MU, MAX_MU, given.mu) else {
        return Ok(None);
    };
    let Some(labels) = labels_of(given.topic, given.run) else {
        return Ok(None);
    };
    Ok(Some(Words::Query(Asked {
        text: text.to_string(alloc)?,
        k,
        mu,
        trec: copied_labels(alloc, labels)?,
    })))
}

fn explain_words(alloc: Global, given: &Given) -> Result<Option<Words>, NoMemory>
    ensures words { IfOk result (λ words. option_map told_words words ≡ explain_by (told_given given.now)) }
    ensures ranges { IfOk result (λ words. IfSome words AreInRange) }
{
    let Given {
        first: Some(rank),
        second: Some(text),
        k: None,
        mu,
        topic: None,
        run: None,
    } = *given
    else {
        return Ok(None);
    };
    let Some(rank) = number_to(MAX_RESULTS, rank) else {
        return Ok(None);
    };
    let Some(mu) = number_or(DEFAULT_MU, MAX_MU, mu) else {
        return Ok(None);
    };
    Ok(Some(Words::Explain(
        rank,
        Asked {
            text: text.to_string(alloc)?,
            k: rank,
            mu,
            trec: None,
        },
    )))
}

/// A command behind which nothing stands.
fn bare_words(given: &Given, words: Words) -> Option<Words>
    requires { AreInRange words }
    ensures words { option_map told_words result ≡ bare_by (told_words words) (told_given given.now) }
    ensures ranges { IfSome result AreInRange }
{
    if has_options(given) || given.first.is_some() || given.second.is_some() {
        return None;
    }
    Some(words)
}

fn prior_words(alloc: Global, given: &Given) -> Result<Option<Words>, NoMemory>
    ensures words { IfOk result (λ words. option_map told_words words ≡ prior_by (told_given given.now)) }
    ensures ranges { IfOk result (λ words. IfSome words AreInRange) }
{
    if has_options(given) {
        return Ok(None);
    }
    let Some(name) = only_word(given) else {
        return Ok(None);
    };
    match Name::new(alloc, name.as_bytes())? {
        Some(name) => Ok(Some(Words::Prior(name))),
        None => Ok(None),
    }
}

fn session_words(given: &Given) -> Option<Words>
    ensures words { option_map told_words result ≡ session_by (told_given given.now) }
    ensures ranges { IfSome result AreInRange }
{
    let Given {
        first: None,
        second: None,
        k: None,
        mu,
        topic: None,
        run: None,
    } = *given
    else {
        return None;
    };
    let mu = number_or(DEFAULT_MU, MAX_MU, mu)?;
    Some(Words::Session(mu))
}

fn gen_words(given: &Given) -> Option<Words>
    ensures words { option_map told_words result ≡ gen_by (told_given given.now) }
    ensures ranges { IfSome result AreInRange }
{
    if has_options(given) {
        return None;
    }
    let count = number_to(MAX_GENERATED, only_word(given)?)?;
    Some(Words::Gen(count))
}

fn command_words(alloc: Global, command: &str, given: &Given) -> Result<Option<Words>, NoMemory>
    ensures words { IfOk result (λ words. option_map told_words words ≡ command_by command.now (told_given given.now)) }
    ensures ranges { IfOk result (λ words. IfSome words AreInRange) }
{
    match command {
        "scan" => scan_words(alloc, given),
        "query" => query_words(alloc, given),
        "explain" => explain_words(alloc, given),
        "create" => Ok(bare_words(given, Words::Create)),
        "add" => Ok(bare_words(given, Words::Add)),
        "delete" => Ok(bare_words(given, Words::Delete)),
        "merge" => Ok(bare_words(given, Words::Merge)),
        "prior" => prior_words(alloc, given),
        "session" => Ok(session_words(given)),
        "gen" => Ok(gen_words(given)),
        _ => Ok(None),
    }
}

/// Puts a word behind others.
fn push_word<'a>(words: &mut Vec<&'a str>, word: &'a str) -> Result<(), NoMemory>
    ensures words { OnOk result (words.new.items ≡ words.old.items ++ word.entry ∷ []) }
    ensures text { is_utf8 word.entry.now ≡ true }
{
    words.push(word)?;
    Ok(())
}

/// The words behind the folder and the command.
#[tactic(auto, using(crate::proofs::WordLemmas::word_there))]
fn words_behind<'a>(alloc: Global, words: &'a ArgList) -> Result<Vec<&'a str>, NoMemory>
    ensures words { IfOk result (λ rest. map (λ word. word.now) rest.items ≡ drop 2 words.now) }
    ensures texts { IfOk result (λ rest. are_texts (map (λ word. word.now) rest.items) ≡ true) }
{
    let mut rest = Vec::new(alloc);
    for index in 2..words.len() {
        let Some(word) = words.get(index) else {
            return Ok(rest);
        };
        push_word(&mut rest, word)?;
    }
    Ok(rest)
}

/// What the words ask for: `None` where they aren't in the table of commands. The first word, a folder, isn't read.
pub fn read_words(alloc: Global, words: &ArgList) -> Result<Option<Words>, NoMemory>
    ensures words { IfOk result (λ found. option_map told_words found ≡ asks_of words.now) }
    ensures ranges { IfOk result (λ found. IfSome found AreInRange) }
{
    let Some(command) = words.get(1) else {
        return Ok(None);
    };
    let rest = words_behind(alloc, words)?;
    match given_by(alloc, &rest)? {
        Some(given) => command_words(alloc, command, &given),
        None => Ok(None),
    }
}
