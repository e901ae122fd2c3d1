// What words behind a command give.
ghost use Rattle.std.specs.Prelude.{◌≡◌, ◌⊎◌, IfOk, MatchResult, None, Some, false, map, option_map, true};
ghost use Rattle.clap.specs.Words.{app_of, kind_of, rule_of};
ghost use Rattle.command_words.specs.ClapCommand.{option_rule, words_app};
ghost use Rattle.command_words.specs.Given.{given_by, told_given};
ghost use Rattle.command_words.specs.Texts.{are_texts};

use crate::taken::{taken, value};
use clap::error::ErrorKind;
use clap::{Arg, Command, Error};
use ri_base::NoMemory;
use std::alloc::{AllocError, Global};

/// The positional words, in their order, and the values of the options.
#[derive(Clone, Copy, Debug)]
pub struct Given<'a> {
    pub first: Option<&'a str>,
    pub second: Option<&'a str>,
    pub k: Option<&'a str>,
    pub mu: Option<&'a str>,
    pub topic: Option<&'a str>,
    pub run: Option<&'a str>,
}

/// An option that takes one value, at most once.
fn option_arg<'a>(alloc: Global, name: &'a str) -> Arg<'a>
    ensures rule { rule_of result ≡ option_rule name.entry.now }
    ensures local { result.global ≡ false }
{
    Arg::new(alloc, name).long(name)
}

/// A command with two positional words and all options. Which of them it may have is for the table of commands to say.
fn any_command<'a>(alloc: Global) -> Result<Command<'a>, AllocError>
    ensures { IfOk result (λ c. app_of c ≡ words_app) }
{
    Command::new(alloc, "indri")
        .no_binary_name(true)
        .disable_help_flag(true)
        .arg(Arg::new(alloc, "first"))?
        .arg(Arg::new(alloc, "second"))?
        .arg(option_arg(alloc, "k"))?
        .arg(option_arg(alloc, "mu"))?
        .arg(option_arg(alloc, "topic"))?
        .arg(option_arg(alloc, "run"))
}

/// What the words give, where they are items that a command may have. Clap reads them.
#[tactic(auto, using(crate::proofs::GivenLemmas::words_app_is_free))]
fn matched<'a>(alloc: Global, words: &'a [&'a str]) -> Result<Given<'a>, Error>
    requires { are_texts (map (λ word. word.now) words.now) ≡ true }
    ensures { MatchResult result (λ given. given_by (map (λ word. word.now) words.entry.now) ≡ Some (told_given given))
        (λ e. (kind_of e ≡ ErrorKind.OutOfMemory) ⊎ (given_by (map (λ word. word.now) words.entry.now) ≡ None)) }
{
    let matches = taken(any_command(alloc)?, words)?;
    Ok(Given {
        first: value(&matches, "first"),
        second: value(&matches, "second"),
        k: value(&matches, "k"),
        mu: value(&matches, "mu"),
        topic: value(&matches, "topic"),
        run: value(&matches, "run"),
    })
}

/// What the words behind a command give, where they are items that a command may have.
pub fn given_by<'a>(alloc: Global, words: &'a [&'a str]) -> Result<Option<Given<'a>>, NoMemory>
    requires { are_texts (map (λ word. word.now) words.now) ≡ true }
    ensures { IfOk result (λ given. option_map told_given given ≡ given_by (map (λ word. word.now) words.entry.now)) }
{
    match matched(alloc, words) {
        Ok(given) => Ok(Some(given)),
        Err(error) => match error.kind() {
            ErrorKind::OutOfMemory => Err(AllocError),
            _ => Ok(None),
        },
    }
}
