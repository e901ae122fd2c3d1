// What a command of plain options takes.
ghost use Rattle.std.specs.Prelude.{◌≡◌, ◌⊎◌, true, false, map, MatchResult, option_map};
ghost use Rattle.clap.specs.Words.{app_of, first_of, found_of, is_simple_and_free, kind_of, rows_of};
ghost use Rattle.command_words.specs.Taken.{IsTakenBy, is_taken};

use clap::error::ErrorKind;
use clap::{ArgMatches, Command, Error};

/// The matches of the words, where the command takes them.
pub fn taken<'a>(command: Command<'a>, words: &'a [&'a str]) -> Result<ArgMatches<'a>, Error>
    requires { is_simple_and_free (app_of command) ≡ true }
    ensures { MatchResult result (IsTakenBy (app_of command.entry) (map (λ word. word.now) words.entry.now))
        (λ e. (kind_of e ≡ ErrorKind.OutOfMemory) ⊎ (is_taken (app_of command.entry) (map (λ word. word.now) words.entry.now) ≡ false)) }
{
    command.try_get_matches_from(words)
}

/// The value of an argument.
pub fn value<'a>(matches: &ArgMatches<'a>, name: &str) -> Option<&'a str>
    ensures { option_map (λ s. s.now) result ≡ first_of name.now (rows_of (found_of matches.now)) }
{
    matches.get_str(name)
}
