// What expressions ask for.
ghost use Rattle.std.specs.Prelude.{◌≡◌, ◌++◌, [], map, IfOk, OnOk};
ghost use Rattle.ri_base.specs.Expression.{expr_tree, expr_trees};
ghost use Rattle.expression_words.specs.Words.{AreDistinct, all_names, all_words, names, words};

use ri_base::{ExtentExpr, Name, NoMemory, Term, Terms};
use std::alloc::Global;

/// Terms of which the places are asked for, and names of which the fields are, each as often as it was asked for.
#[derive(Drop)]
pub struct Asked {
    pub terms: Vec<Term>,
    pub names: Vec<Name>,
}

impl Asked {
    /// Nothing yet.
    pub fn new(alloc: Global) -> Asked
        ensures terms { result.terms.items ≡ [] }
        ensures names { result.names.items ≡ [] }
    {
        Asked {
            terms: Vec::new(alloc),
            names: Vec::new(alloc),
        }
    }
}

/// The terms that stand in the expression, each once, in rising order of bytes.
pub fn words_of(alloc: Global, expr: &ExtentExpr) -> Result<Terms, NoMemory>
    ensures { IfOk result (λ terms. AreDistinct (words (expr_tree expr.now)) terms) }
{
    let mut asked = Asked::new(alloc);
    ask(alloc, expr, &mut asked)?;
    Ok(distinct_words(asked))
}

/// The terms that were asked for, each once, in rising order of bytes.
pub fn distinct_words(asked: Asked) -> Terms
    ensures { AreDistinct asked.terms.items result }
{
    Terms::of(distinct(asked.terms))
}

/// These terms, each once, in order.
fn distinct(terms: Vec<Term>) -> Vec<Term>
    ensures { AreDistinct terms.items result.items }
{
    let mut sorted = terms;
    sorted.sort_unstable();
    sorted.dedup();
    sorted
}

/// Puts what the expression asks for behind what was asked for before.
#[cycle(asking)]
pub fn ask(alloc: Global, expr: &ExtentExpr, asked: &mut Asked) -> Result<(), NoMemory>
    ensures terms { OnOk result (asked.new.terms.items ≡ asked.old.terms.items ++ words (expr_tree expr.now)) }
    ensures names { OnOk result (asked.new.names.items ≡ asked.old.names.items ++ names (expr_tree expr.now)) }
{
    match expr {
        ExtentExpr::Word(term) => {
            asked.terms.push(term.clone_in(alloc)?)?;
            Ok(())
        }
        ExtentExpr::Any(name) => {
            asked.names.push(name.clone_in(alloc)?)?;
            Ok(())
        }
        ExtentExpr::Ordered(_, all)
        | ExtentExpr::Unordered(_, all)
        | ExtentExpr::Syn(all)
        | ExtentExpr::Band(all) => ask_all(alloc, all, asked),
        ExtentExpr::InField(x, _) => ask(alloc, x, asked),
    }
}

/// Puts what each expression asks for behind what was asked for before.
#[cycle(asking)]
fn ask_all(alloc: Global, all: &[ExtentExpr], asked: &mut Asked) -> Result<(), NoMemory>
    ensures terms { OnOk result (asked.new.terms.items ≡ asked.old.terms.items ++ all_words (expr_trees (map expr_tree all.now))) }
    ensures names { OnOk result (asked.new.names.items ≡ asked.old.names.items ++ all_names (expr_trees (map expr_tree all.now))) }
{
    for x in all {
        ask(alloc, x, asked)?;
    }
    Ok(())
}
