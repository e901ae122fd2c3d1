// The texts of events.
ghost use Rattle.std.specs.Prelude.{◌≡◌, ◌≤◌, Ok, length, true, All, IfErr, IfOk};
ghost use Rattle.std.specs.Str.{is_utf8};
ghost use Rattle.ri_base.specs.Expression.{expr_tree};
ghost use Rattle.query_check.specs.Answers.{whole_checked};
ghost use Rattle.desk.specs.Asked.{IsNotTaken, asked, check_fault, scanned, text_fault};
ghost use Rattle.desk.specs.Keeping.{AsksFor};

use crate::{CheckKind, Refusal};
use query_check::{CheckFault, Checked, check};
use query_reader::{QueryFault, read_expr, read_query};
use ri_base::{ExtentExpr, Name};
use std::alloc::Global;
use std::str;

/// Why a text isn't taken: it is refused, or memory is wanting.
#[derive(Drop)]
pub(crate) enum NotTaken {
    Refused(Refusal),
    Memory,
}

fn text_fault(fault: QueryFault) -> NotTaken
    ensures { result ≡ text_fault fault }
{
    match fault {
        QueryFault::Refused { kind, place } => NotTaken::Refused(Refusal::Query(kind, place)),
        QueryFault::Memory => NotTaken::Memory,
    }
}

fn check_fault(fault: CheckFault) -> NotTaken
    ensures { result ≡ check_fault fault }
{
    match fault {
        CheckFault::NoWeight => NotTaken::Refused(Refusal::Check(CheckKind::NoWeight)),
        CheckFault::NoLeaf => NotTaken::Refused(Refusal::Check(CheckKind::NoLeaf)),
        CheckFault::ScaleTooLarge => NotTaken::Refused(Refusal::Check(CheckKind::ScaleTooLarge)),
        CheckFault::UnknownPrior { name } => {
            NotTaken::Refused(Refusal::Check(CheckKind::UnknownPrior(name)))
        }
        CheckFault::Memory => NotTaken::Memory,
    }
}

/// The checked query of a text, where there are priors of these names.
#[tactic(auto, using(crate::proofs::AskedLemmas::utf8_text))]
pub(crate) fn ask(alloc: Global, text: &[u8], priors: &[Name]) -> Result<Checked, NotTaken>
    requires text { is_utf8 text.now ≡ true }
    requires few { length priors.now ≤ 8 }
    ensures read { IfOk result (λ checked. asked priors.now text.now ≡ Ok (whole_checked checked)) }
    ensures asks { IfOk result (λ checked. All (AsksFor (length priors.now)) (whole_checked checked).leaves) }
    ensures refused { IfErr result (IsNotTaken (asked priors.now text.now)) }
{
    let text = str::from_utf8(text).unwrap();
    let query = match read_query(alloc, text) {
        Ok(query) => query,
        Err(fault) => return Err(text_fault(fault)),
    };
    match check(alloc, query, priors) {
        Ok(checked) => Ok(checked),
        Err(fault) => Err(check_fault(fault)),
    }
}

/// The expression of a text.
#[tactic(auto, using(crate::proofs::AskedLemmas::utf8_text))]
pub(crate) fn ask_expr(alloc: Global, text: &[u8]) -> Result<ExtentExpr, NotTaken>
    requires { is_utf8 text.now ≡ true }
    ensures read { IfOk result (λ x. scanned text.now ≡ Ok (expr_tree x)) }
    ensures refused { IfErr result (IsNotTaken (scanned text.now)) }
{
    let text = str::from_utf8(text).unwrap();
    match read_expr(alloc, text) {
        Ok(expr) => Ok(expr),
        Err(fault) => Err(text_fault(fault)),
    }
}
