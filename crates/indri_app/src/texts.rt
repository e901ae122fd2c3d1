// The texts of commands.
ghost use Rattle.std.specs.Prelude.{◌≡◌, ◌≤◌, Ok, length, IfErr, IfOk};
ghost use Rattle.ri_base.specs.Expression.{expr_tree};
ghost use Rattle.query_check.specs.Answers.{whole_checked};
ghost use Rattle.query_reader.specs.QueryText.{expr_text, query_text};
ghost use Rattle.indri_app.specs.Command.{IsQuery, expr_refusal, query_refusal};
ghost use Rattle.indri_app.specs.Texts.{IsTextFault, text_fault};

use query_check::{CheckFault, Checked, check};
use query_reader::{QueryFault, read_expr, read_query};
use query_refusals::QueryRefusal;
use ri_base::{ExtentExpr, Name};
use std::alloc::Global;

/// Why there is no command of a text.
#[derive(Debug, Drop)]
pub enum TextFault {
    Refused(QueryRefusal),
    Memory,
}

fn text_fault(fault: QueryFault) -> TextFault
    ensures { result ≡ text_fault fault }
{
    match fault {
        QueryFault::Refused { kind, place } => {
            TextFault::Refused(QueryRefusal::Text { kind, place })
        }
        QueryFault::Memory => TextFault::Memory,
    }
}

/// The expression of a text.
pub fn read_expression(alloc: Global, text: &str) -> Result<ExtentExpr, TextFault>
    ensures read { IfOk result (λ x. expr_text text.now ≡ Ok (expr_tree x)) }
    ensures refused { IfErr result (IsTextFault (expr_refusal (expr_text text.now))) }
{
    match read_expr(alloc, text) {
        Ok(expr) => Ok(expr),
        Err(fault) => Err(text_fault(fault)),
    }
}

/// The checked query of a text, where the priors have these names.
pub fn read_checked(alloc: Global, text: &str, names: &[Name]) -> Result<Checked, TextFault>
    requires few { length names.now ≤ 8 }
    ensures read { IfOk result (λ q. IsQuery names.now text.now (whole_checked q)) }
    ensures refused { IfErr result (IsTextFault (query_refusal names.now (query_text text.now))) }
{
    let query = match read_query(alloc, text) {
        Ok(query) => query,
        Err(fault) => return Err(text_fault(fault)),
    };
    match check(alloc, query, names) {
        Ok(query) => Ok(query),
        Err(CheckFault::Memory) => Err(TextFault::Memory),
        Err(fault) => Err(TextFault::Refused(QueryRefusal::Check(fault))),
    }
}
