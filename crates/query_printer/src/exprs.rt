// Printing expressions.
ghost use Rattle.std.specs.Prelude.{◌≡◌, ◌++◌, [], ◌∷◌, map, IfOk, OnOk};
ghost use Rattle.std.specs.Fmt.{decimal};
ghost use Rattle.ri_base.specs.Expression.{expr_tree, expr_trees};
ghost use Rattle.query_printer.specs.Printed.{doubled, printed, printed_all};

use ri_base::{Bytes, ExtentExpr, NoMemory};
use std::alloc::Global;

/// The text of an expression.
pub fn print_expr(alloc: Global, x: &ExtentExpr) -> Result<Bytes, NoMemory>
    ensures { IfOk result (λ text. text ≡ printed (expr_tree x.now)) }
{
    let mut out = Vec::new(alloc);
    push_expr(alloc, &mut out, x)?;
    Ok(Bytes::of(out))
}

/// Appends bytes with each `"` doubled.
fn push_doubled(out: &mut Vec<u8>, bytes: &[u8]) -> Result<(), NoMemory>
    ensures { OnOk result (out.new.items ≡ out.old.items ++ doubled bytes.now) }
{
    for byte in bytes {
        if *byte == b'"' {
            out.push(b'"')?;
        }
        out.push(*byte)?;
    }
    Ok(())
}

/// Appends a number.
pub(crate) fn push_number(alloc: Global, out: &mut Vec<u8>, n: u64) -> Result<(), NoMemory>
    ensures { OnOk result (out.new.items ≡ out.old.items ++ decimal n) }
{
    let text = format!(in alloc; "{n}")?;
    push_bytes(out, text.as_str().as_bytes())
}

pub(crate) fn push_bytes(out: &mut Vec<u8>, bytes: &[u8]) -> Result<(), NoMemory>
    ensures { OnOk result (out.new.items ≡ out.old.items ++ bytes.now) }
{
    out.extend_from_slice(bytes)?;
    Ok(())
}

/// Appends bytes and others behind them.
fn push_two(out: &mut Vec<u8>, front: &[u8], back: &[u8]) -> Result<(), NoMemory>
    ensures { OnOk result (out.new.items ≡ (out.old.items ++ front.now) ++ back.now) }
{
    push_bytes(out, front)?;
    push_bytes(out, back)
}

/// Appends the name of a window, its width and `(`.
fn push_width(alloc: Global, out: &mut Vec<u8>, name: &[u8], width: u32) -> Result<(), NoMemory>
    ensures { OnOk result (out.new.items ≡ ((out.old.items ++ name.now) ++ decimal width) ++ 40 ∷ []) }
{
    push_bytes(out, name)?;
    push_number(alloc, out, u64::from(width))?;
    push_bytes(out, b"(")
}

fn push_quoted(out: &mut Vec<u8>, bytes: &[u8]) -> Result<(), NoMemory>
    ensures { OnOk result (out.new.items ≡ out.old.items ++ 34 ∷ (doubled bytes.now ++ 34 ∷ [])) }
{
    push_bytes(out, b"\"")?;
    push_doubled(out, bytes)?;
    push_bytes(out, b"\"")
}

#[cycle(printing)]
#[tactic(auto, using(crate::proofs::Texts::texts))]
pub(crate) fn push_expr(alloc: Global, out: &mut Vec<u8>, x: &ExtentExpr) -> Result<(), NoMemory>
    ensures { OnOk result (out.new.items ≡ out.old.items ++ printed (expr_tree x.now)) }
{
    match x {
        ExtentExpr::Word(term) => push_quoted(out, term.as_bytes()),
        ExtentExpr::Any(name) => push_two(out, b"#any:", name.as_bytes()),
        ExtentExpr::Syn(all) => {
            push_bytes(out, b"#syn(")?;
            push_all(alloc, out, all)
        }
        ExtentExpr::Band(all) => {
            push_bytes(out, b"#band(")?;
            push_all(alloc, out, all)
        }
        ExtentExpr::Ordered(n, all) => {
            push_width(alloc, out, b"#", *n)?;
            push_all(alloc, out, all)
        }
        ExtentExpr::Unordered(n, all) => {
            push_width(alloc, out, b"#uw", *n)?;
            push_all(alloc, out, all)
        }
        ExtentExpr::InField(x, name) => {
            push_expr(alloc, out, x)?;
            push_two(out, b".", name.as_bytes())
        }
    }
}

/// Appends arguments and `)`.
#[cycle(printing)]
#[tactic(auto, using(crate::proofs::Texts::all_none, crate::proofs::Texts::all_some, crate::proofs::Texts::more_at, crate::proofs::Texts::more_end))]
fn push_all(alloc: Global, out: &mut Vec<u8>, all: &[ExtentExpr]) -> Result<(), NoMemory>
    ensures { OnOk result (out.new.items ≡ out.old.items ++ printed_all (expr_trees (map expr_tree all.now))) }
{
    match all {
        [] => push_bytes(out, b")"),
        [first, rest @ ..] => {
            push_expr(alloc, out, first)?;
            for x in rest {
                push_bytes(out, b" ")?;
                push_expr(alloc, out, x)?;
            }
            push_bytes(out, b")")
        }
    }
}
