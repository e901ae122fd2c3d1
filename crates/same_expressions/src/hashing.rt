// A number that stands for an expression with its context in a look-up.
use ri_base::{ExtentExpr, Name};
use std::hash::{DefaultHasher, Hash, Hasher};

/// A number that is the same for the same expression and context. Others seldom have it too, and a look-up tells them apart.
pub fn fingerprint(expr: &ExtentExpr, context: Option<&Name>) -> u64 {
    let mut state = DefaultHasher::new();
    write_expr(expr, &mut state);
    if let Some(name) = context {
        name.hash(&mut state);
    }
    state.finish()
}

#[cycle(writing)]
fn write_expr(expr: &ExtentExpr, state: &mut DefaultHasher) {
    match expr {
        ExtentExpr::Word(term) => {
            state.write_u8(0);
            term.hash(state);
        }
        ExtentExpr::Ordered(n, all) => write_operator(1, *n, all, state),
        ExtentExpr::Unordered(n, all) => write_operator(2, *n, all, state),
        ExtentExpr::Syn(all) => write_operator(3, 0, all, state),
        ExtentExpr::Band(all) => write_operator(4, 0, all, state),
        ExtentExpr::Any(name) => {
            state.write_u8(5);
            name.hash(state);
        }
        ExtentExpr::InField(x, name) => {
            write_expr(x, state);
            state.write_u8(6);
            name.hash(state);
        }
    }
}

#[cycle(writing)]
fn write_operator(operator: u8, width: u32, all: &[ExtentExpr], state: &mut DefaultHasher) {
    state.write_u8(operator);
    state.write_u32(width);
    state.write_usize(all.len());
    for x in all {
        write_expr(x, state);
    }
}
