// The types of expressions, in which every name is a variable.
ghost use Rattle.std.specs.Prelude.{◌≡◌};
ghost use Rattle.lines.specs.Types.{of_type, operation_type, type_of};
ghost use Rattle.lines.specs.Syntax.{phrase};

use crate::refusal::Flaw;
use crate::syntax::Mention;
use expressions::{Dyadic, Expr};

// The types: INT, and that of the truth values.
#[derive(Clone, Copy, Debug, PartialEq, Eq)]
pub enum Sort {
    Int,
    Truth,
}

// The type of an operation on two operands, if it has one.
fn operation_type(op: Dyadic, left: Option<Sort>, right: Option<Sort>) -> Option<Sort>
    ensures { result ≡ operation_type op left right }
{
    match (op, left, right) {
        (Dyadic::Arithmetic(_), Some(Sort::Int), Some(Sort::Int)) => Some(Sort::Int),
        (Dyadic::Compare(_), Some(Sort::Int), Some(Sort::Int)) => Some(Sort::Truth),
        (Dyadic::And | Dyadic::Or, Some(Sort::Truth), Some(Sort::Truth)) => Some(Sort::Truth),
        _ => None,
    }
}

// The type of an expression, if it has one.
fn type_of(term: &Expr<Mention<'_>>) -> Option<Sort>
    ensures { result ≡ type_of (phrase term.now) }
{
    match term {
        Expr::Name(_) | Expr::Number(_) => Some(Sort::Int),
        Expr::Truth(_) => Some(Sort::Truth),
        Expr::Negative(e) => type_of(e).filter(|sort| *sort == Sort::Int),
        Expr::Negation(e) => type_of(e).filter(|sort| *sort == Sort::Truth),
        Expr::Dyadic(op, a, b) => operation_type(*op, type_of(a), type_of(b)),
    }
}

// The expression has to be of that type.
pub fn demand(wanted: Sort, term: &Expr<Mention<'_>>) -> Result<(), Flaw>
    ensures { result ≡ of_type wanted (phrase term.now) }
{
    if type_of(term) == Some(wanted) {
        Ok(())
    } else {
        Err(Flaw::WrongType)
    }
}
