// INT: its operators and comparisons.
#![tactic(auto)]

ghost use Rattle.std.specs.Prelude.{◌≡◌, neg_ℤ, Decides, Some};
ghost use Rattle.integers.specs.Int.{applied, negated, compared};
ghost use Rattle.integers.specs.Laws.{Exactly, Gives, Holds, Only};
ghost use Rattle.integers.specs.Text.{comparison_text, operator_text};

use std::fmt;

// The dyadic operators `+`, `-`, `*`, `/`, `\`, PLUS, MINUS and TIMES.
#[derive(Clone, Copy, Debug, PartialEq, Eq)]
pub enum Operator {
    Add,
    Subtract,
    Multiply,
    Divide,
    Remainder,
    Plus,
    Minus,
    Times,
}

// The comparisons `=`, `<>`, `<`, `>`, `<=` and `>=`.
#[derive(Clone, Copy, Debug, PartialEq, Eq)]
pub enum Comparison {
    Equal,
    Differ,
    Less,
    More,
    AtMost,
    AtLeast,
}

// The value of `a op b`, if it has one.
pub fn apply(op: Operator, a: i32, b: i32) -> Option<i32>
    ensures value { result ≡ applied op a b }
    ensures law { Only (Gives op a b) result }
{
    match op {
        Operator::Add => a.checked_add(b),
        Operator::Subtract => a.checked_sub(b),
        Operator::Multiply => a.checked_mul(b),
        Operator::Divide => a.checked_div(b),
        Operator::Remainder => {
            if b == 0 {
                None
            } else {
                Some(a.wrapping_rem(b))
            }
        }
        Operator::Plus => Some(a.wrapping_add(b)),
        Operator::Minus => Some(a.wrapping_sub(b)),
        Operator::Times => Some(a.wrapping_mul(b)),
    }
}

// The value of `- a`, if it has one.
#[tactic(auto, using(crate::proofs::Given::negated_only))]
pub fn negate(a: i32) -> Option<i32>
    ensures value { result ≡ negated a }
    ensures law { Only (Exactly (neg_ℤ a)) result }
{
    a.checked_neg()
}

// Whether `a c b` is TRUE.
pub fn compare(c: Comparison, a: i32, b: i32) -> bool
    ensures value { result ≡ compared c a b }
    ensures law { Decides result (Holds c a b) }
{
    match c {
        Comparison::Equal => a == b,
        Comparison::Differ => a != b,
        Comparison::Less => a < b,
        Comparison::More => a > b,
        Comparison::AtMost => a <= b,
        Comparison::AtLeast => a >= b,
    }
}

// The operator as it is written.
impl fmt::Display for Operator {
    ghost output = { λ op. Some (operator_text op) };

    fn fmt<W: fmt::Write>(&self, f: &mut fmt::Formatter<W>) -> fmt::Result {
        match self {
            Operator::Add => write!(f, "+"),
            Operator::Subtract => write!(f, "-"),
            Operator::Multiply => write!(f, "*"),
            Operator::Divide => write!(f, "/"),
            Operator::Remainder => write!(f, "\\"),
            Operator::Plus => write!(f, "PLUS"),
            Operator::Minus => write!(f, "MINUS"),
            Operator::Times => write!(f, "TIMES"),
        }
    }
}

// The comparison as it is written.
impl fmt::Display for Comparison {
    ghost output = { λ c. Some (comparison_text c) };

    fn fmt<W: fmt::Write>(&self, f: &mut fmt::Formatter<W>) -> fmt::Result {
        match self {
            Comparison::Equal => write!(f, "="),
            Comparison::Differ => write!(f, "<>"),
            Comparison::Less => write!(f, "<"),
            Comparison::More => write!(f, ">"),
            Comparison::AtMost => write!(f, "<="),
            Comparison::AtLeast => write!(f, ">="),
        }
    }
}
