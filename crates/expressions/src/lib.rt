// Expressions, and their values in a store of variables.
#![tactic(auto)]

ghost use Rattle.std.specs.Prelude.{◌≡◌, IfOk, Option, Some};
ghost use Rattle.expressions.specs.Expression.{Expression, IsDyadic, IsNegation, IsNegative, shape};
ghost use Rattle.expressions.specs.Value.{Store, combined, int_of, int_value, int_valued, negation_of, negative_of, store_of, truth_of, truth_value, truth_valued, value};
ghost use Rattle.expressions.specs.Evaluation.{Tells};
ghost use Rattle.expressions.specs.declared.Value.{Value};
ghost use Rattle.expressions.specs.Reads.{Masks, Reads, Suffices};
ghost use Rattle.expressions.specs.Text.{dyadic_text, expression_text};
ghost use Rattle.expressions.specs.Worked.{Worked};

use integers::{Comparison, Operator};
pub use numbers::Variable;
use std::alloc::{AllocError, Global};
use std::fmt;

// What an expression may have as its value.
#[derive(Clone, Copy, Debug, PartialEq, Eq)]
pub enum Value {
    Int(i32),
    Truth(bool),
}

// The operators with two operands.
#[derive(Clone, Copy, Debug, PartialEq, Eq)]
pub enum Dyadic {
    Arithmetic(Operator),
    Compare(Comparison),
    And,
    Or,
}

// An expression, as it is written; N is what stands for a name.
#[derive(Drop)]
pub enum Expr<N> {
    Number(i32),
    Truth(bool),
    Name(N),
    Negative(Box<Expr<N>>),
    Negation(Box<Expr<N>>),
    Dyadic(Dyadic, Box<Expr<N>>, Box<Expr<N>>),
}

// A constructor for each case with an operand; one for two of them would take the case as a parameter.
impl<N: Drop> Expr<N> {
    // `-` before an operand.
    pub fn negative(heap: Global, operand: Expr<N>) -> Result<Expr<N>, AllocError>
        ensures { IfOk result (IsNegative operand) }
    {
        Ok(Expr::Negative(Box::new(heap, operand)?))
    }

    // NOT before an operand.
    pub fn negation(heap: Global, operand: Expr<N>) -> Result<Expr<N>, AllocError>
        ensures { IfOk result (IsNegation operand) }
    {
        Ok(Expr::Negation(Box::new(heap, operand)?))
    }

    // An operator between two operands.
    pub fn dyadic(
        heap: Global,
        op: Dyadic,
        left: Expr<N>,
        right: Expr<N>,
    ) -> Result<Expr<N>, AllocError>
        ensures { IfOk result (IsDyadic op left right) }
    {
        let a = Box::new(heap, left)?;
        let b = Box::new(heap, right)?;
        Ok(Expr::Dyadic(op, a, b))
    }
}

// A type of values: INT is i32, and a truth value is a bool.
// It is no TryFrom<Value>: what is read may be no value at all, and nobody would look at the error.
pub trait Typed: Sized {
    // What a value is, if it is of the type.
    ghost of: { Option Value → Option Self };

    // The value of an expression that is to be of the type.
    ghost valued: { Store → Expression → Option Self };

    fn of(value: Option<Value>) -> Option<Self>
        ensures { result ≡ of value };

    ghost valued_of: { (s : Store) (e : Expression) → valued s e ≡ of (value s e) };
}

impl Typed for i32 {
    ghost of = { int_of };

    ghost valued = { int_value };

    ghost valued_of = { int_valued };

    fn of(value: Option<Value>) -> Option<i32> {
        match value? {
            Value::Int(n) => Some(n),
            Value::Truth(_) => None,
        }
    }
}

impl Typed for bool {
    ghost of = { truth_of };

    ghost valued = { truth_value };

    ghost valued_of = { truth_valued };

    fn of(value: Option<Value>) -> Option<bool> {
        match value? {
            Value::Int(_) => None,
            Value::Truth(b) => Some(b),
        }
    }
}

// `-` before an operand.
fn negative(operand: Option<Value>) -> Option<Value>
    ensures { result ≡ negative_of operand }
{
    let a = i32::of(operand)?;
    Some(Value::Int(integers::negate(a)?))
}

// NOT before an operand.
fn negation(operand: Option<Value>) -> Option<Value>
    ensures { result ≡ negation_of operand }
{
    let a = bool::of(operand)?;
    Some(Value::Truth(!a))
}

// An operator between two operands.
fn combine(op: Dyadic, left: Option<Value>, right: Option<Value>) -> Option<Value>
    ensures { result ≡ combined op left right }
{
    match op {
        Dyadic::Arithmetic(o) => {
            let value = integers::apply(o, i32::of(left)?, i32::of(right)?)?;
            Some(Value::Int(value))
        }
        Dyadic::Compare(c) => {
            let value = integers::compare(c, i32::of(left)?, i32::of(right)?);
            Some(Value::Truth(value))
        }
        Dyadic::And => Some(Value::Truth(bool::of(left)? && bool::of(right)?)),
        Dyadic::Or => Some(Value::Truth(bool::of(left)? || bool::of(right)?)),
    }
}

impl Expr<Variable> {
    // The value of the expression, if it has one.
    #[tactic(auto, using(crate::proofs::Rules::value_tells), unfolding(crate::specs::Value::value))]
    pub fn eval(&self, store: &[i32; 64]) -> Option<Value>
        ensures value { result ≡ value (store_of store.now) (shape self.now) }
        ensures law { Tells (store_of store.now) (shape self.now) result }
    {
        match self {
            Expr::Number(n) => Some(Value::Int(*n)),
            Expr::Truth(b) => Some(Value::Truth(*b)),
            Expr::Name(x) => Some(Value::Int(store[x.number() as usize])),
            Expr::Negative(e) => negative(e.eval(store)),
            Expr::Negation(e) => negation(e.eval(store)),
            Expr::Dyadic(op, a, b) => combine(*op, a.eval(store), b.eval(store)),
        }
    }

    // The value of the expression, if it is of the type.
    pub fn eval_as<T: Typed>(&self, store: &[i32; 64]) -> Option<T>
        ensures { result ≡ T.valued (store_of store.now) (shape self.now) }
    {
        T::of(self.eval(store))
    }

    // The variables that stand in the expression: bit x is 1 for variable x.
    pub fn reads(&self) -> u64
        ensures variables { Masks result (Reads (shape self.now)) }
        ensures suffices { Suffices result (shape self.now) }
    {
        match self {
            Expr::Number(_) | Expr::Truth(_) => 0,
            Expr::Name(x) => 1 << x.number(),
            Expr::Negative(e) | Expr::Negation(e) => e.reads(),
            Expr::Dyadic(_, a, b) => a.reads() | b.reads(),
        }
    }
}

// The operator as it is written.
impl fmt::Display for Dyadic {
    ghost output = { λ op. Some (dyadic_text op) };

    fn fmt<W: fmt::Write>(&self, f: &mut fmt::Formatter<W>) -> fmt::Result {
        match self {
            Dyadic::Arithmetic(op) => write!(f, "{op}"),
            Dyadic::Compare(c) => write!(f, "{c}"),
            Dyadic::And => write!(f, "AND"),
            Dyadic::Or => write!(f, "OR"),
        }
    }
}

// The expression as it is written, every part with an operator in brackets.
impl fmt::Display for Expr<Variable> {
    ghost output = { λ e. Some (expression_text (shape e)) };

    fn fmt<W: fmt::Write>(&self, f: &mut fmt::Formatter<W>) -> fmt::Result {
        match self {
            Expr::Number(n) => write!(f, "{n}"),
            Expr::Truth(true) => write!(f, "TRUE"),
            Expr::Truth(false) => write!(f, "FALSE"),
            Expr::Name(x) => write!(f, "{x}"),
            Expr::Negative(e) => {
                write!(f, "(-")?;
                (**e).fmt(f)?;
                write!(f, ")")
            }
            Expr::Negation(e) => {
                write!(f, "(NOT ")?;
                (**e).fmt(f)?;
                write!(f, ")")
            }
            Expr::Dyadic(op, a, b) => {
                write!(f, "(")?;
                (**a).fmt(f)?;
                write!(f, " {op} ")?;
                (**b).fmt(f)?;
                write!(f, ")")
            }
        }
    }
}

// The worked values hold in every store.
pub fn worked_values()
    ensures { (s : Store) → Worked s }
{}
