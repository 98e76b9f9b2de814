// The expression reader: `expression` and `operand` call each other, and the depth that is left for brackets falls.
ghost use Rattle.std.specs.Prelude.{◌≡◌, map, MatchResult};
ghost use Rattle.words.specs.Token.{token};
ghost use Rattle.lines.specs.Answer.{answered, UnlessMemory};
ghost use Rattle.lines.specs.Phrases.{FirstIs, past, with_prefix, after_first, operand_of, expression_of, words_left, term_read};
ghost use Rattle.lines.specs.Roles.{is_fixed};
ghost use Rattle.lines.specs.Syntax.{phrase};
ghost use Rattle.lines.specs.declared.refusal.Flaw.TheVariants.{Memory};

use crate::refusal::Flaw;
use crate::syntax::Mention;
use crate::vocabulary::{Fixed, Leaf, Prefix, leaf_of, operator_of, prefix_of};
use expressions::Expr;
use std::alloc::Global;
use words::{Sign, Word};

// What the first word is by `role`, and the words after it.
pub fn first<'w, 'a, T, F: FnOnce(Word<'a>) -> Option<T>>(
    words: &'w [Word<'a>],
    role: F,
) -> Result<(T, &'w [Word<'a>]), Flaw>
    requires { F.IsAlwaysCallable role }
    ensures { FirstIs (F.post role) words.now result }
{
    let (word, rest) = words.split_first().ok_or(Flaw::NoForm)?;
    let part = role(*word).ok_or(Flaw::NoForm)?;
    Ok((part, rest))
}

// The words after one that has to stand there. By `first` it would need a role that gives nothing, which is no plainer.
pub fn expect<'w, 'a>(fixed: Fixed, words: &'w [Word<'a>]) -> Result<&'w [Word<'a>], Flaw>
    ensures { answered words_left result ≡ past (is_fixed fixed) (map token words.now) }
{
    let (word, rest) = words.split_first().ok_or(Flaw::NoForm)?;
    if fixed.is(*word) {
        Ok(rest)
    } else {
        Err(Flaw::NoForm)
    }
}

fn prefixed<'a>(
    heap: Global,
    by: Prefix,
    operand: Expr<Mention<'a>>,
) -> Result<Expr<Mention<'a>>, Flaw>
    ensures { MatchResult result (λ e. phrase e ≡ with_prefix by (phrase operand.entry)) (λ f. f ≡ Memory) }
{
    match by {
        Prefix::Minus => Ok(Expr::negative(heap, operand)?),
        Prefix::Not => Ok(Expr::negation(heap, operand)?),
    }
}

// An operand, with brackets at most `depth` deep, and the words that are left.
#[cycle(expression_operand_operation)]
fn operand<'w, 'a>(
    heap: Global,
    words: &'w [Word<'a>],
    depth: u8,
) -> Result<(Expr<Mention<'a>>, &'w [Word<'a>]), Flaw>
    ensures { UnlessMemory (answered term_read result) (operand_of depth (map token words.now)) }
{
    let (leaf, rest) = first(words, leaf_of)?;
    match leaf {
        Leaf::Name(mention) => Ok((Expr::Name(mention), rest)),
        Leaf::Number(n) => Ok((Expr::Number(n), rest)),
        Leaf::Truth(b) => Ok((Expr::Truth(b), rest)),
        Leaf::Open => {
            let inner = depth.checked_sub(1).ok_or(Flaw::NoForm)?;
            let (e, after) = expression(heap, rest, inner)?;
            let beyond = expect(Fixed::Sign(Sign::Close), after)?;
            Ok((e, beyond))
        }
    }
}

// An expression, with brackets at most `depth` deep, and the words that are left.
#[cycle(expression_operand_operation)]
pub fn expression<'w, 'a>(
    heap: Global,
    words: &'w [Word<'a>],
    depth: u8,
) -> Result<(Expr<Mention<'a>>, &'w [Word<'a>]), Flaw>
    ensures { UnlessMemory (answered term_read result) (expression_of depth (map token words.now)) }
{
    let (word, rest) = words.split_first().ok_or(Flaw::NoForm)?;
    if let Some(by) = prefix_of(*word) {
        let (e, after) = operand(heap, rest, depth)?;
        let whole = prefixed(heap, by, e)?;
        return Ok((whole, after));
    }
    let (left, after) = operand(heap, words, depth)?;
    operation(heap, left, after, depth)
}

// What follows the first operand: an operator and the second, or nothing of the expression.
#[cycle(expression_operand_operation)]
fn operation<'w, 'a>(
    heap: Global,
    left: Expr<Mention<'a>>,
    words: &'w [Word<'a>],
    depth: u8,
) -> Result<(Expr<Mention<'a>>, &'w [Word<'a>]), Flaw>
    ensures { UnlessMemory (answered term_read result) (after_first (operand_of depth) (phrase left.entry) (map token words.now)) }
{
    if let Some((word, rest)) = words.split_first()
        && let Some(op) = operator_of(*word)
    {
        let (right, end) = operand(heap, rest, depth)?;
        let whole = Expr::dyadic(heap, op, left, right)?;
        return Ok((whole, end));
    }
    Ok((left, words))
}
