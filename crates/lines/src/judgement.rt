// What a line means under the names that are declared.
ghost use Rattle.std.specs.Prelude.{◌≡◌, OnErr};
ghost use Rattle.expressions.specs.Expression.{shape};
ghost use Rattle.lines.specs.Answer.{answered, UnlessMemory};
ghost use Rattle.lines.specs.Judgement.{accessible, assign_by, condition_by, formed, formed_with, guard_by, input_by, judged, output_by};
ghost use Rattle.lines.specs.Syntax.{naming, phrase, sentence};
ghost use Rattle.lines.specs.Table.{table};

use crate::declaration::{declare_channels, declare_variables, place};
use crate::forms::Form;
use crate::names::Names;
use crate::refusal::Flaw;
use crate::resolution::{channel, resolve, variable};
use crate::syntax::{Draft, Mention};
use crate::types::{Sort, demand};
use expressions::{Expr, Variable};
use rules::Kind;
use std::alloc::Global;

// What a line does with a channel; a value and no closure, so that `permit` is one function whose contract names it.
#[derive(Clone, Copy, Debug, PartialEq, Eq)]
enum Access {
    Read,
    Write,
}

// The channel has to be no link in the other direction.
fn permit(access: Access, kind: Kind) -> Result<(), Flaw>
    ensures { result ≡ accessible access kind }
{
    match (access, kind) {
        (Access::Read, Kind::Outgoing(_)) | (Access::Write, Kind::Incoming(_)) => Err(Flaw::Link),
        _ => Ok(()),
    }
}

// variable := expression
fn assignment(
    heap: Global,
    names: &Names<'_>,
    target: Mention<'_>,
    term: Expr<Mention<'_>>,
) -> Result<Form, Flaw>
    ensures { UnlessMemory (answered formed result) (assign_by (table names.now) (naming target.entry) (phrase term.entry)) }
{
    let variable = variable(names, target)?;
    let value = resolve(heap, names, &term)?;
    demand(Sort::Int, &term)?;
    Ok(Form::Assign { variable, value })
}

// channel ? variable
fn input(names: &Names<'_>, source: Mention<'_>, target: Mention<'_>) -> Result<Form, Flaw>
    ensures { answered formed result ≡ input_by (table names.now) (naming source.entry) (naming target.entry) }
{
    let (channel, kind) = channel(names, source)?;
    let variable = variable(names, target)?;
    permit(Access::Read, kind)?;
    Ok(Form::Input { channel, variable })
}

// channel ! expression
fn output(
    heap: Global,
    names: &Names<'_>,
    target: Mention<'_>,
    term: Expr<Mention<'_>>,
) -> Result<Form, Flaw>
    ensures { UnlessMemory (answered formed result) (output_by (table names.now) (naming target.entry) (phrase term.entry)) }
{
    let (channel, kind) = channel(names, target)?;
    let value = resolve(heap, names, &term)?;
    demand(Sort::Int, &term)?;
    permit(Access::Write, kind)?;
    Ok(Form::Output { channel, value })
}

// A condition.
fn condition(
    heap: Global,
    names: &Names<'_>,
    term: Expr<Mention<'_>>,
) -> Result<Expr<Variable>, Flaw>
    ensures { UnlessMemory (answered shape result) (condition_by (table names.now) (phrase term.entry)) }
{
    let value = resolve(heap, names, &term)?;
    demand(Sort::Truth, &term)?;
    Ok(value)
}

// condition & channel ? variable
fn guarded(
    heap: Global,
    names: &Names<'_>,
    term: Expr<Mention<'_>>,
    source: Mention<'_>,
    target: Mention<'_>,
) -> Result<Form, Flaw>
    ensures { UnlessMemory (answered formed result) (guard_by (table names.now) (phrase term.entry) (naming source.entry) (naming target.entry)) }
{
    let condition = resolve(heap, names, &term)?;
    let (channel, kind) = channel(names, source)?;
    let variable = variable(names, target)?;
    demand(Sort::Truth, &term)?;
    permit(Access::Read, kind)?;
    Ok(Form::Guard {
        condition,
        channel,
        variable,
    })
}

// The form of a line, and the names that it declares or places; a refusal leaves the names as they were.
pub fn judge<'a>(heap: Global, names: &mut Names<'a>, draft: Draft<'a>) -> Result<Form, Flaw>
    ensures form { UnlessMemory (answered (formed_with names.new) result) (judged (table names.old) (sentence draft.entry)) }
    ensures kept { OnErr result (table names.new ≡ table names.old) }
{
    match draft {
        Draft::Variables(list) => declare_variables(names, list.as_slice()),
        Draft::Channels(list) => declare_channels(names, list.as_slice()),
        Draft::Place(channel, number) => place(names, channel, number),
        Draft::Lone(lone) => Ok(Form::Lone(lone)),
        Draft::Assign(target, term) => assignment(heap, names, target, term),
        Draft::Input(source, target) => input(names, source, target),
        Draft::Output(target, term) => output(heap, names, target, term),
        Draft::While(term) => {
            let condition = condition(heap, names, term)?;
            Ok(Form::While { condition })
        }
        Draft::Choice(term) => {
            let condition = condition(heap, names, term)?;
            Ok(Form::Choice { condition })
        }
        Draft::Guard(term, source, target) => guarded(heap, names, term, source, target),
        Draft::SkipGuard(term) => {
            let condition = condition(heap, names, term)?;
            Ok(Form::SkipGuard { condition })
        }
    }
}
