// Names looked up in the tables.
ghost use Rattle.std.specs.Prelude.{◌≡◌, map, length};
ghost use Rattle.expressions.specs.Expression.{shape};
ghost use Rattle.lines.specs.Answer.{answered, UnlessMemory};
ghost use Rattle.lines.specs.Judgement.{unclashed};
ghost use Rattle.lines.specs.Lines.{no_names};
ghost use Rattle.lines.specs.Syntax.{mention_text, naming, phrase};
ghost use Rattle.lines.specs.Table.{channel_at, channel_number, clash, clashing, declared, kind_in, resolved, table, variable_at, variable_number};

use crate::names::{NameList, Names};
use crate::refusal::Flaw;
use crate::search::find;
use crate::syntax::Mention;
use expressions::{Expr, Variable};
use rules::{Channel, Kind};
use std::alloc::Global;

// The variable of a name.
pub fn variable(names: &Names<'_>, mention: Mention<'_>) -> Result<Variable, Flaw>
    ensures { answered variable_number result ≡ variable_at (table names.now) (naming mention.entry) }
{
    names
        .variables
        .number_of(mention.text)
        .ok_or(Flaw::Name { byte: mention.byte })
}

// The channel of a name, and what it is.
pub fn channel(names: &Names<'_>, mention: Mention<'_>) -> Result<(Channel, Kind), Flaw>
    ensures { answered channel_number result ≡ channel_at (table names.now) (naming mention.entry) }
{
    let channel = names
        .channels
        .number_of(mention.text)
        .ok_or(Flaw::Name { byte: mention.byte })?;
    Ok((channel, names.kind(channel)))
}

impl<'a> Names<'a> {
    // No names.
    pub fn new(heap: Global) -> Names<'a>
        ensures { table result ≡ no_names }
    {
        Names {
            variables: NameList::new(heap),
            channels: NameList::new(heap),
            links: Vec::new(heap),
        }
    }

    // What a channel is: a link where it is placed, else internal.
    pub fn kind(&self, channel: Channel) -> Kind
        ensures { result ≡ kind_in (table self.now).links channel.number }
    {
        self.links
            .iter()
            .find(|link| link.channel == channel)
            .map_or(Kind::Internal, |link| link.kind)
    }

    // How many variables are declared.
    pub fn variable_count(&self) -> u8
        ensures { result ≡ length (table self.now).variables }
    {
        self.variables.count()
    }
}

// Whether a name is declared.
fn declares(names: &Names<'_>, name: &[u8]) -> bool
    ensures { result ≡ declared (table names.now) name.now }
{
    names.variables.number_of(name).is_some() || names.channels.number_of(name).is_some()
}

// Whether a name is declared, or stands among those before it.
fn clashes(names: &Names<'_>, earlier: &[Mention<'_>], name: &[u8]) -> bool
    ensures { result ≡ clashing (table names.now) (map mention_text earlier.now) name.now }
{
    declares(names, name) || find(earlier, name).is_some()
}

// Each name is new: neither declared nor among those before it.
pub fn unclashed(names: &Names<'_>, list: &[Mention<'_>]) -> Result<(), Flaw>
    ensures { result ≡ unclashed (clash (table names.now) (map naming list.now)) }
{
    for (i, mention) in list.iter().enumerate() {
        if clashes(names, &list[..i], mention.text) {
            return Err(Flaw::Name { byte: mention.byte });
        }
    }
    Ok(())
}

// An expression with its names looked up.
pub fn resolve(
    heap: Global,
    names: &Names<'_>,
    term: &Expr<Mention<'_>>,
) -> Result<Expr<Variable>, Flaw>
    ensures { UnlessMemory (answered shape result) (resolved (table names.now) (phrase term.now)) }
{
    match term {
        Expr::Name(mention) => {
            let x = variable(names, *mention)?;
            Ok(Expr::Name(x))
        }
        Expr::Number(n) => Ok(Expr::Number(*n)),
        Expr::Truth(b) => Ok(Expr::Truth(*b)),
        Expr::Negative(e) => {
            let operand = resolve(heap, names, e)?;
            Ok(Expr::negative(heap, operand)?)
        }
        Expr::Negation(e) => {
            let operand = resolve(heap, names, e)?;
            Ok(Expr::negation(heap, operand)?)
        }
        Expr::Dyadic(op, a, b) => {
            let left = resolve(heap, names, a)?;
            let right = resolve(heap, names, b)?;
            Ok(Expr::dyadic(heap, *op, left, right)?)
        }
    }
}
