// Declarations and placements, which change the tables.
ghost use Rattle.std.specs.Prelude.{◌≡◌, map, OnErr};
ghost use Rattle.lines.specs.Answer.{answered, UnlessMemory};
ghost use Rattle.lines.specs.Judgement.{address_at, any_placed_at, channels_by, formed_with, link_at, place_by, placed_at, unplaced, vacant, variables_by};
ghost use Rattle.lines.specs.Syntax.{naming};
ghost use Rattle.lines.specs.Table.{linked, table};

use crate::forms::Form;
use crate::names::{Link, Names};
use crate::refusal::Flaw;
use crate::resolution::{channel, unclashed};
use crate::syntax::Mention;
use rules::Kind;

// The address that a number is: 0 to 7. It stays a bare number, since that it is below 8 is asked for nowhere;
// and no `TryFrom`, since a number by itself is no address.
fn address_of(number: i32) -> Result<u8, Flaw>
    ensures { result ≡ address_at number }
{
    match number {
        0..=7 => Ok(number as u8),
        _ => Err(Flaw::Link),
    }
}

// The link at an address: 0 to 3 is outgoing, 4 to 7 incoming. No `From`: a number by itself is no kind of channel.
fn link_at(address: u8) -> Kind
    ensures { result ≡ link_at address }
{
    if address < 4 {
        Kind::Outgoing(address)
    } else {
        Kind::Incoming(address)
    }
}

fn is_placed_at(address: u8, kind: Kind) -> bool
    ensures { result ≡ placed_at address kind }
{
    matches!(kind, Kind::Outgoing(placed) | Kind::Incoming(placed) if placed == address)
}

// Whether a channel is placed at the address.
fn any_placed_at(address: u8, links: &[Link]) -> bool
    ensures { result ≡ any_placed_at address (map linked links.now) }
{
    links.iter().any(|link| is_placed_at(address, link.kind))
}

// A channel that is no link yet.
fn unplaced(kind: Kind) -> Result<(), Flaw>
    ensures { result ≡ unplaced kind }
{
    if kind == Kind::Internal {
        Ok(())
    } else {
        Err(Flaw::Link)
    }
}

// An address at which no channel is placed yet.
fn vacant(address: u8, links: &[Link]) -> Result<(), Flaw>
    ensures { result ≡ vacant address (map linked links.now) }
{
    if any_placed_at(address, links) {
        return Err(Flaw::Link);
    }
    Ok(())
}

// INT names: each is new, and there is room. What the two declarations share is `unclashed` and `NameList::add`; one
// function for both would take the list and the form as parameters, and be no shorter.
pub fn declare_variables<'a>(names: &mut Names<'a>, list: &[Mention<'a>]) -> Result<Form, Flaw>
    ensures form { UnlessMemory (answered (formed_with names.new) result) (variables_by (table names.old) (map naming list.now)) }
    ensures kept { OnErr result (table names.new ≡ table names.old) }
{
    unclashed(names, list)?;
    let (first, count) = names.variables.add(list)?;
    Ok(Form::Variables { first, count })
}

// CHAN OF INT names: each is new, and there is room.
pub fn declare_channels<'a>(names: &mut Names<'a>, list: &[Mention<'a>]) -> Result<Form, Flaw>
    ensures form { UnlessMemory (answered (formed_with names.new) result) (channels_by (table names.old) (map naming list.now)) }
    ensures kept { OnErr result (table names.new ≡ table names.old) }
{
    unclashed(names, list)?;
    let (first, count) = names.channels.add(list)?;
    Ok(Form::Channels { first, count })
}

// PLACE channel AT number: neither the channel nor the address is placed yet.
pub fn place(names: &mut Names<'_>, mention: Mention<'_>, number: i32) -> Result<Form, Flaw>
    ensures form { UnlessMemory (answered (formed_with names.new) result) (place_by (table names.old) (naming mention.entry) number) }
    ensures kept { OnErr result (table names.new ≡ table names.old) }
{
    let (channel, kind) = channel(names, mention)?;
    let address = address_of(number)?;
    unplaced(kind)?;
    vacant(address, names.links.as_slice())?;
    names.links.push(Link {
        channel,
        kind: link_at(address),
    })?;
    Ok(Form::Place { channel, address })
}
