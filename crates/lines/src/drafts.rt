// The form of a line as it is written, from its words.
ghost use Rattle.std.specs.Prelude.{◌≡◌, MatchResult, None, Some, map, option_map};
ghost use Rattle.words.specs.Token.{token};
ghost use Rattle.lines.specs.Answer.{answered, UnlessMemory};
ghost use Rattle.lines.specs.Roles.{naming_of};
ghost use Rattle.lines.specs.Sentences.{acted_of, action_of, action_read, address_of, channels_of, condition_of, ended, guarded_of, input_of, mentions_read, name_last, names_of, namings, opened_by, place_of, process_of, sentence_of, whole_of};
ghost use Rattle.lines.specs.Syntax.{naming, phrase, sentence};
ghost use Rattle.lines.specs.declared.refusal.Flaw.TheVariants.{NoForm};

use crate::phrases::{expect, expression, first};
use crate::refusal::Flaw;
use crate::syntax::{Draft, Lone, Mention};
use crate::vocabulary::{
    Fixed, Opening, Separator, Verb, mention_of, number_of, opening_of, separator_of, verb_of,
};
use expressions::Expr;
use std::alloc::Global;
use words::{Keyword, Sign, Word};

// How deep brackets may be.
const DEPTH: u8 = 8;

// No word may be left.
fn end(words: &[Word<'_>]) -> Result<(), Flaw>
    ensures { result ≡ ended tt (map token words.now) }
{
    if words.is_empty() {
        Ok(())
    } else {
        Err(Flaw::NoForm)
    }
}

// A name, and no word after it.
fn name_last<'a>(words: &[Word<'a>]) -> Result<Mention<'a>, Flaw>
    ensures { answered naming result ≡ name_last (map token words.now) }
{
    let (mention, rest) = first(words, mention_of)?;
    end(rest)?;
    Ok(mention)
}

// An expression, and no word after it.
fn whole<'a>(heap: Global, words: &[Word<'a>]) -> Result<Expr<Mention<'a>>, Flaw>
    ensures { UnlessMemory (answered phrase result) (whole_of (map token words.now)) }
{
    let (term, rest) = expression(heap, words, DEPTH)?;
    end(rest)?;
    Ok(term)
}

// A number and a colon, and no word after them.
fn address(words: &[Word<'_>]) -> Result<i32, Flaw>
    ensures { result ≡ address_of (map token words.now) }
{
    let (number, after) = first(words, number_of)?;
    let rest = expect(Fixed::Sign(Sign::Colon), after)?;
    end(rest)?;
    Ok(number)
}

// A name, AT, a number and a colon.
fn placement<'a>(words: &[Word<'a>]) -> Result<Draft<'a>, Flaw>
    ensures { answered sentence result ≡ place_of (map token words.now) }
{
    let (channel, after) = first(words, mention_of)?;
    let rest = expect(Fixed::Keyword(Keyword::At), after)?;
    let number = address(rest)?;
    Ok(Draft::Place(channel, number))
}

// A name, `?` and a name, and no word after them.
fn input<'a>(words: &[Word<'a>]) -> Result<(Mention<'a>, Mention<'a>), Flaw>
    ensures { answered mentions_read result ≡ input_of (map token words.now) }
{
    let (channel, after) = first(words, mention_of)?;
    let rest = expect(Fixed::Sign(Sign::Input), after)?;
    let variable = name_last(rest)?;
    Ok((channel, variable))
}

// The name that a word has to be.
fn named<'a>(word: Word<'a>) -> Result<Mention<'a>, Flaw>
    ensures { MatchResult result (λ m. naming_of (token word.entry) ≡ Some (naming m)) (λ f. (naming_of (token word.entry) ≡ None) × (f ≡ NoForm)) }
{
    mention_of(word).ok_or(Flaw::NoForm)
}

// Names parted by commas, with a colon at the end.
fn names<'a>(heap: Global, words: &[Word<'a>]) -> Result<Vec<Mention<'a>>, Flaw>
    ensures { UnlessMemory (answered namings result) (names_of (map token words.now)) }
{
    let mut list = Vec::new(heap);
    let mut left = words;
    while let [name, sign, rest @ ..] = left {
        let mention = named(*name)?;
        let separator = separator_of(*sign).ok_or(Flaw::NoForm)?;
        list.push(mention)?;
        left = rest;
        if separator == Separator::Colon {
            end(left)?;
            return Ok(list);
        }
    }
    // No name is left, or nothing behind it.
    let _ = first(left, mention_of)?;
    Err(Flaw::NoForm)
}

// OF INT and names.
fn channels<'a>(heap: Global, words: &[Word<'a>]) -> Result<Draft<'a>, Flaw>
    ensures { UnlessMemory (answered sentence result) (channels_of (map token words.now)) }
{
    let after = expect(Fixed::Keyword(Keyword::Of), words)?;
    let rest = expect(Fixed::Keyword(Keyword::Int), after)?;
    let list = names(heap, rest)?;
    Ok(Draft::Channels(list))
}

// What stands after `&`: SKIP or an input.
fn guarded<'a>(condition: Expr<Mention<'a>>, words: &[Word<'a>]) -> Result<Draft<'a>, Flaw>
    ensures { answered sentence result ≡ guarded_of (phrase condition.entry) (map token words.now) }
{
    if let [word, rest @ ..] = words
        && Fixed::Keyword(Keyword::Skip).is(*word)
    {
        end(rest)?;
        return Ok(Draft::SkipGuard(condition));
    }
    let (channel, variable) = input(words)?;
    Ok(Draft::Guard(condition, channel, variable))
}

// A condition alone, or a guard.
fn conditional<'a>(heap: Global, words: &[Word<'a>]) -> Result<Draft<'a>, Flaw>
    ensures { UnlessMemory (answered sentence result) (condition_of (map token words.now)) }
{
    let (condition, rest) = expression(heap, words, DEPTH)?;
    if rest.is_empty() {
        return Ok(Draft::Choice(condition));
    }
    let after = expect(Fixed::Sign(Sign::Guard), rest)?;
    guarded(condition, after)
}

// A name and `:=`, `?` or `!`, and the words after them.
fn action<'w, 'a>(words: &'w [Word<'a>]) -> Option<(Mention<'a>, Verb, &'w [Word<'a>])>
    ensures { option_map action_read result ≡ action_of (map token words.now) }
{
    let [first, second, rest @ ..] = words else {
        return None;
    };
    Some((mention_of(*first)?, verb_of(*second)?, rest))
}

fn acted<'a>(
    heap: Global,
    mention: Mention<'a>,
    verb: Verb,
    words: &[Word<'a>],
) -> Result<Draft<'a>, Flaw>
    ensures { UnlessMemory (answered sentence result) (acted_of (naming mention.entry) verb (map token words.now)) }
{
    match verb {
        Verb::Becomes => {
            let value = whole(heap, words)?;
            Ok(Draft::Assign(mention, value))
        }
        Verb::Input => {
            let variable = name_last(words)?;
            Ok(Draft::Input(mention, variable))
        }
        Verb::Output => {
            let value = whole(heap, words)?;
            Ok(Draft::Output(mention, value))
        }
    }
}

// A line that begins with no keyword of its own.
fn process<'a>(heap: Global, words: &[Word<'a>]) -> Result<Draft<'a>, Flaw>
    ensures { UnlessMemory (answered sentence result) (process_of (map token words.now)) }
{
    match action(words) {
        Some((mention, verb, rest)) => acted(heap, mention, verb, rest),
        None => conditional(heap, words),
    }
}

// The line that begins so, of which `rest` are the words after the first.
fn opened<'a>(heap: Global, opening: Opening, rest: &[Word<'a>]) -> Result<Draft<'a>, Flaw>
    ensures { UnlessMemory (answered sentence result) (opened_by opening (map token rest.now)) }
{
    match opening {
        Opening::Int => {
            let list = names(heap, rest)?;
            Ok(Draft::Variables(list))
        }
        Opening::Chan => channels(heap, rest),
        Opening::Place => placement(rest),
        Opening::While => {
            let condition = whole(heap, rest)?;
            Ok(Draft::While(condition))
        }
        Opening::Pri => {
            let after = expect(Fixed::Keyword(Keyword::Alt), rest)?;
            end(after)?;
            Ok(Draft::Lone(Lone::PriAlt))
        }
        Opening::Lone(lone) => {
            end(rest)?;
            Ok(Draft::Lone(lone))
        }
    }
}

// The form of a line as it is written.
pub fn draft_of<'a>(heap: Global, words: &[Word<'a>]) -> Result<Draft<'a>, Flaw>
    ensures { UnlessMemory (answered sentence result) (sentence_of (map token words.now)) }
{
    let (word, rest) = words.split_first().ok_or(Flaw::NoForm)?;
    match opening_of(*word) {
        Some(opening) => opened(heap, opening, rest),
        None => process(heap, words),
    }
}
