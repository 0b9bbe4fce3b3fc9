//! Block nodes, by their columns.
ghost use Rattle.std.specs.Prelude.{◌≡◌, ◌<◌, ◌≤◌, length, IsTrue, IfOk, IfErr, IfSome};
ghost use Rattle.yaml_profile.specs.Text.{Gives};
ghost use Rattle.yaml_profile.specs.Block as spec;

use crate::error::Feature;
use crate::fault::{Fault, Stop};
use crate::flow::{inline, left_out};
use crate::lines::{Line, ends_node, next_line};
use crate::pairs::Pairs;
use crate::scalar::scalar;
use crate::text::{behind, is_gap, past_white, refused};
use crate::yaml::Yaml;
use file_info::list::List;
use std::alloc::Global;

/// A node, and the next line that is no part of it.
pub type Node<'a> = (Yaml, Option<Line<'a>>);

// An inline node, after which no more than white and a comment stand on its line.
#[tactic(auto, unfolding(crate::specs::Block::alone))]
fn alone(alloc: Global, depth: usize, text: &[u8]) -> Result<Node<'_>, Stop>
    ensures reads { Gives (λ x. (x.0, spec.seen x.1)) result (spec.alone depth text.now) }
    ensures shorter { IfOk result (λ x. IfSome x.1 (λ l. length l.1.now < length text.now)) }
{
    let (node, rest) = inline(alloc, depth, false, text)?;
    if !ends_node(rest) {
        return Err(refused(Fault::Syntax, past_white(rest)));
    }
    let next = next_line(rest)?;
    Ok((node, next))
}

// Whether a block sequence begins here.
fn is_dash(text: &[u8]) -> bool
    ensures { result ≡ spec.is_dash text.now }
{
    match text {
        [first, rest @ ..] => *first == b'-' && is_gap(rest),
        [] => false,
    }
}

// A key, and what follows its colon.
#[tactic(auto, unfolding(crate::specs::Block::entry_key))]
fn entry_key(alloc: Global, text: &[u8]) -> Result<(Vec<u8>, &[u8]), Stop>
    ensures reads { Gives (λ x. (x.0.items, x.1.now)) result (spec.entry_key text.now) }
    ensures shorter { IfOk result (λ x. length x.1.now < length text.now) }
{
    if is_dash(text) {
        return Err(refused(Fault::Syntax, text));
    }
    let (key, rest) = scalar(alloc, false, text)?;
    match behind(b':', past_white(rest)) {
        Some(rest) if is_gap(rest) => Ok((key, rest)),
        _ => Err(refused(Fault::Syntax, text)),
    }
}

// Whether a key with its colon stands here.
fn has_key(alloc: Global, text: &[u8]) -> Result<bool, Stop>
    ensures is { IfOk result (λ found. found ≡ spec.has_key text.now) }
    ensures memory { IfErr result (λ e. e ≡ Stop.Memory) }
{
    match entry_key(alloc, text) {
        Ok(_) => Ok(true),
        Err(Stop::Refused(_)) => Ok(false),
        Err(Stop::Memory) => Err(Stop::Memory),
    }
}

/// A block node that begins at this line, with collections nested no deeper than `depth`. `held` says that a block
/// mapping of the same column holds it.
#[cycle(block)]
#[tactic(auto, unfolding(crate::specs::Block::block))]
pub fn block<'a>(alloc: Global, depth: usize, held: bool, line: Line<'a>) -> Result<Node<'a>, Stop>
    ensures reads { Gives (λ x. (x.0, spec.seen x.1)) result
        (spec.block depth held (line.entry.0, line.entry.1.now)) }
    ensures shorter { IfOk result (λ x. IfSome x.1 (λ l. length l.1.now < length line.entry.1.now)) }
{
    let (column, text) = line;
    if let Some(feature) = left_out(text) {
        return Err(refused(Fault::LeftOut(feature), text));
    }
    let dash = is_dash(text);
    if !dash && !has_key(alloc, text)? {
        return alone(alloc, depth, text);
    }
    if depth == 0 {
        return Err(refused(Fault::TooDeep, text));
    }
    if dash {
        dashes(alloc, depth - 1, held, column, text)
    } else {
        entries(alloc, depth - 1, column, text)
    }
}

// The value that an entry has on the lines below it: a deeper node, in a mapping also a sequence of the same column, or
// the empty scalar.
#[cycle(block)]
fn below<'a>(
    alloc: Global,
    depth: usize,
    of_map: bool,
    column: usize,
    next: Option<Line<'a>>,
) -> Result<Node<'a>, Stop>
    ensures reads { Gives (λ x. (x.0, spec.seen x.1)) result
        (spec.below (spec.block depth) of_map column (spec.seen next.entry)) }
    ensures shorter { IfOk result (λ x. IfSome x.1
        (λ l. IfSome next.entry (λ n. length l.1.now ≤ length n.1.now))) }
{
    let Some(line) = next else {
        return Ok((Yaml::Scalar(List::new(alloc)), None));
    };
    if column < line.0 {
        return block(alloc, depth, false, line);
    }
    if of_map && line.0 == column && is_dash(line.1) {
        return block(alloc, depth, true, line);
    }
    Ok((Yaml::Scalar(List::new(alloc)), Some(line)))
}

// The value after a colon.
#[cycle(block)]
#[tactic(auto, unfolding(crate::specs::Block::map_value))]
fn map_value(alloc: Global, depth: usize, column: usize, text: &[u8]) -> Result<Node<'_>, Stop>
    ensures reads { Gives (λ x. (x.0, spec.seen x.1)) result
        (spec.map_value (spec.block depth) depth column text.now) }
    ensures shorter { IfOk result (λ x. IfSome x.1 (λ l. length l.1.now ≤ length text.now)) }
{
    if ends_node(text) {
        let next = next_line(text)?;
        return below(alloc, depth, true, column, next);
    }
    alone(alloc, depth, past_white(text))
}

// The item after a dash.
#[cycle(block)]
#[tactic(auto, unfolding(crate::specs::Block::item))]
fn item(alloc: Global, depth: usize, column: usize, text: &[u8]) -> Result<Node<'_>, Stop>
    ensures reads { Gives (λ x. (x.0, spec.seen x.1)) result
        (spec.item (spec.block depth) depth column text.now) }
    ensures shorter { IfOk result (λ x. IfSome x.1 (λ l. length l.1.now ≤ length text.now)) }
{
    if ends_node(text) {
        let next = next_line(text)?;
        return below(alloc, depth, false, column, next);
    }
    let text = past_white(text);
    if let Some(feature) = left_out(text) {
        return Err(refused(Fault::LeftOut(feature), text));
    }
    if is_dash(text) || has_key(alloc, text)? {
        return Err(refused(Fault::LeftOut(Feature::Compact), text));
    }
    alone(alloc, depth, text)
}

// The key of an entry, which is not among the pairs, and what follows its colon.
#[tactic(auto, unfolding(crate::specs::Block::new_entry))]
fn new_entry<'a>(alloc: Global, found: &Pairs, text: &'a [u8]) -> Result<(Vec<u8>, &'a [u8]), Stop>
    ensures reads { Gives (λ x. (x.0.items, x.1.now)) result (spec.new_entry found.now text.now) }
    ensures shorter { IfOk result (λ x. length x.1.now < length text.now) }
{
    if let Some(feature) = left_out(text) {
        return Err(refused(Fault::LeftOut(feature), text));
    }
    let (key, rest) = entry_key(alloc, text)?;
    if found.has_name(&key) {
        return Err(refused(Fault::RepeatedKey, text));
    }
    Ok((key, rest))
}

// The mapping whose first entry stands here.
#[cycle(block)]
#[tactic(auto, unfolding(crate::specs::Block::entries))]
fn entries(alloc: Global, depth: usize, column: usize, text: &[u8]) -> Result<Node<'_>, Stop>
    ensures reads { Gives (λ x. (x.0, spec.seen x.1)) result
        (spec.mapping (spec.block depth) depth column text.now) }
    ensures shorter { IfOk result (λ x. IfSome x.1 (λ l. length l.1.now < length text.now)) }
{
    let mut found = Pairs::new(alloc);
    let mut rest = text;
    'turns: loop {
        let (name, tail) = new_entry(alloc, &found, rest)?;
        let (value, next) = map_value(alloc, depth, column, tail)?;
        found = found.with(alloc, name, value)?;
        let Some(line) = next else {
            return Ok((Yaml::Map(found.into_list()), None));
        };
        if line.0 < column {
            return Ok((Yaml::Map(found.into_list()), Some(line)));
        }
        if column < line.0 {
            return Err(refused(Fault::Indent, line.1));
        }
        rest = line.1;
    }
}

// The sequence whose first item stands here.
#[cycle(block)]
#[tactic(auto, unfolding(crate::specs::Block::dashes))]
fn dashes(
    alloc: Global,
    depth: usize,
    held: bool,
    column: usize,
    text: &[u8],
) -> Result<Node<'_>, Stop>
    requires { IsTrue (spec.is_dash text.now) }
    ensures reads { Gives (λ x. (x.0, spec.seen x.1)) result
        (spec.sequence (spec.block depth) depth held column text.now) }
    ensures shorter { IfOk result (λ x. IfSome x.1 (λ l. length l.1.now < length text.now)) }
{
    let mut found = List::new(alloc);
    let mut rest = text;
    'turns: loop {
        let (value, next) = item(alloc, depth, column, &rest[1..])?;
        found.push(value)?;
        let Some(line) = next else {
            return Ok((Yaml::Seq(found), None));
        };
        if line.0 < column {
            return Ok((Yaml::Seq(found), Some(line)));
        }
        if column < line.0 {
            return Err(refused(Fault::Indent, line.1));
        }
        if !is_dash(line.1) {
            if held {
                return Ok((Yaml::Seq(found), Some(line)));
            }
            return Err(refused(Fault::Syntax, line.1));
        }
        rest = line.1;
    }
}
