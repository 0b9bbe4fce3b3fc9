//! From text to tree.
ghost use Rattle.std.specs.Prelude.{◌≡◌, ◌⊎◌, IfOk, IfErr};
ghost use Rattle.yaml_profile.specs.Text.{Gives};
ghost use Rattle.yaml_profile.specs.Block as spec;
ghost use Rattle.yaml_profile.specs.Read.{yaml_of, error_at};
ghost use Rattle.yaml_profile.specs.Tree.{IsTree};

use crate::block::block;
use crate::error::{Feature, YamlError};
use crate::fault::{Fault, Refusal, Stop};
use crate::lines::{Line, ends_node, is_three, line_from, next_line, without_marker};
use crate::text::{past_white, refused, sees};
use crate::yaml::Yaml;
use file_info::list::List;
use std::alloc::Global;

/// The most bytes that a text has.
const TEXT_MAX: usize = 67_108_864;

/// How many collections nest.
const DEPTH_MAX: usize = 64;

// The line that the first node stands on, which is not the line `---`.
fn begun<'a>(first: Option<Line<'a>>) -> Result<Option<Line<'a>>, Stop>
    ensures { Gives spec.seen result (spec.begun (spec.seen first.entry)) }
{
    match first {
        Some((0, text)) if is_three(b'-', text) => {
            let rest = &text[3..];
            if !ends_node(rest) {
                return Err(refused(Fault::Syntax, past_white(rest)));
            }
            next_line(rest)
        }
        _ => without_marker(first),
    }
}

// The tree of a text in UTF-8.
#[tactic(auto, unfolding(crate::specs::Block::document))]
fn document(alloc: Global, text: &[u8]) -> Result<Yaml, Stop>
    ensures { Gives (λ tree. tree) result (spec.document text.now) }
{
    let first = line_from(Some(0), text)?;
    let Some(line) = begun(first)? else {
        return Ok(Yaml::Scalar(List::new(alloc)));
    };
    if line.0 == 0 && sees(b'%', line.1) {
        return Err(refused(Fault::LeftOut(Feature::Directive), line.1));
    }
    let (tree, next) = block(alloc, DEPTH_MAX, false, line)?;
    match next {
        None => Ok(tree),
        Some(line) => Err(refused(Fault::Indent, line.1)),
    }
}

fn error_at(fault: Fault, at: u64) -> YamlError
    ensures { result ≡ error_at fault at }
{
    match fault {
        Fault::LeftOut(feature) => YamlError::LeftOut { feature, at },
        Fault::Indent => YamlError::Indent { at },
        Fault::TooDeep => YamlError::TooDeep { at },
        Fault::RepeatedKey => YamlError::RepeatedKey { at },
        Fault::Syntax => YamlError::Syntax { at },
    }
}

/// The tree of a text in the profile of YAML that `docs/YAML.md` describes, or its first refusal. Besides those, want of
/// memory may come at any text. In a tree collections nest at most 64 deep, each scalar and each name is UTF-8, and no
/// mapping has a name twice.
pub fn read(alloc: Global, bytes: &[u8]) -> Result<Yaml, YamlError>
    ensures ok { IfOk result (λ tree. yaml_of bytes.now ≡ Ok tree) }
    ensures refused { IfErr result (λ error. (error ≡ YamlError.NoMemory) ⊎ (yaml_of bytes.now ≡ Err error)) }
    ensures sound { IfOk result (IsTree 64) }
{
    if bytes.len() > TEXT_MAX {
        return Err(YamlError::TooLong);
    }
    if let Err(error) = std::str::from_utf8(bytes) {
        return Err(YamlError::NotUtf8 {
            at: error.valid_up_to() as u64,
        });
    }
    match document(alloc, bytes) {
        Ok(tree) => Ok(tree),
        Err(Stop::Memory) => Err(YamlError::NoMemory),
        Err(Stop::Refused(Refusal { fault, left })) => Err(error_at(
            fault,
            bytes.len().saturating_sub(left) as u64,
        )),
    }
}

#[cfg(test)]
mod tests;
