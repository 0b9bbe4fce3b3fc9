//! The section `tools`.
ghost use Rattle.manifest_values.specs.Refusal.{Gives, Makes};
ghost use Rattle.manifest_reader.specs.Sections as spec;

use crate::attributes::tool_named;
use manifest_values::parts::{Step, fold, shaped};
use manifest_values::refusal::{Stop, bad_attribute, unknown_tool};
use manifest_values::shapes::pairs_of;
use std::alloc::Global;
use yaml_profile::{Pair, Yaml};

// Sees that the tool of each pair is known, and that nothing is said of it.
#[derive(Clone, Copy)]
struct CheckTool;

impl Step for CheckTool {
    ghost use Rattle.manifest_reader.specs.Sections.{tool_checked};

    type Item = Pair;

    type State = ();

    ghost makes = { λ _ u pair. tool_checked u pair };

    #[tactic(auto, unfolding(crate::specs::Sections::tool_checked))]
    fn take(&self, alloc: Global, _state: &mut (), pair: Pair) -> Result<(), Stop> {
        let Pair { name, value } = pair;
        if tool_named(name.as_slice()).is_none() {
            return Err(unknown_tool(alloc, b"tools", name.as_slice()));
        }
        let pairs = shaped(alloc, b"tools", name.as_slice(), pairs_of(value))?;
        if !pairs.is_empty() {
            return Err(bad_attribute(alloc, b"tools", name.as_slice()));
        }
        Ok(())
    }
}

/// Sees that each tool is known, and that nothing is said of it.
#[tactic(auto, unfolding(crate::specs::Sections::tools_checked))]
pub fn tools_checked(alloc: Global, tree: Yaml) -> Result<(), Stop>
    ensures { Gives (λ x. x) result (spec.tools_checked tree) }
{
    let pairs = shaped(alloc, b"tools", b"tools", pairs_of(tree))?;
    fold(alloc, &CheckTool, (), pairs)
}
