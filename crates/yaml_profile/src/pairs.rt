//! The pairs of a mapping that is being read.
ghost use Rattle.std.specs.Prelude.{◌≡◌, [], ◌∷◌, ◌++◌, IfOk};
ghost use Rattle.yaml_profile.specs.Mapping.{has_name, pair};

use crate::yaml::{Pair, Yaml};
use file_info::list::List;
use file_info::memory::NoMemory;
use std::alloc::Global;
use std::collections::HashSet;
use std::marker::Model;

/// The pairs so far, with their names in a set, so that one look finds whether a name is among them. Contracts see the
/// pairs.
#[derive(Drop)]
pub struct Pairs {
    pairs: List<Pair>,
    names: HashSet<Vec<u8>>,
}

impl Model for Pairs {
    ghost use Rattle.std.specs.Prelude.{List as ListOf};
    ghost use Rattle.std.specs.Coded.{coded_list};
    ghost use Rattle.yaml_profile.specs.contracts.yaml.Pair as pair_type;
    ghost use Rattle.yaml_profile.specs.declared.yaml.Pair.{Pair};
    ghost use Rattle.yaml_profile.specs.Mapping.{AreNames};

    ghost Value = { ListOf Pair };

    ghost coded = { coded_list pair_type.the_row.coded };

    ghost view = { λ p. p.pairs };

    ghost invariant = { λ p. AreNames p.names.keys p.pairs };
}

impl Pairs {
    /// No pairs. It takes no memory.
    pub fn new(alloc: Global) -> Pairs
        ensures { result ≡ [] }
    {
        Pairs {
            pairs: List::new(alloc),
            names: HashSet::new(alloc),
        }
    }

    /// Whether a pair has this name.
    pub fn has_name(&self, name: &[u8]) -> bool
        ensures { result ≡ has_name name.now self.now }
    {
        self.names.contains(name)
    }

    /// The pairs with one more at the end.
    pub fn with(self, alloc: Global, name: Vec<u8>, value: Yaml) -> Result<Pairs, NoMemory>
        ensures { IfOk result (λ pairs. pairs ≡ self ++ pair name.items value ∷ []) }
    {
        let Pairs {
            mut pairs,
            mut names,
        } = self;
        names.insert(Vec::from_slice(alloc, &name)?)?;
        pairs.push(Pair {
            name: List::from_vec(name),
            value,
        })?;
        Ok(Pairs { pairs, names })
    }

    /// The list of the pairs. It takes no memory.
    pub fn into_list(self) -> List<Pair>
        ensures { result ≡ self }
    {
        let Pairs { pairs, names: _ } = self;
        pairs
    }
}
