//! The client that a manifest names.
ghost use Rattle.manifest_values.specs.Refusal.{Gives, Makes};
ghost use Rattle.manifest_reader.specs.Sections as spec;

use file_info::list::{Bytes, List};
use manifest_values::parts::{Step, fold, shaped};
use manifest_values::refusal::{Refusal, Stop, copy_of, unknown_attribute};
use manifest_values::shapes::{pairs_of, text_of};
use manifest_values::values::exactly;
use std::alloc::Global;
use yaml_profile::{Pair, Yaml};

/// What a manifest says of its client.
#[derive(Drop)]
pub struct Client {
    pub name: Bytes,
    pub version: Bytes,
}

// Changes the client by an attribute.
#[tactic(auto, unfolding(crate::specs::Sections::client_with))]
fn take(alloc: Global, client: &mut Client, pair: Pair) -> Result<(), Stop>
    ensures { Makes client.new result (spec.client_with client.old pair) }
{
    let Pair { name, value } = pair;
    if name.as_slice() == b"name".as_slice() {
        let text = shaped(alloc, b"client", name.as_slice(), text_of(value))?;
        client.name = text;
        return Ok(());
    }
    if name.as_slice() == b"version".as_slice() {
        let text = shaped(alloc, b"client", name.as_slice(), text_of(value))?;
        client.version = text;
        return Ok(());
    }
    if name.as_slice() == b"file-system".as_slice() {
        shaped(
            alloc,
            b"client",
            name.as_slice(),
            exactly(b"default", value),
        )?;
        return Ok(());
    }
    Err(unknown_attribute(alloc, b"client", name.as_slice()))
}

// Takes the attributes of the client.
#[derive(Clone, Copy)]
struct TakeAttribute;

impl Step for TakeAttribute {
    ghost use Rattle.manifest_reader.specs.Sections.{client_with};

    type Item = Pair;

    type State = Client;

    ghost makes = { λ _ client pair. client_with client pair };

    fn take(&self, alloc: Global, client: &mut Client, pair: Pair) -> Result<(), Stop> {
        take(alloc, client, pair)
    }
}

// The client with these attributes.
fn client_of(alloc: Global, pairs: List<Pair>) -> Result<Client, Stop>
    ensures { Gives (λ x. x) result (spec.client_of pairs) }
{
    let bare = Client {
        name: List::new(alloc),
        version: copy_of(alloc, b"0")?,
    };
    fold(alloc, &TakeAttribute, bare, pairs)
}

/// Sees that the client is `basic` in the version 0.
#[tactic(auto, unfolding(crate::specs::Sections::client_checked))]
pub fn client_checked(alloc: Global, tree: Yaml) -> Result<(), Stop>
    ensures { Gives (λ x. x) result (spec.client_checked tree) }
{
    let pairs = shaped(alloc, b"client", b"client", pairs_of(tree))?;
    let client = client_of(alloc, pairs)?;
    if client.name.as_slice() == b"basic".as_slice()
        && client.version.as_slice() == b"0".as_slice()
    {
        return Ok(());
    }
    let Client { name, version } = client;
    Err(Stop::Refused(Refusal::WrongClient { name, version }))
}
