//! How the paths of an order are asked for.
ghost use Rattle.std.specs.Prelude.{◌≡◌};
ghost use Rattle.file_info.specs.Content.{same_list};
ghost use Rattle.outside.specs.Outcome.{stands_in, asked_as, is_link, form_of, makes_link, output_form};

use crate::order::{Act, Order};
use file_info::info::{Form, Info};
use file_info::list::List;
use file_info::path::PathName;

// Whether two texts are equal.
fn same_text(text: &str, other: &str) -> bool
    ensures { result ≡ same_list text.now other.now }
{
    text == other
}

/// Whether a text stands among the paths. It takes no memory.
pub fn is_among(paths: &List<PathName>, text: &str) -> bool
    ensures { result ≡ stands_in paths.now text.now }
{
    paths
        .as_slice()
        .iter()
        .any(|path| same_text(path.text(), text))
}

// How a path is asked for that may be known to be a link.
fn form_where(links: &List<PathName>, linked: bool, text: &str) -> Form
    ensures { result ≡ asked_as links.now linked text.now }
{
    if linked || is_among(links, text) {
        Form::Link
    } else {
        Form::Follow
    }
}

// Whether the file information is that of a link.
fn tells_link(info: &Info) -> bool
    ensures { result ≡ is_link info.now }
{
    match info {
        Info::Link { text: _ } => true,
        _ => false,
    }
}

/// How a path is asked for that had this file information when it was read: as a link where it was one or stands among the
/// links, and else it is followed. It takes no memory.
pub fn form_of_read(links: &List<PathName>, text: &str, info: &Info) -> Form
    ensures { result ≡ form_of links.now text.now info.now }
{
    form_where(links, tells_link(info), text)
}

/// How an output of an order is asked for: as a link where the order makes one or the output stands among the links, and else
/// it is followed. It takes no memory.
pub fn form_of_output(order: &Order, text: &str) -> Form
    ensures { result ≡ output_form order.now text.now }
{
    let linked = match &order.act {
        Act::MakeLink { text: _ } => true,
        _ => false,
    };
    form_where(&order.links, linked, text)
}
