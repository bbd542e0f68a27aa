ghost use Rattle.std.specs.Prelude.{◌≡◌, ◌<◌, ◌^◌, IfSome, OnOk, length};
ghost use Rattle.pk_fields.specs.Fields.{row_of};
ghost use Rattle.pk_base.specs.declared.value.Value.TheVariants.{Uint};
ghost use Rattle.pk_tree.specs.Values.{IsOfKind};
ghost use Rattle.message_links.specs.Linked.{layer_link, layer_linked, link_at, linked, linked_at, wanted_link};

use pk_base::{NoMemory, Value};
use pk_fields::{FieldId, FieldSet, ids};
use pk_tree::{Layer, Tree};

/// A field that links a message to an earlier frame.
#[derive(Clone, Copy)]
pub(crate) struct Link {
    pub field: FieldId,
    pub frame: u32,
}

/// Adds the links of a frame's messages to their layers, as far as they are wanted.
#[tactic(auto, unfolding(crate::specs::Linked::linked))]
pub fn link_messages(
    links: &[Option<u32>],
    wanted: &FieldSet,
    tree: &mut Tree,
) -> Result<(), NoMemory>
    ensures { OnOk result (tree.new ≡ linked wanted.now links.now tree.old) }
{
    if links.is_empty() {
        return Ok(());
    }
    for at in 0..tree.layers().len() {
        link_layer(links, wanted, at, tree)?;
    }
    Ok(())
}

/// Adds the link of a layer's message.
fn link_layer(
    links: &[Option<u32>],
    wanted: &FieldSet,
    at: usize,
    tree: &mut Tree,
) -> Result<(), NoMemory>
    requires { at < length tree.old.layers }
    ensures linked { OnOk result (tree.new ≡ record tree.old {
      layers = linked_at (layer_linked
          wanted.now links.now) at tree.old.layers;
    }) }
    ensures count { length tree.new.layers ≡ length tree.old.layers }
{
    match layer_link(links, wanted, &tree.layers()[at]) {
        Some(link) => tree.add_made(at, link.field, Value::Uint(u64::from(link.frame))),
        None => Ok(()),
    }
}

/// The link of a layer's message.
#[tactic(auto, unfolding(pk_fields::specs::Fields::row_of, pk_fields::specs::Table::rows))]
fn layer_link(links: &[Option<u32>], wanted: &FieldSet, layer: &Layer) -> Option<Link>
    ensures link { result ≡ layer_link wanted.now links.now layer.now }
    ensures belongs { IfSome result (λ link. (row_of link.field).proto ≡ layer.now.proto) }
    ensures kind { IfSome result (λ link. IsOfKind (row_of link.field).kind (Uint link.frame)) }
{
    if layer.proto == ids::DNS {
        wanted_link(wanted, ids::DNS_RESPONSE_TO, link_at(links, layer))
    } else if layer.proto == ids::HTTP {
        wanted_link(wanted, ids::HTTP_REQUEST_IN, link_at(links, layer))
    } else {
        None
    }
}

fn wanted_link(wanted: &FieldSet, field: FieldId, frame: Option<u32>) -> Option<Link>
    ensures link { result ≡ wanted_link wanted.now field frame }
    ensures field { IfSome result (λ link. link.field ≡ field) }
    ensures fits { IfSome result (λ link. link.frame < 2 ^ 32) }
{
    match frame {
        Some(frame) if wanted.contains(field) => Some(Link { field, frame }),
        _ => None,
    }
}

fn link_at(links: &[Option<u32>], layer: &Layer) -> Option<u32>
    ensures { result ≡ link_at links.now layer.now }
{
    let place = layer.nth.saturating_sub(1) as usize;
    links.get(place).copied().flatten()
}
