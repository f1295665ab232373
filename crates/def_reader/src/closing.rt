ghost use Rattle.std.specs.Prelude.{◌≡◌, OnOk};
ghost use Rattle.def_reader.specs.Closing.{entered, joined_to, passed_in, with_definition_draft, with_element, with_pin};

use def_drafts::{DefinitionDraft, Element, TrackDraft};
use def_tree::{ByName, DefNet, DefPin, DefTree};
use odb_base::Name;
use std::alloc::{AllocError, Global};

/// Enters an element that has ended into the tree.
#[tactic(auto, unfolding(crate::specs::Closing::with_element))]
pub fn close(alloc: Global, element: Element, tree: &mut DefTree) -> Result<(), AllocError>
    ensures { OnOk result (tree.new ≡ with_element element tree.old) }
{
    match element {
        Element::Definition(draft) => define(alloc, draft, tree),
        Element::Row(draft) => enter(alloc, draft.finish(), &mut tree.rows),
        Element::Track(draft) => {
            let TrackDraft { track } = draft;
            tree.tracks.push(track)
        }
        Element::Via(draft) => enter(alloc, Some(draft.finish()), &mut tree.vias),
        Element::Region(draft) => enter(alloc, Some(draft.finish()), &mut tree.regions),
        Element::Component(draft) => enter(alloc, draft.finish(), &mut tree.components),
        Element::Pin(draft) => enter_pin(alloc, draft.finish()?, tree),
        Element::Net(draft) => enter(alloc, Some(draft.finish()), &mut tree.nets),
        Element::Blockage(draft) => tree.blockages.push(draft.finish()),
        Element::Group(draft) => enter(alloc, Some(draft.finish()), &mut tree.groups),
    }
}

/// How many parts of an element were passed over.
pub fn passed_in(element: &Element) -> u64
    ensures { result ≡ passed_in element.now }
{
    match element {
        Element::Net(draft) => draft.passed,
        Element::Definition(_)
        | Element::Row(_)
        | Element::Track(_)
        | Element::Via(_)
        | Element::Region(_)
        | Element::Component(_)
        | Element::Pin(_)
        | Element::Blockage(_)
        | Element::Group(_) => 0,
    }
}

// Puts a pin under its name, and joins it to its net.
fn enter_pin(alloc: Global, pin: (Name, DefPin), tree: &mut DefTree) -> Result<(), AllocError>
    ensures { OnOk result (tree.new ≡ with_pin pin tree.old) }
{
    let (name, pin) = pin;
    let joined = match &pin.net {
        Some(net) => join(alloc, net.bytes(), name.bytes(), &mut tree.nets),
        None => Ok(()),
    };
    match joined {
        Ok(()) => enter(alloc, Some((name, pin)), &mut tree.pins),
        Err(fault) => {
            drop(name);
            drop(pin);
            Err(fault)
        }
    }
}

// Joins a pin to a net.
fn join(alloc: Global, net: &[u8], pin: &[u8], nets: &mut ByName<DefNet>) -> Result<(), AllocError>
    ensures { OnOk result (nets.new ≡ joined_to net.now pin.now nets.old) }
{
    let mut joined = match nets.take(net) {
        Some(joined) => joined,
        None => DefNet::new(alloc),
    };
    match joined.connections.pins.put(alloc, pin, ()) {
        Ok(()) => nets.put(alloc, net, joined),
        Err(fault) => {
            drop(joined);
            Err(fault)
        }
    }
}

// Puts a thing under its name, where there is one.
fn enter<T: Drop>(
    alloc: Global,
    thing: Option<(Name, T)>,
    things: &mut ByName<T>,
) -> Result<(), AllocError>
    ensures { OnOk result (things.new ≡ entered thing things.old) }
{
    let Some((name, thing)) = thing else {
        return Ok(());
    };
    let put = things.put(alloc, name.bytes(), thing);
    drop(name);
    put
}

fn define(alloc: Global, draft: DefinitionDraft, tree: &mut DefTree) -> Result<(), AllocError>
    ensures { OnOk result (tree.new ≡ with_definition_draft draft tree.old) }
{
    let (owner, name, definition) = draft.finish();
    let put = tree.definitions.put(alloc, owner, name.bytes(), definition);
    drop(name);
    put
}
