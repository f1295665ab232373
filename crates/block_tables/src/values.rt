ghost use Rattle.std.specs.Prelude.{◌≡◌, ◌↔◌, [], IsTrue, codes, length};
ghost use Rattle.block_records.specs.Header.{new_header};
ghost use Rattle.block_store.specs.BlockTerminals.{IsBTerm};
ghost use Rattle.block_store.specs.Instances.{IsInst, term_count};
ghost use Rattle.block_store.specs.Nets.{IsNet};

use block_records::Header;
use block_store::values::is_placement;
use block_store::{BTermEntry, InstEntry, NetEntry};
use library::Library;
use odb_base::{MasterId, Text};

// Whether the values of an instance are lawful, and it has a terminal for each of its master's.
pub(crate) fn is_inst(library: &Library, inst: &InstEntry) -> bool
    ensures { IsTrue result ↔ IsInst library.now inst.now }
{
    let _name = inst.fields.name.bytes();
    let bare = inst.fields.group == 0
        && inst.fields.kept.bytes().is_empty()
        && inst.props.items().is_empty();
    let placed = is_placement(inst.fields.place);
    let fitted = is_fitted(library, inst);
    bare && placed && fitted
}

fn is_fitted(library: &Library, inst: &InstEntry) -> bool
    ensures { IsTrue result ↔ (term_count library.now inst.now.fields.master ≡ Some (length inst.now.fields.terminals)) }
{
    match library.master(MasterId(inst.fields.master)) {
        Some(master) => master.terminals.items().len() == inst.fields.terminals.items().len(),
        None => false,
    }
}

// Whether the values of a net are lawful.
pub(crate) fn is_net(net: &NetEntry) -> bool
    ensures { IsTrue result ↔ IsNet net.now }
{
    let _name = net.fields.name.bytes();
    let no_words = net.fields.kept.bytes().is_empty() && net.fields.special_kept.bytes().is_empty();
    let no_members = net.wires.items().is_empty() && net.props.items().is_empty();
    no_words && no_members
}

// Whether the values of a terminal of the block are lawful.
pub(crate) fn is_bterm(bterm: &BTermEntry) -> bool
    ensures { IsTrue result ↔ IsBTerm bterm.now }
{
    let _name = bterm.fields.name.bytes();
    let directed = bterm.fields.direction.fits_bterm();
    let bare = bterm.fields.kept.bytes().is_empty() && bterm.pins.items().is_empty();
    directed && bare
}

// Whether the header is that of a new block.
#[tactic(auto, using(crate::proofs::NewHeaders::is_new))]
pub(crate) fn is_new_header(header: &Header) -> bool
    ensures { IsTrue result ↔ (header.now ≡ new_header) }
{
    let texts = has_new_texts(header);
    let lists = has_new_lists(header);
    texts && lists
}

fn has_new_texts(header: &Header) -> bool
    ensures { IsTrue result ↔ ((header.now.design ≡ []) × (header.now.divider ≡ codes "/") × (header.now.bus ≡ codes "[]")) }
{
    let design = is_text(&header.design, b"");
    let divider = is_text(&header.divider, b"/");
    let bus = is_text(&header.bus, b"[]");
    design && divider && bus
}

fn is_text(text: &Text, bytes: &[u8]) -> bool
    ensures { IsTrue result ↔ (text.now ≡ bytes.now) }
{
    text.bytes() == bytes
}

fn has_new_lists(header: &Header) -> bool
    ensures { IsTrue result ↔ ((header.now.die ≡ None) × (header.now.definitions ≡ []) × (header.now.vias ≡ [])) }
{
    let die = header.die.is_none();
    let definitions = header.definitions.items().is_empty();
    let vias = header.vias.items().is_empty();
    die && definitions && vias
}
