ghost use Rattle.std.specs.Prelude.{◌≡◌, ◌++◌, ◌∷◌, [], ◌⊎◌, All, None, IfErr, IfOk, IsTrue, OnOk, is_some, Ok, Err, List as ListOf};
ghost use Rattle.wires.specs.Gathered.{gathered, has_place};
ghost use Rattle.wires.specs.Pieces.{Piece, is_tapered, limits_of, piece_of, taper_fits};
ghost use Rattle.wires.specs.Paths.{ArePaths, GivesPaths, IsShort, NamedByNumber, element_piece, open_pieces, path_pieces, paths_bytes, pieces_of, taper_code, taper_rule, via_ref_of};
ghost use Rattle.wires.specs.Reading.{IsReadable, items_of};

use crate::elements::Elements;
use crate::fault::WireFault;
use crate::item::Item;
use crate::limits::Limits;
use crate::path::{Element, Path, Paths, Taper, ViaRef};
use odb_base::{List, Text};
use std::alloc::{AllocError, Global};
use std::mem;

/// The paths of a code. Its numbers name one of so many layers, of so many vias of the technology and of so
/// many of the block.
///
/// `At` names the place of the first field that can't stand where it does. `Memory` may come in place of any
/// answer; it says nothing of the code.
pub fn decode(
    alloc: Global,
    code: &[u8],
    layers: u32,
    tech_vias: u32,
    block_vias: u32,
) -> Result<Paths, WireFault>
    // What is decoded are lawful paths, whose code it is.
    ensures lawful { IfOk result (λ paths. ArePaths (limits_of layers tech_vias block_vias) paths) }
    ensures code { IfOk result (λ paths. code.now ≡ paths_bytes paths) }
    // The code of lawful paths gives just these.
    ensures only { (paths : ListOf NamedByNumber) → ArePaths (limits_of layers tech_vias block_vias) paths
        → code.now ≡ paths_bytes paths → GivesPaths paths result }

    // Its elements are those that the code has, and a fault is the code's first.
    ensures elements { IfOk result (λ paths.
        items_of (limits_of layers tech_vias block_vias) code.now ≡ Ok (pieces_of paths)) }
    ensures fault { IfErr result (λ fault. (fault ≡ WireFault.Memory)
        ⊎ (items_of (limits_of layers tech_vias block_vias) code.now ≡ Err fault)) }
    ensures readable { OnOk result (IsReadable code.now) }
    ensures short { IfOk result (All IsShort) }
{
    let limits = Limits {
        layers,
        tech_vias,
        block_vias,
    };
    decode_within(alloc, code, limits)
}

fn decode_within(alloc: Global, code: &[u8], limits: Limits) -> Result<Paths, WireFault>
    ensures elements { IfOk result (λ paths. items_of limits code.now ≡ Ok (pieces_of paths)) }
    ensures fault { IfErr result (λ fault. (fault ≡ WireFault.Memory) ⊎ (items_of limits code.now ≡ Err fault)) }
{
    let mut paths = PathsSoFar::new(alloc);
    match read_elements(&mut paths, alloc, code, limits) {
        Ok(()) => Ok(paths.closed()?),
        Err(fault) => {
            drop(paths);
            Err(fault)
        }
    }
}

// Puts the elements of a code to no paths.
fn read_elements(
    paths: &mut PathsSoFar,
    alloc: Global,
    code: &[u8],
    limits: Limits,
) -> Result<(), WireFault>
    requires { gathered paths.old ≡ [] }
    ensures elements { OnOk result (items_of limits code.now ≡ Ok (gathered paths.new)) }
    ensures fault { IfErr result (λ fault. (fault ≡ WireFault.Memory) ⊎ (items_of limits code.now ≡ Err fault)) }
{
    let mut elements = Elements::new(code);
    'elements: while let Some(item) = elements.next(limits)? {
        paths.put(alloc, item)?;
    }
    Ok(())
}

/// Paths that were decoded, and the last of them, to which more may come.
#[derive(Debug, Drop)]
pub struct PathsSoFar {
    done: List<Path<u32, ViaRef>>,
    last: Option<Path<u32, ViaRef>>,
}

impl PathsSoFar {
    fn new(alloc: Global) -> PathsSoFar
        ensures none { result.last ≡ None }
        ensures gathered { gathered result ≡ [] }
    {
        PathsSoFar {
            done: List::new(alloc),
            last: None,
        }
    }

    // Puts one more element to the paths.
    fn put(&mut self, alloc: Global, item: Item<'_>) -> Result<(), AllocError>
        requires place { IsTrue (has_place self.old (piece_of item)) }
        requires taper { IsTrue (is_tapered (piece_of item)) }
        ensures gathered { OnOk result (gathered self.new ≡ gathered self.old ++ piece_of item.entry ∷ []) }
        ensures last { OnOk result (IsTrue (is_some self.new.last)) }
    {
        match item {
            Item::Layer {
                layer,
                width,
                shape,
                taper,
                rule,
            } => {
                let path = Path {
                    layer,
                    width,
                    shape: Text::new(alloc, shape)?,
                    taper: taper_of(alloc, taper, rule)?,
                    elements: List::new(alloc),
                };
                self.open(path)
            }
            Item::Point { x, y, ext } => self.grow(Element::Point { x, y, ext }),
            Item::Via { block, via, orient } => self.grow(Element::Via {
                via: via_ref(block, via),
                orient,
            }),
            Item::Rect { dx1, dy1, dx2, dy2 } => self.grow(Element::Rect { dx1, dy1, dx2, dy2 }),
        }
    }

    // Opens a new path.
    fn open(&mut self, path: Path<u32, ViaRef>) -> Result<(), AllocError>
        ensures gathered { OnOk result (gathered self.new ≡ gathered self.old ++ path_pieces path) }
        ensures last { OnOk result (IsTrue (is_some self.new.last)) }
    {
        match mem::replace(&mut self.last, Some(path)) {
            Some(ended) => self.done.push(ended),
            None => Ok(()),
        }
    }

    // Puts one more element to the open path.
    fn grow(&mut self, element: Element<ViaRef>) -> Result<(), AllocError>
        requires { IsTrue (is_some self.old.last) }
        ensures gathered { OnOk result (gathered self.new ≡ gathered self.old ++ element_piece element ∷ []) }
        ensures last { OnOk result (IsTrue (is_some self.new.last)) }
    {
        match &mut self.last {
            Some(path) => path.elements.push(element),
            None => unreachable!(),
        }
    }

    // All paths.
    fn closed(self) -> Result<Paths, AllocError>
        ensures { IfOk result (λ paths. pieces_of paths ≡ gathered self) }
    {
        let PathsSoFar { mut done, last } = self;
        if let Some(path) = last {
            done.push(path)?;
        }
        Ok(done)
    }
}

fn taper_of(alloc: Global, code: u8, rule: &[u8]) -> Result<Taper, AllocError>
    requires { IsTrue (taper_fits code rule.now) }
    ensures code { IfOk result (λ taper. taper_code taper ≡ code) }
    ensures rule { IfOk result (λ taper. taper_rule taper ≡ rule.now) }
{
    match code {
        0 => Ok(Taper::None),
        1 => Ok(Taper::Layer),
        _ => Ok(Taper::Rule(Text::new(alloc, rule)?)),
    }
}

fn via_ref(block: bool, via: u32) -> ViaRef
    ensures { result ≡ via_ref_of block via }
{
    if block {
        ViaRef::Block(via)
    } else {
        ViaRef::Tech(via)
    }
}
