ghost use Rattle.std.specs.Prelude.{◌≡◌, IfOk, OnOk};
ghost use Rattle.lef_drafts.specs.Drafts.{close, closes, ends_bare, lacks_layer, open_set, section_of, set, with_pin};

use crate::opening::opened;
use crate::setting::{draw, macro_with, pin_with, state_layer, state_site, units_with};
use ld_forms::Kept;
use lef_forms::{Keyword, Section, Statement};
use lef_tree::{LefItem, LefLayer, LefMacro, LefPin, LefSite, LefVia};
use odb_base::Name;
use std::alloc::{AllocError, Global};
use std::mem;

/// The section that is open and what it has so far. Of shapes, `layer` is the last one that was named.
#[derive(Drop)]
pub enum Draft {
    Top,
    Units(Option<u32>),
    Layer(LefLayer),
    Via {
        via: LefVia,
        layer: Option<Name>,
    },
    Site(LefSite),
    Macro(LefMacro),
    Pin {
        body: LefMacro,
        pin: LefPin,
    },
    Port {
        body: LefMacro,
        pin: LefPin,
        layer: Option<Name>,
    },
    Obs {
        body: LefMacro,
        layer: Option<Name>,
    },
}

/// What the end of a section gives.
#[derive(Drop)]
pub enum Closed {
    /// The whole text has ended.
    Text,
    /// Nothing, and the top is open again.
    Nothing,
    /// An item, and the top is open again.
    Item(LefItem),
    /// The section around it is open again.
    Inner(Draft),
    /// The section around it is open again, and the one that ended is left out.
    LeftOut(Draft),
}

impl Draft {
    /// The section that is open.
    pub fn section(&self) -> Section
        ensures { result ≡ section_of self.now }
    {
        match self {
            Draft::Top => Section::Top,
            Draft::Units(_) => Section::Units,
            Draft::Layer(_) => Section::Layer,
            Draft::Via { .. } => Section::Via,
            Draft::Site(_) => Section::Site,
            Draft::Macro(_) => Section::Macro,
            Draft::Pin { .. } => Section::Pin,
            Draft::Port { .. } => Section::Port,
            Draft::Obs { .. } => Section::Obs,
        }
    }

    /// Whether shapes are due and no layer was named yet.
    pub fn lacks_layer(&self) -> bool
        ensures { result ≡ lacks_layer self.now }
    {
        match self {
            Draft::Via { layer, .. } | Draft::Port { layer, .. } | Draft::Obs { layer, .. } => {
                layer.is_none()
            }
            Draft::Top
            | Draft::Units(_)
            | Draft::Layer(_)
            | Draft::Site(_)
            | Draft::Macro(_)
            | Draft::Pin { .. } => false,
        }
    }

    /// Whether `END` alone closes the section.
    pub fn ends_bare(&self) -> bool
        ensures { result ≡ ends_bare self.now }
    {
        matches!(self, Draft::Port { .. } | Draft::Obs { .. })
    }

    /// Whether this word behind `END` closes the section.
    #[tactic(auto, unfolding(lef_forms::specs::Keywords::is))]
    pub fn closes(&self, word: &[u8]) -> bool
        ensures { result ≡ closes self.now word.now }
    {
        match self {
            Draft::Top => Keyword::Library.is(word),
            Draft::Units(_) => Keyword::Units.is(word),
            Draft::Layer(layer) => word == layer.name.bytes(),
            Draft::Via { via, .. } => word == via.name.bytes(),
            Draft::Site(site) => word == site.name.bytes(),
            Draft::Macro(body) => word == body.name.bytes(),
            Draft::Pin { pin, .. } => word == pin.name.bytes(),
            Draft::Port { .. } | Draft::Obs { .. } => false,
        }
    }

    /// Puts what a statement says into the section, or the section that the statement opens in its place.
    #[tactic(auto, unfolding(crate::specs::Drafts::set))]
    pub fn set(
        &mut self,
        alloc: Global,
        statement: Statement,
        values: &Kept,
    ) -> Result<(), AllocError>
        ensures { OnOk result (self.new ≡ set statement values.now self.old) }
    {
        match self {
            Draft::Top => self.open(alloc, statement, values),
            Draft::Units(units) => {
                *units = units_with(statement, values, *units);
                Ok(())
            }
            Draft::Layer(layer) => state_layer(alloc, statement, values, layer),
            Draft::Via { via, layer } => draw(alloc, statement, values, layer, &mut via.shapes),
            Draft::Site(site) => state_site(alloc, statement, values, site),
            Draft::Macro(_) => self.open(alloc, statement, values),
            Draft::Pin { .. } => self.open(alloc, statement, values),
            Draft::Port { pin, layer, .. } => {
                draw(alloc, statement, values, layer, &mut pin.shapes)
            }
            Draft::Obs { body, layer } => {
                draw(alloc, statement, values, layer, &mut body.obstructions)
            }
        }
    }

    // The same of sections in which others open.
    fn open(&mut self, alloc: Global, statement: Statement, values: &Kept) -> Result<(), AllocError>
        ensures { OnOk result (self.new ≡ open_set statement values.now self.old) }
    {
        let draft = mem::replace(self, Draft::Top).opened(alloc, statement, values)?;
        drop(mem::replace(self, draft));
        Ok(())
    }

    fn opened(self, alloc: Global, statement: Statement, values: &Kept) -> Result<Draft, AllocError>
        ensures { IfOk result (λ draft. draft ≡ open_set statement values.now self) }
    {
        match self {
            Draft::Top => opened(alloc, statement, values),
            Draft::Macro(body) => macro_with(alloc, statement, values, body),
            Draft::Pin { body, pin } => Ok(pin_with(statement, values, body, pin)),
            Draft::Units(units) => Ok(Draft::Units(units)),
            Draft::Layer(layer) => Ok(Draft::Layer(layer)),
            Draft::Via { via, layer } => Ok(Draft::Via { via, layer }),
            Draft::Site(site) => Ok(Draft::Site(site)),
            Draft::Port { body, pin, layer } => Ok(Draft::Port { body, pin, layer }),
            Draft::Obs { body, layer } => Ok(Draft::Obs { body, layer }),
        }
    }

    /// What the end of the section gives.
    #[tactic(auto, unfolding(crate::specs::Drafts::close))]
    pub fn close(self) -> Result<Closed, AllocError>
        ensures { IfOk result (λ closed. closed ≡ close self) }
    {
        match self {
            Draft::Top => Ok(Closed::Text),
            Draft::Units(None) => Ok(Closed::Nothing),
            Draft::Units(Some(units)) => Ok(Closed::Item(LefItem::Units(units))),
            Draft::Layer(layer) => Ok(Closed::Item(LefItem::Layer(layer))),
            Draft::Via { via, layer: _ } => Ok(Closed::Item(LefItem::Via(via))),
            Draft::Site(site) => Ok(Closed::Item(LefItem::Site(site))),
            Draft::Macro(body) => Ok(Closed::Item(LefItem::Macro(body))),
            Draft::Pin { body, pin } => with_pin(body, pin),
            Draft::Port {
                body,
                pin,
                layer: _,
            } => Ok(Closed::Inner(Draft::Pin { body, pin })),
            Draft::Obs { body, layer: _ } => Ok(Closed::Inner(Draft::Macro(body))),
        }
    }
}

// The macro behind the end of a pin. A second pin of a name is left out.
fn with_pin(mut body: LefMacro, pin: LefPin) -> Result<Closed, AllocError>
    ensures { IfOk result (λ closed. closed ≡ with_pin body pin) }
{
    if body.terminals.has(pin.name.bytes()) {
        drop(pin);
        return Ok(Closed::LeftOut(Draft::Macro(body)));
    }
    match body.terminals.push(pin) {
        Ok(()) => Ok(Closed::Inner(Draft::Macro(body))),
        Err(fault) => {
            drop(body);
            Err(fault)
        }
    }
}
