ghost use Rattle.std.specs.Prelude.{◌≡◌, IfOk, OnOk, Ok};
ghost use Rattle.ld_reader.specs.Rules.{Gives};
ghost use Rattle.def_drafts.specs.Pins.{at_spot, behind_layer_plus, behind_layer_word, direction_at, flushed, kept_by, new_pin, new_port, pin_begun, pin_of, pin_option, pin_set, port_of, set_behind, usage_at, with_box, with_kept_word, with_last, with_layer, with_layer_and, with_layer_word, with_one_box, with_option, with_place, with_plus, with_port, with_shape};

use crate::component::{place_option, placement};
use crate::kept_words::KeptWords;
use crate::options::{DefBegun, plus_or, unless_ends};
use crate::region::LIST_LIMIT;
use crate::values::{name_at, name_of, rect, text_at};
use def_forms::{Flaw, Keyword, Statement, direction_of};
use def_tree::{DefBox, DefPin, DefPort};
use ld_forms::{Kept, is_name, usage_of};
use ld_reader::{Begun, Stop};
use odb_base::{Direction, List, Name, Placement, Text, Usage};
use std::alloc::{AllocError, Global};
use std::mem;

/// Where the reading of a pin stands.
#[derive(Drop)]
pub enum PinSpot {
    /// `+` or the end of the pin is due.
    Between,
    /// The word behind `+` is due.
    Word,
    /// Further words of an option that is kept may stand here.
    Kept,
    /// The word behind `+ LAYER` is due.
    Layer,
    /// The word behind `+ LAYER +` is due.
    LayerPlus,
    /// The word behind `+ LAYER` and this one is due. Where it is `(`, this one is a layer; else the option is kept.
    LayerWord(Text),
}

/// A port that is being read.
#[derive(Drop)]
pub struct PortDraft {
    pub boxes: List<DefBox>,
    pub place: Placement,
    pub kept: KeptWords,
}

/// A pin that is being read.
#[derive(Drop)]
pub struct PinDraft {
    pub name: Name,
    pub net: Option<Name>,
    pub direction: Direction,
    pub usage: Usage,
    pub kept: KeptWords,
    /// The ports before the last one.
    pub ports: List<DefPort>,
    pub port: Option<PortDraft>,
    /// `PORT` was read, so that options that are kept belong to the last port.
    pub in_port: bool,
    pub spot: PinSpot,
}

impl PortDraft {
    /// A port of which nothing is said. It takes no memory.
    pub fn new(alloc: Global) -> PortDraft
        ensures { result ≡ new_port }
    {
        PortDraft {
            boxes: List::new(alloc),
            place: Placement::UNPLACED,
            kept: KeptWords::new(alloc),
        }
    }

    /// What it is.
    pub fn finish(self) -> DefPort
        ensures { result ≡ port_of self }
    {
        let PortDraft { boxes, place, kept } = self;
        DefPort {
            boxes,
            place,
            kept: kept.into_text(),
        }
    }
}

impl PinDraft {
    /// Behind its name. It takes no memory.
    pub fn new(alloc: Global, name: Name) -> PinDraft
        ensures { result ≡ new_pin name }
    {
        PinDraft {
            name,
            net: None,
            direction: Direction::None,
            usage: Usage::None,
            kept: KeptWords::new(alloc),
            ports: List::new(alloc),
            port: None,
            in_port: false,
            spot: PinSpot::Between,
        }
    }

    /// What a word begins.
    #[tactic(auto, unfolding(crate::specs::Pins::pin_begun))]
    pub fn begun(&self, word: &[u8]) -> DefBegun
        ensures { result ≡ pin_begun self.now word.now }
    {
        match &self.spot {
            PinSpot::Between => plus_or(word, Statement::EndElement),
            PinSpot::Word => option(word),
            PinSpot::Kept => plus_or(word, unless_ends(word, Statement::KeptWord)),
            PinSpot::Layer => plus_or(word, unless_ends(word, Statement::LayerWord)),
            PinSpot::LayerPlus => behind_layer_plus(word),
            PinSpot::LayerWord(layer) => behind_layer_word(layer.bytes(), word),
        }
    }

    /// Sets what a statement sets.
    #[tactic(auto, unfolding(crate::specs::Pins::pin_set))]
    pub fn set(
        &mut self,
        alloc: Global,
        statement: Statement,
        words: &Kept,
    ) -> Result<(), Stop<Flaw>>
        ensures { Gives (pin_set self.old statement words.now) self.new result }
    {
        match statement {
            Statement::Layer => {
                self.flush()?;
                self.go_to(PinSpot::Layer);
            }
            Statement::LayerWord => self.take_layer_word(alloc, words)?,
            Statement::Rect => self.take_box(alloc, words)?,
            Statement::Plus => self.take_plus()?,
            _ => {
                self.flush()?;
                self.set_behind(alloc, statement, words)?;
            }
        }
        Ok(())
    }

    fn go_to(&mut self, spot: PinSpot)
        ensures { self.new ≡ at_spot spot self.old }
    {
        drop(mem::replace(&mut self.spot, spot));
    }

    fn take_layer_word(&mut self, alloc: Global, words: &Kept) -> Result<(), Stop<Flaw>>
        ensures { Gives (Ok (with_layer_word words.now self.old)) self.new result }
    {
        let word = text_at(alloc, words, 0)?;
        self.go_to(PinSpot::LayerWord(word));
        Ok(())
    }

    // `+`. Behind `LAYER` the next word says whether the option is kept.
    fn take_plus(&mut self) -> Result<(), Stop<Flaw>>
        ensures { Gives (with_plus self.old.spot self.old) self.new result }
    {
        if matches!(self.spot, PinSpot::Layer) {
            self.go_to(PinSpot::LayerPlus);
            return Ok(());
        }
        self.flush()?;
        self.go_to(PinSpot::Word);
        Ok(())
    }

    // Keeps the option of which it wasn't known yet whether it is kept.
    #[tactic(auto, unfolding(crate::specs::Pins::flushed))]
    fn flush(&mut self) -> Result<(), Stop<Flaw>>
        ensures { Gives (flushed self.old.spot self.old) self.new result }
    {
        match mem::replace(&mut self.spot, PinSpot::Between) {
            PinSpot::Layer => self.keep_layer(PinSpot::Between),
            PinSpot::LayerPlus => self.keep_layer(PinSpot::Word),
            PinSpot::LayerWord(word) => {
                let kept = self.keep_layer_word(word.bytes());
                drop(word);
                kept
            }
            other => {
                self.go_to(other);
                Ok(())
            }
        }
    }

    // Keeps `+ LAYER`, and goes on there.
    fn keep_layer(&mut self, spot: PinSpot) -> Result<(), Stop<Flaw>>
        ensures { Gives (with_layer spot self.old) self.new result }
    {
        self.keep_option(b"LAYER")?;
        self.go_to(spot);
        Ok(())
    }

    fn keep_layer_word(&mut self, word: &[u8]) -> Result<(), Stop<Flaw>>
        ensures { Gives (with_layer_and word.now self.old) self.new result }
    {
        self.keep_option(b"LAYER")?;
        self.keep_word(word)?;
        self.go_to(PinSpot::Kept);
        Ok(())
    }

    // The first word of an option that is kept, on the last port behind `PORT`, else on the pin.
    fn keep_option(&mut self, word: &[u8]) -> Result<(), Stop<Flaw>>
        ensures { Gives (with_option word.now self.old) self.new result }
    {
        match &mut self.port {
            Some(port) if self.in_port => port.kept.push_option(word),
            _ => self.kept.push_option(word),
        }
    }

    // A further word of an option that is kept.
    fn keep_word(&mut self, word: &[u8]) -> Result<(), Stop<Flaw>>
        ensures { Gives (with_kept_word word.now self.old) self.new result }
    {
        match &mut self.port {
            Some(port) if self.in_port => port.kept.push(word),
            _ => self.kept.push(word),
        }
    }

    // A statement behind any option of which it wasn't known whether it is kept.
    #[tactic(auto, unfolding(crate::specs::Pins::set_behind))]
    fn set_behind(
        &mut self,
        alloc: Global,
        statement: Statement,
        words: &Kept,
    ) -> Result<(), Stop<Flaw>>
        ensures { Gives (set_behind self.old statement words.now) self.new result }
    {
        match statement {
            Statement::KeptWord => self.keep(words)?,
            Statement::Net => {
                let net = name_at(alloc, words, 0)?;
                self.net = Some(net);
                self.go_to(PinSpot::Between);
            }
            Statement::Direction => {
                self.direction = direction_at(words);
                self.go_to(PinSpot::Between);
            }
            Statement::Use => {
                self.usage = usage_at(words);
                self.go_to(PinSpot::Between);
            }
            Statement::Place(status) => {
                self.place(alloc, placement(status, words));
                self.go_to(PinSpot::Between);
            }
            Statement::Port => self.open_port(alloc)?,
            _ => {}
        }
        Ok(())
    }

    // A word of an option that is kept: the first one stands behind `+`.
    fn keep(&mut self, words: &Kept) -> Result<(), Stop<Flaw>>
        ensures { Gives (kept_by self.old.spot words.now self.old) self.new result }
    {
        let word = words.get(0).unwrap_or(b"");
        if matches!(self.spot, PinSpot::Word) {
            self.keep_option(word)?;
        } else {
            self.keep_word(word)?;
        }
        self.go_to(PinSpot::Kept);
        Ok(())
    }

    // Where the last port stands; before any, of one that opens with it.
    fn place(&mut self, alloc: Global, place: Placement)
        ensures { self.new ≡ with_place place self.old }
    {
        match &mut self.port {
            Some(port) => port.place = place,
            None => {
                self.port = Some(PortDraft {
                    place,
                    ..PortDraft::new(alloc)
                });
            }
        }
    }

    // A rectangle on the layer that was named, of the last port; before any, of one that opens with it.
    fn take_box(&mut self, alloc: Global, words: &Kept) -> Result<(), Stop<Flaw>>
        ensures { Gives (with_box words.now self.old.spot self.old) self.new result }
    {
        let PinSpot::LayerWord(word) = mem::replace(&mut self.spot, PinSpot::Between) else {
            return Ok(());
        };
        let layer = name_of(alloc, word.bytes());
        drop(word);
        let layer = layer?;
        self.put_box(
            alloc,
            DefBox {
                layer,
                rect: rect(words),
            },
        )
    }

    fn put_box(&mut self, alloc: Global, shape: DefBox) -> Result<(), Stop<Flaw>>
        ensures { Gives (with_shape shape self.old) self.new result }
    {
        if self.port.is_none() {
            self.port = Some(PortDraft::new(alloc));
        }
        match &mut self.port {
            Some(port) => push_box(&mut port.boxes, shape),
            None => {
                drop(shape);
                Ok(())
            }
        }
    }

    // A further port.
    fn open_port(&mut self, alloc: Global) -> Result<(), AllocError>
        ensures { OnOk result (self.new ≡ with_port self.old) }
    {
        if let Some(port) = mem::replace(&mut self.port, Some(PortDraft::new(alloc))) {
            self.ports.push(port.finish())?;
        }
        self.in_port = true;
        self.go_to(PinSpot::Between);
        Ok(())
    }

    /// Its name and what it is.
    pub fn finish(self) -> Result<(Name, DefPin), AllocError>
        ensures { IfOk result (λ pin. pin ≡ pin_of self) }
    {
        let PinDraft {
            name,
            net,
            direction,
            usage,
            kept,
            mut ports,
            port,
            in_port: _,
            spot,
        } = self;
        drop(spot);
        let pushed = push_port(&mut ports, port);
        let pin = DefPin {
            net,
            direction,
            usage,
            kept: kept.into_text(),
            ports,
        };
        match pushed {
            Ok(()) => Ok((name, pin)),
            Err(fault) => {
                drop(name);
                drop(pin);
                Err(fault)
            }
        }
    }
}

// With the last port, where there is one.
fn push_port(ports: &mut List<DefPort>, port: Option<PortDraft>) -> Result<(), AllocError>
    ensures { OnOk result (ports.new ≡ with_last port ports.old) }
{
    match port {
        Some(port) => ports.push(port.finish()),
        None => Ok(()),
    }
}

// Puts a box last, which is unexpected where the list is full.
fn push_box(boxes: &mut List<DefBox>, shape: DefBox) -> Result<(), Stop<Flaw>>
    ensures { Gives (with_one_box boxes.old shape) boxes.new result }
{
    if boxes.items().len() >= LIST_LIMIT {
        drop(shape);
        return Err(Stop::Fault(Flaw::Unexpected));
    }
    boxes.push(shape)?;
    Ok(())
}

// The direction that the first word names.
fn direction_at(words: &Kept) -> Direction
    ensures { result ≡ direction_at words.now }
{
    match words.get(0) {
        Some(word) => direction_of(word).unwrap_or(Direction::None),
        None => Direction::None,
    }
}

/// The use that the first word names.
pub fn usage_at(words: &Kept) -> Usage
    ensures { result ≡ usage_at words.now }
{
    match words.get(0) {
        Some(word) => usage_of(word).unwrap_or(Usage::None),
        None => Usage::None,
    }
}

// The word behind `+ LAYER +`.
fn behind_layer_plus(word: &[u8]) -> DefBegun
    ensures { result ≡ behind_layer_plus word.now }
{
    if Keyword::Open.is(word) {
        Begun::Bad(Flaw::Unexpected)
    } else {
        option(word)
    }
}

// The word behind `+ LAYER` and another word.
fn behind_layer_word(layer: &[u8], word: &[u8]) -> DefBegun
    ensures { result ≡ behind_layer_word layer.now word.now }
{
    if !Keyword::Open.is(word) {
        plus_or(word, unless_ends(word, Statement::KeptWord))
    } else if is_name(layer) {
        Begun::Within(Statement::Rect)
    } else {
        Begun::Bad(Flaw::Unexpected)
    }
}

// What a word begins as that of an option.
#[tactic(auto, unfolding(crate::specs::Pins::pin_option))]
fn option(word: &[u8]) -> DefBegun
    ensures { result ≡ pin_option word.now }
{
    if let Some(statement) = place_option(word) {
        Begun::Taken(statement)
    } else if Keyword::Layer.is(word) {
        Begun::Taken(Statement::Layer)
    } else if Keyword::Port.is(word) {
        Begun::Taken(Statement::Port)
    } else if Keyword::Net.is(word) {
        Begun::Taken(Statement::Net)
    } else if Keyword::Direction.is(word) {
        Begun::Taken(Statement::Direction)
    } else if Keyword::Use.is(word) {
        Begun::Taken(Statement::Use)
    } else {
        Begun::Within(Statement::KeptWord)
    }
}
