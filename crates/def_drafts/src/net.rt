ghost use Rattle.std.specs.Prelude.{◌≡◌, OnOk};
ghost use Rattle.ld_reader.specs.Rules.{Gives};
ghost use Rattle.def_drafts.specs.Values.{IsGiven};
ghost use Rattle.def_drafts.specs.Nets.{at_wire, begun_in_path, ended_wire, flaw_of, joined, net_begun, net_of, net_option, net_set, new_net, pathed, path_stepped, paths_ended, wire_status_in, with_connection, with_wire};

use crate::options::{DefBegun, Options, plus_or, unless_ends};
use crate::pin::usage_at;
use def_forms::{Flaw, Keyword, Statement};
use def_tree::{Connections, DefNet, DefWire};
use ld_forms::{Kept, is_semicolon};
use ld_reader::{Begun, Stop};
use odb_base::{Name, WireStatus, Worded};
use std::alloc::{AllocError, Global};
use std::mem;
use wires::{NamedPaths, PathFlaw, PathReader, PathStop};

/// The wire of a net that is being read.
#[derive(Drop)]
pub enum Wire {
    /// None.
    None,
    /// Behind `ROUTED`, `FIXED` or `COVER`. Where no path follows, it is an option that is kept.
    Status(WireStatus),
    /// Its paths.
    Paths(WireStatus, PathReader),
}

/// A net that is being read, in one of its two sections.
#[derive(Drop)]
pub struct NetDraft {
    pub name: Name,
    /// Whether it is read in SPECIALNETS.
    pub special: bool,
    /// What the other section says of it, and what this one has said so far but for `options`.
    pub net: DefNet,
    /// Whether a further connection may stand here.
    pub listing: bool,
    pub wire: Wire,
    pub options: Options,
    /// How many parts of connections were passed over. It stops at 2^64 - 1.
    pub passed: u64,
}

impl NetDraft {
    /// Behind its name, with what the other section says of it. It takes no memory.
    pub fn new(alloc: Global, name: Name, special: bool, net: DefNet) -> NetDraft
        ensures { result ≡ new_net name special net }
    {
        NetDraft {
            name,
            special,
            net,
            listing: true,
            wire: Wire::None,
            options: Options::new(alloc),
            passed: 0,
        }
    }

    /// What a word begins.
    #[tactic(auto, unfolding(crate::specs::Nets::net_begun))]
    pub fn begun(&self, word: &[u8]) -> DefBegun
        ensures { result ≡ net_begun self.now word.now }
    {
        match &self.wire {
            Wire::Status(_) => plus_or(word, unless_ends(word, Statement::PathWord)),
            Wire::Paths(_, paths) => begun_in_path(paths, word),
            Wire::None if self.listing && !is_semicolon(word) && !Keyword::Plus.is(word) => {
                Begun::Within(Statement::Connection {
                    special: self.special,
                })
            }
            Wire::None => self.options.begun(word, option(word)),
        }
    }

    /// Sets what a statement sets.
    #[tactic(auto, unfolding(crate::specs::Nets::net_set))]
    pub fn set(
        &mut self,
        alloc: Global,
        statement: Statement,
        words: &Kept,
    ) -> Result<(), Stop<Flaw>>
        ensures { Gives (net_set self.old statement words.now) self.new result }
    {
        match statement {
            Statement::Connection { .. } => self.join(alloc, words)?,
            Statement::Wire(status) => {
                self.go_to(Wire::Status(status));
                self.options.end_own();
            }
            Statement::PathWord => self.go_on(alloc, words.get(0).unwrap_or(b""))?,
            Statement::Use => {
                self.net.usage = usage_at(words);
                self.options.end_own();
            }
            Statement::Plus | Statement::EndElement => {
                self.listing = false;
                self.end_wire()?;
                self.options.set(alloc, statement, words)?;
            }
            _ => self.options.set(alloc, statement, words)?,
        }
        Ok(())
    }

    fn go_to(&mut self, wire: Wire)
        ensures { self.new ≡ at_wire wire self.old }
    {
        drop(mem::replace(&mut self.wire, wire));
    }

    // A connection: the name of a component and of a terminal, of a pin behind `PIN`, or of a terminal of each component
    // behind `*`. `+ SYNTHESIZED` in it is passed over.
    fn join(&mut self, alloc: Global, words: &Kept) -> Result<(), AllocError>
        ensures { OnOk result (self.new ≡ joined words.now self.old) }
    {
        let first = words.get(0).unwrap_or(b"");
        let second = words.get(1).unwrap_or(b"");
        connect(alloc, first, second, &mut self.net.connections)?;
        if words.get(2).is_some() {
            self.passed = self.passed.saturating_add(1);
        }
        Ok(())
    }

    // A word of a path.
    fn go_on(&mut self, alloc: Global, word: &[u8]) -> Result<(), Stop<Flaw>>
        ensures { Gives (pathed word.now self.old.wire self.old) self.new result }
    {
        if let Wire::Status(status) = &self.wire {
            let status = *status;
            self.go_to(Wire::Paths(status, PathReader::new(alloc, self.special)));
        }
        match &mut self.wire {
            Wire::Paths(_, paths) => step(alloc, paths, word),
            Wire::None | Wire::Status(_) => Ok(()),
        }
    }

    // The wire ends, or the option without a path is kept.
    fn end_wire(&mut self) -> Result<(), Stop<Flaw>>
        ensures { Gives (ended_wire self.old.wire self.old) self.new result }
    {
        match mem::replace(&mut self.wire, Wire::None) {
            Wire::None => Ok(()),
            Wire::Status(status) => self.options.kept.push_option(status.word()),
            Wire::Paths(status, reader) => {
                let paths = finish(reader)?;
                self.put_wire(DefWire { status, paths })?;
                Ok(())
            }
        }
    }

    fn put_wire(&mut self, wire: DefWire) -> Result<(), AllocError>
        ensures { OnOk result (self.new ≡ with_wire wire self.old) }
    {
        if self.special {
            self.net.special_wires.push(wire)
        } else {
            self.net.wires.push(wire)
        }
    }

    /// Its name and what it is.
    pub fn finish(self) -> (Name, DefNet)
        ensures { result ≡ net_of self }
    {
        let NetDraft {
            name,
            special,
            mut net,
            listing: _,
            wire,
            options,
            passed: _,
        } = self;
        drop(wire);
        let Options { kept, props, spot } = options;
        drop(spot);
        if special {
            drop(mem::replace(&mut net.special_kept, kept.into_text()));
            drop(mem::replace(&mut net.special_props, props));
        } else {
            drop(mem::replace(&mut net.kept, kept.into_text()));
            drop(mem::replace(&mut net.props, props));
        }
        (name, net)
    }
}

// What a word begins in a path, which ends before `+` and `;` where it may.
fn begun_in_path(paths: &PathReader, word: &[u8]) -> DefBegun
    ensures { result ≡ begun_in_path paths.now word.now }
{
    if paths.may_end() {
        plus_or(word, unless_ends(word, Statement::PathWord))
    } else {
        Begun::Within(Statement::PathWord)
    }
}

// Joins what a connection names.
fn connect(
    alloc: Global,
    first: &[u8],
    second: &[u8],
    connections: &mut Connections,
) -> Result<(), AllocError>
    ensures { OnOk result (connections.new ≡ with_connection first.now second.now connections.old) }
{
    if Keyword::Pin.is(first) {
        connections.pins.put(alloc, second, ())
    } else if Keyword::Star.is(first) {
        connections.every.put(alloc, second, ())
    } else {
        connections.terminals.put(alloc, first, second)
    }
}

// One word further in a path.
fn step(alloc: Global, paths: &mut PathReader, word: &[u8]) -> Result<(), Stop<Flaw>>
    ensures { Gives (path_stepped paths.old word.now) paths.new result }
{
    match paths.step(alloc, word) {
        Ok(()) => Ok(()),
        Err(PathStop::Flaw(flaw)) => Err(Stop::Fault(flaw_of(flaw))),
        Err(PathStop::Memory) => Err(Stop::Memory),
    }
}

// The paths of a wire that ends.
fn finish(paths: PathReader) -> Result<NamedPaths, Stop<Flaw>>
    ensures { IsGiven (paths_ended paths) result }
{
    match paths.finish() {
        Ok(paths) => Ok(paths),
        Err(PathStop::Flaw(flaw)) => Err(Stop::Fault(flaw_of(flaw))),
        Err(PathStop::Memory) => Err(Stop::Memory),
    }
}

// What is wrong with a word of a path.
fn flaw_of(flaw: PathFlaw) -> Flaw
    ensures { result ≡ flaw_of flaw }
{
    match flaw {
        PathFlaw::Unexpected => Flaw::Unexpected,
        PathFlaw::BadNumber => Flaw::BadNumber,
        PathFlaw::BadName => Flaw::BadName,
        PathFlaw::Unsupported => Flaw::Unsupported,
    }
}

// What a word begins as that of an option.
#[tactic(auto, unfolding(crate::specs::Nets::net_option))]
fn option(word: &[u8]) -> DefBegun
    ensures { result ≡ net_option word.now }
{
    if let Some(status) = wire_status(word) {
        Begun::Taken(Statement::Wire(status))
    } else if Keyword::Use.is(word) {
        Begun::Taken(Statement::Use)
    } else if Keyword::Property.is(word) {
        Begun::Taken(Statement::Property)
    } else if Keyword::Subnet.is(word) {
        Begun::Bad(Flaw::Unsupported)
    } else {
        Begun::Within(Statement::KeptWord)
    }
}

// The status of a wire that the word of an option names.
fn wire_status(word: &[u8]) -> Option<WireStatus>
    ensures { result ≡ wire_status_in word.now }
{
    WireStatus::from_word(word)
}
