ghost use Rattle.std.specs.Prelude.{◌≡◌};

use crate::closing::{close, passed_in};
use crate::fault::DefRead;
use crate::header::state;
use crate::inside::{Counted, Inside, behind, end_of};
use crate::opening::{element_in, section_begun, top_begun};
use def_drafts::values::name_at;
use def_drafts::{DefBegun, Element, NetDraft};
use def_forms::{Class, Flaw, Keyword, Section, Statement, judge, stated};
use def_tree::{DefNet, DefTree, Names};
use ld_forms::{Judged, Kept, Place};
use ld_reader::{Begun, Language, Stop};
use std::alloc::{AllocError, Global};
use std::mem;

/// What was read of a DEF text so far.
#[derive(Drop)]
pub struct SoFar {
    /// What is whole.
    pub tree: DefTree,
    /// The names of the nets that NETS has so far.
    pub in_nets: Names,
    pub inside: Inside,
    /// How many parts were passed over. It stops at 2^64 - 1.
    pub passed: u64,
    /// How many sections had another number of elements than they state. It stops at 2^64 - 1.
    pub miscounted: u64,
    /// `END DESIGN` was read.
    pub done: bool,
}

impl SoFar {
    ghost use Rattle.std.specs.Prelude.{IfOk, OnOk};
    ghost use Rattle.def_tree.specs.ByName.{found};
    ghost use Rattle.def_reader.specs.Answer.{read_of};
    ghost use Rattle.ld_reader.specs.Rules.{Gives};
    ghost use Rattle.def_reader.specs.Reading.{closed, count_miss, counted_in, element_opened, ended, has_net, header_of, moved_into, net_entered, net_opened, net_taken, section_opened, set_inside, start, without_net};

    /// Before the first word of a text.
    pub fn new(alloc: Global) -> Result<SoFar, AllocError>
        ensures { IfOk result (λ so_far. so_far ≡ start) }
    {
        Ok(SoFar {
            tree: DefTree::new(alloc)?,
            in_nets: Names::new(alloc),
            inside: Inside::Top,
            passed: 0,
            miscounted: 0,
            done: false,
        })
    }

    /// What was read.
    pub fn into_read(self) -> DefRead
        ensures { result ≡ read_of self }
    {
        let SoFar {
            tree,
            in_nets,
            inside,
            passed,
            miscounted,
            done: _,
        } = self;
        drop(in_nets);
        drop(inside);
        DefRead {
            tree,
            passed,
            miscounted,
        }
    }

    fn go_into(&mut self, inside: Inside)
        ensures { self.new ≡ moved_into inside self.old }
    {
        drop(mem::replace(&mut self.inside, inside));
    }

    // The word of a section. All but one have a count behind it.
    fn open_section(&mut self, section: Section)
        ensures { self.new ≡ moved_into (header_of section) self.old }
    {
        self.go_into(if section == Section::Definitions {
            Inside::Section(Counted {
                section,
                stated: None,
                seen: 0,
            })
        } else {
            Inside::Header(section)
        });
    }

    // The section that is open, or none.
    fn counted(&self) -> Option<Counted>
        ensures { result ≡ counted_in self.now.inside }
    {
        match &self.inside {
            Inside::Section(counted) => Some(*counted),
            Inside::Element(counted, _) => *counted,
            Inside::Top | Inside::Header(_) => None,
        }
    }

    // The number of elements that the header of a section states.
    fn count_section(&mut self, words: &Kept)
        ensures { self.new ≡ section_opened words.now self.old }
    {
        if let Inside::Header(section) = &self.inside {
            let section = *section;
            self.go_into(Inside::Section(Counted {
                section,
                stated: stated(words.get(0).unwrap_or(b"")),
                seen: 0,
            }));
        }
    }

    // Behind `END` and a word.
    #[tactic(auto, unfolding(crate::specs::Reading::ended))]
    fn end(&mut self, words: &Kept) -> Result<(), Stop<Flaw>>
        ensures { Gives (ended words.now self.old) self.new result }
    {
        let word = words.get(0).unwrap_or(b"");
        match self.counted() {
            None if Keyword::Design.is(word) => self.done = true,
            Some(counted) if end_of(counted.section).is(word) => {
                self.count_miss(counted);
                self.go_into(Inside::Top);
            }
            _ => return Err(Stop::Fault(Flaw::Unexpected)),
        }
        Ok(())
    }

    // A section has ended, with as many elements as it states or not.
    fn count_miss(&mut self, counted: Counted)
        ensures { self.new ≡ count_miss counted self.old }
    {
        if counted.section != Section::Definitions && counted.stated != Some(counted.seen) {
            self.miscounted = self.miscounted.saturating_add(1);
        }
    }

    // An element begins behind its name.
    #[tactic(auto, unfolding(crate::specs::Reading::element_opened))]
    fn begin(&mut self, alloc: Global, statement: Statement, words: &Kept) -> Result<(), Stop<Flaw>>
        ensures { Gives (element_opened statement words.now self.old) self.new result }
    {
        let element = element_in(alloc, &self.tree, statement, words)?;
        let counted = self.counted();
        self.go_into(Inside::Element(counted, element));
        Ok(())
    }

    // A net begins behind its name, with what the other section says of it.
    #[tactic(auto, unfolding(crate::specs::Reading::net_opened))]
    fn begin_net(&mut self, alloc: Global, special: bool, words: &Kept) -> Result<(), Stop<Flaw>>
        ensures { Gives (net_opened special words.now self.old) self.new result }
    {
        let name = name_at(alloc, words, 0)?;
        if self.has_net(special, name.bytes()) {
            drop(name);
            return Err(Stop::Fault(Flaw::Duplicate));
        }
        let entered = self.enter_net(alloc, special, name.bytes());
        if let Err(fault) = entered {
            drop(name);
            return Err(fault.into());
        }
        let net = self.take_net(alloc, special, name.bytes());
        let counted = self.counted();
        let draft = NetDraft::new(alloc, name, special, net);
        self.go_into(Inside::Element(counted, Element::Net(draft)));
        Ok(())
    }

    // Whether the section has a net of this name already.
    fn has_net(&self, special: bool, name: &[u8]) -> bool
        ensures { result ≡ has_net special name.now self.now }
    {
        if !special {
            return self.in_nets.has(name);
        }
        match self.tree.nets.get(name) {
            Some(net) => net.special,
            None => false,
        }
    }

    // NETS has a net of this name.
    fn enter_net(&mut self, alloc: Global, special: bool, name: &[u8]) -> Result<(), AllocError>
        ensures { OnOk result (self.new ≡ net_entered special name.now self.old) }
    {
        if special {
            return Ok(());
        }
        self.in_nets.put(alloc, name, ())
    }

    // Takes out what is known of a net.
    fn take_net(&mut self, alloc: Global, special: bool, name: &[u8]) -> DefNet
        ensures net { result ≡ net_taken special (found name.now self.old.tree.nets) }
        ensures left { self.new ≡ without_net name.now self.old }
    {
        let mut net = match self.tree.nets.take(name) {
            Some(net) => net,
            None => DefNet::new(alloc),
        };
        if special {
            net.special = true;
        }
        net
    }

    // A statement of the element that is open, or one outside all sections.
    fn set_inside(
        &mut self,
        alloc: Global,
        statement: Statement,
        words: &Kept,
    ) -> Result<(), Stop<Flaw>>
        ensures { Gives (set_inside self.old.inside statement words.now self.old) self.new result }
    {
        match &mut self.inside {
            Inside::Element(_, element) => element.set(alloc, statement, words),
            Inside::Top | Inside::Header(_) | Inside::Section(_) => {
                state(alloc, statement, words, &mut self.tree)
            }
        }
    }

    // The element that is open has ended.
    #[tactic(auto, unfolding(crate::specs::Reading::closed))]
    fn close(&mut self, alloc: Global) -> Result<(), Stop<Flaw>>
        ensures { Gives (closed self.old.inside self.old) self.new result }
    {
        match mem::replace(&mut self.inside, Inside::Top) {
            Inside::Element(counted, element) => {
                self.inside = behind(counted);
                self.passed = self.passed.saturating_add(passed_in(&element));
                close(alloc, element, &mut self.tree)?;
            }
            other => self.go_into(other),
        }
        Ok(())
    }
}

impl Language for SoFar {
    type Class = Class;

    type Statement = Statement;

    type Kind = Flaw;

    ghost use Rattle.def_reader.specs.Reading.{rules};

    ghost rules = { rules };

    fn judge(class: Class, word: &[u8]) -> Judged<Flaw> {
        judge(class, word)
    }

    fn places(statement: Statement) -> &'static [Place<Class>] {
        statement.places()
    }

    #[tactic(auto, unfolding(crate::specs::Reading::begun_in))]
    fn begun(&self, word: &[u8]) -> DefBegun {
        match &self.inside {
            Inside::Top => top_begun(word),
            Inside::Header(_) => Begun::Within(Statement::Count),
            Inside::Section(counted) => section_begun(counted.section, word),
            Inside::Element(_, element) => element.begun(word),
        }
    }

    #[tactic(auto, unfolding(crate::specs::Reading::set_in))]
    fn set(&mut self, alloc: Global, statement: Statement, words: &Kept) -> Result<(), Stop<Flaw>> {
        match statement {
            Statement::Header(section) => self.open_section(section),
            Statement::Count => self.count_section(words),
            Statement::End => self.end(words)?,
            Statement::Element(Section::SpecialNets) => self.begin_net(alloc, true, words)?,
            Statement::Element(Section::Nets) => self.begin_net(alloc, false, words)?,
            Statement::Row | Statement::Tracks | Statement::Definition(_) | Statement::Element(_) =>
                { self.begin(alloc, statement, words)? }
            Statement::EndElement => {
                self.set_inside(alloc, statement, words)?;
                self.close(alloc)?;
            }
            _ => self.set_inside(alloc, statement, words)?,
        }
        Ok(())
    }

    fn count(&mut self) {
        self.passed = self.passed.saturating_add(1);
        if matches!(self.inside, Inside::Element(None, _)) {
            self.go_into(Inside::Top);
        }
    }

    fn is_strict(&self) -> bool {
        !matches!(self.inside, Inside::Top | Inside::Element(None, _))
    }

    fn is_done(&self) -> bool {
        self.done
    }

    fn may_end(&self) -> bool {
        false
    }

    fn unexpected() -> Flaw {
        Flaw::Unexpected
    }

    fn cut() -> Flaw {
        Flaw::Cut
    }
}
