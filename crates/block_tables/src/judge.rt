ghost use Rattle.std.specs.Prelude.{◌≡◌, ◌≢◌, ◌↔◌, ◌+◌, ◌<◌, ◌≤◌, ℕ, IfNone, IfOk, IfSome, IsTrue, OnOk, None, Some};
ghost use Rattle.slot_pool.specs.Table.{record_at, times};
ghost use Rattle.block_store.specs.Block.{slots_in};
ghost use Rattle.block_store.specs.Nets.{IsNet};
ghost use Rattle.block_store.specs.Rows.{IsRow};
ghost use Rattle.block_store.specs.Sound.{net_terms};
ghost use Rattle.block_tables.specs.Indexes.{CountsStanding};
ghost use Rattle.block_tables.specs.RuleNets.{AreTerminals, term_net};
ghost use Rattle.block_tables.specs.Rules.{IsSoundRecord, IsSoundTable};

use crate::good::is_table;
use crate::holders::Holders;
use crate::instances::are_in_place;
use crate::names::{holders_of, is_alone};
use crate::nets::are_terminals;
use crate::standing::standing;
use crate::terminals::{is_counted, stands_at};
use crate::values::{is_bterm, is_inst, is_net};
use block_store::values::is_row;
use block_store::{NetEntry, RowEntry, Tables};
use library::Library;
use odb_base::Kind;
use std::alloc::{AllocError, Global};
use tech::Tech;

// What the records of tables are judged by.
#[derive(Drop)]
pub(crate) struct Judge<'a> {
    pub tables: &'a Tables,
    pub tech: &'a Tech,
    pub library: &'a Library,
    pub insts: Holders<'a>,
    pub nets: Holders<'a>,
    pub bterms: Holders<'a>,
    pub rows: Holders<'a>,
    pub standing: Vec<u8>,
}

impl<'a> Judge<'a> {
    ghost use Rattle.block_tables.specs.Prepared.{IsPrepared};

    // Counts over the tables what records are judged by.
    pub fn new(
        alloc: Global,
        tables: &'a Tables,
        tech: &'a Tech,
        library: &'a Library,
    ) -> Result<Judge<'a>, AllocError>
        requires iterms { slots_in Kind.ITerm tables.now ≤ 16777215 }
        requires nets { slots_in Kind.Net tables.now ≤ 16777215 }
        requires bterms { slots_in Kind.BTerm tables.now ≤ 16777215 }
        ensures prepared { IfOk result (λ judge. IsPrepared judge) }
        ensures tables { IfOk result (λ judge. judge.tables.now ≡ tables.now) }
        ensures tech { IfOk result (λ judge. judge.tech.now ≡ tech.now) }
        ensures library { IfOk result (λ judge. judge.library.now ≡ library.now) }
    {
        Ok(Judge {
            tables,
            tech,
            library,
            insts: holders_of(alloc, tables.inst.slots())?,
            nets: holders_of(alloc, tables.net.slots())?,
            bterms: holders_of(alloc, tables.bterm.slots())?,
            rows: holders_of(alloc, tables.row.slots())?,
            standing: standing(alloc, tables)?,
        })
    }

    // The first identifier of a kind whose record isn't sound.
    #[tactic(auto, using(crate::proofs::Beyond::at_zero, crate::proofs::Beyond::past_slots))]
    pub fn first_unsound(&self, kind: Kind) -> Option<u32>
        requires prepared { IsPrepared self.now }
        requires few { slots_in kind self.now.tables.now ≤ 16777215 }
        ensures none { IfNone result ((id : ℕ) → IsSoundRecord self.now.tech.now self.now.library.now self.now.tables.now kind id) }
        ensures some { IfSome result (λ id. 1 ≤ id) }
        ensures this { IfSome result (λ id. ¬ (IsSoundRecord self.now.tech.now self.now.library.now self.now.tables.now kind id)) }
        ensures before { IfSome result (λ id. (lesser : ℕ) → lesser < id → IsSoundRecord self.now.tech.now self.now.library.now self.now.tables.now kind lesser) }
    {
        for place in 0..self.tables.slots(kind) {
            let id = place as u32 + 1;
            if !self.is_sound(kind, id) {
                return Some(id);
            }
        }
        None
    }

    // Whether the record of an identifier, where it has one, is sound.
    fn is_sound(&self, kind: Kind, id: u32) -> bool
        requires { IsPrepared self.now }
        ensures { IsTrue result ↔ IsSoundRecord self.now.tech.now self.now.library.now self.now.tables.now kind id }
    {
        match kind {
            Kind::Inst => self.is_sound_inst(id),
            Kind::ITerm => self.is_sound_iterm(id),
            Kind::Net => self.is_sound_net(id),
            Kind::BTerm => self.is_sound_bterm(id),
            Kind::Row => self.is_sound_row(id),
            Kind::Pin
            | Kind::Track
            | Kind::Wire
            | Kind::Blockage
            | Kind::Region
            | Kind::Group
            | Kind::Prop => true,
        }
    }

    fn is_sound_inst(&self, id: u32) -> bool
        requires { IsPrepared self.now }
        ensures { IsTrue result ↔ IsSoundRecord self.now.tech.now self.now.library.now self.now.tables.now Kind.Inst id }
    {
        let tables = self.tables;
        let Some(inst) = tables.inst.get(id) else {
            return true;
        };
        let lawful = is_inst(self.library, inst);
        let alone = is_alone(&self.insts, &tables.inst, id);
        let placed = are_in_place(tables, id, inst.fields.terminals.items());
        lawful && alone && placed
    }

    fn is_sound_iterm(&self, id: u32) -> bool
        requires { IsPrepared self.now }
        ensures { IsTrue result ↔ IsSoundRecord self.now.tech.now self.now.library.now self.now.tables.now Kind.ITerm id }
    {
        let tables = self.tables;
        let Some(iterm) = tables.iterm.get(id) else {
            return true;
        };
        let stands = stands_at(tables, iterm.inst, iterm.index, id);
        let joined = self.is_joined(2 * id as usize, iterm.net);
        stands && joined
    }

    fn is_sound_net(&self, id: u32) -> bool
        requires { IsPrepared self.now }
        ensures { IsTrue result ↔ IsSoundRecord self.now.tech.now self.now.library.now self.now.tables.now Kind.Net id }
    {
        let tables = self.tables;
        let Some(net) = tables.net.get(id) else {
            return true;
        };
        let alone = is_alone(&self.nets, &tables.net, id);
        let listed = self.is_listed_net(id, net);
        alone && listed
    }

    // Whether a net is sound apart from its name.
    fn is_listed_net(&self, id: u32, net: &NetEntry) -> bool
        requires prepared { IsPrepared self.now }
        requires there { record_at self.now.tables.now.net id ≡ Some net.now }
        ensures { IsTrue result ↔ (IsNet net.now × AreTerminals self.now.tables.now id net.now.terms) }
    {
        let lawful = is_net(net);
        let listed = are_terminals(self.tables, &self.standing, id, net.terms.items());
        lawful && listed
    }

    fn is_sound_bterm(&self, id: u32) -> bool
        requires { IsPrepared self.now }
        ensures { IsTrue result ↔ IsSoundRecord self.now.tech.now self.now.library.now self.now.tables.now Kind.BTerm id }
    {
        let tables = self.tables;
        let Some(bterm) = tables.bterm.get(id) else {
            return true;
        };
        let lawful = is_bterm(bterm);
        let alone = is_alone(&self.bterms, &tables.bterm, id);
        let joined = self.is_joined(2 * id as usize + 1, bterm.fields.net);
        lawful && alone && joined
    }

    fn is_sound_row(&self, id: u32) -> bool
        requires { IsPrepared self.now }
        ensures { IsTrue result ↔ IsSoundRecord self.now.tech.now self.now.library.now self.now.tables.now Kind.Row id }
    {
        let tables = self.tables;
        let Some(row) = tables.row.get(id) else {
            return true;
        };
        let lawful = is_row_entry(self.tech, row);
        let alone = is_alone(&self.rows, &tables.row, id);
        lawful && alone
    }

    // Whether the net that a terminal names, if it names one, has it among its terminals.
    fn is_joined(&self, number: usize, net: u32) -> bool
        requires prepared { IsPrepared self.now }
        requires named { term_net self.now.tables.now number ≡ net }
        ensures { IsTrue result ↔ (net ≢ 0 → 1 ≤ times number (net_terms self.now.tables.now net)) }
    {
        net == 0 || is_counted(&self.standing, number)
    }
}

// Whether the table of a kind is good, or empty if the kind is still to come.
pub(crate) fn is_sound_table(alloc: Global, tables: &Tables, kind: Kind) -> Result<bool, AllocError>
    requires { slots_in kind tables.now ≤ 16777215 }
    ensures { IfOk result (λ sound. (cap : ℕ) → slots_in kind tables.now ≤ cap → (IsTrue sound ↔ IsSoundTable cap tables.now kind)) }
{
    match kind {
        Kind::Inst => is_table(alloc, &tables.inst),
        Kind::ITerm => is_table(alloc, &tables.iterm),
        Kind::Net => is_table(alloc, &tables.net),
        Kind::BTerm => is_table(alloc, &tables.bterm),
        Kind::Pin => Ok(tables.pin.is_empty()),
        Kind::Row => is_table(alloc, &tables.row),
        Kind::Track => Ok(tables.track.is_empty()),
        Kind::Wire => Ok(tables.wire.is_empty()),
        Kind::Blockage => Ok(tables.blockage.is_empty()),
        Kind::Region => Ok(tables.region.is_empty()),
        Kind::Group => Ok(tables.group.is_empty()),
        Kind::Prop => Ok(tables.prop.is_empty()),
    }
}

// Whether the values of a row are lawful.
pub(crate) fn is_row_entry(tech: &Tech, row: &RowEntry) -> bool
    ensures { IsTrue result ↔ IsRow tech.now row.now }
{
    let lawful = is_row(tech, &row.fields);
    let bare = row.props.items().is_empty();
    lawful && bare
}
