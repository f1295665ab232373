ghost use Rattle.lef_build.specs.Answers.{TakesItem, TakesItems};

use crate::builder::Builder;
use crate::fault::BuildFault;
use edit_words::TechPart;
use lef_tree::{LefItem, LefLayer, LefMacro, LefSite, LefVia};

impl<'a> Builder<'a> {
    /// With items one after the other.
    pub fn take_all(&mut self, items: &'a [LefItem]) -> Result<(), BuildFault>
        ensures { TakesItems self.old items.now self.new result }
    {
        for item in items {
            self.take(item)?;
        }
        Ok(())
    }

    // With one more item.
    fn take(&mut self, item: &'a LefItem) -> Result<(), BuildFault>
        ensures { TakesItem self.old item.now self.new result }
    {
        match item {
            LefItem::Units(n) => self.take_units(*n),
            LefItem::Layer(layer) => self.take_layer(layer),
            LefItem::Via(via) => self.take_via(via),
            LefItem::Site(site) => self.take_site(site),
            LefItem::Macro(stated) => self.take_macro(stated),
        }
    }

    #[tactic(auto, unfolding(crate::specs::Building::with_item))]
    fn take_units(&mut self, n: u32) -> Result<(), BuildFault>
        ensures { TakesItem self.old (LefItem.Units n) self.new result }
    {
        let had = self.units();
        if had != 0 && had != n {
            return Err(BuildFault::UnitsChanged { had, got: n });
        }
        self.enter(b"", TechPart::Units(n))?;
        Ok(())
    }

    #[tactic(auto, unfolding(crate::specs::Building::with_item))]
    fn take_layer(&mut self, stated: &'a LefLayer) -> Result<(), BuildFault>
        ensures { TakesItem self.old (LefItem.Layer stated.now) self.new result }
    {
        if self.find_layer(stated.name.bytes()).is_some() {
            self.leave_out();
            return Ok(());
        }
        let part = self.layer(stated)?;
        self.enter(stated.name.bytes(), TechPart::Layer(part))?;
        Ok(())
    }

    #[tactic(auto, unfolding(crate::specs::Building::with_item))]
    fn take_via(&mut self, stated: &'a LefVia) -> Result<(), BuildFault>
        ensures { TakesItem self.old (LefItem.Via stated.now) self.new result }
    {
        if self.find_via(stated.name.bytes()).is_some() {
            self.leave_out();
            return Ok(());
        }
        let part = self.via(stated)?;
        self.enter(stated.name.bytes(), TechPart::Via(part))?;
        Ok(())
    }

    #[tactic(auto, unfolding(crate::specs::Building::with_item))]
    fn take_site(&mut self, stated: &'a LefSite) -> Result<(), BuildFault>
        ensures { TakesItem self.old (LefItem.Site stated.now) self.new result }
    {
        if self.find_site(stated.name.bytes()).is_some() {
            self.leave_out();
            return Ok(());
        }
        let part = self.site(stated)?;
        self.enter(stated.name.bytes(), TechPart::Site(part))?;
        Ok(())
    }

    #[tactic(auto, unfolding(crate::specs::Building::with_item))]
    fn take_macro(&mut self, stated: &'a LefMacro) -> Result<(), BuildFault>
        ensures { TakesItem self.old (LefItem.Macro stated.now) self.new result }
    {
        if self.find_master(stated.name.bytes()).is_some() {
            self.leave_out();
            return Ok(());
        }
        let part = self.master(stated)?;
        self.enter(stated.name.bytes(), TechPart::Master(part))?;
        Ok(())
    }
}
