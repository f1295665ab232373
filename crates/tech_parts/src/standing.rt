ghost use Rattle.std.specs.Prelude.{◌≡◌, ◌≤◌, length};
ghost use Rattle.block_store.specs.Database.{IsSoundDatabase};
ghost use Rattle.tech_parts.specs.Standing.{back_to, standing_of};

use block_store::Database;

// What stood in a technology and a library at a time: the units, and how many there were of each sort.
#[derive(Clone, Copy)]
pub struct Standing {
    pub units: u32,
    pub layers: u32,
    pub vias: u32,
    pub sites: u32,
    pub masters: u32,
}

impl Standing {
    // What stands now.
    pub fn of(db: &Database) -> Standing
        ensures standing { result ≡ standing_of db.now }
        ensures sound { IsSoundDatabase db.now }
    {
        let [layers, vias, sites] = db.tech.counts();
        Standing {
            units: db.tech.units(),
            layers,
            vias,
            sites,
            masters: db.library.count(),
        }
    }

    // Takes back what was entered since, where what stood then is sound.
    pub fn restore(self, db: &mut Database)
        requires units { self.units ≤ 100000 }
        requires layers { self.layers ≤ length db.old.tech.layers }
        requires vias { self.vias ≤ length db.old.tech.vias }
        requires sites { self.sites ≤ length db.old.tech.sites }
        requires masters { self.masters ≤ length db.old.library }
        requires sound { IsSoundDatabase (back_to self db.old) }
        ensures { db.new ≡ back_to self db.old }
    {
        db.set_units(self.units);
        db.cut(self.layers, self.vias, self.sites, self.masters);
    }
}
