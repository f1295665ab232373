// What is asked of the table of a kind, whatever the kind.

// The value of an expression over the table of a kind, which is lent, or with `mut` lent to be changed.
macro_rules! by_kind {
    (mut $tables:ident, $kind:ident, $table:ident => $asked:expr) => {
        by_kind!(every changed $tables $kind $table $asked)
    };
    ($tables:ident, $kind:ident, $table:ident => $asked:expr) => {
        by_kind!(every lent $tables $kind $table $asked)
    };
    (every $how:ident $tables:ident $kind:ident $table:ident $asked:expr) => {
        by_kind!(
            $how $tables $kind $table $asked;
            Inst inst, ITerm iterm, Net net, BTerm bterm, Pin pin, Row row, Track track, Wire wire,
            Blockage blockage, Region region, Group group, Prop prop
        )
    };
    (lent $tables:ident $kind:ident $table:ident $asked:expr; $($variant:ident $field:ident),*) => {
        match $kind {
            $(Kind::$variant => {
                let $table = &$tables.$field;
                $asked
            })*
        }
    };
    (changed $tables:ident $kind:ident $table:ident $asked:expr; $($variant:ident $field:ident),*) => {
        match $kind {
            $(Kind::$variant => {
                let $table = &mut $tables.$field;
                $asked
            })*
        }
    };
}

pub(crate) use by_kind;
