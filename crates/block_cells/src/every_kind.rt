// What is asked of the pool of a kind, whatever the kind.

// The value of an expression over the pool of a kind, which is lent, or with `mut` lent to be changed.
macro_rules! by_kind {
    (mut $pools:ident, $kind:ident, $pool:ident => $asked:expr) => {
        by_kind!(every changed $pools $kind $pool $asked)
    };
    ($pools:ident, $kind:ident, $pool:ident => $asked:expr) => {
        by_kind!(every lent $pools $kind $pool $asked)
    };
    (every $how:ident $pools:ident $kind:ident $pool:ident $asked:expr) => {
        by_kind!(
            $how $pools $kind $pool $asked;
            Inst (inst.pool), ITerm (terms.first), Net (net), BTerm (terms.second), Pin (pin.pool), Row (row),
            Track (track), Wire (wire.pool), Blockage (blockage), Region (region), Group (group.pool), Prop (prop.pool)
        )
    };
    (lent $pools:ident $kind:ident $pool:ident $asked:expr; $($variant:ident ($($field:ident).+)),*) => {
        match $kind {
            $(Kind::$variant => {
                let $pool = &$pools.$($field).+;
                $asked
            })*
        }
    };
    (changed $pools:ident $kind:ident $pool:ident $asked:expr; $($variant:ident ($($field:ident).+)),*) => {
        match $kind {
            $(Kind::$variant => {
                let $pool = &mut $pools.$($field).+;
                $asked
            })*
        }
    };
}

pub(crate) use by_kind;
