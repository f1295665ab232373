use named_list::Named;
use odb_base::{LayerDirection, LayerType, Name};

/// A layer (LEF/DEF 5.8 Language Reference, Layer). A distance that isn't stated is 0.
#[derive(Debug, Drop)]
pub struct Layer {
    pub name: Name,
    /// What the layer is for (`TYPE`).
    pub sort: LayerType,
    /// In which direction wires run on it (`DIRECTION`).
    pub direction: LayerDirection,
    /// How far routing tracks lie apart, in database units (`PITCH`).
    pub pitch_x: i32,
    pub pitch_y: i32,
    /// Of a wire where nothing else is said, in database units (`WIDTH`).
    pub width: i32,
    /// How far wires have to lie apart, in database units (`SPACING`).
    pub spacing: i32,
}

impl Named for Layer {
    ghost name_of = { λ l. l.name };

    fn name(&self) -> &Name {
        &self.name
    }
}
