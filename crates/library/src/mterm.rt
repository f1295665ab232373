use odb_base::{Direction, List, Name, Shape, Usage};

/// A terminal of a master: what LEF calls a pin of a macro (LEF/DEF 5.8 Language Reference, Macro Pin).
#[derive(Debug, Drop)]
pub struct MTerm {
    pub name: Name,
    pub direction: Direction,
    pub usage: Usage,
    /// Where the terminal lies, in the order of entry.
    pub shapes: List<Shape>,
}
