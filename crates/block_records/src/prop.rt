use odb_base::Text;

/// A property of an object.
#[derive(Debug, Drop)]
pub struct PropRec {
    /// The number of its definition in the header, from 1. The owner there says of which kind the object is.
    pub definition: u32,
    pub object: u32,
    pub value: Text,
}
