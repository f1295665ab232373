use crate::file_name::FileName;
use edit_words::Edit;
use library::Master;
use odb_base::{Kind, Text};
use tech::{Layer, Site};

/// What a line of the script asks for.
#[derive(Drop)]
pub enum Command {
    /// A line of an edit.
    Edit(Edit),
    /// `units N`: so many database units per micron, any number of 32 bits, to be stated by the technology.
    Units(u32),
    /// `layer NAME TYPE`: a layer of which no more is said, to be entered into the technology.
    Layer(Layer),
    /// `site NAME CLASS W H`: a site of which no more is said, to be entered into the technology.
    Site(Site),
    /// `master NAME W H [TERM DIR|-]...`: a master of which no more is said, to be entered into the library.
    Master(Master),
    /// `read_lef FILE`: what the LEF text in a file states, to be entered into the technology and the library.
    ReadLef { file: FileName },
    /// `find KIND NAME`: the object of a kind with names that has the name, which is any word.
    Find { kind: Kind, name: Text },
    /// `list KIND`: the objects of a kind.
    List { kind: Kind },
    /// `free KIND`: the table of a kind and its free identifiers.
    Free { kind: Kind },
    /// `counts`: how many objects there are of each kind.
    Counts,
    /// `terms NET`: the terminals of a net.
    Terms { net: u32 },
    /// `save FILE`: the saved bytes into a file.
    Save { file: FileName },
    /// `save -`: the saved bytes in the reply.
    SaveShown,
    /// `load FILE`: the database of the saved bytes in a file.
    Load { file: FileName },
    /// `eco_begin`
    EcoBegin,
    /// `eco_undo`
    EcoUndo,
}
