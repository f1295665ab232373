ghost use Rattle.std.specs.Prelude.{◌≡◌};
ghost use Rattle.script_words.specs.Verb.{verb_named, verb_word};

use odb_base::Worded;

/// What the first word of a line tells to do: a verb for each line form.
#[derive(Clone, Copy, Debug, PartialEq, Eq)]
pub enum Verb {
    NewInst,
    NewNet,
    NewBTerm,
    NewRow,
    Destroy,
    Rename,
    Swap,
    Place,
    SetUse,
    SetDir,
    MakeSpecial,
    Join,
    Part,
    Units,
    Layer,
    Site,
    Master,
    ReadLef,
    Find,
    List,
    Free,
    Counts,
    Terms,
    Save,
    Load,
    EcoBegin,
    EcoUndo,
}

// Every verb. A word is looked for in this order.
const VERBS: [Verb; 27] = [
    Verb::NewInst,
    Verb::NewNet,
    Verb::NewBTerm,
    Verb::NewRow,
    Verb::Destroy,
    Verb::Rename,
    Verb::Swap,
    Verb::Place,
    Verb::SetUse,
    Verb::SetDir,
    Verb::MakeSpecial,
    Verb::Join,
    Verb::Part,
    Verb::Units,
    Verb::Layer,
    Verb::Site,
    Verb::Master,
    Verb::ReadLef,
    Verb::Find,
    Verb::List,
    Verb::Free,
    Verb::Counts,
    Verb::Terms,
    Verb::Save,
    Verb::Load,
    Verb::EcoBegin,
    Verb::EcoUndo,
];

impl Verb {
    /// The verb of a word, or nothing where it is the word of none.
    #[tactic(auto, unfolding(crate::specs::Verb::verb_named, crate::specs::Forms::value_named))]
    pub fn of(word: &[u8]) -> Option<Verb>
        ensures { result ≡ verb_named word.now }
    {
        Verb::named_among(&VERBS, word)
    }
}

impl Worded for Verb {
    ghost word_of = { verb_word };

    #[tactic(auto, unfolding(crate::specs::Verb::verb_word))]
    fn word(self) -> &'static [u8] {
        match self {
            Verb::NewInst => b"new_inst",
            Verb::NewNet => b"new_net",
            Verb::NewBTerm => b"new_bterm",
            Verb::NewRow => b"new_row",
            Verb::Destroy => b"destroy",
            Verb::Rename => b"rename",
            Verb::Swap => b"swap",
            Verb::Place => b"place",
            Verb::SetUse => b"set_use",
            Verb::SetDir => b"set_dir",
            Verb::MakeSpecial => b"make_special",
            Verb::Join => b"join",
            Verb::Part => b"part",
            Verb::Units => b"units",
            Verb::Layer => b"layer",
            Verb::Site => b"site",
            Verb::Master => b"master",
            Verb::ReadLef => b"read_lef",
            Verb::Find => b"find",
            Verb::List => b"list",
            Verb::Free => b"free",
            Verb::Counts => b"counts",
            Verb::Terms => b"terms",
            Verb::Save => b"save",
            Verb::Load => b"load",
            Verb::EcoBegin => b"eco_begin",
            Verb::EcoUndo => b"eco_undo",
        }
    }
}
