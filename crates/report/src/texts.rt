//! What the user is told when the program cannot do what the arguments say.
ghost use Rattle.std.specs.Prelude.{◌≡◌, Some, [], map, string_bytes, codes, slice_index_or};
ghost use Rattle.report.specs.Texts.{misuse_told, refusal_told};

use crate::misuses::Misuse;
use fabric::faults::FabricFault;
use std::fmt;

/// A misuse of these words, told to the user.
#[derive(Clone, Copy, Debug)]
pub struct MisuseText<'a> {
    pub words: &'a [String],
    pub misuse: Misuse,
}

impl<'a> MisuseText<'a> {
    // The word at a place; past the end, an empty one.
    fn word_at(&self, place: usize) -> &'a str
        ensures { result.now ≡ slice_index_or (map string_bytes self.now.words.now) place [] }
    {
        self.words.get(place).map_or("", |word| word.as_str())
    }
}

impl fmt::Display for MisuseText<'_> {
    ghost output = { λ told. Some (misuse_told (map string_bytes told.words.now) told.misuse) };

    fn fmt<W: fmt::Write>(&self, f: &mut fmt::Formatter<W>) -> fmt::Result {
        match self.misuse {
            Misuse::UnknownFabric => write!(f, "the fabric must be line, tree or list"),
            Misuse::NoDescription => write!(
                f,
                "the fabric lacks its description: line N, tree PARENT,PARENT,.. or list FILE"
            ),
            Misuse::NotNumbers(place) => write!(
                f,
                "'{}' is no list of numbers from 0 to 65535, parted by commas",
                self.word_at(place)
            ),
            Misuse::NotAModule(place) => write!(f, "'{}' is no PORT,COUNT", self.word_at(place)),
            Misuse::Unpaired => {
                write!(f, "give one pair or more, each a source and a destination")
            }
            Misuse::NotANumber(place) => {
                write!(f, "'{}' is no number from 0 to 65535", self.word_at(place))
            }
            Misuse::NoMemory => write!(f, "there is no memory for the pairs"),
        }
    }
}

/// The refusal of a fabric or a module, told to the user.
#[derive(Clone, Copy, PartialEq, Eq, Debug)]
pub struct RefusalText(pub FabricFault);

impl fmt::Display for RefusalText {
    ghost output = { λ told. Some (refusal_told told.0) };

    fn fmt<W: fmt::Write>(&self, f: &mut fmt::Formatter<W>) -> fmt::Result {
        match self.0 {
            FabricFault::OutsideLimits => write!(
                f,
                "{}: the fabric's description is outside its limits",
                self.0
            ),
            FabricFault::BadList { .. } => write!(f, "{}", self.0),
            FabricFault::Misfit => write!(f, "{}: a module does not fit", self.0),
        }
    }
}

/// How the program is called.
pub fn usage() -> &'static str
    ensures { result.now ≡ codes "usage: routes [--spur PORT,COUNT ..] line N SOURCE DESTINATION [SOURCE DESTINATION ..]\n       routes [--spur PORT,COUNT ..] tree PARENT,PARENT,.. SOURCE DESTINATION [SOURCE DESTINATION ..]\n       routes [--spur PORT,COUNT ..] list FILE [SOURCE DESTINATION ..]" }
{
    "usage: routes [--spur PORT,COUNT ..] line N SOURCE DESTINATION [SOURCE DESTINATION ..]\n       routes [--spur PORT,COUNT ..] tree PARENT,PARENT,.. SOURCE DESTINATION [SOURCE DESTINATION ..]\n       routes [--spur PORT,COUNT ..] list FILE [SOURCE DESTINATION ..]"
}
