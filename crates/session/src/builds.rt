//! The fabrics that a script can build. The enum stands alone: definitions that contracts cite name it.
use fabric::lines::Line;
use fabric::trees::Tree;

// Not compared or printed: a fabric need not be.
#[derive(Drop)]
pub(crate) enum Built {
    Line(Line),
    Tree(Tree),
}
