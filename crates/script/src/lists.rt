//! How an answer lists things.
ghost use Rattle.std.specs.Prelude.{◌≡◌, ℕ, List, Some};
ghost use Rattle.std.specs.Fmt.{WritesOnOk};
ghost use Rattle.std.specs.Iterator.{AlwaysYields, IsFinite};
ghost use Rattle.script.specs.Lists.{parted};

use std::fmt;

// Writes the items with commas between them; `none` where there are none.
pub(crate) fn write_parted<W: fmt::Write, I: Iterator + Drop>(
    f: &mut fmt::Formatter<W>,
    mut items: I,
    none: &str,
) -> fmt::Result
where
    I::Item: fmt::Display + Drop,
    requires can { I.can_next items }
    requires finite { IsFinite (I.remaining items) }
    ensures { (all : List I.Item) (show : I.Item → List ℕ)
        → AlwaysYields I.next_gives (λ item. item) items all
        → ((item : I.Item) → I.Item.output item ≡ Some (show item))
        → WritesOnOk W.write_str_gives f.old result (parted show none.now all) f.new }
{
    let Some(first) = items.next() else {
        // an empty text would still be a call of the writer, which may refuse it
        if none.is_empty() {
            return Ok(());
        }
        return write!(f, "{none}");
    };
    write!(f, "{first}")?;
    for item in items {
        write!(f, ",{item}")?;
    }
    Ok(())
}
