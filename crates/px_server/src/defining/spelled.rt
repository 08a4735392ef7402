// Names that the catalogue has a spelling for.
ghost use Rattle.std.specs.Prelude.{IsTrue};
ghost use Rattle.std.specs.List.{AllByRecursion};
ghost use Rattle.px_schema.specs.Parts.{name_piece};

use px_tables::TableColumn;
use px_values::Name;

/// Whether the catalogue can spell the name: it isn't empty, and has at most 255 bytes.
pub(crate) fn is_spelled(name: &Name) -> bool
    ensures { IsTrue result → name_piece.right name.now }
{
    let text = name.as_str();
    !text.is_empty() && text.len() < 256
}

/// Whether it can spell the columns' names.
pub(crate) fn are_spelled(columns: &[TableColumn]) -> bool
    ensures { IsTrue result → AllByRecursion (λ (c : TableColumn). name_piece.right c.name) columns.now }
{
    for column in columns {
        if !is_spelled(&column.name) {
            return false;
        }
    }
    true
}
