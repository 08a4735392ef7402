// What has the name of a column.
ghost use Rattle.std.specs.Prelude.{◌≡◌};

use px_ast::{Column, KeyPart};
use px_tables::TableColumn;
use px_values::Name;

/// What has the name of a column.
pub trait Named {
    ghost use Rattle.std.specs.Prelude.{List, ℕ};

    ghost name_in: { Self → List ℕ };

    fn name(&self) -> &Name
        ensures { result.now ≡ name_in self.now };
}

impl Named for Name {
    ghost name_in = { λ name. name };

    fn name(&self) -> &Name {
        self
    }
}

impl Named for KeyPart {
    ghost name_in = { λ part. part.column };

    fn name(&self) -> &Name {
        &self.column
    }
}

impl Named for Column {
    ghost name_in = { λ column. column.name };

    fn name(&self) -> &Name {
        &self.name
    }
}

impl Named for TableColumn {
    ghost name_in = { λ column. column.name };

    fn name(&self) -> &Name {
        &self.name
    }
}
