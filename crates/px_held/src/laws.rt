// What a merged change does.
ghost use Rattle.std.specs.Prelude.{◌≡◌, List};
ghost use Rattle.px_values.specs.declared.change.What.{What};
ghost use Rattle.px_values.specs.declared.row.Value.{Value};
ghost use Rattle.px_values.specs.States.{RowState, Shape, apply};
ghost use Rattle.px_held.specs.Merged.{HasKey, merged};

/// A merged change does to each state of its row what the two changes do, one after the other.
pub fn law_merged()
    ensures { (shape : Shape) (key : List Value) (state : RowState) (earlier later : What) → HasKey shape key state
        → apply shape key (apply shape key state earlier) later ≡ apply shape key state (merged shape earlier later) }
{}
