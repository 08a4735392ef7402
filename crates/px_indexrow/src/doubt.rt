// What a repair of a version does.
ghost use Rattle.std.specs.Prelude.{◌≡◌, ℕ, List, Bool, length, get_or, None};
ghost use Rattle.std.specs.Cmp.Lexicographic.{pointwise};
ghost use Rattle.std.specs.Prelude.{nat_eq};
ghost use Rattle.std.specs.Option.{option_copied};
ghost use Rattle.px_forms.specs.Indexes.{IndexForm, shape_at};
ghost use Rattle.px_values.specs.States.{RowState, Shape};
ghost use Rattle.px_values.specs.declared.row.Value.{Value as ColumnValue};
ghost use Rattle.px_world.specs.Events.{due};
ghost use Rattle.px_world.specs.Shape.{all_below, is_key_there, same_cell};
ghost use Rattle.px_world.specs.World.{World};
ghost use Rattle.px_indexrow.specs.Verdicts.{Tells, due_below, due_told, verdict_of};

use px_values::Items;

/// What a repair of a version does: nothing, or it verifies, retires or erases the version.
#[derive(Clone, Copy, PartialEq, Eq)]
pub enum Repair {
    Leave,
    Verify,
    Retire,
    Erase,
}

/// What became of the row's change of a stamp. One that never began is as one that was lost.
#[derive(Clone, Copy, PartialEq, Eq)]
pub enum ChangeFate {
    Undecided,
    Written,
    Lost,
}

/// A version in doubt: its key and stamp, and the included values that the horizon sees at the key.
#[derive(Clone, Copy)]
pub struct Version<'a> {
    pub key: &'a [u8],
    pub stamp: u64,
    pub values: &'a [Option<Items<u8>>],
}

/// What is told of the version's row: what became of its change of the stamp, the index key after that change, the horizon
/// of the table and the index, the row's index key and included values there, and the index's floor.
#[derive(Clone, Copy)]
pub struct Told<'a> {
    pub fate: ChangeFate,
    pub new_key: Option<&'a [u8]>,
    pub horizon: u64,
    pub horizon_key: Option<&'a [u8]>,
    pub horizon_values: &'a [Option<Items<u8>>],
    pub floor: u64,
}

/// What a repair of the version does. Above the horizon its own change decides, and at or below it the row's state there.
pub fn verdict(version: &Version<'_>, told: &Told<'_>) -> Repair
    requires { length version.now.values.now ≡ length told.now.horizon_values.now }
    ensures told { verdict_of result ≡ due_told told.now.fate version.now told.now }
    ensures due { (sh : Shape) (f : IndexForm) (r : List ColumnValue) (w : World (List ℕ) RowState (List ℕ)) → Tells f r w version.now told.now → verdict_of result ≡ due (shape_at sh f r) w version.now.key.now version.now.stamp }
{
    match told.fate {
        ChangeFate::Undecided => Repair::Leave,
        ChangeFate::Written => {
            if version.stamp <= told.horizon {
                return at_horizon(version, told);
            }
            if is_key(version.key, told.new_key) {
                return Repair::Verify;
            }
            Repair::Retire
        }
        ChangeFate::Lost => {
            if version.stamp <= told.horizon {
                return at_horizon(version, told);
            }
            Repair::Erase
        }
    }
}

/// The same at or below the horizon.
fn at_horizon(version: &Version<'_>, told: &Told<'_>) -> Repair
    requires { length version.now.values.now ≡ length told.now.horizon_values.now }
    ensures { verdict_of result ≡ due_below version.now told.now }
{
    if !is_key(version.key, told.horizon_key) {
        return Repair::Retire;
    }
    if told.floor < version.stamp && !are_same(version.values, told.horizon_values) {
        return Repair::Erase;
    }
    Repair::Verify
}

fn is_key(key: &[u8], other: Option<&[u8]>) -> bool
    ensures { result ≡ is_key_there (pointwise nat_eq) key.now (option_copied other.entry) }
{
    match other {
        Some(other) => key == other,
        None => false,
    }
}

/// Whether two lists of values are the same, of which the first isn't longer.
fn are_same(values: &[Option<Items<u8>>], others: &[Option<Items<u8>>]) -> bool
    requires { length values.now ≡ length others.now }
    ensures { result ≡ all_below (length values.now) (λ c. same_cell (pointwise nat_eq) (get_or values.now c None) (get_or others.now c None)) }
{
    for place in 0..values.len() {
        if !is_same(&values[place], &others[place]) {
            return false;
        }
    }
    true
}

fn is_same(value: &Option<Items<u8>>, other: &Option<Items<u8>>) -> bool
    ensures { result ≡ same_cell (pointwise nat_eq) value.now other.now }
{
    match (value, other) {
        (Some(value), Some(other)) => value.as_slice() == other.as_slice(),
        (None, None) => true,
        (_, _) => false,
    }
}
