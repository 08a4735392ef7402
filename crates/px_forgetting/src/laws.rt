// The laws of what horizons forget, over every list of cells.
ghost use Rattle.std.specs.Prelude.{◌≡◌, ◌≤◌, ◌⊎◌, ◌↔◌, ◌++◌, ℕ, List};
ghost use Rattle.px_cells.specs.declared.kind.CellKind.TheVariants.{Put};
ghost use Rattle.px_cells.specs.CellData.{CellData};
ghost use Rattle.px_cells.specs.Order.{IsAscending, Reads};
ghost use Rattle.px_cells.specs.Visible.{IsVisible};
ghost use Rattle.px_cellbytes.specs.Reading.{IsWritten};
ghost use Rattle.px_merge.specs.Kept.{IsKeptList};
ghost use Rattle.px_forgetting.specs.Rows.{AreApart};

/// What a horizon keeps of cells is one list; and what it keeps of rows that are apart it keeps part by part.
pub fn what_is_kept_is_one()
    ensures one { (cells a b : List CellData) (horizon : ℕ) → IsKeptList cells horizon a → IsKeptList cells horizon b → a ≡ b }
    ensures parts { (xs ys a b : List CellData) (horizon : ℕ) → IsAscending (xs ++ ys) → AreApart xs ys → IsKeptList xs horizon a → IsKeptList ys horizon b → IsKeptList (xs ++ ys) horizon (a ++ b) }
    ensures written { (cells kept : List CellData) (horizon : ℕ) → IsWritten cells → IsKeptList cells horizon kept → IsWritten kept }
{}

/// Each point from the horizon on sees the same of what is kept, and what is kept at or below the horizon are puts.
pub fn sight_stays()
    ensures same { (cells kept : List CellData) (horizon point : ℕ) (p : CellData) → IsKeptList cells horizon kept → horizon ≤ point → IsVisible kept point p ↔ IsVisible cells point p }
    ensures puts { (cells kept : List CellData) (horizon : ℕ) (c : CellData) → IsKeptList cells horizon kept → Reads kept c → c.stamp ≤ horizon → c.kind ≡ Put }
{}

/// Forgetting at one horizon and then at a later one is forgetting at the later one, whether the earlier came or not. No stamp above the horizon goes.
pub fn horizons_follow()
    ensures twice { (cells kept more : List CellData) (first second : ℕ) → IsKeptList cells first kept → first ≤ second → IsKeptList kept second more → IsKeptList cells second more }
    ensures once { (cells kept more : List CellData) (first second : ℕ) → IsKeptList cells first kept → first ≤ second → IsKeptList cells second more → IsKeptList kept second more }
    ensures stamps { (cells kept : List CellData) (horizon : ℕ) (c : CellData) → IsKeptList cells horizon kept → Reads cells c → Reads kept c ⊎ (c.stamp ≤ horizon) }
    ensures again { (cells kept : List CellData) (horizon : ℕ) → IsKeptList cells horizon kept → IsKeptList kept horizon kept }
{}
