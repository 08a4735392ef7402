// The laws of definitions as bytes, and of numbers.
ghost use Rattle.std.specs.Prelude.{◌≡◌, ◌<◌, ◌≤◌, ◌∷◌, ℕ, List, map, Ok, Err};
ghost use Rattle.std.specs.List.{AllByRecursion};
ghost use Rattle.px_tables.specs.declared.index.Index.{Index};
ghost use Rattle.px_tables.specs.declared.table.Table.{Table};
ghost use Rattle.px_pieces.specs.Reading.{IsFirstWrongOf, reading_of};
ghost use Rattle.px_schema.specs.declared.item.CatalogItem.{CatalogItem};
ghost use Rattle.px_schema.specs.declared.standing.Standing.{Standing};
ghost use Rattle.px_schema.specs.Counts.{HasRoom, IsWithinCounts};
ghost use Rattle.px_schema.specs.Format.{index, standing_piece, table};
ghost use Rattle.px_schema.specs.Fresh.{fresh_bytes, fresh_standing};
ghost use Rattle.px_schema.specs.Records.{IsRightCatalogItem, definition_in_body, snapshot_in_body};
ghost use Rattle.px_schema.specs.Spelled.{body_of, kind_of, standing_bytes};
ghost use Rattle.px_schema.specs.Stands.{AreConsecutive, DrawInOrder, IsBelowNext, after_all, draws_all, newly_drawn, stands_after};

/// The next number never falls, whatever is defined or dropped, and stays above every number of what stands.
/// Where each definition draws the next numbers, those of a whole run go on without a gap, so none comes twice.
pub fn numbers_are_drawn_once()
    ensures up { (s : Standing) (ds : List CatalogItem) → s.next ≤ (after_all s ds).next }
    ensures above { (s : Standing) (d : CatalogItem) → IsBelowNext s → IsBelowNext (stands_after s d) }
    ensures drawn { (s : Standing) (ds : List CatalogItem) → DrawInOrder s ds → AreConsecutive s.next (draws_all s ds) }
{}

/// Definitions and snapshots have one spelling: what is written is read, and from no other bytes.
pub fn records_have_one_spelling()
    ensures written { (s : Standing) (d : CatalogItem) → IsRightCatalogItem s d → definition_in_body s (kind_of d) (body_of d) ≡ Ok d }
    ensures read { (s : Standing) (kind : ℕ) (body : List ℕ) (d : CatalogItem) → definition_in_body s kind body ≡ Ok d → (kind ≡ kind_of d) × IsRightCatalogItem s d × (body ≡ body_of d) }
    ensures snapshot_written { (s : Standing) → standing_piece.right s → snapshot_in_body 1 (standing_bytes s) ≡ Ok s }
    ensures snapshot_read { (kind : ℕ) (body : List ℕ) (s : Standing) → snapshot_in_body kind body ≡ Ok s → (kind ≡ 1) × standing_piece.right s × (body ≡ standing_bytes s) }
    ensures fresh { snapshot_in_body 1 fresh_bytes ≡ Ok fresh_standing }
{}

/// Bytes that are no table, no index or no snapshot have one first wrong place: no value's bytes begin with those up to
/// it and with it, and those before it can be ended. For an index that needs a right table to name.
pub fn places_are_first()
    ensures table { (bytes : List ℕ) (place : ℕ) → reading_of table bytes ≡ Err place → IsFirstWrongOf table bytes place }
    ensures table_full { table.full }
    ensures index { (tables : List Table) (bytes : List ℕ) (place : ℕ) → reading_of (index tables) bytes ≡ Err place → IsFirstWrongOf (index tables) bytes place }
    ensures index_full { (t : Table) (ts : List Table) → AllByRecursion table.right (t ∷ ts) → (index (t ∷ ts)).full }
    ensures snapshot { (bytes : List ℕ) (place : ℕ) → reading_of standing_piece bytes ≡ Err place → IsFirstWrongOf standing_piece bytes place }
    ensures snapshot_full { standing_piece.full }
{}

/// What stands after a right definition fits a snapshot, where what stood before it did.
pub fn what_stands_fits()
    ensures fresh { standing_piece.right fresh_standing }
    ensures after { (s : Standing) (d : CatalogItem) → standing_piece.right s → IsRightCatalogItem s d → standing_piece.right (stands_after s d) }
{}

/// At most 256 tables stand, at most 8 indexes of each, and no number passes the greatest: the limits hold in the beginning,
/// and stay so where each definition has room and draws the next numbers.
pub fn limits_are_kept()
    ensures fresh { IsWithinCounts fresh_standing }
    ensures after { (s : Standing) (d : CatalogItem) → IsWithinCounts s → HasRoom s d → AreConsecutive s.next (newly_drawn s d) → IsWithinCounts (stands_after s d) }
{}
