// What holds of each folder that was opened.
ghost use Rattle.std.specs.Prelude.{[], ℕ, All};
ghost use Rattle.px_trail.specs.Trail.{IsRightBase, catalogue_of};
ghost use Rattle.px_groupworld.specs.Group.{GroupData};
ghost use Rattle.px_catalog.specs.Catalogue.{standing_of};
ghost use Rattle.px_group.specs.Group.{IsRightGroup, IsShownBy, IsTallied};
ghost use Rattle.px_recovery.specs.Base.{IsSoundFolder, base_of};
ghost use Rattle.px_recovery.specs.Stands.{Explains};
ghost use Rattle.px_recovery.specs.Tables.{form_of_index, index_in};
ghost use Rattle.px_standing.specs.Agrees.{Agrees, opened_standing};
ghost use Rattle.px_opening.specs.Opened.{IsOpenedAs, IsOpenedRight, folder_in};
ghost use Rattle.px_opening.specs.declared.opened.Opened.{Opened as Folders};

/// Each group is right and tallied over what the folder begins with, which is a right base and tells what stands; and where the folder is
/// sound, each group shows the table that base and files explain, which is opened from the files.
pub fn law_opened()
    ensures right { (o : Folders) → IsOpenedRight o → All IsRightGroup o.groups.items }
    ensures base { (o : Folders) → IsOpenedRight o → IsRightBase (base_of (folder_in o)) }
    ensures agrees { (o : Folders) → IsOpenedRight o → Agrees (opened_standing (standing_of o.catalog)) (catalogue_of (base_of (folder_in o)) []) }
    ensures tallied { (o : Folders) → IsOpenedRight o → All (λ g. IsTallied (base_of (folder_in o)) [] g []) o.groups.items }
    ensures shown { (o : Folders) → IsOpenedRight o → IsSoundFolder (folder_in o) → (v : ℕ → GroupData) × Explains (base_of (folder_in o)) [] (folder_in o) v × All (λ g. IsShownBy (base_of (folder_in o)) (λ n. form_of_index g.table (index_in (standing_of o.catalog).indexes n)) [] g (v g.table.id.0) []) o.groups.items × All (λ g. IsOpenedAs (folder_in o) g (v g.table.id.0)) o.groups.items }
{}
