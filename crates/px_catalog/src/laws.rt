// The laws of what the catalogue's files stand for, over every image, and of its records.
ghost use Rattle.std.specs.Prelude.{◌≡◌, ◌≤◌, ◌+◌, [], ℕ, length};
ghost use Rattle.px_outside.specs.Disk.{Image};
ghost use Rattle.px_schema.specs.Fresh.{fresh_standing};
ghost use Rattle.px_schema.specs.Spelled.{body_of};
ghost use Rattle.px_schema.specs.declared.item.CatalogItem.{CatalogItem};
ghost use Rattle.px_schema.specs.declared.standing.Standing.{Standing};
ghost use Rattle.px_catalog.specs.Catalogue.{CatalogueStands};
ghost use Rattle.px_catalog.specs.Damage.{IsFirstDamagedInCatalogue};
ghost use Rattle.px_catalog.specs.Limits.{IsWithinLimits};

/// The files of an image stand for one catalogue at most, and for none where they are damaged; they are damaged at one
/// place.
pub fn an_image_stands_for_one()
    ensures one { (image : Image) (s t : Standing) → CatalogueStands image s → CatalogueStands image t → s ≡ t }
    ensures damaged { (image : Image) (file place : ℕ) (s : Standing) → IsFirstDamagedInCatalogue image file place → CatalogueStands image s → ⊥ }
    ensures at_one { (image : Image) (file place other at : ℕ) → IsFirstDamagedInCatalogue image file place → IsFirstDamagedInCatalogue image other at → (file ≡ other) × (place ≡ at) }
{}

/// A folder without a catalogue, as those of earlier programs, stands for the fresh one, whatever its other files have.
pub fn a_folder_without_one_is_fresh()
    ensures { (image : Image) → image 0 ≡ [] → image 1 ≡ [] → CatalogueStands image fresh_standing }
{}

/// The record of a definition within the limits, with the gate behind it, has at most 32,768 bytes. So a segment that isn't
/// full has room for it.
pub fn a_definition_has_room()
    ensures { (d : CatalogItem) → IsWithinLimits d → 7 + length (body_of d) ≤ 32768 }
{}
