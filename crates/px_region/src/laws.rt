// The laws of what an image stands for.
ghost use Rattle.std.specs.Prelude.{◌≡◌, ℕ};
ghost use Rattle.px_outside.specs.Disk.{Image};
ghost use Rattle.px_region.specs.Fresh.{IsFreshRegion, IsRegionBlank, no_data};
ghost use Rattle.px_region.specs.Ordered.{HasFlushed, IsFlushOrdered};
ghost use Rattle.px_region.specs.Region.{RegionData, RegionHolds, RegionStands, logged_of, read_of};
ghost use Rattle.px_region.specs.declared.region.Region.{Region as Regions};

use px_outside::Disk;

/// The files of a region stand for one thing at most.
pub fn an_image_stands_for_one()
    ensures { (number : ℕ) (image : Image) (s t : RegionData) → RegionStands number image s → RegionStands number image t → s ≡ t }
{}

/// What a region has is what is read of it.
pub fn what_is_held_is_read<D: Disk>()
    ensures { (region : Regions) (disk : D) (s : RegionData) → RegionHolds ⟦<D as Disk>⟧ region disk s → read_of region ≡ s.cells }
{}

/// Where all that stands in its log was ordered to be flushed, and what was ordered is flushed, no cell stands there above the flushed number.
pub fn what_is_flushed_is_not_logged<D: Disk>()
    ensures { (region : Regions) (disk : D) (s : RegionData) → RegionHolds ⟦<D as Disk>⟧ region disk s → IsFlushOrdered region → HasFlushed region → logged_of region ≡ 0 }
{}

/// Where no file of it has a byte, a fresh region has nothing.
pub fn what_is_fresh_has_nothing<D: Disk>()
    ensures { (number : ℕ) (region : Regions) (disk : D) → IsFreshRegion number region → IsRegionBlank ⟦<D as Disk>⟧ number disk → RegionHolds ⟦<D as Disk>⟧ region disk no_data }
{}
