// What holds of all folders for which the same files stand.
ghost use Rattle.std.specs.Prelude.{◌≡◌};
ghost use Rattle.px_outside.specs.Disk.{Image};
ghost use Rattle.px_recovery.specs.Base.{IsSoundFolder, base_of};
ghost use Rattle.px_recovery.specs.Folder.{FolderData, StandsFor};

/// Two folders for which the same files stand are sound together, and a run that opens the files begins with one base.
pub fn law_one_folder()
    ensures sound { (image : Image) → (f : FolderData) → (h : FolderData) → StandsFor image f → StandsFor image h → IsSoundFolder f → IsSoundFolder h }
    ensures base { (image : Image) → (f : FolderData) → (h : FolderData) → StandsFor image f → StandsFor image h → IsSoundFolder f → base_of f ≡ base_of h }
{}
