// A file that is read.
ghost use Rattle.std.specs.Prelude.{◌≡◌, ◌↔◌, ℕ, List, IsTrue, None, Some, true};
ghost use Rattle.std.specs.Option.{option_copied};
ghost use Rattle.px_keyfilter.specs.Keys.{HasKeyBits};

use px_file::RegionFile;
use px_keyfilter::KeyFilter;

/// An open file, and the keys that its cells may have.
#[derive(Drop)]
pub struct ReadFile {
    pub file: RegionFile,
    pub keys: KeyFilter,
}

impl ReadFile {
    /// Whether it is to be read for a range: for that of one row it isn't where no cell has the key.
    pub(crate) fn may_have(&self, only: Option<&[u8]>) -> bool
        ensures any { option_copied only.entry ≡ None → result ≡ true }
        ensures row { (key : List ℕ) → option_copied only.entry ≡ Some key → IsTrue result ↔ HasKeyBits self.now.keys key }
    {
        match only {
            None => true,
            Some(key) => self.keys.may_have(key),
        }
    }
}
