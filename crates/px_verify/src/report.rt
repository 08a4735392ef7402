// What a report on an index counts.
ghost use Rattle.std.specs.Prelude.{◌≡◌, ◌<◌, ◌+◌, ◌^◌};
ghost use Rattle.px_verify.specs.Reports.{adds, key_of_version};

use px_values::{Key, Row};

/// An entry of an index: its row key, and the values of the included columns.
#[derive(Drop)]
pub struct IndexEntry {
    pub key: Key,
    pub values: Row,
}

/// What an index has at a key: a verified entry, or an unverified version, whose values are not asked.
#[derive(Drop)]
pub enum Version {
    Verified(IndexEntry),
    Unverified(Key),
}

impl Version {
    /// Its row key.
    pub fn key(&self) -> &Key
        ensures { result.now ≡ key_of_version self.now }
    {
        match self {
            Version::Verified(entry) => &entry.key,
            Version::Unverified(key) => key,
        }
    }
}

/// How the entries that the rows of a table ask for and the versions of its index agree, as five counts.
#[derive(Clone, Copy)]
pub struct Report {
    /// Rows whose entry stands verified.
    pub matching: u64,
    /// Unverified versions, with a row or without.
    pub unverified: u64,
    /// Rows without a version at their key.
    pub missing: u64,
    /// Verified entries at a key of no row.
    pub extra: u64,
    /// Rows at whose key a verified entry has other values.
    pub wrong: u64,
}

/// What one key adds to a report.
#[derive(Clone, Copy)]
pub(crate) enum Finding {
    Matching,
    Unverified,
    Missing,
    Extra,
    Wrong,
}

impl Report {
    /// A report that counts nothing yet.
    pub(crate) fn empty() -> Report
        ensures { result ≡ record { matching = 0; unverified = 0; missing = 0; extra = 0; wrong = 0 } }
    {
        Report {
            matching: 0,
            unverified: 0,
            missing: 0,
            extra: 0,
            wrong: 0,
        }
    }

    /// One finding more.
    pub(crate) fn add(&mut self, finding: Finding)
        requires matching { self.old.matching + 1 < 2 ^ 64 }
        requires unverified { self.old.unverified + 1 < 2 ^ 64 }
        requires missing { self.old.missing + 1 < 2 ^ 64 }
        requires extra { self.old.extra + 1 < 2 ^ 64 }
        requires wrong { self.old.wrong + 1 < 2 ^ 64 }
        ensures { self.new ≡ adds finding self.old }
    {
        match finding {
            Finding::Matching => self.matching += 1,
            Finding::Unverified => self.unverified += 1,
            Finding::Missing => self.missing += 1,
            Finding::Extra => self.extra += 1,
            Finding::Wrong => self.wrong += 1,
        }
    }
}
