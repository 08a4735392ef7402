// What a command asks of the tables of its folder.
use px_load::Load;
use px_values::Items;
use px_verified::Verification;

/// What a command asks of the tables of its folder.
#[derive(Drop)]
pub enum Job {
    /// The scripts of sessions, as they were read, and the sessions whose steps are next, where they are listed.
    Script {
        script: Items<u8>,
        schedule: Option<Items<u32>>,
    },
    /// The verification of an index.
    Verify(Verification),
    /// A load, of at most 100,000 rows.
    Load(Load),
}
