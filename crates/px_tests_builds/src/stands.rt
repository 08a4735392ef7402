// The two indexes as they stand, by the entries of a trail.
use px_schema::Standing;
use px_tables::IndexState;
use px_trail::{Act, Entry, Trail};

/// The names of the indexes. The first is on the letter and includes the number; the second is on the number, and descends.
pub const NAMES: [&str; 2] = ["T_A", "T_B"];

/// An index as it stands.
#[derive(Clone, Copy, PartialEq, Eq)]
pub struct Stand {
    pub number: u32,
    pub state: IndexState,
    pub birth: u64,
}

/// Both indexes, where they stand.
#[derive(Clone, Copy, PartialEq, Eq)]
pub struct Stands {
    pub first: Option<Stand>,
    pub second: Option<Stand>,
}

pub const NONE: Stands = Stands {
    first: None,
    second: None,
};

/// The index in another state.
fn restated(stand: Option<Stand>, number: u32, state: IndexState, birth: u64) -> Option<Stand> {
    match stand {
        Some(old) if old.number == number => Some(Stand {
            number,
            state,
            birth,
        }),
        _ => stand,
    }
}

/// The index of a name after an entry.
fn index_after(stand: Option<Stand>, name: &str, act: &Act) -> Option<Stand> {
    match act {
        Act::IndexMade {
            index,
            stamp,
            what,
            ..
        } if what.name.as_str() == name => Some(Stand {
            number: index.0,
            state: IndexState::Building,
            birth: *stamp,
        }),
        Act::IndexState {
            index,
            state,
            stamp,
            ..
        } => restated(stand, index.0, *state, *stamp),
        Act::Dropped {
            index: Some(index),
            ..
        } => match stand {
            Some(old) if old.number == index.0 => None,
            _ => stand,
        },
        _ => stand,
    }
}

/// Both indexes after an entry.
pub fn after(stands: Stands, act: &Act) -> Stands {
    Stands {
        first: index_after(stands.first, NAMES[0], act),
        second: index_after(stands.second, NAMES[1], act),
    }
}

/// Both indexes after so many entries.
pub fn after_entries(stands: Stands, trail: &Trail, count: u64) -> Stands {
    let mut stands = stands;
    for place in 0..count.min(trail.len()) {
        stands = after(stands, &trail.entry(place).act);
    }
    stands
}

/// Both indexes after the entry of a stopped step, where there is one.
pub fn after_late(stands: Stands, late: &Option<Entry>) -> Stands {
    match late {
        Some(entry) => after(stands, &entry.act),
        None => stands,
    }
}

/// An index as a run has it that opens the folder: one that was building is disabled.
fn index_opened(stand: Option<Stand>) -> Option<Stand> {
    match stand {
        Some(old) if old.state == IndexState::Building => Some(Stand {
            state: IndexState::Disabled,
            ..old
        }),
        _ => stand,
    }
}

/// Both indexes as a run has them that opens the folder.
pub fn as_opened(stands: Stands) -> Stands {
    Stands {
        first: index_opened(stands.first),
        second: index_opened(stands.second),
    }
}

fn index_in(standing: &Standing, name: &str) -> Option<Stand> {
    for index in standing.indexes.as_slice() {
        if index.name.as_str() == name {
            return Some(Stand {
                number: index.id.0,
                state: index.state,
                birth: index.birth,
            });
        }
    }
    None
}

/// Both indexes as a catalogue has them.
pub fn stands_in(standing: &Standing) -> Stands {
    Stands {
        first: index_in(standing, NAMES[0]),
        second: index_in(standing, NAMES[1]),
    }
}

pub fn is_in(stand: Option<Stand>, state: IndexState) -> bool {
    match stand {
        Some(stand) => stand.state == state,
        None => false,
    }
}

/// Whether queries read the index at points below this.
pub fn is_read(stand: Option<Stand>, below: u64) -> bool {
    match stand {
        Some(stand) => stand.state == IndexState::Active && stand.birth < below,
        None => false,
    }
}
