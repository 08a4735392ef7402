//! Walks by random events, against a plain reading of the cells.
use px_world::{Cell, Edit, Event, Row, World};
use std::alloc::{AllocError, Global};

/// The numbers of a linear congruential generator.
#[derive(Drop)]
struct Draws {
    seed: u64,
}

impl Draws {
    fn draw(&mut self) -> u64 {
        self.seed = self
            .seed
            .wrapping_mul(6364136223846793005)
            .wrapping_add(1442695040888963407);
        self.seed >> 33
    }

    fn edit(&mut self) -> Edit {
        let key = self.draw() % 3;
        let value = if self.draw() % 3 == 0 {
            None
        } else {
            Some(self.draw() % 4)
        };
        match self.draw() % 4 {
            0 => Edit::SetKey(key),
            1 => Edit::SetValue(value),
            2 => Edit::Gone,
            _ => Edit::Set(Row { key, value }),
        }
    }

    /// The next event of the usual course of a change.
    fn usual(&mut self, turn: u64, last: u64) -> Event {
        match turn % 5 {
            0 => Event::Begin {
                stamp: last.wrapping_add(1),
                edit: self.edit(),
            },
            1 => Event::Mark { stamp: last },
            2 => Event::Write { stamp: last },
            3 => Event::Verify { stamp: last },
            _ => Event::End { stamp: last },
        }
    }

    /// An event of the usual course, or some event near the last stamp.
    fn event(&mut self, turn: u64, last: u64) -> Event {
        if self.draw() % 3 != 0 {
            return self.usual(turn, last);
        }
        let stamp = last.saturating_sub(self.draw() % 3);
        match self.draw() % 16 {
            0 => Event::Raise { horizon: stamp },
            1 => Event::Forget {
                own_region: self.draw() % 2 == 0,
            },
            2 => Event::Birth {
                stamp: last.wrapping_add(1),
            },
            3 => Event::Base,
            4 => Event::Ready,
            5 => Event::Stop {
                written: if self.draw() % 2 == 0 {
                    None
                } else {
                    Some(stamp)
                },
                horizon: last.saturating_sub(self.draw() % 4),
            },
            6 => Event::Mark { stamp },
            7 => Event::Mark { stamp },
            8 => Event::Write { stamp },
            9 => Event::Write { stamp },
            10 => Event::Verify { stamp },
            11 => Event::End { stamp },
            12 => Event::Fix {
                key: self.draw() % 3,
                stamp,
            },
            13 => Event::Fix {
                key: self.draw() % 3,
                stamp,
            },
            _ => Event::Begin {
                stamp: last.wrapping_add(1),
                edit: self.edit(),
            },
        }
    }
}

/// Whether a cell of this kind stands at the key and the stamp: a status, a family marker or a version marker.
fn stands_at(cells: &[Cell], key: u64, stamp: u64, kind: u8) -> bool {
    for cell in cells {
        let here = match *cell {
            Cell::Status {
                key: at,
                stamp: time,
                verified: _,
            } => kind == 0 && at == key && time == stamp,
            Cell::DeleteFamily {
                key: at,
                stamp: time,
            } => kind == 1 && at == key && time == stamp,
            Cell::DeleteFamilyVersion {
                key: at,
                stamp: time,
            } => kind == 2 && at == key && time == stamp,
            _ => false,
        };
        if here {
            return true;
        }
    }
    false
}

/// The newest version that is visible, read as a scan reads it: from the point down to a family marker.
fn plain_top(cells: &[Cell], key: u64, point: u64) -> Option<u64> {
    for back in 0..point {
        let stamp = point.wrapping_sub(back);
        if stands_at(cells, key, stamp, 1) {
            return None;
        }
        if stands_at(cells, key, stamp, 0) && !stands_at(cells, key, stamp, 2) {
            return Some(stamp);
        }
    }
    None
}

/// Walks a world by random events; how many came, or None where a top differs from the plain reading.
fn walk(alloc: Global, seed: u64, tries: u64) -> Result<Option<u64>, AllocError> {
    let mut draws = Draws { seed };
    let mut world = World::new(alloc);
    let mut last = 0;
    let mut came = 0;
    for turn in 0..tries {
        let event = draws.event(turn, last);
        if world.may(&event) {
            world.step(&event)?;
            came = u64::wrapping_add(came, 1);
            last = greater(last, &event);
            let point = last.saturating_sub(draws.draw() % 6);
            for key in 0..3 {
                if world.top(key, point) != plain_top(world.cells(), key, point) {
                    return Ok(None);
                }
            }
        }
    }
    Ok(Some(came))
}

fn greater(last: u64, event: &Event) -> u64 {
    match *event {
        Event::Begin { stamp, edit: _ } => stamp,
        Event::Birth { stamp } => stamp,
        _ => last,
    }
}

#[test]
fn random_walks(rt: HostRuntime) -> Result<(), AllocError> {
    let alloc = rt.alloc();
    let mut came: u64 = 0;
    for seed in 0..700 {
        let steps = walk(alloc, seed, 100)?;
        assert!(rt;
            steps.is_some(),
            "a top differs from the plain reading, seed {seed}"
        );
        came = came.wrapping_add(steps.unwrap_or(0));
    }
    assert!(rt; came >= 20000, "only {came} events came");
    Ok(())
}
