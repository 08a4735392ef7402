// The points that are open.
ghost use Rattle.std.specs.Prelude.{◌≡◌, ◌<◌, ◌+◌, get_or, length, vec_len, vec_capacity, OnOk};
ghost use Rattle.px_group.specs.Group.{points_in};
ghost use Rattle.px_noting.specs.Points.{HasOpened, HasReleased, IsSameBesidePoints, no_point};

use px_group::{Group, OpenPoint};
use std::alloc::AllocError;

/// Takes a place for one point more.
pub fn reserve_point(group: &mut Group) -> Result<(), AllocError>
    ensures same { IsSameBesidePoints group.old group.new }
    ensures points { group.new.points.items ≡ group.old.points.items }
    ensures room { OnOk result (vec_len group.new.points < vec_capacity group.new.points) }
{
    group.points.reserve(1)?;
    Ok(())
}

/// Opens a point of a seat, for which there is a place. It takes no memory.
pub fn open_point(group: &mut Group, seat: u32, stamp: u64)
    requires { vec_len group.old.points < vec_capacity group.old.points }
    ensures opened { HasOpened group.old group.new seat stamp }
    ensures count { length group.new.points.items ≡ length group.old.points.items + 1 }
{
    group.points.push_reserved(OpenPoint { seat, stamp });
}

/// The place of a point of the seat at the stamp.
fn place_of(points: &[OpenPoint], seat: u32, stamp: u64) -> usize
    requires { 0 < points_in seat stamp points.now }
    ensures within { result < length points.now }
    ensures seat { (get_or points.now result no_point).seat ≡ seat }
    ensures stamp { (get_or points.now result no_point).stamp ≡ stamp }
{
    for place in 0..points.len() {
        if points[place].seat == seat && points[place].stamp == stamp {
            return place;
        }
    }
    unreachable!()
}

/// Closes a point of a seat. It takes no memory.
pub fn close_point(group: &mut Group, seat: u32, stamp: u64)
    requires { 0 < points_in seat stamp group.old.points.items }
    ensures released { HasReleased group.old group.new seat stamp }
    ensures count { length group.new.points.items + 1 ≡ length group.old.points.items }
{
    let place = place_of(group.points.as_slice(), seat, stamp);
    group.points.remove(place);
}

/// How many points and batches of the table are open.
pub fn uses(group: &Group) -> u64
    ensures { result ≡ length group.now.points.items + length group.now.batches.items }
{
    group.points.len() as u64 + group.batches.len() as u64
}
