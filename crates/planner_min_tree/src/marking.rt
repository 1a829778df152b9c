//! Points with one end of a span more or less.
ghost use Rattle.std.specs.Prelude.{◌≡◌, ◌+◌, ◌-◌, ◌<◌, ◌≤◌, List, length, insert, IfOk, OnOk};
ghost use Rattle.planner_min_tree.specs.Marks.{added, fresh, marked, unmarked, changed, time_of};
ghost use Rattle.arrayvec.specs.ArrayVec.{array_vec_len};

use crate::points::{Point, count_before};
use arrayvec::ArrayVec;
use std::alloc::AllocError;

/// One end of a span: the second at which it is, and what is taken or given back there.
#[derive(Clone, Copy, Debug)]
pub struct Mark {
    pub time: u64,
    pub taken: u64,
    pub given: u64,
}

/// One end of a span more, or one less.
#[derive(Clone, Copy, Debug)]
pub enum Change {
    More(Mark),
    Less(Mark),
}

/// The point with one end of a span more. Numbers that don't fit are answered as want of memory.
fn added_to(old: Point, mark: Mark) -> Result<Point, AllocError>
    ensures { IfOk result (λ more. more ≡ added mark old) }
{
    let Some(ends) = old.ends.checked_add(1) else {
        return Err(AllocError);
    };
    let Some(taken) = old.taken.checked_add(mark.taken) else {
        return Err(AllocError);
    };
    let Some(given) = old.given.checked_add(mark.given) else {
        return Err(AllocError);
    };
    Ok(Point {
        time: old.time,
        ends,
        taken,
        given,
    })
}

/// A new point at its place. A full array is answered as want of memory.
fn put_fresh<const N: usize>(
    points: &mut ArrayVec<Point, N>,
    at: usize,
    mark: Mark,
) -> Result<(), AllocError>
    requires { at ≤ array_vec_len points.old }
    ensures { OnOk result (points.new.items ≡ insert points.old.items at (fresh mark)) }
{
    if points.is_full() {
        return Err(AllocError);
    }
    points.insert(
        at,
        Point {
            time: mark.time,
            ends: 1,
            taken: mark.taken,
            given: mark.given,
        },
    );
    Ok(())
}

/// One end of a span more.
#[tactic(auto, using(crate::proofs::ArrayLaws::mark_facts))]
fn add_mark<const N: usize>(points: &mut ArrayVec<Point, N>, mark: Mark) -> Result<(), AllocError>
    ensures { OnOk result (points.new.items ≡ marked mark points.old.items) }
{
    let at = count_before(points.as_slice(), mark.time);
    if at >= points.len() {
        return put_fresh(points, at, mark);
    }
    let old = points.as_slice()[at];
    if old.time != mark.time {
        return put_fresh(points, at, mark);
    }
    let more = added_to(old, mark)?;
    points.as_mut_slice()[at] = more;
    Ok(())
}

/// One end of a span less.
#[tactic(auto, using(crate::proofs::ArrayLaws::unmark_facts))]
fn remove_mark<const N: usize>(points: &mut ArrayVec<Point, N>, mark: Mark)
    ensures { points.new.items ≡ unmarked mark points.old.items }
{
    let at = count_before(points.as_slice(), mark.time);
    if at >= points.len() {
        return;
    }
    let old = points.as_slice()[at];
    if old.time != mark.time {
        return;
    }
    if old.ends <= 1 {
        points.remove(at);
        return;
    }
    points.as_mut_slice()[at] = Point {
        time: old.time,
        ends: old.ends - 1,
        taken: old.taken.saturating_sub(mark.taken),
        given: old.given.saturating_sub(mark.given),
    };
}

impl Change {
    /// The second at which the end is.
    #[inline]
    pub fn time(&self) -> u64
        ensures { result ≡ time_of self.now }
    {
        match self {
            Change::More(mark) => mark.time,
            Change::Less(mark) => mark.time,
        }
    }

    /// Makes the change of a few points.
    pub fn apply<const N: usize>(self, points: &mut ArrayVec<Point, N>) -> Result<(), AllocError>
        ensures { OnOk result (points.new.items ≡ changed self points.old.items) }
    {
        match self {
            Change::More(mark) => add_mark(points, mark),
            Change::Less(mark) => {
                remove_mark(points, mark);
                Ok(())
            }
        }
    }
}
