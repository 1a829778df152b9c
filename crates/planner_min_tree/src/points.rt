//! Points, and what a few of them one after the other say of a moment or a window.
ghost use Rattle.std.specs.Prelude.{◌≡◌, ◌↔◌, IsTrue, false, ◌+◌, ◌-◌, ◌^◌, ◌<◌, ◌≤◌, List, [], ◌∷◌, ◌++◌, length};
ghost use Rattle.std.specs.Prelude.{IfOk};
ghost use Rattle.std.specs.Option.{option_copied};
ghost use Rattle.planner_min_tree.specs.Points.{past, Runs, dip_of, latest_of, lowest, lowest_before, lowest_from};
ghost use Rattle.planner_min_tree.specs.Points.{lowest_in, count_before, first_from, value_at, first_rise, rise_after};
ghost use Rattle.planner_min_tree.specs.Points.{low_to, low_end, last_rise};

use std::alloc::AllocError;

/// A second at which spans start or end.
#[derive(Clone, Copy, Debug, Default, PartialEq, Eq)]
pub struct Point {
    pub time: u64,
    /// How many spans start or end there.
    pub ends: u64,
    /// What the spans that start there take.
    pub taken: u64,
    /// What the spans that end there give back.
    pub given: u64,
}

/// What points do to what is free: it falls by `need` at most, is `rest` above its lowest in the end, and `top` above
/// it where it is highest, before the points or after one of them. The latest of them is at the second `latest`.
#[derive(Clone, Copy, Debug, PartialEq, Eq)]
pub struct Dip {
    pub latest: u64,
    pub need: u64,
    pub rest: u64,
    pub top: u64,
}

impl Point {
    /// What is free after the point.
    pub fn past(&self, free: u64) -> u64
        requires covered { self.now.taken ≤ free + self.now.given }
        requires fits { past self.now free < 2 ^ 64 }
        ensures { result ≡ past self.now free }
    {
        if self.taken <= self.given {
            free + (self.given - self.taken)
        } else {
            free - (self.taken - self.given)
        }
    }

    /// What the point alone does.
    fn dip(&self) -> Dip
        ensures { result ≡ dip_of (self.now ∷ []) }
    {
        let need = self.taken.saturating_sub(self.given);
        let rest = self.given.saturating_sub(self.taken);
        Dip {
            latest: self.time,
            need,
            rest,
            top: need.max(rest),
        }
    }
}

impl Dip {
    /// What no points do.
    pub fn nothing() -> Dip
        ensures { result ≡ dip_of [] }
    {
        Dip {
            latest: 0,
            need: 0,
            rest: 0,
            top: 0,
        }
    }

    /// What points do one after the other. Numbers that don't fit are answered as want of memory.
    #[inline(always)]
    #[tactic(auto, using(crate::proofs::Dips::append_facts))]
    pub fn then(self, other: Dip) -> Result<Dip, AllocError>
        ensures { IfOk result (λ both. (xs ys : List Point) → self ≡ dip_of xs → other ≡ dip_of ys →
            both ≡ dip_of (xs ++ ys)) }
    {
        let lower = other.need.saturating_sub(self.rest);
        let higher = self.rest.saturating_sub(other.need);
        let Some(need) = self.need.checked_add(lower) else {
            return Err(AllocError);
        };
        let Some(rest) = other.rest.checked_add(higher) else {
            return Err(AllocError);
        };
        let Some(first) = self.top.checked_add(lower) else {
            return Err(AllocError);
        };
        let Some(second) = other.top.checked_add(higher) else {
            return Err(AllocError);
        };
        Ok(Dip {
            latest: self.latest.max(other.latest),
            need,
            rest,
            top: first.max(second),
        })
    }

    /// What is free after the points.
    pub fn past(self, free: u64) -> u64
        requires covered { self.need ≤ free }
        requires fits { free - self.need + self.rest < 2 ^ 64 }
        ensures { result ≡ free - self.need + self.rest }
    {
        free - self.need + self.rest
    }
}

impl Dip {
    /// Whether so much is free before the points or after one of them.
    pub fn reaches(self, free: u64, quantity: u64) -> bool
        requires { self.need ≤ free }
        ensures high { IsTrue result → quantity ≤ free - self.need + self.top }
        ensures low { result ≡ false → free - self.need + self.top < quantity }
    {
        let lowest = free - self.need;
        quantity.saturating_sub(lowest) <= self.top
    }
}

/// What the points do.
pub fn dip_of(points: &[Point]) -> Result<Dip, AllocError>
    ensures { IfOk result (λ dip. dip ≡ dip_of points.now) }
{
    let mut all = Dip::nothing();
    for point in points {
        all = all.then(point.dip())?;
    }
    Ok(all)
}

/// How many points are before the moment.
pub fn count_before(points: &[Point], t: u64) -> usize
    ensures value { result ≡ count_before t points.now }
    ensures within { result ≤ length points.now }
{
    match points {
        [] => 0,
        [point, rest @ ..] => {
            if point.time < t {
                count_before(rest, t) + 1
            } else {
                0
            }
        }
    }
}

/// The first point that isn't before the moment, which may be one later than the last of all.
pub fn first_from(points: &[Point], t: u128) -> Option<Point>
    ensures { result ≡ first_from t points.now }
{
    match points {
        [] => None,
        [point, rest @ ..] => {
            if (point.time as u128) < t {
                first_from(rest, t)
            } else {
                Some(*point)
            }
        }
    }
}

/// The least that is free.
pub fn lowest(points: &[Point], free: u64) -> u64
    requires { Runs points.now free }
    ensures { result ≡ lowest points.now free }
{
    match points {
        [] => free,
        [point, rest @ ..] => free.min(lowest(rest, point.past(free))),
    }
}

/// The least that is free before a moment.
pub fn lowest_before(points: &[Point], to: u64, free: u64) -> u64
    requires { Runs points.now free }
    ensures { result ≡ lowest_before to points.now free }
{
    match points {
        [] => free,
        [point, rest @ ..] => {
            if point.time < to {
                free.min(lowest_before(rest, to, point.past(free)))
            } else {
                free
            }
        }
    }
}

/// The least that is free at a moment and later.
pub fn lowest_from(points: &[Point], from: u64, free: u64) -> u64
    requires { Runs points.now free }
    ensures { result ≡ lowest_from from points.now free }
{
    match points {
        [] => free,
        [point, rest @ ..] => {
            if point.time <= from {
                lowest_from(rest, from, point.past(free))
            } else {
                lowest(points, free)
            }
        }
    }
}

/// The least that is free over a window.
pub fn lowest_in(points: &[Point], from: u64, to: u64, free: u64) -> u64
    requires { Runs points.now free }
    ensures { result ≡ lowest_in from to points.now free }
{
    match points {
        [] => free,
        [point, rest @ ..] => {
            if point.time <= from {
                lowest_in(rest, from, to, point.past(free))
            } else {
                lowest_before(points, to, free)
            }
        }
    }
}

/// What is free at a moment.
pub fn value_at(points: &[Point], m: u64, free: u64) -> u64
    requires { Runs points.now free }
    ensures { result ≡ value_at m points.now free }
{
    match points {
        [] => free,
        [point, rest @ ..] => {
            if point.time <= m {
                value_at(rest, m, point.past(free))
            } else {
                free
            }
        }
    }
}

/// The time of the first point after which so much is free.
pub fn first_rise(points: &[Point], quantity: u64, free: u64) -> Option<u64>
    requires { Runs points.now free }
    ensures { result ≡ first_rise quantity points.now free }
{
    match points {
        [] => None,
        [point, rest @ ..] => {
            let past = point.past(free);
            if quantity <= past {
                Some(point.time)
            } else {
                first_rise(rest, quantity, past)
            }
        }
    }
}

/// The same of the points that are later than a moment.
pub fn rise_after(points: &[Point], from: u64, quantity: u64, free: u64) -> Option<u64>
    requires { Runs points.now free }
    ensures { result ≡ rise_after from quantity points.now free }
{
    match points {
        [] => None,
        [point, rest @ ..] => {
            if point.time <= from {
                rise_after(rest, from, quantity, point.past(free))
            } else {
                first_rise(points, quantity, free)
            }
        }
    }
}

/// A second, where less than so much is free before it.
pub fn low_to(t: u64, quantity: u64, free: u64) -> Option<u64>
    ensures { result ≡ low_to t quantity free }
{
    if free < quantity { Some(t) } else { None }
}

/// The second at which the last stretch before a moment ends over which less than so much is free.
pub fn low_end(points: &[Point], to: u64, quantity: u64, free: u64) -> Option<u64>
    requires { Runs points.now free }
    ensures { result ≡ low_end to quantity points.now free }
{
    let mut level = free;
    let mut last = None;
    for point in points {
        if point.time >= to {
            return low_to(to, quantity, level).or(last);
        }
        if level < quantity {
            last = Some(point.time);
        }
        level = point.past(level);
    }
    low_to(to, quantity, level).or(last)
}

/// The time of the last point before which less than so much is free.
pub fn last_rise(points: &[Point], quantity: u64, free: u64) -> Option<u64>
    requires { Runs points.now free }
    ensures { result ≡ last_rise quantity points.now free }
{
    let mut level = free;
    let mut last = None;
    for point in points {
        if level < quantity {
            last = Some(point.time);
        }
        level = point.past(level);
    }
    last
}
