//! Times that recur after a period.

ghost use Rattle.std.specs.Prelude.{◌≡◌, ◌≤ℤ◌, ◌<ℤ◌, ℤ, pos, IfSome, MatchOption};
ghost use Rattle.std.specs.List.{All};
ghost use Rattle.num_integer.specs.Checked.{FitsWith};
ghost use Rattle.num_integer.specs.Least.{IsLeastFrom};
ghost use Rattle.applied.specs.Schedules.{HaveBegun, IsCountOfTimes, IsLeastTime, IsMeeting, IsMeetingOfEach};

pub use modular::CommonSolution;
use modular::guards::check_moduli;
use modular::several_congruences::{HasCongruence, next_solution_of_each};
use modular::{Congruence, Modular, count_congruent, next_common_solution};
use num_integer::guards::check;
use num_integer::operators::{is_below, zero};
use num_integer::{Fits, Integer};

/// A first time, and the period after which it recurs: the times of `Schedule { first: 3, period: 6 }` are 3, 9, 15 and so
/// on. Each number has its name, in any order: `Schedule { period: 6, first: 3 }` is `Schedule { first: 3, period: 6 }`.
#[derive(Debug, Clone, Copy, PartialEq, Eq, Hash)]
pub struct Schedule<T> {
    /// The first time. The schedule has no time before it.
    pub first: T,
    /// The time from each time of the schedule to the next. Each call asks for a positive one.
    pub period: T,
}

/// A pair of a first time and a period: `Schedule::from((3, 6))` is `Schedule { first: 3, period: 6 }`. Here the order
/// counts: `Schedule::from((6, 3))` is `Schedule { first: 6, period: 3 }`.
impl<T> From<(T, T)> for Schedule<T> {
    ghost from_gives = { λ pair s. (s.first ≡ pair.0) × (s.period ≡ pair.1) };

    fn from(pair: (T, T)) -> Self {
        let (first, period) = pair;
        Schedule { first, period }
    }
}

impl<T: Integer + Copy> HasCongruence<T> for Schedule<T> {
    ghost residue_of = { λ s. T.value s.first };

    ghost modulus_of = { λ s. T.value s.period };

    fn congruence(&self) -> Congruence<T> {
        Congruence {
            residue: self.first,
            modulus: self.period,
        }
    }
}

/// Returns the first time, not before `now`, that is in both schedules.
/// `next_meeting(0, (0, 2).into(), (1, 2).into())` is `CommonSolution::Never`. Before its first time a schedule has no
/// times: `next_meeting(0, (13, 4).into(), (3, 6).into())` is `CommonSolution::At(21)`.
///
/// # Examples
///
/// ```
/// let red = Schedule { first: 1, period: 4 };
/// let blue = Schedule { first: 3, period: 6 };
/// assert_eq!(next_meeting(10, red, blue), CommonSolution::At(21));
/// assert_eq!(next_meeting(10, (1, 4).into(), (3, 6).into()), CommonSolution::At(21));
/// ```
///
/// # Panics
///
/// In plain Rust, if a period is not positive.
pub fn next_meeting<T: Modular + Fits>(now: T, a: Schedule<T>, b: Schedule<T>) -> CommonSolution<T>
    requires now_in_range { T.fits (T.value now) }
    requires a_in_range { T.fits (T.value a.first) × T.fits (T.value a.period) }
    requires b_in_range { T.fits (T.value b.first) × T.fits (T.value b.period) }
    requires a_positive { pos 0 <ℤ T.value a.period }
    requires b_positive { pos 0 <ℤ T.value b.period }
    ensures { IsLeastTime T.value T.fits (T.value now)
        (IsMeeting (T.value a.first) (T.value a.period) (T.value b.first) (T.value b.period)) result }
{
    check(a.period > zero(), "a period is not positive");
    check(b.period > zero(), "a period is not positive");
    let from = maximum(now, maximum(a.first, b.first));
    next_common_solution(from, a.congruence(), b.congruence())
}

/// Returns the first time, not before `now`, that is in all schedules.
/// `next_meeting_of(10, &[(1, 4).into(), (3, 6).into(), (0, 7).into()])` is `CommonSolution::At(21)`. The product of the
/// periods need not fit: `next_meeting_of(0u8, &[(1, 16).into(), (1, 17).into()])` is `CommonSolution::At(1)`.
///
/// In Rattle, a function that passes on a slice of its own parameters asks its callers for `in_range` too.
///
/// # Panics
///
/// In plain Rust, if a period is not positive.
pub fn next_meeting_of<T: Modular + Fits>(now: T, schedules: &[Schedule<T>]) -> CommonSolution<T>
    requires now_in_range { T.fits (T.value now) }
    requires in_range { All (λ s. T.fits (T.value s.first) × T.fits (T.value s.period)) schedules.now }
    requires positive { All (λ s. pos 0 <ℤ T.value s.period) schedules.now }
    ensures { IsLeastTime T.value T.fits (T.value now) (IsMeetingOfEach T.value schedules.now) result }
{
    check_moduli(schedules, "a period is not positive");
    next_solution_of_each(latest(now, schedules), schedules)
}

/// Returns how many times of the schedule are in `from..=to`, or `None` if the type cannot hold that count.
/// `count(4, 15, Schedule { first: 3, period: 6 })` is `Some(2)`, and `count(-128i8, 127, (-128, 1).into())` is `None`.
/// Before its first time a schedule has no times: `count(-9, 15, (3, 6).into())` is `Some(3)`.
///
/// # Panics
///
/// In plain Rust, if the period is not positive.
#[tactic(auto, using(crate::proofs::Meetings::times_by_congruent))]
pub fn count<T: Fits>(from: T, to: T, schedule: Schedule<T>) -> Option<T>
    requires in_range { T.fits (T.value from) × T.fits (T.value to) }
    requires schedule_in_range { T.fits (T.value schedule.first) × T.fits (T.value schedule.period) }
    requires positive { pos 0 <ℤ T.value schedule.period }
    ensures count { MatchOption result
        ((n : ℤ) × IsCountOfTimes (T.value from) (T.value to) (T.value schedule.first)
        (T.value schedule.period) n × ¬ (T.fits n))
        (FitsWith T.fits T.value (IsCountOfTimes (T.value from) (T.value to) (T.value schedule.first)
        (T.value schedule.period))) }
    ensures from_zero { IfSome result (λ n. pos 0 ≤ℤ T.value n) }
{
    check(schedule.period > zero(), "the period is not positive");
    count_congruent(
        maximum(from, schedule.first),
        to,
        schedule.first,
        schedule.period,
    )
}

/// Returns the later of `now` and the latest first time of the schedules.
#[tactic(auto, using(num_integer::proofs::ForCallers::linear))]
fn latest<T: Integer + Copy>(now: T, schedules: &[Schedule<T>]) -> T
    requires now_in_range { T.fits (T.value now) }
    requires in_range { All (λ s. T.fits (T.value s.first) × T.fits (T.value s.period)) schedules.now }
    ensures in_range { T.fits (T.value result) }
    ensures latest { IsLeastFrom (T.value now) (HaveBegun T.value schedules.now) (T.value result) }
{
    let mut latest = now;
    for schedule in schedules {
        latest = maximum(latest, schedule.first);
    }
    latest
}

/// Returns the larger of two numbers.
fn maximum<T: Integer + Copy>(x: T, y: T) -> T
    requires in_range { T.fits (T.value x) × T.fits (T.value y) }
    ensures in_range { T.fits (T.value result) }
    ensures maximum { IsLeastFrom (T.value x) (λ z. T.value y ≤ℤ z) (T.value result) }
{
    if is_below(x, y) { y } else { x }
}
