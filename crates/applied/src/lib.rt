//! What people build on integer division: rounding, paging, memory layout, schedules, ranking, shares, binary search,
//! powers, factorials, a rolling hash, coprime numbers, and divisors and multiples of lists.
#![tactic(auto)]

pub mod coprime;
pub mod counting;
pub mod guards;
pub mod halving;
pub mod layout;
pub mod lists;
pub mod paging;
pub mod powers;
pub mod ranking;
pub mod rolling_hash;
pub mod rounding;
pub mod schedules;
pub mod shares;
