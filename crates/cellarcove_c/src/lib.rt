//! The library for C. Each function is one call of the library, or that call for each number of a list, for any
//! arguments: if the call has no result, the status says why, and every other field is 0.
#![tactic(auto)]

mod answers;
mod array_sums;
mod binomials;
mod coefficients;
mod congruences;
mod coprime;
mod counting;
mod date_texts;
mod dates;
mod decimals;
mod division;
mod divisors;
mod fractions;
mod invariant_divisors;
mod laws_of_exports;
mod layout;
mod lists;
mod modulo;
mod operators;
mod paging;
mod powers;
mod products;
mod ranking;
mod roots;
mod rounding;
mod schedules;
mod several_congruences;
mod shares;
mod square_roots;
mod texts;
mod weekdays;
mod years;
