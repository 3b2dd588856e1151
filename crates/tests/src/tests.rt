//! Tests by subject. `worked_rows.rt` has the rows of all calls, and `rows.rt` says how they are read.

mod calls;
mod coefficients;
mod cookbook;
mod dates;
mod days;
mod decimals;
mod divisors;
mod ends;
mod fractions;
mod multiples;
mod own_pairs;
mod own_values;
mod program;
mod residues;
mod results;
mod roots;
mod rows;
mod schedules;
mod shares;
mod type_ends;
mod worked_rows;
