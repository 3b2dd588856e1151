//! Functions that show how a call of the libraries is written, and what its caller then knows. A contract here is what the
//! caller wrote: it may say less than is true. What is proved of the libraries is in the crate `theorems`.
//!
//! A clause is about integers without limit: the integer of `a` is `pos a` at `u64`, `a` at `i64`, and `T.value a` at a type
//! parameter. `rt lemma WORD` prints the definition of each word.
//!
//! | file | what it shows |
//! |---|---|
//! | `quotients.rt` | quotients and remainders; a plain fact on the arguments meets the condition of most calls |
//! | `multiples.rt` | multiples, least common multiples |
//! | `divisors.rt` | greatest common divisors and their bounds, sums of divisors, first common multiples |
//! | `roots.rt` | square roots, roots of a degree |
//! | `numbers.rt` | sums, differences, products that may not fit |
//! | `rows.rt` | binomial coefficients, rows of Pascal's triangle |
//! | `residues.rt` | `modular`: residues, inverses, congruences |
//! | `fractions.rt` | `ratio64`: exact results and errors, rounding |
//! | `decimals.rt` | `ratio64`: fractions rounded half to even, and decimal numbers |
//! | `dates.rt` | `calendar`: dates, days of the week, weeks, months |
//! | `pages.rt` | `applied`: pages and parts, shares, offsets, schedules |
//! | `combinations.rt` | `applied`: combinations and their ranks |
//! | `lists.rt` | `applied`: multiples and sums of lists, reduced pairs, a rolling hash |
//! | `rounding.rt` | `applied`: nearest quotients, roots, powers, logarithms, midpoints, factorials |
//! | `amounts.rt` | a divisor that is computed in the call, a wider type and back, equal parts |
//! | `bounded.rt` | `bounded_integers`: minutes of a day, amounts in cents |
//! | `natural_words.rt` | contracts about natural numbers at unsigned types: pages, offsets, timetables, rounding, combinations |
//! | `powers.rt` | `modular`: powers as natural numbers, sums of exponents |
//! | `tasks.rt` | everyday tasks: pages of items, a cipher, amounts of money, a recipe, a line of bytes |
//! | `everyday.rt` | everyday tasks of a few lines: payments, pages, shapes of screens, a buffer, a clock, prices, runs of a job |
//!
//! Most functions have no proof file: the prover's search proves them from the contracts of what they call. The proof file of
//! another function is in `proofs/`, in a folder with the names of the file and of the function.
//!
//! No crate depends on this one, and it has no tests.
#![tactic(auto)]

pub mod amounts;
pub mod bounded;
pub mod combinations;
pub mod dates;
pub mod decimals;
pub mod divisors;
pub mod everyday;
pub mod fractions;
pub mod lists;
pub mod multiples;
pub mod natural_words;
pub mod numbers;
pub mod pages;
pub mod powers;
pub mod quotients;
pub mod residues;
pub mod roots;
pub mod rounding;
pub mod rows;
pub mod tasks;
