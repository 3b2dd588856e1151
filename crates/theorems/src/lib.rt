//! The main theorems, more theorems by subject, and the laws of the definitions. The contract of each function is a theorem: it fixes
//! the result. Three write to the caller's sink or writer, and don't say when that fails: `printed_line`, `put_on_console` and
//! `finished_console` of `headline.rt`. Twelve have a result that is known in advance, so their contracts also hold of a body that
//! makes no call. The comment of each says so.
//!
//! If the clauses of `requires` hold, a call returns, and the clauses of `ensures` hold for its result. The gate proves each
//! function for every argument. Functions that only show how a call is written are in the crate `callers`.
//! A clause is about integers without limit: the integer of `a` is `pos a` at `u64`, `a` at `i64`, and `T.value a` at a type
//! parameter. `rt lemma WORD` prints the definition of each word.
//!
//! | file | what it states |
//! |---|---|
//! | `headline.rt` | the main theorems, each in full; its head says which function states which |
//! | `laws.rt` | what follows from the definitions alone: at most one result, existence, symmetry, formulas, bounds |
//! | `integers.rt` | `num_integer`: what several calls, or the tests of a precondition, say together |
//! | `checked.rt` | calls of `num_integer::checked`, and when each returns `None`, in simpler words |
//! | `widths.rt` | calls of `num_integer` at two types with the same numbers |
//! | `residues.rt` | `modular`: residues, inverses, congruences |
//! | `fractions.rt` | `ratio64`: exact results, order |
//! | `decimals.rt` | `ratio64`: fractions rounded half to even, and decimal numbers |
//! | `dates.rt` | `calendar`: dates and their days, weeks, leap years, Easter |
//! | `pages.rt` | `applied`: pages |
//! | `combinations.rt` | `applied`: combinations and their ranks |
//! | `lists.rt` | `applied`: divisors and multiples of lists, coprime bytes |
//!
//! Most functions have no proof file: the prover's search proves them from the contracts of what they call. The proof file of
//! another function is in `proofs/`, in a folder with the names of the file and of the function.
//!
//! No crate depends on this one, and it has no tests.
#![tactic(auto)]

pub mod checked;
pub mod combinations;
pub mod dates;
pub mod decimals;
pub mod fractions;
pub mod headline;
pub mod integers;
pub mod laws;
pub mod lists;
pub mod pages;
pub mod residues;
pub mod widths;
