//! The tests of the libraries and of the program: worked values, each pair of the numbers of lawful types that the library does
//! not know, the ends of each type, strings, and the lines of the program. What plain Rust shows as well is in `rust/tests`.
#![tactic(auto)]

#[cfg(test)]
mod tests;
