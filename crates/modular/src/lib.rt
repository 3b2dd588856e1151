//! Arithmetic modulo a positive number, at every modulus of every integer type. `sum_modulo(5, 4, 7)` is `2`.
#![tactic(auto)]

pub mod checked;
mod common_solutions;
mod congruent_numbers;
pub mod counted;
mod exponentiation;
pub mod guards;
mod inverses;
mod montgomery;
mod native;
mod products;
mod residue_classes;
mod residues;
pub mod several_congruences;
mod wide_residues;
mod word_residues;

pub use common_solutions::{CommonSolution, chinese_remainder, next_common_solution};
pub use congruent_numbers::Congruence;
pub use inverses::{inverse_modulo, quotient_modulo};
pub use products::{Modular, power_modulo, product_modulo};
pub use residue_classes::{count_congruent, next_congruent, previous_congruent, solutions};
pub use residues::{difference_modulo, negation_modulo, residue, sum_modulo};
pub use several_congruences::next_common_solution_of;
