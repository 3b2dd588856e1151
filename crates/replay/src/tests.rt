//! Each line of the lists, computed again.

mod calls;
mod checksum;
mod dates;
mod fractions;
mod libraries;
mod lines;
mod list;
mod models;
mod residues;
mod spread;
mod walks;

use lines::{check, replay};
use own_types::types::Type::{I8, I16, I32, I64, I128, Isize, U8, U16, U32, U64, U128, Usize};

#[test]
fn signed_types(rt: HostRuntime) {
    let places = [(I8, 0), (I16, 1), (I32, 2), (I64, 3), (Isize, 3), (I128, 4)];
    let lines = list::LINES;
    replay(&rt, rt.alloc(), &places, &lines);
}

#[test]
fn unsigned_types(rt: HostRuntime) {
    let places = [(U8, 5), (U16, 6), (U32, 7), (U64, 8), (Usize, 8), (U128, 9)];
    let lines = list::LINES;
    replay(&rt, rt.alloc(), &places, &lines);
}

#[test]
fn residues_of_each(rt: HostRuntime) {
    let places = [(I16, 0), (I64, 1), (U64, 2), (I128, 3), (U128, 4)];
    let lines = libraries::RESIDUES;
    replay(&rt, rt.alloc(), &places, &lines);
}

#[test]
fn fractions_of_each(rt: HostRuntime) {
    let lines = libraries::FRACTIONS;
    replay(&rt, rt.alloc(), &libraries::BITS, &lines);
}

#[test]
fn dates_of_each(rt: HostRuntime) {
    let lines = libraries::DATES;
    replay(&rt, rt.alloc(), &libraries::BITS, &lines);
    let days = dates::each_eleventh_day();
    check(&rt, days, libraries::ELEVENTH_DAYS, &"each eleventh day");
}

#[test]
fn models_of_each(rt: HostRuntime) {
    let lines = libraries::MODELS;
    replay(&rt, rt.alloc(), &[(I64, 0), (U64, 1)], &lines);
    let ranked = models::ranked_choices(&rt);
    check(&rt, ranked, libraries::CHOICES, &"choices");
}
