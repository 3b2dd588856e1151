//! Worked rows of each call, most of them with its results at the ends of a type.

use super::rows::check_rows;

// ---- division

/// Rounded toward 0.
static TRUNCATED: &[&str] = &[
    "i64 div_rem: 7 0 or 7 -0 = refused 2 ZeroDivisor, 7 2 or 007 2 = 3 1",
    "signed/u8/u64 div_rem: 8 3 = 2 2, 1 2 = 0 1",
    "signed div_rem: 8 -3 = -2 2, -8 3 = -2 -2, -8 -3 = 2 -2, 1 -2 = 0 1, -1 2 or -1 -2 = 0 -1",
    "u64 div_rem: -1 0 = refused 1 OutOfType",
    "i8 div_rem: -128 -1 = refused 6 NotFitting",
    "u8 div_rem: 255 255 = 1 0",
    "signed operators: 8 3 = 2 2, 8 -3 = -2 2, -8 3 = -2 -2, -8 -3 = 2 -2, 1 2 or 1 -2 = 0 1, -1 2 or -1 -2 = 0 -1",
];

#[test]
fn test_div_rem(rt: HostRuntime) {
    check_rows(&rt, rt.alloc(), TRUNCATED);
}

/// Rounded down, and up.
static FLOORED: &[&str] = &[
    "small div_mod_floor: -7 2 = -4 1",
    "unsigned div_mod_floor: 10 3 = 3 1, 5 5 = 1 0, 3 7 = 0 3",
    "signed/u8/u64 div_mod_floor: 8 3 = 2 2, 1 2 = 0 1",
    "signed div_mod_floor: 8 -3 = -3 -1, -8 3 = -3 1, -8 -3 = 2 -2, 1 -2 = -1 -1, -1 2 = -1 1, -1 -2 = 0 -1",
    "i8 div_mod_floor: -128 -1 = refused 6 NotFitting",
    "i8 div_floor: -128 -1 = refused 6 NotFitting, -127 -1 = 127",
    "i64 div_floor: -9223372036854775808 -1 = refused 6 NotFitting, 1 0 = refused 2 ZeroDivisor",
    "small div_floor: -7 -1 = 7",
    "unsigned div_floor: 10 3 = 3, 5 5 = 1, 3 7 = 0",
    "signed/u8/u64 div_floor: 8 3 = 2, 1 2 = 0",
    "signed div_floor: 8 -3 or -8 3 = -3, -8 -3 = 2, 1 -2 or -1 2 = -1, -1 -2 = 0",
    "u8 div_floor: 256 0 = refused 1 OutOfType",
    "i8 mod_floor: -128 -1 = 0, -129 0 = refused 1 OutOfType",
    "i64 mod_floor: -9223372036854775808 -1 = 0",
    "i128 mod_floor: -170141183460469231731687303715884105728 -1 = 0",
    "unsigned mod_floor: 10 3 = 1, 5 5 = 0, 3 7 = 3",
    "signed/u8/u64 mod_floor: 8 3 = 2, 1 2 = 1",
    "signed mod_floor: 8 -3 or 1 -2 or -1 -2 = -1, -8 3 or -1 2 = 1, -8 -3 = -2",
    "u8 mod_floor: 0 0 = refused 2 ZeroDivisor",
    "u64 div_ceil: 18446744073709551615 2 = 9223372036854775808",
    "percent div_ceil: 100 3 = 34",
    "small div_ceil: -7 2 = -3",
    "signed/u8/u64 div_ceil: 8 3 = 3, 1 2 = 1",
    "signed div_ceil: 8 -3 or -8 3 = -2, -8 -3 = 3, 1 -2 or -1 2 = 0, -1 -2 = 1",
    "i8 div_ceil: -128 -1 = refused 6 NotFitting",
    // Only the smallest number by -1 has a quotient that is out of range.
    "i8 quotient_fits: -127 -1 = true, -128 -1 or -128 0 = false",
    "u8 quotient_fits: 255 255 = true, 0 0 = false",
    "i64 quotient_fits: -9223372036854775807 -1 = true, -9223372036854775808 -1 or -9223372036854775808 0 = false",
    "percent quotient_fits: 100 3 = true",
    "small quotient_fits: -7 2 or -7 -1 = true",
];

#[test]
fn test_div_mod_floor(rt: HostRuntime) {
    check_rows(&rt, rt.alloc(), FLOORED);
}

// ---- multiples

/// The next and the previous multiple.
static NEIGHBOURS: &[&str] = &[
    "i8 next_multiple_of: 127 8 or -127 -3 = refused 6 NotFitting, -128 -1 = -128, 120 8 = 120, -126 -3 = -126",
    "percent next_multiple_of: 97 10 = 100",
    "small next_multiple_of: 7 -2 = 6",
    "signed/u8/u64 next_multiple_of: 16 8 = 16, 23 8 = 24",
    "signed next_multiple_of: 16 -8 or 23 -8 = 16, -16 8 or -23 8 or -16 -8 = -16, -23 -8 = -24",
    "u8 next_multiple_of: 255 5 = 255, 255 2 = refused 6 NotFitting, 256 0 = refused 1 OutOfType",
    "i64 next_multiple_of: 1 0 = refused 2 ZeroDivisor",
    "i8 prev_multiple_of: 127 8 = 120, -128 -1 = -128, -128 3 or 127 -8 = refused 6 NotFitting",
    "i128 prev_multiple_of: -170141183460469231731687303715884105728 -1 = -170141183460469231731687303715884105728",
    "signed/u8/u64 prev_multiple_of: 16 8 or 23 8 = 16",
    "signed prev_multiple_of: 16 -8 = 16, 23 -8 = 24, -16 8 or -16 -8 or -23 -8 = -16, -23 8 = -24",
    "u8 prev_multiple_of: 255 2 = 254, 1 -1 = refused 1 OutOfType",
    "i64 prev_multiple_of: 0 0 = refused 2 ZeroDivisor",
    "i8 next_multiple_fits: 120 8 or -128 -1 or -126 -3 = true, 127 8 or -128 -3 or -127 -3 = false",
    "u8 next_multiple_fits: 255 5 = true, 255 2 or 0 0 = false",
    "percent next_multiple_fits: 97 10 = true, 100 3 = false",
    "small next_multiple_fits: 7 -2 = true",
    "i8 prev_multiple_fits: 127 8 or -128 -1 = true, -128 3 or 127 -8 or 0 0 = false",
    "u8 prev_multiple_fits: 255 2 = true",
    "small prev_multiple_fits: 7 -2 = false",
];

#[test]
fn multiples_on_both_sides(rt: HostRuntime) {
    check_rows(&rt, rt.alloc(), NEIGHBOURS);
}

static ARE_MULTIPLES: &[&str] = &[
    "i8 is_multiple_of: -128 -1 = true, 0 128 = refused 1 OutOfType",
    "u8 is_multiple_of: 10 4 or 4 10 = false, 256 0 = refused 1 OutOfType",
    "percent is_multiple_of: 100 20 = true",
    "unsigned is_multiple_of: 0 0 or 6 6 or 6 3 or 6 1 = true, 42 5 or 5 3 or 42 0 = false",
    "unsigned/i64 is_multiple_of: 9 3 = true, 3 9 = false",
    "i64 is_multiple_of: 0 -5 or -9223372036854775808 -1 = true",
    "u64 is_multiple_of: 18446744073709551615 5 = true",
    "i8 divides: -128 -1 = true",
    "unsigned divides: 0 0 or 6 6 or 6 3 or 6 1 or 9 3 = true, 3 9 or 42 5 or 5 3 or 42 0 = false",
];

#[test]
fn test_is_multiple_of(rt: HostRuntime) {
    check_rows(&rt, rt.alloc(), ARE_MULTIPLES);
}

// ---- common divisors and multiples

/// The divisor of the smallest number with itself or with 0 is out of range.
static GCDS: &[&str] = &[
    "i64 gcd: -9223372036854775808 -4611686018427387904 or -4611686018427387904 -9223372036854775808 = 4611686018427387904",
    "i64 gcd: -9223372036854775808 3 = 1",
    "i64 gcd: -9223372036854775808 0 or -9223372036854775808 -9223372036854775808 = refused 6 NotFitting",
    "i64 gcd: 007 -0 = 7, -9223372036854775808 42 = 2",
    "u64 gcd: 18446744073709551615 0 or 0 18446744073709551615 = 18446744073709551615",
    "i8 gcd: -128 0 or 0 -128 or -128 -128 = refused 6 NotFitting, -128 42 = 2, -128 64 = 64",
    "one_bit gcd: 1 1 = 1",
    "native gcd: 10 2 or 2 10 or 6 8 or 8 6 = 2, 10 3 or 3 10 or 7 3 or 3 7 or 5 3 or 3 5 = 1",
    "native gcd: 0 3 or 3 0 or 3 3 = 3, 56 42 or 42 56 = 14, 0 0 = 0",
    "signed gcd: 3 -3 or -3 3 or -6 3 or 3 -6 = 3, -4 -2 or -2 -4 = 2",
    "u128 gcd: 340282366920938463463374607431768211455 1 = 1",
    "u8 gcd: 255 85 = 85, 256 1 or 1 -1 = refused 1 OutOfType",
    "i8 gcd_fits: -128 64 or -128 127 = true, -128 -128 or -128 0 or 0 -128 = false",
    "i64 gcd_fits: -9223372036854775808 0 = false",
    "percent gcd_fits: 20 100 = true",
    "small gcd_fits: -6 3 or 7 5 or -6 4 = true",
];

#[test]
fn test_gcd(rt: HostRuntime) {
    check_rows(&rt, rt.alloc(), GCDS);
}

static LCMS: &[&str] = &[
    "native lcm: 1 0 or 0 1 or 0 0 = 0, 1 1 = 1, 8 9 or 9 8 = 72, 11 5 or 5 11 = 55, 7 3 or 3 7 = 21, 2 4 or 4 2 = 4",
    "signed lcm: -1 1 or 1 -1 or -1 -1 = 1",
    "unsigned lcm: 15 17 or 17 15 = 255",
    "percent lcm: 50 100 = 100",
    "i8 lcm: -128 0 = 0, 127 2 or -128 1 = refused 6 NotFitting, 128 0 = refused 1 OutOfType",
    "u8 lcm: 16 17 = refused 6 NotFitting",
    "i64 lcm: -9223372036854775808 0 = 0, -9223372036854775808 1 = refused 6 NotFitting",
    "i8 lcm_fits: -128 0 or 64 4 or 8 9 = true, -128 1 or 127 2 = false",
    "u8 lcm_fits: 15 17 or 0 0 = true, 16 17 = false",
    "percent lcm_fits: 50 100 = true, 51 2 = false",
    "small lcm_fits: -6 3 = true, -6 4 = false",
    "u128 lcm_fits: 340282366920938463463374607431768211455 2 = false",
    "i8 gcd_lcm: -128 0 or 127 2 = refused 6 NotFitting, 0 0 = 0 0",
    "i64 gcd_lcm: 10 4 = 2 20",
    "i32/i64 gcd_lcm: 8 9 = 1 72",
    "u64 gcd_lcm: -1 1 = refused 1 OutOfType",
];

#[test]
fn test_lcm(rt: HostRuntime) {
    check_rows(&rt, rt.alloc(), LCMS);
}

/// The product of the operands overflows, and their least common multiple fits.
static MULTIPLES_THAT_FIT: &[&str] = &[
    "i64 lcm: 46656000000000000 600 or 600 46656000000000000 = 46656000000000000",
    "i8 lcm: 64 4 or 4 64 = 64",
    "i16 lcm: 16384 4 or 4 16384 = 16384",
    "i32 lcm: 1073741824 4 or 4 1073741824 = 1073741824",
    "i64 lcm: 4611686018427387904 4 or 4 4611686018427387904 = 4611686018427387904",
    "u8 lcm: 128 2 or 2 128 = 128",
    "u16 lcm: 32768 2 or 2 32768 = 32768",
    "u32 lcm: 2147483648 2 or 2 2147483648 = 2147483648",
    "u64 lcm: 9223372036854775808 2 or 2 9223372036854775808 = 9223372036854775808",
    "u128 lcm: 340282366920938463463374607431768211455 340282366920938463463374607431768211455 = 340282366920938463463374607431768211455",
];

#[test]
fn test_lcm_overflow(rt: HostRuntime) {
    check_rows(&rt, rt.alloc(), MULTIPLES_THAT_FIT);
}

// ---- Bezout pairs

static PAIRS: &[&str] = &[
    "i64 extended_gcd: 240 46 = 2 -9 47, 10 4 = 2 1 -2, -6 4 = 2 -1 -1, 46 240 = 2 47 -9, 8 13 = 1 5 -3",
    "i64 extended_gcd: 5 0 = 5 1 0, -5 0 = 5 -1 0, 0 -5 = 5 0 -1, 0 0 = 0 1 0",
    "i64 extended_gcd: -9223372036854775808 9223372036854775807 = 1 -1 -1",
    "i64 extended_gcd: -9223372036854775808 0 = refused 6 NotFitting",
    "i8 extended_gcd: -128 127 = 1 -1 -1, -128 1 = 1 0 1, -128 -1 = 1 0 -1, -128 -128 = refused 6 NotFitting",
    "u8 extended_gcd: 4 12 = 4 1 0, 12 4 = 4 0 1, 10 4 = refused 7 NoPair, 10 256 = refused 1 OutOfType",
    "u64 extended_gcd: 0 7 = 7 0 1, 8 13 = refused 7 NoPair",
    "i32 extended_gcd_lcm: 10 4 = 2 1 -2 20",
    "small extended_gcd_lcm: -6 3 = 3 0 1 6",
];

#[test]
fn pairs(rt: HostRuntime) {
    check_rows(&rt, rt.alloc(), PAIRS);
}

// ---- averages

static AVERAGES: &[&str] = &[
    "signed/u64 average_floor: 3 10 = 6",
    "signed average_floor: -2 -5 = -4, 4 4 or 14 -5 = 4, -128 -1 = -65, -128 127 = -1, 14 -4 = 5",
    "u8 average_floor: 255 2 = 128, 256 0 = refused 1 OutOfType",
    "percent average_floor: 100 99 = 99",
    "small average_floor: -7 2 = -3",
    "native average_floor: 14 16 or 14 17 = 15",
    "u128 average_floor: 340282366920938463463374607431768211455 340282366920938463463374607431768211455 = 340282366920938463463374607431768211455",
    "i64 average_floor: -9223372036854775808 9223372036854775807 = -1",
    "u64 average_floor: 18446744073709551615 18446744073709551615 = 18446744073709551615",
    "signed/u64 average_ceil: 3 10 = 7",
    "signed average_ceil: -2 -5 = -3, 4 4 = 4, -128 -1 = -64, -128 127 = 0, 14 -4 or 14 -5 = 5",
    "u8 average_ceil: 255 2 = 129, 0 -1 = refused 1 OutOfType",
    "percent average_ceil: 100 99 = 100",
    "small average_ceil: -7 2 = -2",
    "native average_ceil: 14 16 = 15, 14 17 = 16",
    "u128 average_ceil: 340282366920938463463374607431768211455 340282366920938463463374607431768211455 = 340282366920938463463374607431768211455",
    "i64 average_ceil: -9223372036854775808 9223372036854775807 = 0",
    "u64 average_ceil: 18446744073709551615 18446744073709551615 = 18446744073709551615",
];

#[test]
fn averages(rt: HostRuntime) {
    check_rows(&rt, rt.alloc(), AVERAGES);
}

// ---- roots

static ROOTS: &[&str] = &[
    "u64/percent sqrt: 99 = 9",
    "i8 sqrt: -9 or -128 = refused 4 NegativeRoot",
    "u64 sqrt: 18446744073709551615 or 18446744065119617025 = 4294967295, 18446744065119617024 = 4294967294, 16 = 4",
    "u64 sqrt: 8 = 2, 3 = 1, -1 = refused 1 OutOfType",
    "i64 sqrt: 9223372036854775807 = 3037000499, 4 = 2, 0 = 0, -1 = refused 4 NegativeRoot",
    "u8 sqrt: 255 = 15",
    "i32/i64 sqrt: 152399025 or 152399026 = 12345, 152399024 = 12344, 12345 = 111",
    "u16 sqrt: 65535 = 255",
    "percent cbrt: 100 = 4",
    "i32 cbrt: -2147483648 = -1290",
    "i32/i64 cbrt: 1879080904 or 1879080905 = 1234, 1879080903 = 1233, -1879080904 or -1879080905 = -1234",
    "i32/i64 cbrt: -1879080903 = -1233, 12345 = 23",
    "u8 cbrt: 255 = 6",
    "u32/u64 cbrt: 4294967295 = 1625",
    "u64 cbrt: 18446744073709551615 or 18446724184312856125 = 2642245, 4294967296 or 4298942375 = 1625",
    "u64 cbrt: 4298942376 = 1626, 18446724184312856124 = 2642244",
    "i8 cbrt: -128 = -5, -9 = -2, 128 = refused 1 OutOfType",
    "i64 cbrt: -9223372036854775808 = -2097152",
    "u64/percent nth_root: 99 2 = 9",
    "percent nth_root: 100 3 = 4, 100 6 = 2",
    "i8 nth_root: -9 2 or -9 4294967294 = refused 4 NegativeRoot, 9 0 or -9 0 = refused 3 ZeroDegree, -128 7 = -2",
    "i8 nth_root: -127 7 = -1, 127 200 = 1",
    "u8 nth_root: 0 0 = refused 3 ZeroDegree, 256 0 = refused 1 OutOfType",
    "u64 nth_root: 18446744073709551615 63 = 2, 18446744073709551615 64 or 18446744073709551615 4294967295 = 1",
    "u64 nth_root: 18446744073709551615 4 = 65535, 18446744073709551615 5 = 7131, 0 5 = 0, 130321 4 = 19",
    "u64 nth_root: 130320 4 = 18, -1 2 = refused 1 OutOfType",
    "i64 nth_root: -9223372036854775808 1 = -9223372036854775808, -9223372036854775808 63 = -2",
    "i64 nth_root: -9223372036854775808 4294967295 = -1, -9223372036854775808 64 or -1 10 = refused 4 NegativeRoot",
    "i64 nth_root: 123 0 or -1 0 = refused 3 ZeroDegree",
    "i64 nth_root: 5 4294967296 or -1 4294967296 or 5 -1 = refused 1 OutOfType",
    "i32 nth_root: -2147483648 1 = -2147483648, -2147483648 31 = -2, -2147483647 31 = -1, 2147483647 30 = 2",
    "i32 nth_root: 2147483647 31 = 1",
    "i32/i64 nth_root: 12345 1 = 12345, 12345 2 = 111, 12345 3 = 23, 12345 4 = 10, 12345 13 = 2",
    "i32/i64 nth_root: 12345 14 or 12345 4294967295 = 1",
    "u32 nth_root: 4294967295 31 = 2, 4294967295 32 = 1",
];

#[test]
fn roots(rt: HostRuntime) {
    check_rows(&rt, rt.alloc(), ROOTS);
}

// ---- results and their iterations

static ITERATIONS: &[&str] = &[
    // The smallest number makes no iteration with another.
    "u64 gcd_counted: 0 0 = 0 0, 5 3 or 3 5 = 1 2, 18446744073709551615 1 = 1 63",
    "u128 gcd_counted: 18446744073709551617 18446744073709551617 = 18446744073709551617 0",
    "u128 gcd_counted: 55340232221128654851 18446744073709551617 = 18446744073709551617 1",
    "u128 gcd_counted: 92233720368547758085 55340232221128654851 = 18446744073709551617 2",
    "u128 gcd_counted: 340282366920938463463374607431768211455 1 = 1 127",
    "u8 gcd_counted: 128 42 = 2 2",
    "i64 gcd_counted: 56 42 or -56 42 = 14 1, 48 -48 = 48 0, -9223372036854775808 3 or 3 -9223372036854775808 = 1 0",
    "i8 gcd_counted: -128 42 = 2 0, -128 -64 = 64 0",
    "i128 gcd_counted: -170141183460469231731687303715884105728 170141183460469231731687303715884105727 = 1 0",
    "i64 extended_gcd_counted: 240 46 = 2 -9 47 4, 46 240 = 2 47 -9 5, 8 13 = 1 5 -3 5, 5 0 = 5 1 0 0",
    "i64 extended_gcd_counted: -5 0 = 5 -1 0 0, 0 -5 = 5 0 -1 0, 0 -9223372036854775808 = refused",
    "i8/i64 extended_gcd_counted: 10 4 = 2 1 -2 1",
    "i64/small extended_gcd_counted: -6 4 = 2 -1 -1 1",
    "i64/u64/one_bit extended_gcd_counted: 0 0 = 0 1 0 0",
    "isize extended_gcd_counted: 8 9 = 1 -1 1 2",
    "i8 extended_gcd_counted: -128 127 = 1 -1 -1 1, -128 1 = 1 0 1 0, -128 0 or -128 -128 = refused",
    "i8/i128 extended_gcd_counted: -128 -1 = 1 0 -1 0, -1 -128 = 1 -1 0 1",
    "i128 extended_gcd_counted: -170141183460469231731687303715884105728 170141183460469231731687303715884105727 = 1 -1 -1 1",
    "u8/u64 extended_gcd_counted: 4 12 = 4 1 0 1",
    "u64 extended_gcd_counted: 0 7 = 7 0 1 0, 12 4 = 4 0 1 0, 7 0 = 7 1 0 0",
    "u8 extended_gcd_counted: 10 4 or 4 10 = refused",
    "percent extended_gcd_counted: 20 100 = 20 1 0 1",
    "small/negated extended_gcd_counted: 7 5 = 1 -2 3 2",
    "one_bit extended_gcd_counted: 1 1 or 0 1 = 1 0 1 0, 1 0 = 1 1 0 0",
    "u64/usize sqrt_counted: 18446744073709551615 = 4294967295 1",
    "u64 sqrt_counted: 18446744065119617025 = 4294967295 1, 18446744065119617024 = 4294967294 2, 99 = 9 2, 16 = 4 0",
    "u64 sqrt_counted: 8 = 2 2, 3 = 1 0",
    "i64/isize sqrt_counted: 9223372036854775807 = 3037000499 4",
    "i64/isize sqrt_counted: -9223372036854775808 or -9223372036854775807 = refused",
    "i64 sqrt_counted: 4 = 2 0",
    "u8 sqrt_counted: 255 = 15 1",
    "i8/i16/i32/i64/isize/u8/u16/u32/u64/usize sqrt_counted: 0 = 0 0, 1 = 1 0",
    "i8 sqrt_counted: 127 = 11 1, -128 = refused",
    "i16 sqrt_counted: 32767 = 181 2",
    "i32 sqrt_counted: 2147483647 = 46340 4",
    "u16 sqrt_counted: 65535 = 255 1",
    "u32 sqrt_counted: 4294967295 = 65535 1",
    "i8/i16/i32/i64/isize sqrt_counted: -1 = refused",
];

#[test]
fn iterations(rt: HostRuntime) {
    check_rows(&rt, rt.alloc(), ITERATIONS);
}

// ---- coefficients, multinomials and rows

static BINOMIALS: &[&str] = &[
    "u64 binomial: 67 33 = 14226520737620288370",
    "u64 binomial: 18446744073709551615 1 or 18446744073709551615 18446744073709551614 = 18446744073709551615",
    "u64 binomial: 18446744073709551615 18446744073709551615 = 1",
    "u64 binomial: 18446744073709551615 2 or 68 34 = refused 6 NotFitting",
    "u8 binomial: 200 199 = 200, 11 3 = 165, 11 4 or 11 5 or 255 2 = refused 6 NotFitting, 0 255 = 0",
    "u8 binomial: -1 0 = refused 1 OutOfType",
    "i64 binomial: 66 33 = 7219428434016265740, 67 33 = refused 6 NotFitting",
    "i8 binomial: -1 0 or 3 -1 or -128 -128 = refused 5 NegativeCount, 10 3 = 120, 10 5 = refused 6 NotFitting",
    "i8 binomial: -1 128 = refused 1 OutOfType",
    "percent binomial: 8 4 = 70, 100 99 = 100",
    "small binomial: 4 2 = 6, 7 1 = 7",
    "one_bit binomial: 1 1 = 1",
    "two_bits binomial: 3 2 = 3, 2 1 = 2",
    "native binomial: 0 0 = 1, 2 3 = 0, 9 4 or 9 5 = 126",
    "i16/i32/i64/u16/u32/u64 binomial: 100 2 or 100 98 = 4950, 14 4 or 14 10 = 1001",
    "i32/i64/u32/u64 binomial: 35 11 or 35 24 = 417225900",
    "u8 binomial_counted: 9 4 = 126 4, 200 199 = 200 1, 3 4 = 0 0",
    "u8 binomial_fits: 10 5 or 11 3 or 255 1 or 255 254 or 0 255 = true, 11 4 or 11 5 or 255 2 = false",
    "i8 binomial_fits: 9 4 or 10 3 = true, 10 5 or -1 0 or 3 -1 = false",
    // The largest coefficient of a row is in its middle. It fits for the largest row, and not for the next.
    "u16 binomial_fits: 18 9 = true, 19 9 = false",
    "i16 binomial_fits: 17 8 = true, 18 9 = false",
    "u32 binomial_fits: 34 17 = true, 35 17 = false",
    "i32 binomial_fits: 33 16 = true, 34 17 = false",
    "u64 binomial_fits: 67 33 = true, 68 34 = false",
    "i64 binomial_fits: 66 33 = true, 67 33 = false",
    "percent binomial_fits: 8 4 or 100 99 = true, 9 4 = false",
    "small binomial_fits: 4 2 or 7 1 = true, 5 2 = false",
    "two_bits binomial_fits: 3 1 = true",
    "one_bit binomial_fits: 1 0 = true",
    "u128 binomial_fits: 340282366920938463463374607431768211455 1 or 340282366920938463463374607431768211455 340282366920938463463374607431768211454 = true",
    "u128 binomial_fits: 340282366920938463463374607431768211455 2 or 340282366920938463463374607431768211455 170141183460469231731687303715884105727 = false",
];

#[test]
fn test_binomial(rt: HostRuntime) {
    check_rows(&rt, rt.alloc(), BINOMIALS);
}

static MULTINOMIALS: &[&str] = &[
    "u8/percent/marked multinomial: 2 2 2 = 90",
    "u8 multinomial: 3 2 2 = 210, 254 1 = 255, 255 1 or 1 1 1 1 1 1 = refused, 127 1 = 128, 1 1 1 1 1 = 120",
    "u8/u64 multinomial: [] = 1",
    "i8 multinomial: 127 1 = refused",
    "small/negated multinomial: 1 1 1 = 6, 2 2 2 = refused",
    "one_bit multinomial: 1 0 = 1, 1 1 = refused",
    "two_bits multinomial: 2 1 = 3, 1 1 1 = refused",
    "native multinomial: 4 5 = 126, 2 1 2 = 30, 2 3 0 = 10",
    "i16/i32/i64/u16/u32/u64 multinomial: 2 98 = 4950, 4 10 = 1001",
    "i32/i64/u32/u64 multinomial: 11 24 = 417225900",
    "u64 multinomial: 0 or 12345 = 1",
    "u8 multinomial_fits: [] or 255 or 255 0 or 254 1 or 3 2 2 or 1 1 1 1 1 = true",
    "u8 multinomial_fits: 255 1 or 2 2 2 1 or 1 1 1 1 1 1 = false",
    "i8 multinomial_fits: 3 2 2 or 127 1 or -1 = false",
    "u128 multinomial_fits: 170141183460469231731687303715884105727 170141183460469231731687303715884105727 or 340282366920938463463374607431768211455 340282366920938463463374607431768211455 or 340282366920938463463374607431768211455 1 = false",
    "u128 multinomial_fits: 340282366920938463463374607431768211454 0 1 = true",
];

#[test]
fn test_multinomial(rt: HostRuntime) {
    check_rows(&rt, rt.alloc(), MULTINOMIALS);
}

/// A number and the items of its row.
static ROWS: &[&str] = &[
    "u8 has_row: 10 1 10 45 120 210 252 210 120 45 10 1 = true",
    "signed has_row: -1 = true",
    "percent has_row: 9 = refused",
    "percent/marked has_row: 8 1 8 28 56 70 56 28 8 1 = true",
    "small/negated has_row: 5 = refused, 4 1 4 6 4 1 = true",
    "native/one_bit/two_bits has_row: 0 1 = true",
    "native/two_bits has_row: 1 1 1 or 2 1 2 1 = true",
    "two_bits has_row: 3 = refused",
    "one_bit has_row: 1 = refused",
    "i8 has_row: -128 = true, 127 = refused",
    "i8/i16/i32/i64/u8/u16/u32/u64 has_row: 3 1 3 3 1 = true",
];

#[test]
fn rows(rt: HostRuntime) {
    check_rows(&rt, rt.alloc(), ROWS);
}

// ---- parity

static EVEN: &[&str] = &[
    "i8 is_even: -128 = true",
    "signed is_even: -4 or -2 = true, -3 or -1 = false",
    "native is_even: 0 or 2 or 4 = true, 1 or 3 = false",
];

#[test]
fn test_even(rt: HostRuntime) {
    check_rows(&rt, rt.alloc(), EVEN);
}

static ODD: &[&str] = &[
    "signed is_odd: -4 or -2 = false, -3 or -1 = true",
    "native is_odd: 0 or 2 or 4 = false, 1 or 3 = true",
];

#[test]
fn test_odd(rt: HostRuntime) {
    check_rows(&rt, rt.alloc(), ODD);
}

// ---- the ends of the types, signs and magnitudes, one more or less, sums and products

static ENDS_AND_SUMS: &[&str] = &[
    // The magnitude of the smallest number, and the largest number.
    "i8 ends: [] = 128 127",
    "u8 ends: [] = 0 255",
    "i64/isize ends: [] = 9223372036854775808 9223372036854775807",
    "u64/usize ends: [] = 0 18446744073709551615",
    "percent ends: [] = 0 100",
    "one_bit ends: [] = 0 1",
    "two_bits ends: [] = 0 3",
    "small/negated ends: [] = 7 7",
    "marked ends: [] = 100 100",
    "i16 ends: [] = 32768 32767",
    "i32 ends: [] = 2147483648 2147483647",
    "u16 ends: [] = 0 65535",
    "u32 ends: [] = 0 4294967295",
    "u128 ends: [] = 0 340282366920938463463374607431768211455",
    "i128 ends: [] = 170141183460469231731687303715884105728 170141183460469231731687303715884105727",
    "unsigned fits: -1 = false",
    "i8 fits: -129 or 128 = false",
    "u8 fits: 256 = false",
    "i8 parts: -128 = -128, 0 = 0",
    "small/negated parts: -7 = -7",
    "i32 inc: 41 = 42",
    "i8 inc: 126 = 127, 127 = refused",
    "i32 dec: 43 = 42",
    "i8 dec: -127 = -128, -128 = refused",
    "u8 dec: 0 = refused",
    "i8 sum: -128 -1 = refused, -128 127 = -1",
    "u8 sum: 255 1 = refused, 254 1 = 255",
    "i8 difference: 0 -128 = refused, -1 -128 = 127",
    "u8 difference: 3 4 = refused",
    "i8 product: -16 8 = -128, 16 8 or -128 -1 = refused",
    "u8 product: 15 17 = 255, 16 16 = refused",
    "i8 negated: -128 = refused, -127 = 127",
    "u8 negated: 1 = refused, 0 = 0",
];

#[test]
fn ends_and_sums(rt: HostRuntime) {
    check_rows(&rt, rt.alloc(), ENDS_AND_SUMS);
}

// ---- sums and products of fractions

static FRACTIONS: &[&str] = &[
    "i64 ratio_add: 1 2 1 3 = 5 6, 1 6 1 3 or 0 -9223372036854775808 1 2 = 1 2",
    "i64 ratio_add: 2 4 -1 -2 or -9223372036854775808 -9223372036854775808 0 5 = 1 1, 1 -2 1 3 = -1 6",
    "i64 ratio_add: 0 -9 0 5 or 1 9223372036854775807 -1 9223372036854775807 = 0 1",
    "i64 ratio_add: 9223372036854775807 1 1 1 or 1 -9223372036854775808 0 1 or 0 1 -9223372036854775808 -1 = refused 6 NotFitting",
    "i64 ratio_add: 1 4611686018427387904 1 4611686018427387904 = 1 2305843009213693952",
    "i64 ratio_add: 1 0 1 3 or 1 2 0 0 or 1 -9223372036854775808 1 0 = refused 2 ZeroDivisor",
    "i64 ratio_add: 1 0 9223372036854775808 1 or 1 0 1 -9223372036854775809 = refused 1 OutOfType",
    "u8/u64 ratio_add: 1 2 1 3 = refused 1 OutOfType",
    "i8 ratio_add: 1 0 1 3 = refused 1 OutOfType",
    "i64 ratio_mul: 2 3 3 2 or 9223372036854775807 2 2 9223372036854775807 = 1 1, 2 3 3 4 = 1 2, -1 2 -3 4 = 3 8",
    "i64 ratio_mul: 0 -9 5 7 = 0 1, -9223372036854775808 1 1 2 = -4611686018427387904 1",
    "i64 ratio_mul: 9223372036854775807 1 2 1 or -9223372036854775808 1 -1 1 or 1 -9223372036854775808 0 1 = refused 6 NotFitting",
    "i64 ratio_mul: 1 2 1 0 or 1 -9223372036854775808 1 0 = refused 2 ZeroDivisor",
    "i64 ratio_mul: 9223372036854775808 1 1 0 = refused 1 OutOfType",
    "u8 ratio_mul: 1 0 1 1 = refused 1 OutOfType",
    "u64 ratio_mul: 1 2 1 3 = refused 1 OutOfType",
];

#[test]
fn fractions(rt: HostRuntime) {
    check_rows(&rt, rt.alloc(), FRACTIONS);
}
