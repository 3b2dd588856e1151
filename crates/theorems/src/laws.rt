//! The laws of the definitions. They follow from the definitions alone, whatever an implementation does. Each law of
//! a `specs/Laws.antt` is a clause here, and each library has one function. A clause that stands here in full has no name there.

ghost use Rattle.std.specs.Prelude.{◌≡◌, ◌≢◌, ◌%◌, ◌<ℤ◌, ◌≤ℤ◌, List, All, pos, ℕ, ℤ};
ghost use Rattle.std.specs.Cmp.{IsTotalOrder};
ghost use Rattle.num_integer.specs.Averages.{IsAverageCeil, IsAverageFloor};
ghost use Rattle.num_integer.specs.Divisors.{IsGreatestCommonDivisor};
ghost use Rattle.num_integer.specs.Least.{IsLeastFrom};
ghost use Rattle.num_integer.specs.RootOf.{IsRoot};
ghost use Rattle.modular.specs.Congruences.{IsCountOfCongruent, IsInverse, IsNextCommonSolution, IsNextCongruent, IsPreviousCongruent, IsQuotientModulo, IsReducedModulus, IsResidue, IsResidueClass, Solves, SolvesBothCongruences, SolvesEach};
ghost use Rattle.modular.specs.declared.congruent_numbers.Congruence.{Congruence};
ghost use Rattle.ratio64.specs.Fraction.{fraction_cmp};
ghost use Rattle.num_integer.specs.Laws as integers;
ghost use Rattle.modular.specs.Laws as residues;
ghost use Rattle.ratio64.specs.Laws as fractions;
ghost use Rattle.calendar.specs.Laws as dates;
ghost use Rattle.applied.specs.Laws as models;
ghost use Rattle.ratio64.specs.Ratio.{den_of, num_of};
ghost use Rattle.ratio64.specs.declared.fraction.Ratio.{Ratio};

use num_integer::Integer;

/// A property of integers. No clause can speak of every property, but a clause can speak of each `P: Property`.
pub trait Property {
    ghost holds: { ℤ → Type 0 };
}

/// States the laws of quotients, divisors, roots and coefficients.
pub fn laws_of_integers<T: Integer>()
    ensures division_exists { integers.DivisionExists }
    ensures division_is_only { integers.DivisionIsOnly }
    ensures quotient_is_only { integers.QuotientIsOnly }
    ensures remainder_is_only { integers.RemainderIsOnly }
    ensures multiple_is_only { integers.MultipleIsOnly }
    ensures floored_parts_add_up { integers.FlooredPartsAddUp }
    ensures negation_turns_multiples { integers.NegationTurnsMultiples }
    ensures nearest_quotient_exists { integers.NearestQuotientExists }
    ensures no_integer_is_nearer { integers.NoIntegerIsNearer }
    ensures nearest_quotient_is_only { integers.NearestQuotientIsOnly }
    ensures nearest_even_quotient_is_only { integers.NearestEvenQuotientIsOnly }
    ensures nearest_quotient_fits_exactly { integers.NearestQuotientFitsExactly T.fits }
    ensures gcd_exists { integers.GcdExists }
    ensures gcd_is_only { integers.GcdIsOnly }
    ensures gcd_is_symmetric { integers.GcdIsSymmetric }
    ensures gcd_of_zeros { integers.GcdOfZeros }
    ensures gcd_fits_exactly { integers.GcdFitsExactly T.fits }
    ensures lcm_exists { integers.LcmExists }
    ensures lcm_is_only { integers.LcmIsOnly }
    ensures lcm_is_symmetric { integers.LcmIsSymmetric }
    ensures gcd_times_lcm { integers.GcdTimesLcm }
    ensures gcd_is_at_most_each_bound { integers.GcdIsAtMostEachBound }
    ensures lcm_is_first_common_multiple { integers.LcmIsFirstCommonMultiple }
    ensures sum_of_divisors_exists { integers.SumOfDivisorsExists }
    ensures sum_of_divisors_is_only { integers.SumOfDivisorsIsOnly }
    ensures sum_of_divisors_ends_at_the_number { integers.SumOfDivisorsEndsAtTheNumber }
    ensures exponents_add { integers.ExponentsAdd }
    ensures gcd_iterations_are_only { integers.GcdIterationsAreOnly }
    ensures bit_length_exists { integers.BitLengthExists }
    ensures bit_length_is_only { integers.BitLengthIsOnly }
    ensures bezout_answer_exists { integers.BezoutAnswerExists }
    ensures bezout_answer_is_only { integers.BezoutAnswerIsOnly }
    ensures euclid_iterations_are_only { integers.EuclidIterationsAreOnly }
    ensures average_floor_exists { (a b : ℤ) → (f : ℤ) × IsAverageFloor a b f }
    ensures average_ceil_exists { (a b : ℤ) → (c : ℤ) × IsAverageCeil a b c }
    ensures average_floor_is_only { integers.AverageFloorIsOnly }
    ensures average_ceil_is_only { integers.AverageCeilIsOnly }
    ensures averages_are_neighbours { integers.AveragesAreNeighbours }
    ensures root_exists { (x : ℤ) (n : ℕ) → n ≢ 0 → (n % 2 ≡ 0 → pos 0 ≤ℤ x)
        → (r : ℤ) × IsRoot x n r }
    ensures root_is_only { integers.RootIsOnly }
    ensures first_root { integers.FirstRoot }
    ensures square_root_iterations_are_only { integers.SquareRootIterationsAreOnly }
    ensures coefficient_mirror { integers.CoefficientMirror }
    ensures coefficient_above_row { integers.CoefficientAboveRow }
    ensures factorial_formula { integers.FactorialFormula }
    ensures multinomial_formula { integers.MultinomialFormula }
    ensures multinomial_is_only { integers.MultinomialIsOnly }
    ensures multinomial_ignores_order { integers.MultinomialIgnoresOrder }
    ensures row_length { integers.RowLength }
    ensures row_is_palindrome { integers.RowIsPalindrome }
    ensures row_is_greatest_in_middle { integers.RowIsGreatestInMiddle }
{}

/// States the laws of residues, inverses and congruences.
pub fn laws_of_residues<P: Property, T: Integer>()
    ensures residue_exists { (m x : ℤ) → pos 0 <ℤ m → (r : ℤ) × IsResidue m x r }
    ensures residue_is_only { residues.ResidueIsOnly }
    ensures inverse_exists { (a m : ℤ) → pos 0 <ℤ m → IsGreatestCommonDivisor a m (pos 1)
        → (x : ℤ) × IsInverse a m x }
    ensures inverse_is_only { residues.InverseIsOnly }
    ensures quotient_exists { (a b m inverse : ℤ) → pos 0 <ℤ m → IsInverse b m inverse
        → (x : ℤ) × IsQuotientModulo a b m x }
    ensures quotient_is_only { residues.QuotientIsOnly }
    ensures exponents_add { residues.ExponentsAdd }
    ensures residue_class_exists { (a b m x : ℤ) → pos 0 <ℤ m → Solves a b m x
        → (first step : ℤ) × IsResidueClass (Solves a b m) first step }
    ensures residue_class_is_only { residues.ResidueClassIsOnly P.holds }
    ensures reduced_modulus_exists { (a m : ℤ) → (reduced : ℤ) × IsReducedModulus a m reduced }
    ensures reduced_modulus_is_only { residues.ReducedModulusIsOnly }
    ensures next_congruent_exists { (from residue modulus : ℤ) → pos 0 <ℤ modulus
        → (t : ℤ) × IsNextCongruent from residue modulus t }
    ensures next_congruent_is_only { residues.NextCongruentIsOnly }
    ensures previous_congruent_exists { (to residue modulus : ℤ) → pos 0 <ℤ modulus
        → (t : ℤ) × IsPreviousCongruent to residue modulus t }
    ensures previous_congruent_is_only { residues.PreviousCongruentIsOnly }
    ensures count_of_congruent_exists { (from to residue modulus : ℤ) → pos 0 <ℤ modulus
        → (count : ℤ) × IsCountOfCongruent from to residue modulus count }
    ensures count_of_congruent_is_only { residues.CountOfCongruentIsOnly }
    ensures next_common_solution_exists { (from a m b n x : ℤ) → pos 0 <ℤ m → pos 0 <ℤ n
        → SolvesBothCongruences a m b n x → (t : ℤ) × IsNextCommonSolution from a m b n t }
    ensures next_common_solution_is_only { residues.NextCommonSolutionIsOnly }
    ensures next_solution_of_each_exists { (congruences : List (Congruence T)) (from x : ℤ)
        → All (λ c. pos 0 <ℤ T.value c.modulus) congruences → SolvesEach T.value congruences x
        → (t : ℤ) × IsLeastFrom from (SolvesEach T.value congruences) t }
    ensures next_solution_of_each_is_only { residues.NextSolutionOfEachIsOnly T.value }
{}

/// States the laws of fractions.
pub fn laws_of_fractions()
    ensures exact_result_exists { fractions.ExactResultExists }
    ensures exact_result_is_only { fractions.ExactResultIsOnly }
    ensures equal_fractions_have_one_result { fractions.EqualFractionsHaveOneResult }
    ensures reduced_pairs_are_equal_where_same { fractions.ReducedPairsAreEqualWhereSame }
    ensures ratio_of_parts_is_only { fractions.RatioOfPartsIsOnly }
    ensures answer_is_only { fractions.AnswerIsOnly }
    ensures order_is_total { fractions.OrderIsTotal Ratio num_of den_of }
    ensures order_of_ratios_is_total { IsTotalOrder (λ (x : Ratio) (y : Ratio).
        fraction_cmp (num_of x) (den_of x) (num_of y) (den_of y)) }
    ensures order_agrees_with_equality { fractions.OrderAgreesWithEquality }
    ensures order_over_one_denominator { fractions.OrderOverOneDenominator }
    ensures rounded_is_only { fractions.RoundedIsOnly }
    ensures rounded_even_is_only { fractions.RoundedEvenIsOnly }
    ensures rounded_even_is { fractions.RoundedEvenIs }
    ensures nearest_is_only { fractions.NearestIsOnly }
    ensures nearest_to_exact_result { fractions.NearestToExactResult }
    ensures nearest_parts_are_only { fractions.NearestPartsAreOnly }
    ensures sums_of_equal_fractions { fractions.SumsOfEqualFractions }
    ensures products_of_equal_fractions { fractions.ProductsOfEqualFractions }
    ensures decimal_is_spelled { fractions.DecimalIsSpelled }
    ensures spelled_decimal_is_only { fractions.SpelledDecimalIsOnly }
    ensures decimal_of_parts_is_only { fractions.DecimalOfPartsIsOnly }
    ensures decimals_compare_as_fractions { fractions.DecimalsCompareAsFractions }
    ensures read_decimal_is_only { fractions.ReadDecimalIsOnly }
    ensures decimal_is_read_back { fractions.DecimalIsReadBack }
    ensures reading_is_only { fractions.ReadingIsOnly }
    ensures text_is_read_back { fractions.TextIsReadBack }
{}

/// States the laws of dates, weeks and Easter.
pub fn laws_of_dates()
    ensures leap_years_by_divisors { dates.LeapYearsByDivisors }
    ensures lengths_of_years { dates.LengthsOfYears }
    ensures years_follow { dates.YearsFollow }
    ensures first_day { dates.FirstDay }
    ensures year_of_day_exists { dates.YearOfDayExists }
    ensures year_of_day_is_only { dates.YearOfDayIsOnly }
    ensures date_of_parts_is_only { dates.DateOfPartsIsOnly }
    ensures date_exists { dates.DateExists }
    ensures date_is_only { dates.DateIsOnly }
    ensures date_of_year_day_is_only { dates.DateOfYearDayIsOnly }
    ensures order_of_dates { dates.OrderOfDates }
    ensures text_is_only { dates.TextIsOnly }
    ensures months_after_exists { dates.MonthsAfterExists }
    ensures months_after_is_only { dates.MonthsAfterIsOnly }
    ensures nth_weekday_is_only { dates.NthWeekdayIsOnly }
    ensures months_between_is_only { dates.MonthsBetweenIsOnly }
    ensures years_between_is_only { dates.YearsBetweenIsOnly }
    ensures last_weekday_of_month_is_only { dates.LastWeekdayOfMonthIsOnly }
    ensures next_last_weekday_exists { dates.NextLastWeekdayExists }
    ensures next_last_weekday_is_only { dates.NextLastWeekdayIsOnly }
    ensures last_of_month_is_only { dates.LastOfMonthIsOnly }
    ensures iso_number_is_only { dates.IsoNumberIsOnly }
    ensures weekday_is_only { dates.WeekdayIsOnly }
    ensures weekday_after_is_only { dates.WeekdayAfterIsOnly }
    ensures weekdays_follow { dates.WeekdaysFollow }
    ensures first_weekday_exists { dates.FirstWeekdayExists }
    ensures first_weekday_is_only { dates.FirstWeekdayIsOnly }
    ensures last_weekday_exists { dates.LastWeekdayExists }
    ensures last_weekday_is_only { dates.LastWeekdayIsOnly }
    ensures iso_week_exists { dates.IsoWeekExists }
    ensures iso_week_is_only { dates.IsoWeekIsOnly }
    ensures iso_week_of_numbers_is_only { dates.IsoWeekOfNumbersIsOnly }
    ensures iso_day_exists { dates.IsoDayExists }
    ensures iso_day_is_only { dates.IsoDayIsOnly }
    ensures weeks_of_a_year { dates.WeeksOfAYear }
    ensures iso_weeks_are_only { dates.IsoWeeksAreOnly }
    ensures order_of_iso_weeks { dates.OrderOfIsoWeeks }
    ensures weeks_after_exists { dates.WeeksAfterExists }
    ensures weeks_after_is_only { dates.WeeksAfterIsOnly }
    ensures weeks_between_are_only { dates.WeeksBetweenAreOnly }
    ensures easter_is_only { dates.EasterIsOnly }
    ensures full_moons_differ { dates.FullMoonsDiffer }
    ensures earlier_full_moons { dates.EarlierFullMoons }
    ensures epact_of_the_first_year { dates.EpactOfTheFirstYear }
    ensures epact_of_the_next_year { dates.EpactOfTheNextYear }
    ensures solar_correction_of_the_next_century { dates.SolarCorrectionOfTheNextCentury }
    ensures lunar_corrections_from_1800 { dates.LunarCorrectionsFrom1800 }
    ensures lunar_correction_of_twenty_five_centuries { dates.LunarCorrectionOfTwentyFiveCenturies }
{}

/// States the laws of pages, parts, offsets, schedules, shares, combinations, halves, nearest quotients, logarithms and
/// factorials.
pub fn laws_of_models<P: Property, T: Integer>()
    ensures pages_are_only { models.PagesAreOnly }
    ensures place_exists { models.PlaceExists }
    ensures place_is_only { models.PlaceIsOnly }
    ensures parts_differ_by_one { models.PartsDifferByOne }
    ensures aligned_up_exists { models.AlignedUpExists }
    ensures aligned_up_is_only { models.AlignedUpIsOnly }
    ensures padding_is_only { models.PaddingIsOnly }
    ensures least_time_is_only { models.LeastTimeIsOnly T.value T.fits P.holds }
    ensures count_of_times_is_only { models.CountOfTimesIsOnly }
    ensures shares_by_remainder_are_only { models.SharesByRemainderAreOnly }
    ensures choice_of_rank_is_only { models.ChoiceOfRankIsOnly }
    ensures rank_is_below { models.RankIsBelow }
    ensures midpoint_is_only { models.MidpointIsOnly }
    ensures lower_bound_is_only { models.LowerBoundIsOnly T.value }
    ensures reduced_pair_exists { models.ReducedPairExists }
    ensures reduced_pair_is_only { models.ReducedPairIsOnly }
    ensures gcd_of_exists { models.GcdOfExists }
    ensures gcd_of_is_only { models.GcdOfIsOnly }
    ensures gcd_of_fits_exactly { models.GcdOfFitsExactly T.fits }
    ensures lcm_of_exists { models.LcmOfExists }
    ensures lcm_of_is_only { models.LcmOfIsOnly }
    ensures lcm_of_is_first_common_multiple { models.LcmOfIsFirstCommonMultiple }
    ensures logarithm_is_only { models.LogarithmIsOnly }
    ensures falling_formula { models.FallingFormula }
    ensures falling_by_coefficient { models.FallingByCoefficient }
{}
