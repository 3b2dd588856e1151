//! The laws of the definitions that the contracts of the exports use.

ghost use Rattle.std.specs.Prelude.{◌≡◌, ◌≤ℤ◌, ◌*ℤ◌, pos, Err, FitsSigned};
ghost use Rattle.std.specs.Int.{FitsUnsignedBits, w64};
ghost use Rattle.calendar.specs.Dates.{IsLastWeekdayOfMonth};
ghost use Rattle.calendar.specs.Weeks.{IsFirstWeekday};
ghost use Rattle.modular.specs.Congruences.{IsInverse};
ghost use Rattle.num_integer.specs.Division.{IsFloored, IsQuotient};
ghost use Rattle.num_integer.specs.RootOf.{IsRoot};
ghost use Rattle.ratio64.specs.Ratio.{AnswersFraction, den_of, num_of};
ghost use Rattle.ratio64.specs.Rounding.{IsRounded};
ghost use Rattle.cellarcove_c.specs.Congruences.{IsNever};
ghost use Rattle.cellarcove_c.specs.Laws.{AnswersIsOnly, AnswersModuloIsOnly, ClassOfBothIsOnly, DayOfIsoNumberIsOnly, FewestPagesIsOnly, FlooredListIsOnly, FractIsOnly, InDigitsIsOnly, InPartsIsOnly, MonthsBetweenIsOnly, MonthsLaterIsOnly, NextOfSeveralIsOnly, OfIsoNumberIsOnly, OnBothIsOnly, OrderNumberIsOnly, PaddingIsOnly, PowerIsOnly, ReadDateIsOnly, ReasonIsOnly, RootWithRestIsOnly, StandsForDecimalIsOnly, StandsForIsOnly, StandsForNumberIsOnly, StandsForReadIsOnly, SummedListIsOnly, YearsBetweenIsOnly};
ghost use Rattle.cellarcove_c.specs.Statuses.{StatusIs, no_solution, outside};

/// States each law. A law about every property is stated for one. No export calls it.
fn laws()
    ensures reason_is_only { ReasonIsOnly }
    ensures answers_is_only { AnswersIsOnly (pos 0 ≤ℤ pos 99) (IsRoot (pos 99) 2) (StatusIs outside) }
    ensures answers_modulo_is_only { AnswersModuloIsOnly (pos 7) no_solution
        (IsNever (IsInverse (pos 3) (pos 7))) (IsInverse (pos 3) (pos 7)) }
    ensures class_of_both_is_only { ClassOfBothIsOnly (λ x. pos x) (FitsUnsignedBits 64) }
    ensures next_of_several_is_only { NextOfSeveralIsOnly (λ x. x) (FitsSigned w64) }
    ensures floored_list_is_only { FlooredListIsOnly }
    ensures summed_list_is_only { SummedListIsOnly }
    ensures fewest_pages_is_only { FewestPagesIsOnly }
    ensures padding_is_only { PaddingIsOnly }
    ensures root_with_rest_is_only { RootWithRestIsOnly }
    ensures stands_for_is_only { StandsForIsOnly }
    ensures stands_for_number_is_only { StandsForNumberIsOnly
        (λ x number. IsQuotient IsFloored (num_of x) (den_of x) number) }
    ensures on_both_is_only { OnBothIsOnly
        (λ r x y. AnswersFraction (num_of x *ℤ num_of y) (den_of x *ℤ den_of y) r)
        (λ r e. r ≡ Err e) }
    ensures power_is_only { PowerIsOnly }
    ensures in_parts_is_only { InPartsIsOnly IsRounded }
    ensures in_digits_is_only { InDigitsIsOnly }
    ensures fract_is_only { FractIsOnly }
    ensures stands_for_read_is_only { StandsForReadIsOnly }
    ensures stands_for_decimal_is_only { StandsForDecimalIsOnly }
    ensures order_number_is_only { OrderNumberIsOnly }
    ensures months_later_is_only { MonthsLaterIsOnly }
    ensures months_between_is_only { MonthsBetweenIsOnly }
    ensures years_between_is_only { YearsBetweenIsOnly }
    ensures of_iso_number_is_only { OfIsoNumberIsOnly
        (λ w date. IsLastWeekdayOfMonth (pos 2026) 10 w date) }
    ensures day_of_iso_number_is_only { DayOfIsoNumberIsOnly (IsFirstWeekday (pos 0)) }
    ensures read_date_is_only { ReadDateIsOnly }
{}
