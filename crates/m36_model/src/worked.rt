//! Steps that were worked out by hand. Each is a theorem that the definitions compute.

ghost use Rattle.m36_model.specs.WorkedAddresses.{LoadReadsItsWord, StopFollows};
ghost use Rattle.m36_model.specs.WorkedAddresses.{LastWordOfTheBoundIsRead};
ghost use Rattle.m36_model.specs.WorkedAddresses.{WordPastTheBoundIsRefused};
ghost use Rattle.m36_model.specs.WorkedAddresses.{PairTakesTheBracketOfItsSegment};
ghost use Rattle.m36_model.specs.WorkedAddresses.{SeventeenthIndirectWordLocksUp};
ghost use Rattle.m36_model.specs.WorkedAddresses.{SixteenIndirectWordsAreServed};
ghost use Rattle.m36_model.specs.WorkedAddresses.{HeldIndexIsAddedAtTheEnd, TallyWordsCount};
ghost use Rattle.m36_model.specs.WorkedAddresses.{LoadSeesTheNewTallyWord};
ghost use Rattle.m36_model.specs.WorkedAddresses.{StoreComesAfterTheTallyWord};
ghost use Rattle.m36_model.specs.WorkedAddresses.{RefusedTallyWordChangesNothing};
ghost use Rattle.m36_model.specs.WorkedAddresses.{DirectOperandIsTheAddress};
ghost use Rattle.m36_model.specs.WorkedAddresses.{DirectOperandsAreRefused, TagsOfTheInstruction};
ghost use Rattle.m36_model.specs.WorkedAddresses.{FaultTagTakesTheBracketOfItsSegment};
ghost use Rattle.m36_model.specs.WorkedCalls.{CallThroughAGate, CallPastTheLimiter};
ghost use Rattle.m36_model.specs.WorkedCalls.{CallFromAboveTheBracket, OutwardCall};
ghost use Rattle.m36_model.specs.WorkedCalls.{CallWithRaisedRing, CallWithinTheRing};
ghost use Rattle.m36_model.specs.WorkedCalls.{ReturnTakesThePairsRing, ReturnTakesTheGreatestRing};
ghost use Rattle.m36_model.specs.WorkedCalls.{PackedPointerWithAWrongBitNumber, OneTakesTheLock};
ghost use Rattle.m36_model.specs.WorkedEffects.{ComparisonIsSigned, OverflowStoresAndFaults};
ghost use Rattle.m36_model.specs.WorkedEffects.{MaskedOverflowGoesOn, LeastNumberHasNoNegative};
ghost use Rattle.m36_model.specs.WorkedEffects.{SquareOfTheLeastNumber, QuotientIsCutTowardZero};
ghost use Rattle.m36_model.specs.WorkedEffects.{DivisionByZeroIsRefused, LeftShiftSetsCarry};
ghost use Rattle.m36_model.specs.WorkedEffects.{RightShiftCopiesTheSign, RotationComesRound};
ghost use Rattle.m36_model.specs.WorkedEffects.{TransferSetsTheIndex, BooleansGoBitByBit};
ghost use Rattle.m36_model.specs.WorkedEffects.{LongShiftsCrossTheWords, SignIsExtended};
ghost use Rattle.m36_model.specs.WorkedEffects.{IndicatorsAreLoaded, IndicatorsAreStored};

/// The definitions compute each worked step as it was worked out by hand. `specs/Worked.antt` and
/// the `Worked..` modules beside it have the steps.
pub fn worked_steps()
    ensures load_reads_its_word { LoadReadsItsWord }
    ensures stop_follows { StopFollows }
    ensures last_word_of_the_bound_is_read { LastWordOfTheBoundIsRead }
    ensures word_past_the_bound_is_not { WordPastTheBoundIsRefused }
    ensures pair_takes_the_bracket_of_its_segment { PairTakesTheBracketOfItsSegment }
    ensures seventeenth_indirect_word_locks_up { SeventeenthIndirectWordLocksUp }
    ensures sixteen_indirect_words_are_served { SixteenIndirectWordsAreServed }
    ensures index_is_held_over_the_indirect_word { HeldIndexIsAddedAtTheEnd }
    ensures tally_words_count { TallyWordsCount }
    ensures load_sees_the_new_tally_word { LoadSeesTheNewTallyWord }
    ensures store_comes_after_the_tally_word { StoreComesAfterTheTallyWord }
    ensures refused_tally_word_changes_nothing { RefusedTallyWordChangesNothing }
    ensures direct_operand_is_the_address { DirectOperandIsTheAddress }
    ensures direct_operands_are_refused { DirectOperandsAreRefused }
    ensures tags_of_the_instruction { TagsOfTheInstruction }
    ensures fault_tag_takes_the_bracket_of_its_segment { FaultTagTakesTheBracketOfItsSegment }
    ensures call_through_a_gate { CallThroughAGate }
    ensures call_past_the_limiter { CallPastTheLimiter }
    ensures call_from_above_the_bracket { CallFromAboveTheBracket }
    ensures outward_call { OutwardCall }
    ensures call_with_raised_ring { CallWithRaisedRing }
    ensures call_within_the_ring { CallWithinTheRing }
    ensures return_takes_the_pairs_ring { ReturnTakesThePairsRing }
    ensures return_takes_the_greatest_ring { ReturnTakesTheGreatestRing }
    ensures packed_pointer_with_a_wrong_bit_number { PackedPointerWithAWrongBitNumber }
    ensures one_takes_the_lock { OneTakesTheLock }
    ensures comparison_is_signed { ComparisonIsSigned }
    ensures overflow_stores_and_faults { OverflowStoresAndFaults }
    ensures masked_overflow_goes_on { MaskedOverflowGoesOn }
    ensures least_number_has_no_negative { LeastNumberHasNoNegative }
    ensures square_of_the_least_number { SquareOfTheLeastNumber }
    ensures quotient_is_cut_toward_zero { QuotientIsCutTowardZero }
    ensures division_by_zero_is_refused { DivisionByZeroIsRefused }
    ensures left_shift_sets_carry { LeftShiftSetsCarry }
    ensures right_shift_copies_the_sign { RightShiftCopiesTheSign }
    ensures rotation_comes_round { RotationComesRound }
    ensures transfer_sets_the_index { TransferSetsTheIndex }
    ensures booleans_go_bit_by_bit { BooleansGoBitByBit }
    ensures long_shifts_cross_the_words { LongShiftsCrossTheWords }
    ensures sign_is_extended { SignIsExtended }
    ensures indicators_are_loaded { IndicatorsAreLoaded }
    ensures indicators_are_stored { IndicatorsAreStored }
{}
