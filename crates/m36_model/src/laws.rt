//! Theorems about the definitions. Each is the contract of a function with an empty body.

ghost use Rattle.m36_model.specs.ChainList.{OneChain};
ghost use Rattle.m36_model.specs.Completed.{MarksOfCompletedReferences};
ghost use Rattle.m36_model.specs.OperandWords.{ReadsWordsInOrder, WritesWordsInOrder};
ghost use Rattle.m36_model.specs.StepCases.{StepHasACase, CaseIsTheStep};
ghost use Rattle.m36_model.specs.StoredBack.{StoredIsLoaded};
ghost use Rattle.m36_model.specs.Stores.{IndicatorsRoundTrip};

/// From each point there is exactly one address chain. It has at most 17 points, and the program
/// that forms the address gives its answer.
pub fn one_chain()
    ensures { OneChain }
{}

/// Each step is one of the cases of `StepCases`, and each case is the record and the state of the
/// step. After a refusal or a stop the registers are unchanged, and so are all words except for
/// marks; otherwise the whole effect happens. The marks are exactly those of the completed
/// references. A pair or block has the words at consecutive word numbers.
pub fn step_cases()
    ensures cases { StepHasACase }
    ensures only { CaseIsTheStep }
    ensures marks { MarksOfCompletedReferences }
    ensures reads { ReadsWordsInOrder }
    ensures writes { WritesWordsInOrder }
{}

/// Indicators that STI has stored are loaded back by LDI.
pub fn indicator_law()
    ensures { IndicatorsRoundTrip }
{}

/// Words that are stored are loaded back: a half of a word, a number of 72 bits, the parts of a
/// tally word; and LDBR, RTCD and LPRI load what SDBR, STCD and SPRI have stored.
pub fn stored_law()
    ensures { StoredIsLoaded }
{}
