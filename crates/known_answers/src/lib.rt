//! The worked examples of the rule book, proved together from the definitions by computation.

#![tactic(auto)]

ghost use Rattle.known_answers.specs.Arithmetic.{Remainders, ResultsWrap};
ghost use Rattle.known_answers.specs.Drives.{PathsAreDriven};
ghost use Rattle.known_answers.specs.Exact.{ExactCodes, ExactCombines, ExactNarrows};
ghost use Rattle.known_answers.specs.Macros.{MacroAIsPacked, MacroAReads, MacroAWithNoSuchPlace, MacroBIsPacked, MacroBReads};
ghost use Rattle.known_answers.specs.Span.{SpanCodes, SpanCombines, SpanNarrows};

/// Has no work to do: its contract is the table, so that the crate is built only if each line of it holds.
pub fn known_answers()
    ensures macro_a_reads { MacroAReads }
    ensures macro_b_reads { MacroBReads }
    ensures no_such_place { MacroAWithNoSuchPlace }
    ensures macro_a_is_packed { MacroAIsPacked }
    ensures macro_b_is_packed { MacroBIsPacked }
    ensures results_wrap { ResultsWrap }
    ensures remainders { Remainders }
    ensures paths_are_driven { PathsAreDriven }
    ensures exact_combines { ExactCombines }
    ensures exact_narrows { ExactNarrows }
    ensures exact_codes { ExactCodes }
    ensures span_combines { SpanCombines }
    ensures span_narrows { SpanNarrows }
    ensures span_codes { SpanCodes }
{}
