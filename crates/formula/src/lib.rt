// Temporal formulas: their meaning on sequences, their automata, and the theorem between the two. Laws of the definitions,
// each with nothing to compute.
#![tactic(auto)]

ghost use Rattle.formula.specs.Examples.{FutureExamples, PastExamples};
ghost use Rattle.formula.specs.Laws.{FormulaLaws};
ghost use Rattle.formula.specs.Theorem.{LinesDriven};

// The automaton of a line that can be read is driven to a bad state, by a sequence of one event or more, exactly when the
// line does not hold on it.
pub fn lines_driven()
    ensures { LinesDriven }
{}

// Unfoldings of U, V, G, F, S and O, and the dualities.
pub fn formula_laws()
    ensures { FormulaLaws }
{}

// Lines on words of one to three events, worked out by hand.
pub fn worked_examples()
    ensures future { FutureExamples }
    ensures past { PastExamples }
{}
