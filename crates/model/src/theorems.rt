//! One function for each theorem: its contract is the statement.

ghost use Rattle.model.specs.Theorems.{ModelObeys, RemainderHolds};

/// The remainder of the list of all maximal cliques after a pin has exactly the maximal cliques whose paths come after the
/// pin's, each once, by rising path.
pub fn remainder_holds()
    ensures { RemainderHolds }
{}

/// A step, a read and a resume answer as the model does, and leave the set at the model's pin standing.
pub fn model_obeys()
    ensures { ModelObeys }
{}
