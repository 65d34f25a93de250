// Worked cases of the run and of algebras, as theorems: the definitions compute them.
#![tactic(auto)]

ghost use Rattle.specimens.specs.Algebras.{WorkedAlgebras};
ghost use Rattle.specimens.specs.Runs.{WorkedRuns};

// In the first Weyl algebra over the integers and in the quantum plane over q-polynomials: terms, steps and faults with their places.
pub fn runs_come_out_as_worked()
    ensures { WorkedRuns }
{}

// In U(sl2) over the integers, and where one of its tails is halved: overlaps, decisions, a product, and what is refused.
pub fn algebras_come_out_as_worked()
    ensures { WorkedAlgebras }
{}
