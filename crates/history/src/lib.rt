// What is true at every point of a study's history, for every ground.
#![tactic(auto)]

ghost use Rattle.history.specs.Law.{HistoryLaw};

// Whatever calls were made, refused ones included.
fn history_is_lawful()
    ensures { HistoryLaw }
{}
