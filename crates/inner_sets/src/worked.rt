//! Worked examples of the definitions. Each is the contract of a function that does nothing.

ghost use Rattle.game_model.specs.Worked.{prisoners};
ghost use Rattle.inner_sets.specs.Choice.{IsChoice};
ghost use Rattle.inner_sets.specs.Worked.{both_points, one_point};

/// In the prisoner's dilemma the payoffs of defection are a choice at discount factor 49/100, and together with those of
/// cooperation they are one at 1/2.
pub fn points_are_given()
    ensures patient { IsChoice (prisoners 1 2) 1 both_points }
    ensures impatient { IsChoice (prisoners 49 100) 1 one_point }
{}
