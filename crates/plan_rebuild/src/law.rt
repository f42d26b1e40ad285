ghost use Rattle.plan_rebuild.specs.Measure.{AcceptedFalls};

/// Each accepted offer lowers the cost, or leaves it and ends what is due, or leaves both and lowers the ordered pairs.
pub fn accepted_falls()
    ensures { AcceptedFalls }
{}
