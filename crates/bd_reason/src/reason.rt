ghost use Rattle.std.specs.Prelude.{◌≡◌};
ghost use Rattle.bd_reason.specs.Reasons.{fact_of};

use bd_base::FactId;

/// Why one kid of a block is before another: it gives a fact that the other needs, it needs a fact that the other
/// deletes, or it deletes a fact that the other gives.
#[derive(Clone, Copy, Debug, PartialEq, Eq)]
pub enum Reason {
    PC(FactId),
    CD(FactId),
    DP(FactId),
}

impl Reason {
    /// The fact.
    pub fn fact(&self) -> FactId
        ensures { result ≡ fact_of self.now }
    {
        match self {
            Reason::PC(p) | Reason::CD(p) | Reason::DP(p) => *p,
        }
    }
}
