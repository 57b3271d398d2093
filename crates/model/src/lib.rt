// The model of the scheduler, and the law of its two runs. Each function here stands for the law that its contract states.
#![tactic(auto)]

ghost use Rattle.model.specs.Law.{Agreement, Lasting, Whole};
ghost use Rattle.model.specs.Health.{Health, Alike};
ghost use Rattle.model.specs.Meanings.{FitExact, WayExact, ConflictExact, ReachExact, RingExact, WithdrawExact, OrderExact};
ghost use Rattle.model.specs.Example.{Examples};

pub mod kiosk;

// What really happened agrees with a run of one transaction after another, in every arrangement that follows the arrows.
pub fn runs_agree()
    ensures law { Agreement }
{}

// A finished transaction keeps its place, whatever follows.
pub fn finished_stays()
    ensures law { Lasting }
{}

// The agreement of any list of turns, by what goes in and what comes out.
pub fn whole_run_agrees()
    ensures law { Whole }
{}

// What holds in every state that is reached.
pub fn states_are_healthy()
    ensures law { Health × Alike }
{}

// Conflict is an ancestor, a row of labels and the language of a path.
pub fn conflict_is_exact()
    ensures law { FitExact × WayExact × ConflictExact }
{}

// There is never a ring, and only what would close one is refused for it; a withdrawal takes what arrows lead to.
pub fn arrows_are_exact()
    ensures law { ReachExact × RingExact × WithdrawExact }
{}

// Order writes what its rule says.
pub fn order_is_exact()
    ensures law { OrderExact }
{}

// Two runs on a small tree, and their agreement, computed.
pub fn examples_compute()
    ensures law { Examples }
{}
