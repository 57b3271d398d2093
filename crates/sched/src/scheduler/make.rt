// How a scheduler is made.
ghost use Rattle.std.specs.Prelude.{◌≡◌, IfOk};
ghost use Rattle.model.specs.Scheduler.{make};
ghost use Rattle.model.specs.Law.{Kept};
ghost use Rattle.sched.specs.Whole.{state_of, making};

use crate::scheduler::Scheduler;
use crate::station::Station;
use desk::desk::Desk;
use std::alloc::{AllocError, Global};
use tree::Store;
use walks::choice::fit_for;
use walks::hits::Hits;

impl<S: Store + Drop> Scheduler<S> {
    // Over any store: where it cannot begin with it, the scheduler is unfit and refuses every call. All memory is reserved here.
    pub fn new(heap: Global, store: S, first: u32) -> Result<Scheduler<S>, AllocError>
        ensures state { IfOk result (λ s. state_of s ≡ make (making (S.Store.meaning store) first)) }
        ensures kept { Kept (making (S.Store.meaning store) first) }
    {
        let fit = fit_for(&store, first);
        let desk = Desk::new(heap, first, fit)?;
        let hits = Hits::new(heap)?;
        let station = Station { store, desk };
        Ok(Scheduler { station, hits })
    }
}
