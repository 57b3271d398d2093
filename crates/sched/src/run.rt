// A whole list of turns, from the making of the scheduler on.
ghost use Rattle.std.specs.Prelude.{◌≡◌, ◌≤◌, [], length, take, map, IfOk};
ghost use Rattle.model.specs.History as history;
ghost use Rattle.calls.specs.Answers.{answer_of};
ghost use Rattle.sched.specs.Whole.{state_of, making};
ghost use Rattle.sched.specs.Turns.{Agreed, names_in, tickets_in};
ghost use Rattle.sched.specs.Runs.{answer_in, turns_of, happened};

use crate::scheduler::Scheduler;
use calls::answer::{Answer, Counted};
use calls::call::Turn;
use std::alloc::{AllocError, Global};
use tree::Store;

// The answer that holds its list.
pub type Outcome = Answer<Vec<u64>, Vec<u32>>;

// The outcomes of the turns, in their sequence, and the scheduler that is left.
#[derive(Drop)]
pub struct Played<S: Store> {
    pub outcomes: Vec<Outcome>,
    pub scheduler: Scheduler<S>,
}

// The first of the items.
fn front<T: Copy>(heap: Global, items: &[T], count: usize) -> Result<Vec<T>, AllocError>
    requires { count ≤ length items.now }
    ensures { IfOk result (λ v. v.items ≡ take count items.now) }
{
    let mut list = Vec::new(heap);
    list.extend_from_slice(&items[..count])?;
    Ok(list)
}

// The answer with its list, which stands at the start of the buffer of its kind.
fn owned(
    heap: Global,
    answer: Counted,
    names: &[u64],
    tickets: &[u32],
) -> Result<Outcome, AllocError>
    requires names { names_in answer ≤ length names.now }
    requires tickets { tickets_in answer ≤ length tickets.now }
    ensures { IfOk result (λ o. answer_in o ≡ answer_of answer names.now tickets.now) }
{
    Ok(match answer {
        Answer::Ticket(ticket) => Answer::Ticket(ticket),
        Answer::Found(count) => Answer::Found(front(heap, names, count)?),
        Answer::Made(name) => Answer::Made(name),
        Answer::Removed => Answer::Removed,
        Answer::Finished(place) => Answer::Finished(place),
        Answer::Withdrawn(count) => Answer::Withdrawn(front(heap, tickets, count)?),
        Answer::Ordered(count) => Answer::Ordered(front(heap, tickets, count)?),
        Answer::Refused(reason) => Answer::Refused(reason),
    })
}

// Makes the turns one by one.
fn play<S: Store>(
    heap: Global,
    scheduler: &mut Scheduler<S>,
    turns: &[Turn],
    names: &mut [u64],
    tickets: &mut [u32],
) -> Result<Vec<Outcome>, AllocError>
    ensures each { IfOk result (λ os. length os.items ≡ length turns.now) }
    ensures play { IfOk result (λ os. history.play (state_of scheduler.old) (turns_of turns.now (length names.old) (length tickets.old)) [] ≡ (happened (turns_of turns.now (length names.old) (length tickets.old)) (map answer_in os.items), state_of scheduler.new)) }
{
    let mut outcomes = Vec::new(heap);
    for turn in turns {
        let answer = scheduler.turn(turn, names, tickets);
        outcomes.push(owned(heap, answer, names, tickets)?)?;
    }
    Ok(outcomes)
}

// Makes a scheduler over the store and then the turns, with buffers for so many names and tickets.
pub fn run<S: Store + Drop>(
    heap: Global,
    store: S,
    first: u32,
    turns: &[Turn],
    names: usize,
    tickets: usize,
) -> Result<Played<S>, AllocError>
    ensures each { IfOk result (λ r. length r.outcomes.items ≡ length turns.now) }
    ensures run { IfOk result (λ r. history.run (making (S.Store.meaning store) first) (turns_of turns.now names tickets) ≡ (happened (turns_of turns.now names tickets) (map answer_in r.outcomes.items), state_of r.scheduler)) }
    ensures law { IfOk result (λ r. Agreed (making (S.Store.meaning store) first) (happened (turns_of turns.now names tickets) (map answer_in r.outcomes.items)) (state_of r.scheduler)) }
{
    let mut scheduler = Scheduler::new(heap, store, first)?;
    let mut names = vec![in heap; 0; names]?;
    let mut tickets = vec![in heap; 0; tickets]?;
    let outcomes = play(heap, &mut scheduler, turns, &mut names, &mut tickets)?;
    Ok(Played {
        outcomes,
        scheduler,
    })
}
