// The turns that kiosks take.
ghost use Rattle.std.specs.Prelude.{◌≡◌, length};
ghost use Rattle.model.specs.Calls.{step};
ghost use Rattle.calls.specs.Answers.{call_of, turn_of, answer_of, Leaves};
ghost use Rattle.sched.specs.Whole.{state_of};
ghost use Rattle.sched.specs.Turns.{Lawful, names_in, tickets_in};

use crate::scheduler::Scheduler;
use calls::answer::{Answer, Counted};
use calls::call::{Call, Turn};
use tree::Store;

impl<S: Store> Scheduler<S> {
    fn answer(&mut self, call: Call, names: &mut [u64], tickets: &mut [u32]) -> Counted
        ensures step { step (state_of self.old) (call_of call (length names.old) (length tickets.old)) ≡ (state_of self.new, answer_of result names.new tickets.new) }
        ensures names { Leaves (names_in result) names.old names.new }
        ensures tickets { Leaves (tickets_in result) tickets.old tickets.new }
    {
        match call {
            Call::Open => self.open().map_or_else(Answer::Refused, Answer::Ticket),
            Call::Ask(ticket, query) => {
                let answer = self.ask(ticket, &query, names);
                answer.map_or_else(Answer::Refused, Answer::Found)
            }
            Call::Add(ticket, node, label) => {
                let answer = self.add(ticket, node, label);
                answer.map_or_else(Answer::Refused, Answer::Made)
            }
            Call::Remove(ticket, node) => {
                let answer = self.remove(ticket, node);
                answer.map_or_else(Answer::Refused, |()| Answer::Removed)
            }
            Call::Finish(ticket) => {
                let answer = self.finish(ticket);
                answer.map_or_else(Answer::Refused, Answer::Finished)
            }
            Call::Withdraw(ticket) => {
                let answer = self.withdraw(ticket, tickets);
                answer.map_or_else(Answer::Refused, Answer::Withdrawn)
            }
            Call::Order => self
                .order(tickets)
                .map_or_else(Answer::Refused, Answer::Ordered),
        }
    }

    // A list that is answered stands at the start of the buffer of its kind; by rule each is a slice that the caller lends.
    pub fn turn(&mut self, turn: &Turn, names: &mut [u64], tickets: &mut [u32]) -> Counted
        ensures step { step (state_of self.old) (call_of turn.now.call (length names.old) (length tickets.old)) ≡ (state_of self.new, answer_of result names.new tickets.new) }
        ensures law { Lawful (state_of self.old) (turn_of turn.now (length names.old) (length tickets.old)) (answer_of result names.new tickets.new) (state_of self.new) }
        ensures names { Leaves (names_in result) names.old names.new }
        ensures tickets { Leaves (tickets_in result) tickets.old tickets.new }
    {
        self.answer(turn.call, names, tickets)
    }
}
