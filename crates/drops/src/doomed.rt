// The records that go when a ticket finishes, and when tickets are withdrawn.
ghost use Rattle.std.specs.Prelude.{◌≡◌, ◌==◌};
ghost use Rattle.tree.specs.Names.{ticket_part};
ghost use Rattle.model.specs.Numbers.{member};
ghost use Rattle.drops.specs.Doomed.{Drops};

use crate::passes::drop_all;
use tree::{Record, Store, ticket_of};
use walks::choice::Choice;

// The records that a ticket has marked.
#[derive(Clone, Copy)]
struct MarkedBy {
    ticket: u32,
}

impl Choice for MarkedBy {
    ghost chosen = { λ c r. (r.mark == c.ticket) };

    fn is_chosen(&self, node: &Record) -> bool {
        node.mark == self.ticket
    }
}

// Drops every record that the ticket has marked, where it has marked their children too.
pub fn drop_marked<S: Store>(store: &mut S, ticket: u32)
    ensures { Drops (λ r. (r.mark == ticket)) (S.Store.meaning store.old) (S.Store.meaning store.new) }
{
    drop_all(store, &MarkedBy { ticket });
}

// Whether the ticket is one of these.
pub fn is_among(ticket: u64, tickets: &[u32]) -> bool
    ensures { result ≡ member ticket tickets.now }
{
    tickets.iter().any(|t| ticket == u64::from(*t))
}

// The records whose nodes one of the tickets has made.
#[derive(Clone, Copy)]
struct MadeBy<'a> {
    tickets: &'a [u32],
}

impl<'a> Choice for MadeBy<'a> {
    ghost chosen = { λ c r. member (ticket_part r.name) c.tickets.now };

    fn is_chosen(&self, node: &Record) -> bool {
        is_among(ticket_of(node.name), self.tickets)
    }
}

// Drops every record whose node one of the tickets has made, where they have made their children too.
pub fn drop_made<S: Store>(store: &mut S, tickets: &[u32])
    ensures { Drops (λ r. member (ticket_part r.name) tickets.now) (S.Store.meaning store.old) (S.Store.meaning store.new) }
{
    drop_all(store, &MadeBy { tickets });
}
