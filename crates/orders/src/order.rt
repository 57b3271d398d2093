// The sequence in which the open tickets can finish.
ghost use Rattle.std.specs.Prelude.{◌≡◌};
ghost use Rattle.model.specs.Arrows.{order_of};
ghost use Rattle.seats.specs.Listed.{listed};
ghost use Rattle.orders.specs.Opened.{OnePlace, open_at, arrow_at};

use crate::drawn::drawn;
use arrows::arrows::Arrows;
use seats::seats::Seats;
use seats::tickets::Tickets;

// Repeatedly the least ticket to which no arrow comes from one that remains.
pub fn order(seats: &Seats, arrows: &Arrows) -> Tickets
    ensures { OnePlace seats.now → listed result ≡ order_of (arrow_at seats.now arrows.now) (open_at seats.now) }
{
    drawn(seats, seats.taken(), |left| arrows.clear_of(left))
}
