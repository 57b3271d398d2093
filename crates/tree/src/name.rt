// A node's name, written `t.k`: the ticket `t` that made the node, times 65,536, plus a count `k`.
// A loaded node has ticket 0, and the root is `0.0`. Names stay numbers of 64 bits, as the format of records states them, and `From`
// cannot be written for a pair of numbers.
ghost use Rattle.std.specs.Prelude.{◌≡◌};
ghost use Rattle.tree.specs.Names.{name_of, ticket_part, count_part};

pub const ROOT: u64 = 0;

pub fn node_name(ticket: u32, count: u16) -> u64
    ensures answer { result ≡ name_of ticket count }
{
    u64::from(ticket) * 65_536 + u64::from(count)
}

// The ticket that made the node. A number that is no node's name may have a part here that is no ticket, so it is not cut.
pub fn ticket_of(name: u64) -> u64
    ensures answer { result ≡ ticket_part name }
{
    name / 65_536
}

pub fn count_of(name: u64) -> u16
    ensures answer { result ≡ count_part name }
{
    (name % 65_536) as u16
}
