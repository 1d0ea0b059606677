use st_base::Seq;
use st_messages::{Ticket, tickets};
use std::test::*;

// A ticket as a taker gets it.
fn ticket(place: u64, seq: Seq) -> Option<Ticket> {
    Some(Ticket { place, seq })
}

#[test]
fn two_takers_take_what_was_posted_in_order(rt: HostRuntime) -> Result<(), Fail> {
    let (mut poster, mut takers) = tickets(rt.alloc(), 3, 2)?;
    poster.post(&rt, 7);
    poster.post(&rt, 8);
    poster.post(&rt, 9);
    assert_eq!(rt; poster.posted(), 3);
    assert_eq!(rt; takers[0].take(&rt), ticket(1, 7));
    assert_eq!(rt; takers[1].take(&rt), ticket(2, 8));
    assert_eq!(rt; takers[0].take(&rt), ticket(3, 9));
    assert_eq!(rt; takers[0].take(&rt), None);
    assert_eq!(rt; takers[1].take(&rt), None);
    Ok(())
}

// A taker finds nothing before a ticket is posted, and what is posted then is the next.
#[test]
fn an_empty_queue_gives_none_until_the_next_is_posted(rt: HostRuntime) -> Result<(), Fail> {
    let (mut poster, mut takers) = tickets(rt.alloc(), 2, 1)?;
    assert_eq!(rt; takers[0].take(&rt), None);
    poster.post(&rt, 5);
    assert_eq!(rt; takers[0].take(&rt), ticket(1, 5));
    assert_eq!(rt; takers[0].take(&rt), None);
    poster.post(&rt, 5);
    assert_eq!(rt; takers[0].take(&rt), ticket(2, 5));
    assert_eq!(rt; poster.posted(), 2);
    Ok(())
}
