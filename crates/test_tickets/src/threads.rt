ghost use Rattle.std.specs.Prelude.{◌≡◌, ◌+◌, ◌≤◌, length};
ghost use Rattle.std.specs.Thread.{IsSync};

use st_base::Seq;
use st_messages::{Poster, Taker, tickets};
use std::alloc::{AllocError, Global};
use std::sync::Wait;
use std::test::*;
use std::thread::{Threads, join};

// So many tickets are posted.
const POSTED: Seq = 2000;

// Posts so many tickets.
fn post_all<R: Wait>(rt: &R, poster: &mut Poster, count: Seq)
    requires { length poster.old.tickets + count ≤ poster.old.capacity }
{
    for seq in 0..count {
        poster.post(rt, seq);
    }
}

// Takes tickets until the queue is empty, and returns their places.
fn taken<R: Wait>(rt: &R, alloc: Global, mut taker: Taker) -> Result<Vec<u64>, AllocError> {
    let mut places = Vec::new(alloc);
    for _ in rt.forever() {
        match taker.take(rt) {
            Some(ticket) => places.push(ticket.place)?,
            None => break,
        }
    }
    Ok(places)
}

type Places = Result<Vec<u64>, AllocError>;

// Lets two takers take at the same time.
fn taken_by_two<R: Threads + Wait + Sync>(
    rt: &R,
    alloc: Global,
    one: Taker,
    two: Taker,
) -> (Places, Places) {
    join(
        rt,
        move ||
            requires { IsSync R.row }
        { taken(rt, alloc, one) },
        move ||
            requires { IsSync R.row }
        { taken(rt, alloc, two) },
    )
}

// Whether each place is greater than the one before it.
fn ascend(places: &[u64]) -> bool {
    let mut last = 0;
    for place in places {
        if *place <= last {
            return false;
        }
        last = *place;
    }
    true
}

// Counts how often each place was taken.
fn count_places(times: &mut [u32], places: &[u64]) {
    for place in places {
        if let Some(count) = times.get_mut(*place as usize) {
            *count = count.wrapping_add(1);
        }
    }
}

// Whether each place from 1 on was taken once, and place 0 never.
fn are_once(times: &[u32]) -> bool {
    for place in 0..times.len() {
        if times[place] != if place == 0 { 0 } else { 1 } {
            return false;
        }
    }
    true
}

#[test]
fn two_threads_take_each_ticket_once_in_order(rt: HostRuntime) -> Result<(), Fail> {
    let alloc = rt.alloc();
    let (mut poster, mut takers) = tickets(alloc, u32::from(POSTED), 2)?;
    post_all(&rt, &mut poster, POSTED);
    let (Some(two), Some(one)) = (takers.pop(), takers.pop()) else {
        return Err(Fail::from(AllocError));
    };
    let (one, two) = taken_by_two(&rt, alloc, one, two);
    let (one, two) = (one?, two?);
    assert!(rt; ascend(one.as_slice()));
    assert!(rt; ascend(two.as_slice()));
    assert_eq!(rt; one.len() + two.len(), POSTED as usize);
    let mut times = vec![in alloc; 0u32; POSTED as usize + 1]?;
    count_places(&mut times, one.as_slice());
    count_places(&mut times, two.as_slice());
    assert!(rt; are_once(times.as_slice()));
    Ok(())
}
