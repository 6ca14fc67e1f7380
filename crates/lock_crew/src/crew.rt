//! Slots of tokens and places.

ghost use Rattle.std.specs.Prelude.{◌≡◌, ◌≤◌, [], All, vec_capacity, vec_len, IfOk};
ghost use Rattle.std.specs.List.{AllZip};
ghost use Rattle.index_lock.specs.Tokens.{IsLater};
ghost use Rattle.lock_crew.specs.Runs.{BringsBack, IsSlotReady, SlotHas};

use index_lock::{Logged, Seat, Split, TurnLock};
use std::alloc::{AllocError, Global};

/// What a thread takes, and gives back.
#[derive(Drop)]
pub struct Slot<S: Logged, P: Drop> {
    /// A token of the lock.
    pub seat: Seat<S>,
    /// What else the thread works with.
    pub place: P,
}

/// Room for so many slots, and for as many places that come back. It is made before any thread
/// runs, so that no token and no place is lost for want of memory.
pub fn rooms<S: Logged, P: Drop>(
    alloc: Global,
    count: usize,
) -> Result<(Vec<Option<Slot<S, P>>>, Vec<P>), AllocError>
    ensures { IfOk result (λ rooms. (rooms.0.items ≡ []) × (rooms.1.items ≡ [])
        × (count ≤ vec_capacity rooms.0) × (count ≤ vec_capacity rooms.1)) }
{
    Ok((
        Vec::with_capacity(alloc, count)?,
        Vec::with_capacity(alloc, count)?,
    ))
}

/// Fills a slot for each place, in order, with a token that has seen what the one token has.
pub fn seats_out<S: Logged, P: Drop>(
    lock: &TurnLock<S>,
    seat: Seat<S>,
    places: Vec<P>,
    slots: Vec<Option<Slot<S, P>>>,
) -> (Seat<S>, Vec<Option<Slot<S, P>>>)
    requires lock { seat.lock ≡ lock.now }
    requires none { slots.items ≡ [] }
    requires room { vec_len places ≤ vec_capacity slots }
    ensures same { result.0 ≡ seat }
    ensures slots { AllZip (IsSlotReady (λ slot. slot.seat) (λ slot. slot.place) seat)
        places.items result.1.items }
    ensures locks { All (SlotHas (λ slot. slot.seat.lock ≡ lock.now)) result.1.items }
    ensures count { vec_len result.1 ≡ vec_len places }
{
    let mut seat = seat;
    let mut slots = slots;
    for place in places {
        match lock.split(seat) {
            Split::Two(own, other) => {
                seat = own;
                slots.push_reserved(Some(Slot { seat: other, place }));
            }
            Split::OutOfMemory(_) => unreachable!(),
        }
    }
    (seat, slots)
}

/// Makes one token of all, which has seen what each of them had, and gives the places back in order.
pub fn seats_in<S: Logged, P: Drop>(
    lock: &TurnLock<S>,
    seat: Seat<S>,
    slots: Vec<Option<Slot<S, P>>>,
    places: Vec<P>,
) -> (Seat<S>, Vec<P>)
    requires lock { seat.lock ≡ lock.now }
    requires filled { All (SlotHas (λ slot. slot.seat.lock ≡ lock.now)) slots.items }
    requires none { places.items ≡ [] }
    requires room { vec_len slots ≤ vec_capacity places }
    ensures later { IsLater seat result.0 }
    ensures places { AllZip (BringsBack (λ slot. slot.seat) (λ slot. slot.place) result.0)
        slots.items result.1.items }
    ensures count { vec_len result.1 ≡ vec_len slots }
{
    let mut seat = seat;
    let mut places = places;
    for slot in slots {
        let Some(Slot { seat: other, place }) = slot else {
            unreachable!()
        };
        seat = lock.join(seat, other);
        places.push_reserved(place);
    }
    (seat, places)
}
