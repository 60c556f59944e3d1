ghost use Rattle.std.specs.Prelude.{◌≡◌, map};
ghost use Rattle.pfx_machine.specs.Slots.{deal};
ghost use Rattle.pfx_crew.specs.Work.{Serves, Works};

use crate::desk::Desk;
use pfx_jobs::job::Job;
use pfx_jobs::quantum::{Done, Quantum};
use std::sync::Wait;

/// Takes one quantum and hands back its result. False if the desk gave none or didn't take the result.
fn serve<J: Job, R: Wait, K: Desk<Quantum<J>, Done<J>>>(
    rt: &R,
    desk: &K,
    seat: &mut K::Seat,
) -> bool
    ensures serves { Serves result (map (λ q. deal q.number q.slot q.task q.before) (K.took seat.old))
        (map (λ q. deal q.number q.slot q.task q.before) (K.took seat.new))
        (map (λ d. deal d.number d.slot d.task d.before) (K.handed seat.old))
        (map (λ d. deal d.number d.slot d.task d.before) (K.handed seat.new)) }
    ensures same { (K.dealt seat.new ≡ K.dealt seat.old) × (K.collected seat.new ≡ K.collected seat.old) }
{
    let Some(quantum) = desk.next(rt, seat) else {
        return false;
    };
    match desk.hand_back(rt, seat, quantum.run()) {
        Ok(()) => true,
        Err(_done) => false,
    }
}

/// Takes quanta and hands back their results, in the order in which it takes them, until the desk is closed. Of the last
/// quantum the desk may have refused the result. Where there is none it waits as the desk does.
pub fn worker<J: Job, R: Wait, K: Desk<Quantum<J>, Done<J>>>(
    rt: &R,
    desk: &K,
    seat: K::Seat,
) -> K::Seat
    ensures works { Works (map (λ q. deal q.number q.slot q.task q.before) (K.took seat))
        (map (λ q. deal q.number q.slot q.task q.before) (K.took result))
        (map (λ d. deal d.number d.slot d.task d.before) (K.handed seat))
        (map (λ d. deal d.number d.slot d.task d.before) (K.handed result)) }
    ensures same { (K.dealt result ≡ K.dealt seat) × (K.collected result ≡ K.collected seat) }
{
    let mut seat = seat;
    for _ in rt.forever() {
        if !serve::<J, R, K>(rt, desk, &mut seat) {
            return seat;
        }
    }
    unreachable!()
}
