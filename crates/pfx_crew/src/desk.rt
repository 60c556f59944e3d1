use std::alloc::AllocError;
use std::sync::Wait;

/// A desk at which quanta of type `Q` are dealt and results of type `D` handed back, shared by reference.
///
/// Each thread has a seat at it. A call adds its message to one list of its own seat, in order, and leaves the other lists as
/// they are. A call may wait. Once the desk is closed, what is brought comes back in an `Err` and what is asked for is `None`.
pub trait Desk<Q, D> {
    ghost use Rattle.std.specs.Prelude.{◌≡◌, List, [], ◌∷◌, ◌++◌, IfOk, IfSome, IfNone, MatchResult};

    /// A thread's place at the desk.
    type Seat;

    /// The quanta that a seat dealt.
    ghost dealt: { Self.Seat → List Q };

    /// The quanta that it took.
    ghost took: { Self.Seat → List Q };

    /// The results that it handed back.
    ghost handed: { Self.Seat → List D };

    /// The results that it collected.
    ghost collected: { Self.Seat → List D };

    /// A seat, for any thread. `AllocError` if an allocation fails.
    fn seat<R: Wait>(&self, rt: &R) -> Result<Self::Seat, AllocError>
        ensures { IfOk result (λ s. (dealt s ≡ []) × (took s ≡ []) × (handed s ≡ []) × (collected s ≡ [])) };

    /// Deals a quantum to whoever takes it, or gives it back.
    fn deal<R: Wait>(&self, rt: &R, seat: &mut Self::Seat, quantum: Q) -> Result<(), Q>
        ensures dealt { MatchResult result (λ _. dealt seat.new ≡ dealt seat.old ++ quantum ∷ [])
            (λ q. (q ≡ quantum) × (dealt seat.new ≡ dealt seat.old)) }
        ensures same { (took seat.new ≡ took seat.old) × (handed seat.new ≡ handed seat.old) × (collected seat.new ≡ collected seat.old) };

    /// Takes the next quantum.
    fn next<R: Wait>(&self, rt: &R, seat: &mut Self::Seat) -> Option<Q>
        ensures some { IfSome result (λ q. took seat.new ≡ took seat.old ++ q ∷ []) }
        ensures none { IfNone result (took seat.new ≡ took seat.old) }
        ensures same { (dealt seat.new ≡ dealt seat.old) × (handed seat.new ≡ handed seat.old) × (collected seat.new ≡ collected seat.old) };

    /// Hands a result back, or gives it back if it can't.
    fn hand_back<R: Wait>(&self, rt: &R, seat: &mut Self::Seat, done: D) -> Result<(), D>
        ensures handed { MatchResult result (λ _. handed seat.new ≡ handed seat.old ++ done ∷ [])
            (λ d. (d ≡ done) × (handed seat.new ≡ handed seat.old)) }
        ensures same { (dealt seat.new ≡ dealt seat.old) × (took seat.new ≡ took seat.old) × (collected seat.new ≡ collected seat.old) };

    /// Collects the next result.
    fn collect<R: Wait>(&self, rt: &R, seat: &mut Self::Seat) -> Option<D>
        ensures some { IfSome result (λ d. collected seat.new ≡ collected seat.old ++ d ∷ []) }
        ensures none { IfNone result (collected seat.new ≡ collected seat.old) }
        ensures same { (dealt seat.new ≡ dealt seat.old) × (took seat.new ≡ took seat.old) × (handed seat.new ≡ handed seat.old) };

    /// Closes the desk. It may be closed again.
    fn close<R: Wait>(&self, rt: &R, seat: &mut Self::Seat)
        ensures same { (dealt seat.new ≡ dealt seat.old) × (took seat.new ≡ took seat.old) × (handed seat.new ≡ handed seat.old)
            × (collected seat.new ≡ collected seat.old) };
}
