//! A front as the two clients of the run see it. They know no more of it, so that the run is proved over any front.

use crate::folds::command;
use pfx_book::book::Pass;
use pfx_crew::desk::Desk;
use pfx_front::calls::Front;
use pfx_front::faults::CallFault;
use pfx_front::name::Since;
use pfx_jobs::quantum::{Done, Quantum};
use pfx_kinds::any::AnyJob;
use std::alloc::Global;
use std::sync::Wait;

/// A front.
pub trait Service {
    /// A client's pass.
    type Pass: Drop;

    /// A pass for one more client.
    fn admit<R: Wait>(&self, rt: &R) -> Option<Self::Pass>;

    /// Asks the run's command of this number: the number that it is answered. `None` if there is no such command.
    fn asks<R: Wait>(
        &self,
        rt: &R,
        alloc: Global,
        pass: &mut Self::Pass,
        number: u64,
    ) -> Option<Result<u64, CallFault>>;

    /// Waits for the receipt of the command of this number: its number and its clock. `None` if the pass knows no such number.
    fn settle<R: Wait>(
        &self,
        rt: &R,
        pass: &mut Self::Pass,
        number: u64,
    ) -> Option<Result<(u64, u64), CallFault>>;
}

impl<B: Since<AnyJob>, K: Desk<Quantum<AnyJob>, Done<AnyJob>> + Drop> Service
    for Front<AnyJob, B, K>
where
    K::Seat: Drop,
{
    type Pass = Pass<AnyJob, B>;

    fn admit<R: Wait>(&self, rt: &R) -> Option<Pass<AnyJob, B>> {
        self.pass(rt)
    }

    fn asks<R: Wait>(
        &self,
        rt: &R,
        alloc: Global,
        pass: &mut Pass<AnyJob, B>,
        number: u64,
    ) -> Option<Result<u64, CallFault>> {
        let command = command(alloc, number)?;
        match self.ask(rt, pass, command) {
            Ok((given, _reply)) => Some(Ok(given)),
            Err(fault) => Some(Err(fault)),
        }
    }

    fn settle<R: Wait>(
        &self,
        rt: &R,
        pass: &mut Pass<AnyJob, B>,
        number: u64,
    ) -> Option<Result<(u64, u64), CallFault>> {
        if number == 0 || number > pass.greatest() {
            return None;
        }
        match self.settled(rt, pass, number) {
            Ok(acknowledged) => {
                let receipt = &acknowledged.receipt;
                Some(Ok((receipt.number, receipt.clock)))
            }
            Err(fault) => Some(Err(fault)),
        }
    }
}
