//! What carries commands out.

ghost use Rattle.std.specs.Prelude.{◌≡◌, ◌<◌, ◌≤◌, length, IfOk, IfErr, OnOk, OnErr};
ghost use Rattle.pfx_store_engine.specs.Promises.{Promise, Laws, AreDone, AreNotDone, IsDone, IsNotDone, IsPlace, IsSame, IsEngineFault, Shows};
ghost use Rattle.pfx_store_engine.specs.Sharing.{AreChanges, AreAllDone, AreAllLeft};

use crate::place::RealTask;
use pfx_fault::Fault;
use pfx_jobs::job::Job;
use pfx_machine::{Board, Command, MachineFault, Reply, State};
use std::alloc::Global;

/// Why a command wasn't accepted.
#[derive(Clone, Copy, Debug, PartialEq, Eq)]
pub enum EngineFault {
    /// The machine refuses it: it takes no number and changes nothing.
    Refused(MachineFault),
    /// The engine failed, or an allocation failed: the run ends.
    Failed(Fault),
}

/// What a command is told: its number and its reply, or why the machine refuses it, which changes nothing.
pub type Told = Result<(u64, Reply), MachineFault>;

/// What carries commands out, one after the other.
pub trait Engine<J: Job> {
    /// What the engine promises: the state that its accepted commands made, the faults of its calls, and what is kept.
    ghost promise: { Promise J Self };

    /// Carries a command out: its number and its reply. The command is kept then.
    ///
    /// A command that the machine refuses changes nothing. `NoMemory` leaves the state. After another fault it isn't known
    /// whether the command is kept, if the machine accepts it.
    fn ask(&mut self, alloc: Global, command: Command<J>) -> Result<(u64, Reply), EngineFault>
        ensures done { IfOk result (λ r. IsDone J.kind promise command r.0 r.1 self.old self.new) }
        ensures not_done { IfErr result (IsNotDone J.kind promise command self.old self.new) };

    /// Carries Slots out one after the other, at least one and at most `count`: their numbers and their replies, in order. All
    /// of them are kept then.
    ///
    /// If the machine refuses the first, nothing changes; a Slot after those that are answered is asked for by the next
    /// call. `NoMemory` leaves the state. After another fault it isn't known how many Slots are kept, of those that the
    /// machine accepts one after the other, `count` at the most.
    fn slots(&mut self, alloc: Global, count: u32) -> Result<Vec<(u64, Reply)>, EngineFault>
        requires some { 0 < count }
        ensures done { IfOk result (λ said. AreDone J.kind promise count said.items self.old self.new) }
        ensures not_done { IfErr result (AreNotDone J.kind promise count self.old self.new) };

    /// Carries out commands that give tasks jobs or take jobs away, 16 at the most, one after the other: what each is told, in order.
    /// All that are accepted are kept then.
    ///
    /// After a fault it isn't known how many of them are kept, of those that the machine accepts one after the other.
    fn all(&mut self, alloc: Global, commands: Vec<Command<J>>) -> Result<Vec<Told>, Fault>
        requires changes { AreChanges commands.items }
        requires few { length commands.items ≤ 16 }
        ensures done { IfOk result (λ told. AreAllDone J.kind promise commands.items told.items self.old self.new) }
        ensures fails { IfErr result (IsEngineFault promise.faults (promise.state self.old)) }
        ensures left { OnErr result (AreAllLeft J.kind promise commands.items self.old self.new) };

    /// Waits until every accepted command is kept: the last one's number. The state stays.
    fn settled(&mut self, alloc: Global) -> Result<u64, Fault>
        ensures number { IfOk result (λ n. n ≡ (promise.state self.old).number) }
        ensures settled { OnOk result (promise.settled self.new) }
        ensures same { IsSame promise self.old self.new }
        ensures fails { IfErr result (IsEngineFault promise.faults (promise.state self.old)) };

    /// The board, once every accepted command is kept. The state stays.
    fn status(&mut self, alloc: Global) -> Result<Board, Fault>
        ensures shows { IfOk result (Shows J.kind (promise.state self.old)) }
        ensures settled { OnOk result (promise.settled self.new) }
        ensures same { IsSame promise self.old self.new }
        ensures fails { IfErr result (IsEngineFault promise.faults (promise.state self.old)) };

    /// A copy of the state after all accepted commands, once every one of them is kept. The state stays.
    fn state(&mut self, alloc: Global) -> Result<State<J>, Fault>
        ensures copies { IfOk result (λ copy. copy ≡ promise.state self.old) }
        ensures settled { OnOk result (promise.settled self.new) }
        ensures same { IsSame promise self.old self.new }
        ensures fails { IfErr result (IsEngineFault promise.faults (promise.state self.old)) };

    /// What a task has after all accepted commands, once every one of them is kept, or `None` if there is no real task of this number.
    /// The state stays.
    fn place(&mut self, alloc: Global, task: u16) -> Result<Option<RealTask<J>>, Fault>
        ensures copies { IfOk result (IsPlace (promise.state self.old) task) }
        ensures settled { OnOk result (promise.settled self.new) }
        ensures same { IsSame promise self.old self.new }
        ensures fails { IfErr result (IsEngineFault promise.faults (promise.state self.old)) };

    /// What is kept of no command, of some commands and then of more, and that fewer are kept where more are.
    ghost laws: { Laws promise };
}
