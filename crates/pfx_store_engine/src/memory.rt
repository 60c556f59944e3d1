//! The engine that keeps nothing: a state in memory, in which every accepted command counts as kept.

ghost use Rattle.std.specs.Prelude.{◌≡◌, ◌≤◌, length, IfOk, IfErr, OnOk, OnErr, ⊤};
ghost use Rattle.pfx_store_engine.specs.Promises.{Promise, Laws, AreDone, AreNotDone, IsDone, IsNotDone, IsSame, IsEngineFault, Shows};
ghost use Rattle.pfx_store_engine.specs.Sharing.{AreChanges, AreAllDone, AreAllLeft};

use crate::engine::{Engine, EngineFault, Told};
use crate::place::RealTask;
use crate::places::place_of;
use pfx_choice::ChoiceFault;
use pfx_fault::Fault;
use pfx_jobs::job::Job;
use pfx_machine::{Board, Command, MachineFault, Reply, State};
use std::alloc::Global;

impl<J: Job> Engine<J> for State<J> {
    ghost promise = { record { state = λ s. s; faults = λ s f. ⊥; settled = λ s. ⊤; keeps = λ a H n b. ⊤ } };

    ghost laws = { record { none = λ e. tt; more = λ a b c H G n settled one two. tt; fewer = λ a b H n m le one. tt } };

    fn ask(&mut self, _alloc: Global, command: Command<J>) -> Result<(u64, Reply), EngineFault>
        ensures done { IfOk result (λ r. IsDone J.kind ⟦<State<J> as Engine<J>>⟧.promise command r.0 r.1 self.old self.new) }
        ensures not_done { IfErr result (IsNotDone J.kind ⟦<State<J> as Engine<J>>⟧.promise command self.old self.new) }
    {
        let before = self.number();
        match self.apply(command) {
            Ok(said) => Ok((before + 1, said)),
            Err(MachineFault::NoRow(ChoiceFault::NoMemory)) => Err(EngineFault::Failed(
                Fault::NoMemory,
            )),
            Err(fault) => Err(EngineFault::Refused(fault)),
        }
    }

    fn slots(&mut self, alloc: Global, count: u32) -> Result<Vec<(u64, Reply)>, EngineFault> {
        let Ok(mut said) = Vec::with_capacity(alloc, count as usize) else {
            return Err(EngineFault::Failed(Fault::NoMemory));
        };
        for _ in 0..count {
            let before = self.number();
            match self.apply(Command::Slot) {
                Ok(reply) => said.push_reserved((before + 1, reply)),
                Err(_) if !said.is_empty() => return Ok(said),
                Err(MachineFault::NoRow(ChoiceFault::NoMemory)) => return Err(EngineFault::Failed(
                    Fault::NoMemory,
                )),
                Err(fault) => return Err(EngineFault::Refused(fault)),
            }
        }
        Ok(said)
    }

    fn all(&mut self, alloc: Global, commands: Vec<Command<J>>) -> Result<Vec<Told>, Fault>
        requires changes { AreChanges commands.items }
        requires few { length commands.items ≤ 16 }
        ensures done { IfOk result (λ told. AreAllDone J.kind ⟦<State<J> as Engine<J>>⟧.promise commands.items told.items self.old self.new) }
        ensures fails { IfErr result (IsEngineFault ⟦<State<J> as Engine<J>>⟧.promise.faults self.old) }
        ensures left { OnErr result (AreAllLeft J.kind ⟦<State<J> as Engine<J>>⟧.promise commands.items self.old self.new) }
    {
        let Ok(mut told) = Vec::with_capacity(alloc, commands.len()) else {
            return Err(Fault::NoMemory);
        };
        for change in commands {
            let before = self.number();
            match self.apply(change) {
                Ok(reply) => told.push_reserved(Ok((before + 1, reply))),
                Err(fault) => told.push_reserved(Err(fault)),
            }
        }
        Ok(told)
    }

    fn settled(&mut self, _alloc: Global) -> Result<u64, Fault> {
        Ok(self.number())
    }

    fn status(&mut self, alloc: Global) -> Result<Board, Fault> {
        match self.board(alloc) {
            Ok(board) => Ok(board),
            Err(_) => Err(Fault::NoMemory),
        }
    }

    fn state(&mut self, alloc: Global) -> Result<State<J>, Fault> {
        match self.copy_of(alloc) {
            Ok(copy) => Ok(copy),
            Err(_) => Err(Fault::NoMemory),
        }
    }

    fn place(&mut self, _alloc: Global, task: u16) -> Result<Option<RealTask<J>>, Fault> {
        Ok(place_of(self, task))
    }
}
