//! The engine.
ghost use Rattle.std.specs.Prelude.{◌≡◌, ◌≢◌, ◌≤◌, [], length, IfOk, IfErr, OnOk, OnErr};
ghost use Rattle.pfx_front.specs.Sole.{state_of};
ghost use Rattle.pfx_store_engine.specs.Promises.{Promise, Laws, AreAnswered, AreDone, AreNotDone, IsDone, IsNotDone, IsSame, IsEngineFault, Shows, slots_for};
ghost use Rattle.pfx_store_engine.specs.Sharing.{AreChanges, AreAllDone, AreAllLeft};
ghost use Rattle.pfx_front_engine.specs.Asking.{AreAllAsked, AreAsked, AreSomeAsked, IsAnswered, IsUnanswered, MayEndRun};
ghost use Rattle.pfx_front_engine.specs.Keeping.{IsSettled, KeepsBy};
ghost use Rattle.pfx_front_engine.specs.KeepingLaws.{keeps_none, keeps_more, keeps_fewer};

use crate::asking::{ask, ask_all, ask_slots, board, settle, state};
use crate::client::Client;
use pfx_crew::desk::Desk;
use pfx_fault::Fault;
use pfx_front::calls::Front;
use pfx_front::name::Since;
use pfx_jobs::job::Job;
use pfx_jobs::quantum::{Done, Quantum};
use pfx_machine::{Board, Command, Reply, State};
use pfx_store_engine::{Engine, EngineFault, RealTask, Told, place_of};
use std::alloc::Global;
use std::sync::Wait;

/// How many Slots are asked for before the last one's receipt is waited for: as many as may be accepted and not yet durable.
pub const WINDOW: u32 = 64;

/// A front, and its only client.
#[derive(Drop)]
pub struct FrontEngine<J: Job, B: Since<J>, K: Desk<Quantum<J>, Done<J>> + Drop, R: Wait + Drop> {
    /// The system, by which calls wait.
    pub rt: R,
    /// The front.
    pub front: Front<J, B, K>,
    /// Its only client.
    pub client: Client<J, B>,
}

impl<J: Job, B: Since<J>, K: Desk<Quantum<J>, Done<J>> + Drop, R: Wait + Drop> Engine<J>
    for FrontEngine<J, B, K, R>
where
    K::Seat: Drop,
{
    // The state is that after all accepted commands; a command is kept once the pass has its receipt.
    ghost promise = { record {
      state = λ engine. state_of J.kind B.start engine.client;
      faults = λ s f. MayEndRun f;
      settled = λ engine. IsSettled B.start.number engine.client;
      keeps = λ a H n b. KeepsBy B.start.number a.client H n b.client;
    } };

    fn ask(&mut self, _alloc: Global, command: Command<J>) -> Result<(u64, Reply), EngineFault>
        ensures done { IfOk result (λ r. IsDone J.kind ⟦<FrontEngine<J, B, K, R> as Engine<J>>⟧.promise command r.0 r.1 self.old self.new) }
        ensures not_done { IfErr result (IsNotDone J.kind ⟦<FrontEngine<J, B, K, R> as Engine<J>>⟧.promise command self.old self.new) }
    {
        match ask(&self.rt, &self.front, &mut self.client, command) {
            Err(why) => Err(why),
            Ok(reply) => match settle(&self.rt, &self.front, &mut self.client) {
                Ok(_number) => Ok(reply),
                Err(fault) => Err(EngineFault::Failed(fault)),
            },
        }
    }

    fn slots(&mut self, alloc: Global, count: u32) -> Result<Vec<(u64, Reply)>, EngineFault> {
        match ask_slots(
            &self.rt,
            alloc,
            &self.front,
            &mut self.client,
            count.min(WINDOW),
        ) {
            Err(why) => Err(why),
            Ok(said) => match settle(&self.rt, &self.front, &mut self.client) {
                Ok(_number) => Ok(said),
                Err(fault) => Err(EngineFault::Failed(fault)),
            },
        }
    }

    fn all(&mut self, alloc: Global, commands: Vec<Command<J>>) -> Result<Vec<Told>, Fault>
        requires changes { AreChanges commands.items }
        requires few { length commands.items ≤ 16 }
        ensures done { IfOk result (λ told. AreAllDone J.kind ⟦<FrontEngine<J, B, K, R> as Engine<J>>⟧.promise commands.items told.items self.old self.new) }
        ensures fails { IfErr result (IsEngineFault ⟦<FrontEngine<J, B, K, R> as Engine<J>>⟧.promise.faults (state_of J.kind B.start self.old.client)) }
        ensures left { OnErr result (AreAllLeft J.kind ⟦<FrontEngine<J, B, K, R> as Engine<J>>⟧.promise commands.items self.old self.new) }
    {
        match ask_all(&self.rt, alloc, &self.front, &mut self.client, commands) {
            Err(fault) => Err(fault),
            Ok(told) => match settle(&self.rt, &self.front, &mut self.client) {
                Ok(_number) => Ok(told),
                Err(fault) => Err(fault),
            },
        }
    }

    fn settled(&mut self, _alloc: Global) -> Result<u64, Fault> {
        settle(&self.rt, &self.front, &mut self.client)
    }

    fn status(&mut self, _alloc: Global) -> Result<Board, Fault> {
        if let Err(fault) = settle(&self.rt, &self.front, &mut self.client) {
            return Err(fault);
        }
        match board(&self.rt, &self.front, &mut self.client) {
            Ok(board) => Ok(board),
            Err(_) => Err(Fault::NoMemory),
        }
    }

    fn state(&mut self, _alloc: Global) -> Result<State<J>, Fault> {
        match settle(&self.rt, &self.front, &mut self.client) {
            Err(fault) => Err(fault),
            Ok(_number) => match state(&self.rt, &self.front, &mut self.client) {
                Ok(copy) => Ok(copy),
                Err(_) => Err(Fault::NoMemory),
            },
        }
    }

    fn place(&mut self, alloc: Global, task: u16) -> Result<Option<RealTask<J>>, Fault> {
        let copy = self.state(alloc)?;
        Ok(place_of(&copy, task))
    }

    ghost laws = { record {
      none = λ e. keeps_none _ _;
      more = λ a b c H G n settled one two. keeps_more _ _ _ _ H G n one two;
      fewer = λ a b H n m le one. keeps_fewer _ _ H n m _ le one;
    } };
}
