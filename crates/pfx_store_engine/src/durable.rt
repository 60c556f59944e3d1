//! The engine that has each command kept before it answers it.

ghost use Rattle.std.specs.Prelude.{◌≡◌, ◌<◌, ◌≤◌, ◌∷◌, [], List, ℕ, length, true, false, None, Some, Ok, IfOk, IfErr, OnOk, OnErr};
ghost use Rattle.pfx_disk.specs.Disk.{IsHonest, HasFailed};
ghost use Rattle.pfx_fault.specs.declared.fields.Cause.TheVariants.{Device};
ghost use Rattle.pfx_machine_feasible.specs.Endless.{IsEndless};
ghost use Rattle.pfx_store_format.specs.Format.{format};
ghost use Rattle.pfx_machine.specs.declared.command.Command.{Command};
ghost use Rattle.pfx_store_engine.specs.Promises.{Promise, Laws, AreDone, AreNotDone, IsDone, IsNotDone, IsPlace, IsSame, IsEngineFault, Shows};
ghost use Rattle.pfx_store_engine.specs.Sharing.{AreChanges, AreAllDone, AreAllLeft};
ghost use Rattle.pfx_store_image.specs.Recovery.{recovered};
ghost use Rattle.pfx_store_engine.specs.Executing.{AreCarriedOut, Commits, CommitsOne, Follows, IsCarriedOut, IsExecuted, TakesCalls};
ghost use Rattle.pfx_store_engine.specs.Failing.{IsInDoubt, IsLook, IsServed, IsStop, MayFail, NotAccepted, Stops, StopsSlots, last_kept, stopped_at};
ghost use Rattle.pfx_store_engine.specs.Keeping.{Anchors, KeepsFrom};
ghost use Rattle.pfx_store_engine.specs.KeepingLaws.{keeps_none, keeps_more, keeps_fewer};
ghost use Rattle.pfx_store_engine.specs.Stepping.{command_calls, frame_len};

use crate::engine::{Engine, EngineFault, Told};
use crate::keeping::{Prepared, commit, run_prepared};
use crate::place::RealTask;
use crate::places::place_of;
use crate::windows::{Changes, Window, run_changes, run_slots};
use pfx_disk::Disk;
use pfx_fault::{Cause, Fault};
use pfx_jobs::job::Job;
use pfx_machine::{Board, Command, Reply, State};
use pfx_record_redo::Recorded;
use pfx_store::{BatchKeeper, Mark, Store};
use std::alloc::{AllocError, Global};
use std::marker::PhantomData;

/// What keeps commands in a store, and a state that they are run on, which is the store's own while nothing has failed.
///
/// An engine that had no memory within a window of Slots is starved: it keeps what was run of them, and to the next call for Slots
/// it answers `NoMemory`.
#[derive(Drop)]
pub struct DurableEngine<D: Disk, J: Job, K: BatchKeeper<D, J>> {
    /// What keeps the commands: a store, or one beside a log.
    pub keeper: K,
    /// The state that commands are run on.
    pub state: State<J>,
    starved: bool,
    on: PhantomData<D>,
    pub ghost same: { K.failed keeper ≡ None → state ≡ (K.kept keeper).state },
}

/// The engine over a store without a log.
pub type StoreEngine<D, J> = DurableEngine<D, J, Store<D, J>>;

// The fault of an engine whose keeper has failed so.
fn stopped<D: Disk, J: Job, K: BatchKeeper<D, J>>(keeper: &K, cause: Cause) -> Fault
    ensures { result ≡ stopped_at (K.kept keeper.now).state.number cause }
{
    Fault::StoreFailed {
        marked: keeper.stored().state().number(),
        cause,
    }
}

impl<D: Disk, J: Job, K: BatchKeeper<D, J>> DurableEngine<D, J, K> {
    /// The engine over what keeps its commands, at the state of the store. If an allocation failed, it is given back.
    pub fn new(alloc: Global, keeper: K) -> Result<DurableEngine<D, J, K>, (AllocError, K)>
        ensures keeper { IfOk result (λ engine. engine.keeper ≡ keeper) }
        ensures state { IfOk result (λ engine. engine.state ≡ (K.kept keeper).state) }
        ensures fed { IfOk result (λ engine. engine.starved ≡ false) }
        ensures given_back { IfErr result (λ e. e.1 ≡ keeper) }
    {
        match keeper.stored().state().copy_of(alloc) {
            Ok(state) => Ok(DurableEngine {
                keeper,
                state,
                starved: false,
                on: PhantomData,
            }),
            Err(fault) => Err((fault, keeper)),
        }
    }

    /// What keeps the commands.
    pub fn into_keeper(self) -> K
        ensures { result ≡ self.keeper }
    {
        self.keeper
    }

    /// The number of the last command, which is durable as all before it are. If something has failed in an earlier
    /// call it is `StoreFailed`, with the number of the last command that is known to be durable, and what failed: the
    /// store has to be opened again.
    pub fn last_kept(&self) -> Result<u64, Fault>
        ensures answer { result ≡ last_kept (K.failed self.now.keeper) (K.kept self.now.keeper).state.number }
        ensures number { IfOk result (λ n. n ≡ self.now.state.number) }

        // Each image that a stop now may leave is recovered to the state.
        ensures durable { IsHonest (D.view (K.kept self.now.keeper).file.disk)
            → OnOk result ((image : List ℕ) → (D.view (K.kept self.now.keeper).file.disk).now image → recovered (format J.kind) image ≡ Ok self.now.state) }
    {
        if let Some(cause) = self.keeper.failure() {
            return Err(stopped(&self.keeper, cause));
        }
        let _broken = self.keeper.stored().is_broken();
        Ok(self.state.number())
    }

    /// Carries a command out: from the mark that is answered on it is durable.
    ///
    /// A command that the machine refuses changes nothing, nor does `NoMemory`. `StoreFailed` breaks the store, and tells
    /// the number of the last command that was durable before; the command may survive. A broken store does nothing, and
    /// answers so to every command.
    pub fn execute(
        &mut self,
        alloc: Global,
        command: Command<J>,
    ) -> Result<(Mark, Reply), EngineFault>
        ensures done { IfOk result (IsExecuted J.kind self.old.state command self.new.state
            (D.view (K.kept self.new.keeper).file.disk).clock (K.failed self.new.keeper)) }
        ensures refused { IfErr result (λ e. NotAccepted J.kind self.old.state command self.new.state e
            × ((K.kept self.new.keeper).state ≡ (K.kept self.old.keeper).state)) }

        // What the store fails on is a command that the machine accepts.
        ensures doubt { K.failed self.old.keeper ≡ None → IfErr result (IsInDoubt J.kind self.old.state command) }

        // If fair schedules of every length go on from the state, as in each store that `init` made, the limits alone refuse
        // a Slot, and such schedules go on from the new state.
        ensures serves { IsEndless self.old.state.ledger
            → IfErr result (IsServed self.old.state command) × OnOk result (IsEndless self.new.state.ledger) }
        ensures stops { Stops (K.kept self.old.keeper).state.number (K.failed self.old.keeper)
            (λ cause. (K.failed self.new.keeper ≡ Some cause) × (K.failed self.old.keeper ≡ None → cause ≡ Device
            → HasFailed (D.view (K.kept self.old.keeper).file.disk) (D.view (K.kept self.new.keeper).file.disk)))
            ((self.new.state ≡ self.old.state) × (self.new.keeper ≡ self.old.keeper)) result }

        // A step of the checkpoint in progress, if there is one, and the command: so many calls of the disk.
        ensures calls { TakesCalls (command_calls (frame_len J.kind self.old.state (command ∷ [])) (K.kept self.old.keeper).file.places)
            (D.view (K.kept self.old.keeper).file.disk) (D.view (K.kept self.new.keeper).file.disk) result }

        // At every moment what survived before survives, with the command or without; from the mark on each image has it.
        ensures commits { IsHonest (D.view (K.kept self.old.keeper).file.disk)
            → CommitsOne J.kind (K.kept self.old.keeper).state command self.new.state (D.view (K.kept self.old.keeper).file.disk) (D.view (K.kept self.new.keeper).file.disk) result }
    {
        if let Some(cause) = self.keeper.failure() {
            return Err(EngineFault::Failed(stopped(&self.keeper, cause)));
        }
        let _number = self.state.number();
        // The allocations come first: once the state has moved, only the disk can fail.
        let Ok(mut records) = Vec::with_capacity(alloc, 1) else {
            return Err(EngineFault::Failed(Fault::NoMemory));
        };
        match run_prepared(alloc, self.keeper.stored(), &mut self.state, command) {
            Err(fault) if fault.is_memory() => Err(EngineFault::Failed(Fault::NoMemory)),
            Err(fault) => Err(EngineFault::Refused(fault)),
            Ok(Prepared { done, renewal }) => {
                let Recorded { reply, entry } = done;
                records.push_reserved(entry);
                match commit(&mut self.keeper, records, renewal) {
                    Ok(mark) => Ok((mark, reply)),
                    Err(cause) => Err(EngineFault::Failed(stopped(&self.keeper, cause))),
                }
            }
        }
    }
}

impl<D: Disk, J: Job, K: BatchKeeper<D, J>> Engine<J> for DurableEngine<D, J, K> {
    // The state is that of the store: the one after the commands that are known to be durable.
    ghost promise = { record {
      state = λ engine. (K.kept engine.keeper).state;
      faults = λ s f. IsStop (MayFail K.failed) s.number f;
      settled = λ engine. K.failed engine.keeper ≡ None;
      keeps = λ a H n b. KeepsFrom J.kind (D.view (K.kept a.keeper).file.disk) (K.failed a.keeper) (K.kept a.keeper).state H n
          (D.view (K.kept b.keeper).file.disk) (K.kept b.keeper).state;
    } };

    /// Carries a command out: its number and its reply, and it is done; or it isn't, as every engine says.
    ///
    /// An accepted command has the machine's reply, and the state is the one after it; a refused one leaves the state. If fair
    /// schedules of every length go on from the state, as in each store that `init` made, the limits alone refuse a Slot, and
    /// such schedules go on from the new state.
    ///
    /// `StoreFailed` breaks the store; a broken store does nothing, and answers so to every command. The disk is honest after the
    /// call if and only if it was before. At every moment of the call, whatever it answers, the commands that survived before
    /// survive, with this one or without; from the return on each image is recovered to the state after it.
    fn ask(&mut self, alloc: Global, command: Command<J>) -> Result<(u64, Reply), EngineFault>
        ensures done { IfOk result (λ r. IsDone J.kind ⟦<DurableEngine<D, J, K> as Engine<J>>⟧.promise command r.0 r.1 self.old self.new) }
        ensures not_done { IfErr result (IsNotDone J.kind ⟦<DurableEngine<D, J, K> as Engine<J>>⟧.promise command self.old self.new) }
        ensures accepted { IfOk result (λ r. IsCarriedOut J.kind self.old.state command self.new.state (K.failed self.new.keeper) r.1) }
        ensures refused { IfErr result (NotAccepted J.kind self.old.state command self.new.state) }
        ensures serves { IsEndless self.old.state.ledger
            → IfErr result (IsServed self.old.state command) × OnOk result (IsEndless self.new.state.ledger) }
        ensures stops { Stops (K.kept self.old.keeper).state.number (K.failed self.old.keeper) (λ cause. K.failed self.new.keeper ≡ Some cause)
            ((self.new.state ≡ self.old.state) × (self.new.keeper ≡ self.old.keeper)) result }
        ensures calls { Follows (D.view (K.kept self.old.keeper).file.disk) (D.view (K.kept self.new.keeper).file.disk) }
        ensures commits { IsHonest (D.view (K.kept self.old.keeper).file.disk)
            → Commits J.kind (K.kept self.old.keeper).state (command ∷ []) self.new.state (D.view (K.kept self.old.keeper).file.disk) (D.view (K.kept self.new.keeper).file.disk) result }
    {
        let _number = self.keeper.stored().state().number();
        match self.execute(alloc, command) {
            Ok((mark, reply)) => Ok((mark.number, reply)),
            Err(fault) => Err(fault),
        }
    }

    /// Carries Slots out one after the other, at least one and at most `count`: their numbers and their replies, and they are
    /// done; or they aren't, as every engine says.
    ///
    /// Accepted ones share a frame, which has 16 at the most, and as many as are asked for unless the machine refuses the next one
    /// or there is no memory for it; they have the machine's replies, and the state is the one after them. If the first is refused
    /// the state stays.
    ///
    /// `StoreFailed` breaks the store; a broken store does nothing, and answers so to every call. The disk is honest after the
    /// call if and only if it was before. From the return on each image is recovered to the state after the Slots.
    fn slots(&mut self, alloc: Global, count: u32) -> Result<Vec<(u64, Reply)>, EngineFault>
        requires some { 0 < count }
        ensures done { IfOk result (λ said. AreDone J.kind ⟦<DurableEngine<D, J, K> as Engine<J>>⟧.promise count said.items self.old self.new) }
        ensures not_done { IfErr result (AreNotDone J.kind ⟦<DurableEngine<D, J, K> as Engine<J>>⟧.promise count self.old self.new) }
        ensures accepted { IfOk result (λ said. AreCarriedOut J.kind self.old.state self.new.state count (K.failed self.new.keeper) self.new.starved said.items) }
        ensures refused { IfErr result (NotAccepted J.kind self.old.state Command.Slot self.new.state) }
        ensures stops { StopsSlots (K.kept self.old.keeper).state.number (K.failed self.old.keeper) self.old.starved
            (λ cause. K.failed self.new.keeper ≡ Some cause)
            ((self.new.state ≡ self.old.state) × (self.new.keeper ≡ self.old.keeper)) result }
        ensures calls { Follows (D.view (K.kept self.old.keeper).file.disk) (D.view (K.kept self.new.keeper).file.disk) }
        ensures acknowledged { IsHonest (D.view (K.kept self.old.keeper).file.disk)
            → OnOk result (Anchors J.kind (D.view (K.kept self.new.keeper).file.disk) self.new.state) }
    {
        if let Some(cause) = self.keeper.failure() {
            return Err(EngineFault::Failed(stopped(&self.keeper, cause)));
        }
        if self.starved {
            return Err(EngineFault::Failed(Fault::NoMemory));
        }
        let _number = self.state.number();
        match run_slots(alloc, &mut self.state, &mut self.starved, count.min(16)) {
            Err(why) => Err(why),
            Ok(Window { said, records }) => match commit(&mut self.keeper, records, None) {
                Ok(_) => Ok(said),
                Err(cause) => Err(EngineFault::Failed(stopped(&self.keeper, cause))),
            },
        }
    }

    /// Carries out commands that give tasks jobs or take jobs away, one after the other: what each is told, in order. All that are
    /// accepted share a frame, and are kept then; where none is, nothing is written.
    ///
    /// `NoMemory` leaves the state. `StoreFailed` breaks the store; a broken store does nothing, and answers so to every call. The
    /// disk is honest after the call if and only if it was before.
    fn all(&mut self, alloc: Global, commands: Vec<Command<J>>) -> Result<Vec<Told>, Fault>
        requires changes { AreChanges commands.items }
        requires few { length commands.items ≤ 16 }
        ensures done { IfOk result (λ told. AreAllDone J.kind ⟦<DurableEngine<D, J, K> as Engine<J>>⟧.promise commands.items told.items self.old self.new) }
        ensures fails { IfErr result (IsEngineFault ⟦<DurableEngine<D, J, K> as Engine<J>>⟧.promise.faults (K.kept self.old.keeper).state) }
        ensures left { OnErr result (AreAllLeft J.kind ⟦<DurableEngine<D, J, K> as Engine<J>>⟧.promise commands.items self.old self.new) }
        ensures calls { Follows (D.view (K.kept self.old.keeper).file.disk) (D.view (K.kept self.new.keeper).file.disk) }
    {
        if let Some(cause) = self.keeper.failure() {
            return Err(stopped(&self.keeper, cause));
        }
        let _number = self.state.number();
        let Ok(Changes { told, records }) = run_changes(alloc, &mut self.state, commands) else {
            return Err(Fault::NoMemory);
        };
        if records.is_empty() {
            return Ok(told);
        }
        match commit(&mut self.keeper, records, None) {
            Ok(_) => Ok(told),
            Err(cause) => Err(stopped(&self.keeper, cause)),
        }
    }

    fn settled(&mut self, _alloc: Global) -> Result<u64, Fault>
        ensures number { IfOk result (λ n. n ≡ (K.kept self.old.keeper).state.number) }
        ensures settled { OnOk result (K.failed self.new.keeper ≡ None) }
        ensures same { IsSame ⟦<DurableEngine<D, J, K> as Engine<J>>⟧.promise self.old self.new }
        ensures fails { IfErr result (IsEngineFault ⟦<DurableEngine<D, J, K> as Engine<J>>⟧.promise.faults (K.kept self.old.keeper).state) }
        ensures answer { result ≡ last_kept (K.failed self.old.keeper) (K.kept self.old.keeper).state.number }
        ensures stays { self.new ≡ self.old }
    {
        self.last_kept()
    }

    fn status(&mut self, alloc: Global) -> Result<Board, Fault>
        ensures shows { IfOk result (Shows J.kind (K.kept self.old.keeper).state) }
        ensures settled { OnOk result (K.failed self.new.keeper ≡ None) }
        ensures same { IsSame ⟦<DurableEngine<D, J, K> as Engine<J>>⟧.promise self.old self.new }
        ensures fails { IfErr result (IsEngineFault ⟦<DurableEngine<D, J, K> as Engine<J>>⟧.promise.faults (K.kept self.old.keeper).state) }
        ensures look { IsLook (K.kept self.old.keeper).state.number (K.failed self.old.keeper) self.old self.new result }
    {
        if let Err(fault) = self.last_kept() {
            return Err(fault);
        }
        match self.state.board(alloc) {
            Ok(board) => Ok(board),
            Err(_) => Err(Fault::NoMemory),
        }
    }

    fn state(&mut self, alloc: Global) -> Result<State<J>, Fault>
        ensures copies { IfOk result (λ copy. copy ≡ (K.kept self.old.keeper).state) }
        ensures settled { OnOk result (K.failed self.new.keeper ≡ None) }
        ensures same { IsSame ⟦<DurableEngine<D, J, K> as Engine<J>>⟧.promise self.old self.new }
        ensures fails { IfErr result (IsEngineFault ⟦<DurableEngine<D, J, K> as Engine<J>>⟧.promise.faults (K.kept self.old.keeper).state) }
        ensures look { IsLook (K.kept self.old.keeper).state.number (K.failed self.old.keeper) self.old self.new result }
    {
        let _number = self.last_kept()?;
        match self.keeper.stored().state().copy_of(alloc) {
            Ok(copy) => Ok(copy),
            Err(_) => Err(Fault::NoMemory),
        }
    }

    fn place(&mut self, _alloc: Global, task: u16) -> Result<Option<RealTask<J>>, Fault>
        ensures copies { IfOk result (IsPlace (K.kept self.old.keeper).state task) }
        ensures settled { OnOk result (K.failed self.new.keeper ≡ None) }
        ensures same { IsSame ⟦<DurableEngine<D, J, K> as Engine<J>>⟧.promise self.old self.new }
        ensures fails { IfErr result (IsEngineFault ⟦<DurableEngine<D, J, K> as Engine<J>>⟧.promise.faults (K.kept self.old.keeper).state) }
        ensures look { IsLook (K.kept self.old.keeper).state.number (K.failed self.old.keeper) self.old self.new result }
    {
        let _kept = self.last_kept()?;
        Ok(place_of(self.keeper.stored().state(), task))
    }

    ghost laws = { record {
      none = λ e. keeps_none J.kind _ _ _;
      more = λ a b c H G n settled one two. keeps_more J.kind J.laws _ _ _ _ _ _ _ _ H G n settled one two;
      fewer = λ a b H n m le one. keeps_fewer J.kind _ _ _ H n m _ _ le one;
    } };
}
