//! What holds of every list of events, each the contract of a function that does nothing.
ghost use Rattle.std.specs.Prelude.{◌≡◌, ◌≢◌, ◌≤◌, ◌+◌, ◌++◌, ◌∷◌, [], List, ℕ, length, take, false, None, Some, Ok};
ghost use Rattle.pfx_columns.specs.Ledgers.{IsFair};
ghost use Rattle.pfx_disk.specs.Disk.{IsHonest};
ghost use Rattle.pfx_record_redo.specs.Recording.{records_of};
ghost use Rattle.pfx_events.specs.Batches.{frames_of, joined, AreSmall, IsSeen, KeepsBatches};
ghost use Rattle.pfx_events.specs.Reached.{IsReached, IsAtRest, IsStopped, KeepsClaims, Reaches};
ghost use Rattle.pfx_events.specs.Ties.{through};
ghost use Rattle.pfx_events.specs.Store.{store_of, frame_of};
ghost use Rattle.pfx_store_format.specs.Format.{format};
ghost use Rattle.pfx_store.specs.Files.{FileOf, recovered_file};
ghost use Rattle.pfx_machine.specs.Outcome.{outcome};
ghost use Rattle.pfx_machine.specs.Plain.{Plain, IsState};
ghost use Rattle.pfx_machine.specs.Refusals.{refusal};
ghost use Rattle.pfx_machine.specs.Sessions.{IsAcceptable};
ghost use Rattle.pfx_machine.specs.declared.command.Command.{Command};
ghost use Rattle.pfx_machine.specs.declared.command.Command.TheVariants.{Slot};
ghost use Rattle.pfx_store_image.specs.Recovery.{recovered};
ghost use Rattle.pfx_store_image.specs.Store.{Replays};
ghost use Rattle.pfx_store_file.specs.Holding.{Survives as FramesSurvive};
ghost use Rattle.pfx_events_world.specs.Claims.{IsNew, IsReceipted, StaysOrderly, ShowsAppended, LosesNothing, RecoversPrefix, NeverGoesBack, Survives};
ghost use Rattle.pfx_events_world.specs.Calls.{MayLeave};
ghost use Rattle.pfx_events_world.specs.Events.{Event, Stop, Tend, CanRun, run};
ghost use Rattle.pfx_events_world.specs.Session.{IsQuick};
ghost use Rattle.pfx_events_world.specs.Setting.{Settled};
ghost use Rattle.pfx_events_world.specs.World.{World, new_world, state_at};

use pfx_disk::Disk;
use pfx_jobs::job::Job;
use pfx_store::Store;

/// Whatever happens, and in whatever order, to a store's file, its book and its readers: the accepted commands are
/// acceptable throughout, and at every prefix of them every lag lies strictly between minus one and one; what is published
/// and what each reader sees are beginnings of what the store appended; each image that a stop may leave, before or within
/// the coming call, is recovered to the outcome of a beginning of the accepted commands that holds every receipted one; and
/// so it is at every stop. Nothing that was marked, receipted or seen goes back.
pub fn crash_prefix<J: Job>()
    ensures orderly { StaysOrderly (store_of J.kind) }
    ensures shown { ShowsAppended (store_of J.kind) }
    ensures survives { LosesNothing (store_of J.kind) }
    ensures recovers { RecoversPrefix (store_of J.kind) }
    ensures later { NeverGoesBack (store_of J.kind) }
{}

/// A run can begin from every file that is recovered, and the recovery of a run is that of files.
pub fn runs_begin_at_files<J: Job>()
    ensures begins { (image : List ℕ) (s : Plain J) → recovered (format J.kind) image ≡ Ok s
        → (f : FileOf J) × IsNew (store_of J.kind) s image f }
    ensures means { (image : List ℕ) (s : Plain J) (f : FileOf J) → recovered_file J.kind image ≡ Some (s, f)
        → recovered (format J.kind) image ≡ Ok s }
{}

/// A receipt once given holds over all that follows, stops too: each image that a stop may leave at any later moment is
/// recovered to the outcome of a beginning of the accepted commands that holds the receipt's number.
pub fn receipts_last<J: Job>()
    ensures { let S = store_of J.kind in (B : Plain J) (image : List ℕ) (f : FileOf J) (events more : List (Event J)) (n : ℕ)
        → IsNew S B image f → CanRun S B (new_world S B image f) (events ++ more)
        → IsReceipted n (run S B (new_world S B image f) events).book.receipts
        → (let w = run S B (new_world S B image f) (events ++ more) in Survives S B w.book.accepted n (MayLeave w.start w.done w.coming)) }
{
    crash_prefix::<J>();
}

/// The same without the names of the claims. From a file that is recovered, after any run: whatever a stop may leave, before or
/// within the coming call, is recovered to the outcome of first accepted commands, which has the number of each receipt; after a
/// stop just these commands are accepted, and each receipt stands; and at every prefix of the accepted commands the allocation is fair.
pub fn receipted_commands_survive<J: Job>()
    ensures survive { let S = store_of J.kind in (B : Plain J) (image : List ℕ) (f : FileOf J) (events : List (Event J)) (n : ℕ)
        (left : List ℕ) → recovered_file J.kind image ≡ Some (B, f) → CanRun S B (new_world S B image f) events
        → (let w = run S B (new_world S B image f) events in IsReceipted n w.book.receipts → MayLeave w.start w.done w.coming left
        → (k : ℕ) × (k ≤ length w.book.accepted) × (recovered (format J.kind) left ≡ Ok (outcome J.kind B (take k w.book.accepted)))
        × (n ≤ (outcome J.kind B (take k w.book.accepted)).number)) }
    ensures stop { let S = store_of J.kind in (B : Plain J) (image : List ℕ) (f : FileOf J) (events : List (Event J)) (left : List ℕ)
        → recovered_file J.kind image ≡ Some (B, f) → CanRun S B (new_world S B image f) (events ++ Stop left ∷ [])
        → (let w = run S B (new_world S B image f) events in let v = run S B (new_world S B image f) (events ++ Stop left ∷ []) in
        (k : ℕ) × (v.book.accepted ≡ take k w.book.accepted) × (recovered (format J.kind) left ≡ Ok (outcome J.kind B (take k w.book.accepted)))
        × ((n : ℕ) → IsReceipted n w.book.receipts → IsReceipted n v.book.receipts × (n ≤ (outcome J.kind B (take k w.book.accepted)).number))) }
    ensures fair { let S = store_of J.kind in (B : Plain J) (image : List ℕ) (f : FileOf J) (events : List (Event J)) (k : ℕ)
        → recovered_file J.kind image ≡ Some (B, f) → CanRun S B (new_world S B image f) events
        → (let w = run S B (new_world S B image f) events in k ≤ length w.book.accepted → IsFair (outcome J.kind B (take k w.book.accepted)).ledger) }
{
    crash_prefix::<J>();
    runs_begin_at_files::<J>();
}

/// The claims of `crash_prefix` hold of each world that a run leads to, also where it began at a store that goes on, of whose
/// checkpoint pieces were written that no sync has covered: at each world with no call to come, none of which has failed,
/// another run may begin, at the state of what was taken.
pub fn runs_go_on<J: Job>()
    ensures keeps { (B : Plain J) (w : World (store_of J.kind)) → IsReached (store_of J.kind) B w → KeepsClaims (store_of J.kind) B w }
    ensures found { (B : Plain J) (image : List ℕ) (f : FileOf J) (events : List (Event J)) → IsNew (store_of J.kind) B image f
        → CanRun (store_of J.kind) B (new_world (store_of J.kind) B image f) events
        → IsReached (store_of J.kind) B (run (store_of J.kind) B (new_world (store_of J.kind) B image f) events) }
    ensures further { (B : Plain J) (w : World (store_of J.kind)) (events : List (Event J)) → IsReached (store_of J.kind) B w
        → CanRun (store_of J.kind) B w events → IsReached (store_of J.kind) B (run (store_of J.kind) B w events) }
    ensures anew { (B : Plain J) (w : World (store_of J.kind)) → IsReached (store_of J.kind) B w → w.coming ≡ [] → w.broken ≡ false
        → Settled (store_of J.kind) w.start w.done (state_at (store_of J.kind) B w.book.accepted w.book.taken) w.place }
{}

/// From every such file, and for each Submit or Withdraw that isn't refused there, there is a run that takes the command,
/// appends it and gives a receipt for it.
pub fn commands_can_be_receipted<J: Job>()
    ensures { (B : Plain J) (image : List ℕ) (f : FileOf J) (c : Command J)
        → IsNew (store_of J.kind) B image f → IsQuick c → refusal J.kind B c ≡ None
        → (events : List (Event J)) × CanRun (store_of J.kind) B (new_world (store_of J.kind) B image f) events
        × IsReceipted (B.number + 1) (run (store_of J.kind) B (new_world (store_of J.kind) B image f) events).book.receipts }
{}

/// What can be done at a world at rest, over and over, for it leads to another one: a command that isn't refused is taken,
/// appended and receipted; a slot is opened, all its quanta run and given back, and it comes to its receipt; a step of a
/// checkpoint in progress goes through; a stop comes within the append of a command, and the next start goes on.
pub fn runs_from_rest<J: Job>()
    ensures new { (B : Plain J) (image : List ℕ) (f : FileOf J) → IsAtRest (store_of J.kind) (new_world (store_of J.kind) B image f) }
    ensures commands { let S = store_of J.kind in (B : Plain J) (w : World (store_of J.kind)) (c : Command J) → IsAtRest S w → IsQuick c
        → refusal J.kind w.book.state c ≡ None → (events : List (Event J)) × Reaches S B w (w.book.accepted ++ c ∷ []) events }
    ensures slots { let S = store_of J.kind in (B : Plain J) (w : World (store_of J.kind)) → IsAtRest S w
        → refusal J.kind w.book.state Slot ≡ None → (events : List (Event J)) × Reaches S B w (w.book.accepted ++ Slot ∷ []) events }
    ensures steps { let S = store_of J.kind in (B : Plain J) (w : World (store_of J.kind)) → IsAtRest S w → S.tends w.place ≢ []
        → (let events = Tend ∷ through (S.tends w.place) in CanRun S B w events × IsAtRest S (run S B w events)
        × ((run S B w events).book.accepted ≡ w.book.accepted) × ((run S B w events).book.receipts ≡ w.book.receipts)) }
    ensures stops { let S = store_of J.kind in (B : Plain J) (w : World (store_of J.kind)) (c : Command J) → IsReached S B w → IsAtRest S w
        → IsQuick c → refusal J.kind w.book.state c ≡ None → (left : List ℕ) × IsStopped S B w c left }
{}

/// The records of a list of commands are those of its front, and those of the rest behind the front's outcome.
pub fn records_split<J: Job>()
    ensures { (s : Plain J) (H G : List (Command J))
        → records_of J.kind s (H ++ G) ≡ records_of J.kind s H ++ records_of J.kind (outcome J.kind s H) G }
{}

/// The frames of the first so many batches lead to the outcome of these batches' commands, and nowhere else; what survives of
/// the frames is the outcome of so many batches, and the other way round; and a batch more is a frame more.
pub fn frames_are_batches<J: Job>()
    ensures leads { (s : Plain J) (batches : List (List (Command J)))
        → IsState s → IsAcceptable J.kind s (joined batches) → AreSmall batches
        → Replays (format J.kind) s (frames_of J.kind s batches) (outcome J.kind s (joined batches)) }
    ensures only { (s : Plain J) (batches : List (List (Command J))) (k : ℕ) (t : Plain J)
        → IsState s → IsAcceptable J.kind s (joined batches) → AreSmall batches
        → Replays (format J.kind) s (take k (frames_of J.kind s batches)) t → t ≡ outcome J.kind s (joined (take k batches)) }
    ensures survive { (s : Plain J) (batches : List (List (Command J))) (n : ℕ) (image : List ℕ)
        → IsState s → IsAcceptable J.kind s (joined batches) → AreSmall batches
        → FramesSurvive (format J.kind) s (frames_of J.kind s batches) n image → KeepsBatches J.kind s batches n image }
    ensures back { (s : Plain J) (batches : List (List (Command J))) (n : ℕ) (image : List ℕ)
        → IsState s → IsAcceptable J.kind s (joined batches) → AreSmall batches
        → KeepsBatches J.kind s batches n image → FramesSurvive (format J.kind) s (frames_of J.kind s batches) n image }
    ensures grow { (s : Plain J) (batches : List (List (Command J))) (batch : List (Command J))
        → frames_of J.kind s (batches ++ batch ∷ []) ≡ frames_of J.kind s batches ++ frame_of J.kind (outcome J.kind s (joined batches)) batch ∷ [] }
{}

/// A store that isn't broken, on an honest disk, is a store as the events see it.
pub fn standing_is_seen<D: Disk, J: Job>(store: &Store<D, J>)
    ensures { store.now.file.broken ≡ false → IsHonest (D.view store.now.file.disk)
        → (f : FileOf J) × IsSeen J.kind store.now.file.places store.now.state store.now.spelled f (D.view store.now.file.disk) }
{
    let _broken = store.is_broken();
}
