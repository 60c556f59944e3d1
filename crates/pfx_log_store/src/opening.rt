// Opening a store beside its log.
ghost use Rattle.std.specs.Prelude.{◌≡◌, ◌≤◌, ◌+◌, ◌↔◌, ℕ, List, length, IfErr, IfOk, IsTrue, MatchResult, Ok};
ghost use Rattle.pfx_disk.specs.Disk.{IsHonest, Only};
ghost use Rattle.pfx_store_format.specs.Format.{format};
ghost use Rattle.pfx_store_header.specs.Headers.{Header};
ghost use Rattle.pfx_log.specs.Files.{IsOpen};
ghost use Rattle.pfx_log.specs.Logs.{Log, block_of, with_block};
ghost use Rattle.pfx_machine.specs.Plain.{Plain};
ghost use Rattle.pfx_store_recover.specs.Looking.{Looks};
ghost use Rattle.pfx_store_image.specs.Recovery.{found, found_of, recovered};
ghost use Rattle.pfx_store_image.specs.Store.{Parts};
ghost use Rattle.pfx_store_file.specs.Holding.{ArePlaces};
ghost use Rattle.pfx_log_store.specs.Fitting.{FitsIn};
ghost use Rattle.pfx_log_store.specs.Joining.{IsOfFile};
ghost use Rattle.pfx_log_store.specs.Opening.{GoOn, HoldsOn, IsLeftWith, IsOpenBehind, IsOpenFault, StayCovered};
ghost use Rattle.pfx_log_store.specs.Working.{CanJoin, IsLogged};

use crate::beside::LoggedStore;
use crate::joining::{JoinFault, frames_behind};
use pfx_disk::Disk;
use pfx_jobs::job::Job;
use pfx_log::{AppendFault, LogFile};
use pfx_store::{FileFormat, Store};
use pfx_store_file::{Places, StoreFile};
use pfx_store_image::SEGMENT_HEAD;
use pfx_store_recover::{OpenFault, OpenedFile, open};
use std::alloc::Global;

// Whether so many copied bytes lie in the segment that frames go to.
fn fit(copied: usize, places: &Places) -> bool
    ensures { IsTrue result ↔ FitsIn copied places.now }
{
    let room = places.sizes.segment;
    copied <= room && copied + SEGMENT_HEAD + places.end <= places.gate + room
}

// The store of an opened file, and the frames that the file has behind this number.
fn with_frames<J: Job, D: Disk>(
    alloc: Global,
    file: StoreFile<D>,
    last: u64,
) -> Result<(Store<D, J>, Vec<u8>), (JoinFault, D)>
    ensures opened { IsHonest (D.view file.disk) → (h : Header) → (p : Parts (Plain J)) → (s : Plain J)
        → found (format J.kind) (D.view file.disk).contents ≡ Ok (found_of h p s) → ArePlaces (format J.kind) h p file.places
        → IfOk result (λ opened. IsOpenBehind J.kind D.view (D.view file.disk).contents last opened.0 opened.1.items) }
    ensures fault { IsHonest (D.view file.disk) → (h : Header) → (p : Parts (Plain J)) → (s : Plain J)
        → found (format J.kind) (D.view file.disk).contents ≡ Ok (found_of h p s) → ArePlaces (format J.kind) h p file.places
        → IfErr result (λ e. IsOpenFault J.kind (D.view file.disk).contents last e.0) }
    ensures filed { IfErr result (λ e. IsOfFile e.0) }
    ensures looks { MatchResult result (λ opened. Looks (D.view file.disk) (D.view opened.0.file.disk)) (λ e. Looks (D.view file.disk) (D.view e.1)) }
{
    let mut file = file;
    match frames_behind::<J, D>(alloc, &mut file, last) {
        Err(fault) => Err((fault, file.into_disk())),
        Ok(frames) => match Store::open(alloc, file.into_disk()) {
            Err((fault, disk)) => Err((JoinFault::File(fault), disk)),
            Ok(store) => Ok((store, frames)),
        },
    }
}

fn file_of<D: Disk, J: Job>(opened: OpenedFile<D, FileFormat<J>>) -> StoreFile<D>
    ensures { result ≡ opened.file }
{
    opened.file
}

// The store of a disk, and the frames that it has behind this number.
fn open_behind<J: Job, D: Disk>(
    alloc: Global,
    disk: D,
    last: u64,
) -> Result<(Store<D, J>, Vec<u8>), (JoinFault, D)>
    ensures opened { IsHonest (D.view disk) → IfOk result (λ opened. IsOpenBehind J.kind D.view (D.view disk).contents last opened.0 opened.1.items) }
    ensures fault { IsHonest (D.view disk) → IfErr result (λ e. IsOpenFault J.kind (D.view disk).contents last e.0) }
    ensures filed { IfErr result (λ e. IsOfFile e.0) }
    ensures looks { MatchResult result (λ opened. Looks (D.view disk) (D.view opened.0.file.disk)) (λ e. Looks (D.view disk) (D.view e.1)) }
{
    match open::<FileFormat<J>, D>(alloc, disk) {
        Err((fault, disk)) => Err((JoinFault::File(fault), disk)),
        Ok(opened) => with_frames::<J, D>(alloc, file_of(opened), last),
    }
}

// A store beside its log, as `LoggedStore::new` makes it, or the disk and the log.
fn begin<D: Disk, L: Disk, J: Job>(
    alloc: Global,
    store: Store<D, J>,
    log: LogFile<L>,
    frames: &[u8],
) -> Result<LoggedStore<D, L, J>, (JoinFault, D, LogFile<L>)>
    requires fits { FitsIn (length frames.now) store.file.places }
    ensures store { IfOk result (λ beside. beside.store ≡ store) }
    ensures log { IfOk result (λ beside. beside.log ≡ log) }
    ensures fault { IfErr result (λ e. e.0 ≡ JoinFault.File OpenFault.NoMemory) }
    ensures back { IfErr result (λ e. (e.1 ≡ store.file.disk) × (e.2 ≡ log)) }
    ensures logged { (start : Plain J) → (all : List (List ℕ)) → (held : Log) → CanJoin J.kind start all held D.view store log frames.now
        → IfOk result (λ beside. IsLogged J.kind start all held beside) }
{
    match LoggedStore::new(alloc, store, log, frames) {
        Ok(beside) => Ok(beside),
        Err((_, store, log)) => Err((JoinFault::File(OpenFault::NoMemory), store.into_disk(), log)),
    }
}

// A store beside its log, which gets the frames first: they lie in both segments.
fn catch_up<D: Disk, L: Disk, J: Job>(
    alloc: Global,
    store: Store<D, J>,
    log: LogFile<L>,
    frames: &[u8],
) -> Result<LoggedStore<D, L, J>, (JoinFault, D, LogFile<L>)>
    ensures store { IfOk result (λ beside. beside.store ≡ store) }
    ensures disk { IfErr result (λ e. e.1 ≡ store.file.disk) }
    ensures log { (held : Log) → IsOpen held log → (let more = with_block held (block_of (log.place.last + 1) store.state.number frames.now) in
        MatchResult result (λ beside. HoldsOn held more (L.view log.disk) (L.view beside.log.disk)) (λ e. HoldsOn held more (L.view log.disk) (L.view e.2.disk))) }
    ensures fault { (bytes : List ℕ) → IsOpenBehind J.kind D.view bytes log.place.last store frames.now
        → IfErr result (λ e. IsOpenFault J.kind bytes log.place.last e.0) }
    ensures left { IfErr result (λ e. IsLeftWith log e.2 e.0) }
    ensures logged { (bytes : List ℕ) → IsOpenBehind J.kind D.view bytes log.place.last store frames.now
        → (start : Plain J) → (all : List (List ℕ)) → (held : Log) → IsOpen held log → GoOn J.kind start all held bytes
        → IfOk result (λ beside. (more : Log) × IsLogged J.kind start all more beside) }
{
    let _broken = store.is_broken();
    let last = store.state().number();
    let kept = log.place.last;
    if kept >= last || !fit(0, &store.places()) {
        return Err((JoinFault::Log(AppendFault::Gap), store.into_disk(), log));
    }
    let mut log = log;
    match log.append(alloc, kept + 1, last, frames) {
        Ok(()) => begin(alloc, store, log, &[]),
        Err(fault) => Err((JoinFault::Log(fault), store.into_disk(), log)),
    }
}

// A store beside its log, of what was opened.
fn go_on<D: Disk, L: Disk, J: Job>(
    alloc: Global,
    store: Store<D, J>,
    log: LogFile<L>,
    frames: &[u8],
) -> Result<LoggedStore<D, L, J>, (JoinFault, D, LogFile<L>)>
    ensures store { IfOk result (λ beside. beside.store ≡ store) }
    ensures disk { IfErr result (λ e. e.1 ≡ store.file.disk) }
    ensures log { (held : Log) → IsOpen held log → (let more = with_block held (block_of (log.place.last + 1) store.state.number frames.now) in
        MatchResult result (λ beside. HoldsOn held more (L.view log.disk) (L.view beside.log.disk)) (λ e. HoldsOn held more (L.view log.disk) (L.view e.2.disk))) }
    ensures fault { (bytes : List ℕ) → IsOpenBehind J.kind D.view bytes log.place.last store frames.now
        → IfErr result (λ e. IsOpenFault J.kind bytes log.place.last e.0) }
    ensures left { IfErr result (λ e. IsLeftWith log e.2 e.0) }
    ensures logged { (bytes : List ℕ) → IsOpenBehind J.kind D.view bytes log.place.last store frames.now
        → (start : Plain J) → (all : List (List ℕ)) → (held : Log) → IsOpen held log → GoOn J.kind start all held bytes
        → IfOk result (λ beside. (more : Log) × IsLogged J.kind start all more beside) }
{
    let _broken = store.is_broken();
    if fit(frames.len(), &store.places()) {
        return begin(alloc, store, log, frames);
    }
    catch_up(alloc, store, log, frames)
}

impl<D: Disk, L: Disk, J: Job> LoggedStore<D, L, J> {
    /// Opens a store beside its log. The file is synced and read twice, and nothing is written to it. Where the log ends before the last
    /// turn it is brought up by one append. With a fault the disk and the log come back.
    ///
    /// `LogGap` says that the file has no frames behind the log's end. `File` says what the store's opening says, and `Log` what an
    /// append to the log says, which comes only where the log ends before the last turn: `Device` and `Broken` leave a broken log, and
    /// each other fault one as it was.
    pub fn open(
        alloc: Global,
        disk: D,
        log: LogFile<L>,
    ) -> Result<LoggedStore<D, L, J>, (JoinFault, D, LogFile<L>)>
        ensures found { IsHonest (D.view disk) → IfOk result (λ beside.
            recovered (format J.kind) (D.view disk).contents ≡ Ok beside.store.state) }
        ensures fault { IsHonest (D.view disk) → IfErr result (λ e. IsOpenFault J.kind (D.view disk).contents log.place.last e.0) }
        ensures left { IfErr result (λ e. IsLeftWith log e.2 e.0) }
        // At each moment each image left of the log with each one left of the file has every frame, if the two went on together.
        ensures covered { IsHonest (D.view disk) → Only (D.view disk).contents (D.view disk) → (start : Plain J) → (all : List (List ℕ)) → (held : Log)
            → IsOpen held log → GoOn J.kind start all held (D.view disk).contents
            → MatchResult result (λ beside. StayCovered J.kind start all (L.view log.disk) (L.view beside.log.disk) (D.view disk) (D.view beside.store.file.disk))
            (λ e. StayCovered J.kind start all (L.view log.disk) (L.view e.2.disk) (D.view disk) (D.view e.1)) }
        // If the two go on together the store is logged.
        ensures logged { IsHonest (D.view disk) → (start : Plain J) → (all : List (List ℕ)) → (held : Log) → IsOpen held log
            → GoOn J.kind start all held (D.view disk).contents
            → IfOk result (λ beside. (more : Log) × IsLogged J.kind start all more beside) }
    {
        match open_behind::<J, D>(alloc, disk, log.place.last) {
            Err((fault, disk)) => Err((fault, disk, log)),
            Ok((store, frames)) => go_on(alloc, store, log, &frames),
        }
    }
}
