// A store beside its log, whose disk tells its calls.
ghost use Rattle.std.specs.Prelude.{◌≡◌, ◌↔◌, [], false};
ghost use Rattle.pfx_disk_chronicle.specs.Chart.{GoesAlong};
ghost use Rattle.pfx_disk.specs.Disk.{IsHonest, Only};
ghost use Rattle.pfx_store.specs.Noting.{IsHeldBy};

use crate::beside::LoggedStore;
use pfx_disk::Disk;
use pfx_disk_chronicle::chronicle::Chronicle;
use pfx_disk_chronicle::list::UnnamedCalls;
use pfx_disk_chronicle::name::Charted;
use pfx_jobs::job::Job;

impl<D: Disk, L: Disk, J: Job> LoggedStore<D, L, J> {
    /// The same store beside its log, on a disk that tells its calls from now on, under a name that says what the disk held. The log is
    /// as it was, and its disk tells nothing.
    ///
    /// It takes what `noted` of a store takes: a list of that name, a store that isn't broken, and a name with the moment and the
    /// failures of the disk, and with what the disk held, of which an honest disk is shown to meet the premise.
    pub fn noted<B: Charted>(self, list: UnnamedCalls) -> LoggedStore<Chronicle<D, B>, L, J>
        requires list { list.seen.book ≡ B.calls }
        requires whole { self.store.file.broken ≡ false }
        requires moment { ((D.view self.store.file.disk).clock ≡ B.clock) × ((D.view self.store.file.disk).failures ≡ B.failures) }
        requires honest { IsHonest (D.view self.store.file.disk)
            → B.held × ((D.view self.store.file.disk).contents ≡ B.image) × Only B.image (D.view self.store.file.disk) }
        requires held { B.held → IsHeldBy J.kind self.store B.image }
        ensures store { result.store ≡ record {
          file = record {
            disk = record { disk = self.store.file.disk; made = []; late = 0; failed = false };
            places = self.store.file.places;
            broken = false;
          };
          state = self.store.state;
          spelled = self.store.spelled;
        } }
        ensures log { (result.log ≡ self.log) × (result.copy ≡ self.copy) × (result.stopped ≡ self.stopped) }
    {
        let LoggedStore {
            store,
            log,
            copy,
            block,
            stopped,
        } = self;
        LoggedStore {
            store: store.noted::<B>(list),
            log,
            copy,
            block,
            stopped,
        }
    }
}

impl<D: Disk, B: Charted, L: Disk, J: Job> LoggedStore<Chronicle<D, B>, L, J> {
    /// The store beside its log on the disk itself, which has gone along with what was told of it. If a call has failed the store is
    /// broken.
    pub fn told(self) -> LoggedStore<D, L, J>
        ensures disk { result.store.file.disk ≡ self.store.file.disk.disk }
        ensures broken { (result.store.file.broken ≡ false) ↔ ((self.store.file.broken ≡ false) × (self.store.file.disk.failed ≡ false)) }
        ensures places { result.store.file.places ≡ self.store.file.places }
        ensures state { (result.store.state ≡ self.store.state) × (result.store.spelled ≡ self.store.spelled) }
        ensures along { GoesAlong B.held B.image B.clock B.failures self.store.file.disk.made self.store.file.disk.late self.store.file.disk.failed
            (D.view result.store.file.disk) }
        ensures log { (result.log ≡ self.log) × (result.copy ≡ self.copy) × (result.stopped ≡ self.stopped) }
    {
        let LoggedStore {
            store,
            log,
            copy,
            block,
            stopped,
        } = self;
        LoggedStore {
            store: store.told(),
            log,
            copy,
            block,
            stopped,
        }
    }
}
