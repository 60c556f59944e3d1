// A store whose disk tells its calls.
ghost use Rattle.std.specs.Prelude.{◌≡◌, ◌↔◌, [], false};
ghost use Rattle.pfx_disk_chronicle.specs.Chart.{GoesAlong};
ghost use Rattle.pfx_disk.specs.Disk.{IsHonest, Only};
ghost use Rattle.pfx_store.specs.Noting.{IsHeldBy};

use crate::journal::Journal;
use crate::store::Store;
use pfx_disk::Disk;
use pfx_disk_chronicle::chronicle::Chronicle;
use pfx_disk_chronicle::list::UnnamedCalls;
use pfx_disk_chronicle::name::Charted;
use pfx_jobs::job::Job;
use pfx_store_file::StoreFile;

impl<D: Disk, J: Job> Store<D, J> {
    /// The same store on a disk that tells its calls from now on, under a name that says what the disk held.
    ///
    /// `list` has that name. The store isn't broken, and the name has the moment and the failures of the disk. What the disk held
    /// is a premise: an honest disk is shown to meet it, with these bytes and no others; and under it these bytes stand for the
    /// store. Of a file nothing is shown, so whoever names the list says what has to hold of the file.
    pub fn noted<B: Charted>(self, list: UnnamedCalls) -> Store<Chronicle<D, B>, J>
        requires list { list.seen.book ≡ B.calls }
        requires whole { self.file.broken ≡ false }
        requires moment { ((D.view self.file.disk).clock ≡ B.clock) × ((D.view self.file.disk).failures ≡ B.failures) }
        requires honest { IsHonest (D.view self.file.disk)
            → B.held × ((D.view self.file.disk).contents ≡ B.image) × Only B.image (D.view self.file.disk) }
        requires held { B.held → IsHeldBy J.kind self B.image }
        ensures { result ≡ record {
          file = record {
            disk = record { disk = self.file.disk; made = []; late = 0; failed = false };
            places = self.file.places;
            broken = false;
          };
          state = self.state;
          spelled = self.spelled;
        } }
    {
        let Store { journal } = self;
        let Journal {
            file,
            state,
            spelled,
            frame,
        } = journal;
        let StoreFile { disk, places, .. } = file;
        let extent = places.sizes.file_len();
        let file = StoreFile::new::<(), ()>(Chronicle::new(disk, list, extent), places);
        Store {
            journal: Journal {
                file,
                state,
                spelled,
                frame,
            },
        }
    }
}

impl<D: Disk, B: Charted, J: Job> Store<Chronicle<D, B>, J> {
    /// The store on the disk itself, which has gone along with what was told of it. If a call has failed the store is broken.
    pub fn told(self) -> Store<D, J>
        ensures disk { result.file.disk ≡ self.file.disk.disk }
        ensures broken { (result.file.broken ≡ false) ↔ ((self.file.broken ≡ false) × (self.file.disk.failed ≡ false)) }
        ensures places { result.file.places ≡ self.file.places }
        ensures state { (result.state ≡ self.state) × (result.spelled ≡ self.spelled) }
        ensures along { GoesAlong B.held B.image B.clock B.failures self.file.disk.made self.file.disk.late self.file.disk.failed
            (D.view result.file.disk) }
    {
        let broken = self.is_broken() || self.disk().has_failed();
        let Store { journal } = self;
        let Journal {
            file,
            state,
            spelled,
            frame,
        } = journal;
        let StoreFile { disk, places, .. } = file;
        let file = StoreFile {
            disk: disk.into_inner(),
            places,
            broken,
        };
        Store {
            journal: Journal {
                file,
                state,
                spelled,
                frame,
            },
        }
    }
}
