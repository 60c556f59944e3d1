//! What is durable at a moment of the disk, and has been since earlier ones.
//!
//! A moment is a beginning of the list of the calls that were made on the disk. What these calls leave is a fact about the list, so it
//! holds whatever happens later, and whether or not the front is ever closed.
ghost use Rattle.std.specs.Prelude.{◌≡◌, ◌≤◌, ◌+◌, ◌++◌, ℕ, List, [], length, take, Some, None, false, IfSome, IsTrue};
ghost use mathlib.Core.List.{IsPrefix};
ghost use Rattle.pfx_front_board.specs.Lasting.{IsDurable};
ghost use Rattle.pfx_front_board.specs.Word.{records_of};
ghost use Rattle.pfx_disk_chronicle.specs.Chart.{acts_of};
ghost use Rattle.pfx_disk.specs.Disk.{IsHonest};
ghost use Rattle.pfx_disk.specs.Stop.{Left};
ghost use Rattle.pfx_record.specs.declared.batch.Batch.{Batch};
ghost use Rattle.pfx_record_redo.specs.Applying.{applied};
ghost use Rattle.pfx_book.specs.Notes.{Noted};
ghost use Rattle.pfx_front.specs.Lasting.{AreAccepted, HoldsFrom, IsAcknowledged, IsLast, IsLasting};

use crate::marking::Marked;
use crate::name::Since;
use pfx_disk::Disk;
use pfx_disk_chronicle::chronicle::Logged;
use pfx_disk_chronicle::list::Moment;
use pfx_front_board::receipt::Receipt;
use pfx_front_board::word::Word;
use pfx_jobs::job::Job;
use pfx_store::{Mark, Store};

/// The moment of a store that isn't broken, now: batches that led to its state are durable.
pub(crate) fn moment_of<J: Job, B: Since<J>, D: Disk + Logged<B>>(store: &Store<D, J>) -> Moment<B>
    requires whole { store.now.file.broken ≡ false }
    ensures durable { (batches : List (Batch J)) → applied J.kind B.origin (records_of batches) ≡ Some store.now.state
        → IsDurable J.kind B.origin B.held B.image result batches }
    ensures since { B.held → (c k : ℕ) → c ≤ B.clock + k → k ≤ length result
        → (image : List ℕ) → Left B.image (take k (acts_of result)) image → (D.view store.now.file.disk).since c image }
    ensures honest { B.held → IsHonest (D.view store.now.file.disk) }
{
    let _broken = store.is_broken();
    store.disk().moment()
}

/// The published batches at a moment, and the marks that were given up to it. Its type keeps that each image that a stop may leave
/// then is recovered to the state after these batches, whose records are those of first accepted commands of a session; and that each mark
/// has been kept at every moment since its clock: whatever a stop may have left was recovered to the outcome of first accepted commands, the
/// marked ones among them.
#[derive(Drop)]
pub struct Durable<J: Job, B: Since<J>> {
    pub(crate) word: Word<J, B>,
    pub(crate) moment: Moment<B>,
    pub(crate) marks: Marked<J, B>,
    pub(crate) last: Option<Mark>,
    ghost durable: { IsDurable J.kind B.origin B.held B.image moment word },
    ghost lasting: { ∥ IsLasting J.kind B.start B.image B.clock B.held marks moment word ∥₁ },
    ghost last_is: { IsLast marks last },
}

impl<J: Job, B: Since<J>> Durable<J, B> {
    /// Batches that are durable at a moment, and marks that have been kept up to it, with the last of these.
    pub(crate) fn new(
        word: Word<J, B>,
        moment: Moment<B>,
        marks: Marked<J, B>,
        last: Option<Mark>,
    ) -> Durable<J, B>
        requires durable { IsDurable J.kind B.origin B.held B.image moment word }
        requires lasting { ∥ IsLasting J.kind B.start B.image B.clock B.held marks moment word ∥₁ }
        requires last { IsLast marks last }
        ensures { result.word ≡ word }
    {
        Durable {
            word,
            moment,
            marks,
            last,
        }
    }

    /// The batches that were published by then. Their records are those of first accepted commands.
    pub fn word(&self) -> &Word<J, B>
        ensures word { result.now ≡ self.now.word }
        ensures accepted { AreAccepted J.kind B.start result.now }
    {
        &self.word
    }

    /// A copy.
    pub fn again(&self) -> Durable<J, B>
        ensures word { result.word ≡ self.now.word }
        ensures moment { result.moment ≡ self.now.moment }
        ensures marks { result.marks ≡ self.now.marks }
    {
        Durable {
            word: self.word.again(),
            moment: self.moment.again(),
            marks: self.marks.again(),
            last: self.last,
        }
    }

    /// Whether the receipt was given up to this moment. Then, from the receipt's moment on, at every call up to this one, whatever a
    /// stop may have left was recovered to the outcome of first accepted commands of a session, the receipt's among them.
    pub fn holds(&self, receipt: &Acknowledged<J, B>) -> bool
        ensures { IsTrue result → HoldsFrom J.kind B.start B.image B.clock B.held self.now.moment (length receipt.now.moment) receipt.now.receipt.number }
    {
        receipt.marks.begins(&self.marks)
    }

    /// Whether another one has no less: then its batches and its marks go on from these.
    pub fn begins(&self, later: &Durable<J, B>) -> bool
        ensures { IsTrue result → IsPrefix self.now.word later.now.word × IsPrefix self.now.marks later.now.marks }
    {
        self.word.begins(&later.word) && self.marks.begins(&later.marks)
    }
}

/// An acknowledgement that stands by itself. Its type keeps that the disk's clock had come to the receipt's when it was given, and that each
/// image that a stop may have left at that moment is recovered to the state after the batches of the receipt's word, which has its number; and
/// that a mark of its number or a later one had been given before.
#[derive(Drop)]
pub struct Acknowledged<J: Job, B: Since<J>> {
    /// The receipt, of which a reader may be told.
    pub receipt: Receipt<J, B>,
    /// The moment.
    pub moment: Moment<B>,
    pub(crate) marks: Marked<J, B>,
    pub(crate) mark: Mark,
    ghost reached: { receipt.clock ≤ B.clock + length moment },
    ghost durable: { IsAcknowledged J.kind B.origin B.held B.image moment receipt.word receipt.number },
    ghost given: { ∥ Noted mark marks ∥₁ },
    ghost enough: { receipt.number ≤ mark.number },
    ghost before: { mark.clock ≤ B.clock + length moment },
}

impl<J: Job, B: Since<J>> Acknowledged<J, B> {
    /// An acknowledgement of a number that the batches reach and the last mark has, whose clock and the mark's the moment has reached.
    pub(crate) fn new(number: u64, clock: u64, durable: Durable<J, B>) -> Option<Acknowledged<J, B>>
        ensures { IfSome result (λ a. (a.receipt.number ≡ number) × (a.receipt.clock ≡ clock)) }
    {
        let Durable {
            word,
            moment,
            marks,
            last,
        } = durable;
        let Some(mark) = last else {
            return None;
        };
        if word.number() < number || mark.number < number {
            return None;
        }
        if !moment.reaches(clock) || !moment.reaches(mark.clock) {
            return None;
        }
        Some(Acknowledged {
            receipt: Receipt::new(number, clock, word),
            moment,
            marks,
            mark,
        })
    }
}
