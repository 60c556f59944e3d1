//! Who runs the jobs of a front.

/// Who runs the jobs of a front that is started for a script.
#[derive(Drop)]
pub struct Workforce<K, R> {
    /// What starts threads: the flusher's, and one for each worker.
    pub threads: R,
    /// Where workers take quanta from, and where they leave what came of them.
    pub desk: K,
    /// How many workers there are; with none the calling thread runs the jobs.
    pub workers: u32,
}
