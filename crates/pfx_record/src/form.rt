/// What a record's form depends on, but for its own bytes.
#[derive(Clone, Copy, Drop)]
pub struct Form {
    /// How many tasks a row has.
    pub workers: u32,
    /// How many tasks are real: new weights are one for each.
    pub real: u32,
    /// Whether the record is alone in its batch, as new weights are.
    pub alone: bool,
}
