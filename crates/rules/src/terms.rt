// What a commit and a one-step batch say of their transaction: code and definitions speak of the one type.
#[derive(Clone, Copy)]
pub struct CommitTerms {
    pub txn: u64,
    pub start: u64,
    pub commit: u64,
}
