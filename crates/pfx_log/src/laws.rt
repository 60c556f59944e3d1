//! Laws of logs, each the contract of a function.
ghost use Rattle.std.specs.Prelude.{◌≡◌, ◌⊎◌, List, ℕ, length};
ghost use Rattle.pfx_log.specs.Holding.{Collision, Holds, IsUnmade};
ghost use Rattle.pfx_log.specs.Logs.{Log, IsLog, last_head, log_bytes};

/// An image holds at most one log.
pub fn one_log()
    ensures { (image : List ℕ) (one other : Log) → Holds image one → Holds image other → one ≡ other }
{}

/// What is no log yet holds none.
pub fn unmade_holds_none()
    ensures { (image : List ℕ) (log : Log) → IsUnmade image → Holds image log → ⊥ }
{}

/// The chain: two logs with as many blocks whose last heads are one are the same, header, blocks and bytes, or here are two different strings of
/// bytes with one SHA-256.
pub fn one_head()
    ensures { (one other : Log) → IsLog one → IsLog other → length one.blocks ≡ length other.blocks
        → last_head one ≡ last_head other
        → ((one ≡ other) × (log_bytes one ≡ log_bytes other)) ⊎ Collision }
{}
