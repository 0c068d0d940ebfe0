// What a record says of the row of a key.
ghost use Rattle.std.specs.Prelude.{◌≡◌, ℕ, List, Option, IfSome};
ghost use Rattle.sx_values.specs.declared.value.Value.{Value};
ghost use Rattle.sx_log.specs.State.{Stored};
ghost use Rattle.sx_log.specs.Copies.{copied};
ghost use Rattle.sx_copy.specs.Changes.{behind, Tells};

use sx_log::Body;
use sx_values::{Key, Name, Row};

/// A row that changed, and the LSN of the record that tells it. An absent row has no image.
#[derive(Drop)]
pub struct Change<'a> {
    pub lsn: u64,
    pub table: &'a Name,
    pub key: &'a Key,
    pub before: &'a Option<Row>,
    pub after: &'a Option<Row>,
}

/// The change that the record of this LSN tells, or None where it tells none.
#[tactic(auto, unfolding(sx_log::specs::Copies::copied, crate::specs::Changes::Tells))]
pub fn change_of(lsn: u64, body: &Body) -> Option<Change<'_>>
    ensures told { IfSome result (Tells body.now) }
    ensures behind { (table : List ℕ) (key : List Value) (known : Option Stored) → behind result table key known ≡ copied table lsn body.now key known }
{
    match body {
        Body::Write {
            table,
            key,
            before,
            after,
        }
        | Body::Undo {
            table,
            key,
            before,
            after,
            ..
        } => Some(Change {
            lsn,
            table,
            key,
            before,
            after,
        }),
        Body::Commit | Body::Abort | Body::Mark | Body::Check { .. } | Body::Switch => None,
    }
}
