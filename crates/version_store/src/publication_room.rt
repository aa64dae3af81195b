//! Memory that a publication takes before it changes anything.

ghost use Rattle.std.specs.Prelude.{◌≡◌, ◌≤◌, ℕ, [], false, length, vec_capacity, IfOk};
ghost use Rattle.digit_pack.specs.Layout.{digit_rows, digits_per_record};
ghost use Rattle.version_store.specs.Buffers.{IsRoomForRows};
ghost use Rattle.version_store.specs.Editions.{is_marked};

use crate::row_marks::marks_for;
use crate::rows::FollowBuffers;
use digit_pack::Layout;
use std::alloc::{AllocError, Global};

/// Memory for a publication.
#[derive(Drop)]
pub struct PublicationRoom {
    /// For the digits of a record.
    pub scratch: Vec<u32>,
    /// A mark for each row of digits.
    pub marks: Vec<bool>,
    /// For the rows that change.
    pub rows: Vec<u32>,
    /// For rows that are taken together.
    pub follow: FollowBuffers,
}

impl PublicationRoom {
    /// Memory for so many changes of records with this layout, under a secret of so many words. No
    /// row is marked. Only refused memory gives an `Err`.
    pub fn new(
        alloc: Global,
        layout: &Layout,
        changes: usize,
        dimension: usize,
    ) -> Result<PublicationRoom, AllocError>
        requires { dimension ≤ 1024 }
        ensures scratch { IfOk result (λ room.
            length room.scratch.items ≡ digits_per_record layout.now) }
        ensures count { IfOk result (λ room. length room.marks.items ≡ digit_rows layout.now) }
        ensures none { IfOk result (λ room. (r : ℕ) → is_marked room.marks.items r ≡ false) }
        ensures rows { IfOk result (λ room. room.rows.items ≡ []) }
        ensures capacity { IfOk result (λ room. digit_rows layout.now ≤ vec_capacity room.rows) }
        ensures follow { IfOk result (λ room. IsRoomForRows dimension room.follow) }
    {
        let scratch = vec![in alloc; 0; layout.digits_per_record()]?;
        let marks = marks_for(alloc, layout)?;
        let rows = Vec::with_capacity(alloc, layout.rows())?;
        let most = layout.digits_per_record().saturating_mul(changes);
        let changed = layout.rows().min(most);
        let follow = FollowBuffers::new(alloc, changed, dimension, layout.width())?;
        Ok(PublicationRoom {
            scratch,
            marks,
            rows,
            follow,
        })
    }
}
