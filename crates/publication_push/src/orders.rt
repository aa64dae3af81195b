//! What a server is asked for, so that it comes to have publications.

ghost use Rattle.std.specs.Prelude.{◌≡◌, ◌<◌, ◌+◌, ◌∷◌, [], ℕ, List, IfNone, IfSome};
ghost use Rattle.publication_log.specs.Publications.{Placed, Published, changes_bytes, AreChanges};
ghost use Rattle.publication_log.specs.Entries.{chain_bytes};
ghost use Rattle.publication_log.specs.Logs.{bodies_of, AreNext};
ghost use Rattle.log_replay.specs.Replays.{count_after};
ghost use Rattle.publication_push.specs.Orders.{Ordered, ordered_of, orders_of, placed_of};
ghost use Rattle.publication_push.specs.Orders.{HasOrders, AreLeft, AreEntriesOf, begun_orders};
ghost use Rattle.publication_push.specs.Orders.{change_order};

use publication_log::{Change, Publication, Publications};

/// What a server is asked for.
#[derive(Clone, Copy, Debug)]
pub enum Order<'a> {
    /// The bytes for the record at this place.
    Edit { place: u32, bytes: &'a [u8] },
    /// A record of these bytes after the last one.
    Append { bytes: &'a [u8] },
    /// The changes before become this version.
    Publish { version: u64 },
}

/// What a server is asked for, so that it comes to have publications: handed out one after another.
#[derive(Clone, Copy, Debug)]
pub struct Orders<'a> {
    // How many records there are after the changes that were handed out.
    count: u64,
    // The publication whose changes are handed out, with those that are left.
    begun: Option<Publication<'a>>,
    // The publications after that.
    rest: Publications<'a>,
}

impl<'a> Orders<'a> {
    /// The orders that a server of `count` records lacks, if it lacks these publications.
    pub fn new(publications: Publications<'a>, count: u32) -> Orders<'a>
        ensures { (link : List ℕ) (version : ℕ) (ps : List Published) → AreNext version ps →
            publications.entry.rest.now ≡ chain_bytes link (bodies_of ps) →
            HasOrders result (orders_of count ps) }
    {
        Orders {
            count: count as u64,
            begun: None,
            rest: publications,
        }
    }

    /// No orders.
    pub fn none() -> Orders<'a>
        ensures { HasOrders result [] }
    {
        Orders {
            count: 0,
            begun: None,
            rest: Publications { rest: &[] },
        }
    }

    /// The next order; `None` when there are no more.
    pub fn next(&mut self) -> Option<Order<'a>>
        ensures some { (left : List Ordered) → HasOrders self.old left → IfSome result (λ order.
            (others : List Ordered) × (left ≡ ordered_of order ∷ others) ×
            HasOrders self.new others) }
        ensures none { (left : List Ordered) → HasOrders self.old left → IfNone result (left ≡ []) }
    {
        if let Some(publication) = self.begun {
            return Some(self.next_of(publication));
        }
        let Some((publication, rest)) = self.rest.split_first() else {
            return None;
        };
        self.rest = rest;
        Some(self.next_of(publication))
    }

    // The next order of a publication, with the changes of it that are left.
    fn next_of(&mut self, publication: Publication<'a>) -> Order<'a>
        ensures { (cs : List Placed) (ps : List Published) →
            AreLeft publication.entry.changes.rest.now cs → AreEntriesOf self.old.rest.rest.now ps →
            (others : List Ordered) × HasOrders self.new others ×
            (begun_orders self.old.count publication.entry.version cs ps ≡
            ordered_of result ∷ others) }
    {
        let Some((change, changes)) = publication.changes.split_first() else {
            self.begun = None;
            return Order::Publish {
                version: publication.version,
            };
        };
        self.begun = Some(Publication {
            version: publication.version,
            changes,
        });
        self.order_of(change)
    }

    // The edit or the append that a change is.
    fn order_of(&mut self, change: Change<'a>) -> Order<'a>
        ensures order { ordered_of result ≡ change_order self.old.count (placed_of change.entry) }
        ensures count { self.new ≡
            record self.old { count = count_after self.old.count (placed_of change.entry) } }
    {
        let Change { place, bytes } = change;
        if (place as u64) < self.count {
            return Order::Edit { place, bytes };
        }
        // No place is past the largest number of four bytes, and so the count isn't.
        self.count += 1;
        Order::Append { bytes }
    }
}
