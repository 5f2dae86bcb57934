//! What gives the items of a batch.
ghost use Rattle.std.specs.Prelude.{◌≡◌, List, Some, IsSome};
ghost use Rattle.batch_cutter.specs.Grouped.{AreGrouped};
ghost use Rattle.batch_cutter.specs.Items.{Item, item_told, front, behind_front, AreNumbered};

use route_values::{Family, Key, WireAttrs};

/// What a batch has to say next.
#[derive(Clone, Copy)]
pub enum Due<'a> {
    /// The key is withdrawn.
    Gone(&'a Key),
    /// The key is announced with these attributes. Two announcements of one batch have the same number exactly where
    /// their families and their attributes are equal.
    Here(usize, &'a Key, &'a WireAttrs),
    /// The family's End-of-RIB marker is to come (RFC 4724, section 2).
    End(Family),
    /// Nothing is left.
    Empty,
}

/// What is left of a batch, one item after another: a table, or a plain list.
///
/// # Order
/// Withdrawals of one family come one after another, and so do announcements of one family with one value.
pub trait Batch {
    /// The items that are left, in order.
    ghost left: { Self → List Item };

    /// What passing an item makes of the batch and of all that is kept with it.
    ghost passes: { Self → Item → Self → Type 0 };

    /// The item at the front.
    fn due(&self) -> Due<'_>
        ensures item { item_told result ≡ front (left self.now) }
        ensures numbered { AreNumbered (left self.now) }
        ensures grouped { AreGrouped (left self.now) };

    /// Passes the item at the front.
    fn sent(&mut self)
        requires { IsSome (front (left self.old)) }
        ensures left { left self.new ≡ behind_front (left self.old) }
        ensures passed { (item : Item) → front (left self.old) ≡ Some item
            → passes self.old item self.new };
}
