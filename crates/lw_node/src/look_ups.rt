//! What a node answers of the registrations at a moment.

ghost use Rattle.std.specs.Prelude.{List};
ghost use Rattle.std.specs.Option.{option_copied, option_map};
ghost use Rattle.lw_stamp.specs.Moment.{ms_of};
ghost use Rattle.lw_reg.specs.Marks.{Mark, among};
ghost use Rattle.lw_reg.specs.Reading.{shown_in};
ghost use Rattle.lw_reg.specs.Showing.{ShownOf};
ghost use Rattle.lw_table.specs.Answers.{FirstAfter, after_text};
ghost use Rattle.lw_table.specs.LookUps.{ById, ByAddress, ByToken, WatchOfIdAfter, ExpiredAfter};
ghost use Rattle.lw_node.specs.Node.{Knows};

use crate::node::Node;
use lw_reg::{Addr, Path, View, Watch};
use lw_stamp::{Moment, Stamp};

impl Node {
    /// What is shown of the endpoint.
    pub fn by_endpoint(&self, now: Moment, endpoint: &str) -> Option<View<'_>>
        ensures read { ShownOf (shown_in self.now.table.state) (ms_of now) endpoint.now result }
        ensures marks { (ms : List Mark) → Knows self.now ms → ShownOf (among ms) (ms_of now) endpoint.now result }
    {
        self.table.by_endpoint(now, endpoint)
    }

    /// The shown registration with the identifier.
    pub fn by_id(&self, now: Moment, id: Stamp) -> Option<View<'_>>
        ensures read { ById (shown_in self.now.table.state) (ms_of now) id result }
        ensures marks { (ms : List Mark) → Knows self.now ms → ById (among ms) (ms_of now) id result }
    {
        self.table.by_id(now, id)
    }

    /// Of the shown registrations with the address, the one that wrote it last.
    pub fn by_address(&self, now: Moment, address: Addr) -> Option<View<'_>>
        ensures read { ByAddress (shown_in self.now.table.state) (ms_of now) address result }
        ensures marks { (ms : List Mark) → Knows self.now ms → ByAddress (among ms) (ms_of now) address result }
    {
        self.table.by_address(now, address)
    }

    /// The live watch with the token, and its registration.
    pub fn by_token(&self, now: Moment, token: Stamp) -> Option<(View<'_>, Watch)>
        ensures read { ByToken (shown_in self.now.table.state) (ms_of now) token result }
        ensures marks { (ms : List Mark) → Knows self.now ms → ByToken (among ms) (ms_of now) token result }
    {
        self.table.by_token(now, token)
    }

    /// Of the registration that `by_id` gives, the live watch on the least path above the given one, or on the least
    /// of all.
    pub fn watch_after(
        &self,
        now: Moment,
        id: Stamp,
        after: Option<&Path>,
    ) -> Option<(View<'_>, Watch)>
        ensures read { WatchOfIdAfter (shown_in self.now.table.state) (ms_of now) id
            (option_copied after.entry) result }
        ensures marks { (ms : List Mark) → Knows self.now ms
            → WatchOfIdAfter (among ms) (ms_of now) id (option_copied after.entry) result }
    {
        self.table.watch_after(now, id, after)
    }

    /// What is shown of the least endpoint above the given one by bytes, or of the least of all.
    pub fn first_after(&self, now: Moment, after: Option<&str>) -> Option<View<'_>>
        ensures read { FirstAfter (shown_in self.now.table.state) (ms_of now) (after_text after.entry) result }
        ensures marks { (ms : List Mark) → Knows self.now ms
            → FirstAfter (among ms) (ms_of now) (after_text after.entry) result }
    {
        self.table.first_after(now, after)
    }

    /// The least endpoint above the given one, or of all, whose registration has expired, and its identifier.
    pub fn expired_after(&self, now: Moment, after: Option<&str>) -> Option<(&str, Stamp)>
        ensures read { ExpiredAfter (shown_in self.now.table.state) (ms_of now) (after_text after.entry)
            (option_map (λ x. (x.0.now, x.1)) result) }
        ensures marks { (ms : List Mark) → Knows self.now ms
            → ExpiredAfter (among ms) (ms_of now) (after_text after.entry) (option_map (λ x. (x.0.now, x.1)) result) }
    {
        self.table.expired_after(now, after)
    }
}
