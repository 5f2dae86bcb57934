//! What a new section of its neighbour is to a slot.
ghost use Rattle.std.specs.Prelude.{◌≡◌, ◌∷◌, List, None, Some, IfOk};
ghost use Rattle.route_values.specs.Addr.{family_of};
ghost use Rattle.route_values.specs.Settings.{side_of};
ghost use Rattle.route_values.specs.declared.settings.Settings.{Settings as ValueOfSettings};
ghost use Rattle.adj_rib_out.specs.Calls.{empty, ReadiesSome};
ghost use Rattle.peer_history.specs.Steps.{Step};
ghost use Rattle.peer_history.specs.Steps.Step.{Kept};
ghost use Rattle.peer_book.specs.Numbers.{keys_in, AreNumbered, CanKeep};
ghost use Rattle.peer_book.specs.Slot.{live_caps};
ghost use Rattle.peer_book.specs.Stands.{Stands};
ghost use Rattle.peer_book.specs.Statics.{statics_of, AreRoutes, StandsWithout};

use crate::copying::copy_routes;
use crate::keeping::{keep_statics, number_statics};
use crate::numbers::Numbers;
use crate::slot::PeerSlot;
use adj_rib_out::Rib;
use config_model::StaticRoute;
use route_values::{NoMemory, Settings};
use std::alloc::Global;

impl PeerSlot {
    /// Stands the static routes of a section ready for `keep`, and answers the numbers of their values. Nothing else
    /// changes, also where memory is wanting: then some of them stand ready.
    pub fn prepare_statics(
        &mut self,
        alloc: Global,
        statics: &[StaticRoute],
    ) -> Result<Numbers, NoMemory>
        ensures ok { IfOk result (λ numbers.
            AreNumbered self.new.table (statics_of statics.now) numbers) }
        ensures some { ReadiesSome self.old.table self.new.table (keys_in statics.now) }
        ensures settings { self.new.settings ≡ self.old.settings }
        ensures stands { (steps : List Step) → Stands steps self.old → Stands steps self.new }
    {
        number_statics(alloc, &mut self.table, statics)
    }

    /// The neighbour stays in the slot with a new section, by which routes are sent to it as before. Of the routes that
    /// no helper asked for just those of the section stand from then on; helpers' routes stay, and so does the session.
    /// The static routes stand ready under these numbers, are within the limits, and have next hops of their keys'
    /// families. It takes no memory.
    pub fn keep(&mut self, settings: Settings, statics: &[StaticRoute], numbers: &Numbers)
        requires { CanKeep self.old settings statics.now numbers.now }
        ensures { (steps : List Step) → Stands steps self.old
            → Stands (Kept settings (statics_of statics.now) ∷ steps) self.new }
    {
        keep_statics(&mut self.table, statics, numbers);
        self.settings = Some(settings);
    }

    /// A slot with the neighbour of this one and a new section, by which routes are sent to it otherwise: in an empty
    /// table that sends by the new settings the routes stand that `keep` leaves, in the order of this slot's. The local
    /// address has the same family as before. The static routes are within the limits, and their next hops are of their
    /// keys' families. This slot stays as it is; `exchange` gives it the new table, once its session was ended.
    pub fn moved(
        &self,
        alloc: Global,
        mut table: Rib,
        settings: Settings,
        statics: &[StaticRoute],
    ) -> Result<PeerSlot, NoMemory>
        requires table { table ≡ empty (side_of settings) }
        requires family { (own : ValueOfSettings) → self.now.settings ≡ Some own
            → family_of settings.local ≡ family_of own.local }
        requires routes { AreRoutes (side_of settings) statics.now }
        ensures moved { IfOk result (λ slot. (steps : List Step) → Stands steps self.now
            → StandsWithout (Kept settings (statics_of statics.now) ∷ steps) slot) }
        ensures closed { IfOk result (λ slot. live_caps slot ≡ None) }
    {
        copy_routes(&self.table, &mut table, &settings.side())?;
        let numbers = number_statics(alloc, &mut table, statics)?;
        keep_statics(&mut table, statics, &numbers);
        Ok(PeerSlot {
            settings: Some(settings),
            table,
            session: None,
            reset: None,
        })
    }
}
