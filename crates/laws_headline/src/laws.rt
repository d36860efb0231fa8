//! Agreement on the data.

ghost use Rattle.laws_headline.specs.Own.{OwnDecidesViews, OwnIsShared};
ghost use Rattle.laws_headline.specs.Changes.{ForeignEntryAdded, ForeignEntryChanged, ForeignBundleAdded, ForeignBundleChanged};
ghost use Rattle.laws_headline.specs.Changes.{ForeignSyncs, ForeignClaims, ForeignSignings, ForeignFailures};
ghost use Rattle.laws_headline.specs.Agreeing.{RunsOnSameData, ServedOnSameData};
ghost use Rattle.laws_headline.specs.Headline.{HeadlineLaws};

use wl_served::{
    runs_that_agree_write_the_same, served_connections_are_complete,
    served_connections_are_isolated,
};

/// Two publications that agree on what is a caller's own show it the same view.
pub fn own_data_decide_views()
    ensures views { OwnDecidesViews }
    ensures shared { OwnIsShared }
{}

/// What is a caller's own stays where an item that is foreign to it comes, goes or becomes another foreign one.
pub fn foreign_items_change_nothing()
    ensures entry_added { ForeignEntryAdded }
    ensures entry_changed { ForeignEntryChanged }
    ensures bundle_added { ForeignBundleAdded }
    ensures bundle_changed { ForeignBundleChanged }
{}

/// A step of the store that concerns other callers' data publishes nothing new to a caller.
pub fn foreign_changes_stay_unseen()
    ensures sync { ForeignSyncs }
    ensures claim { ForeignClaims }
    ensures signing { ForeignSignings }
    ensures failure { ForeignFailures }
{}

/// Two sessions of the core, of any two runs, and two served connections, of any two agents, are written the same bytes
/// where they agree on what came in and, at each turn, on the data that are each caller's own.
pub fn data_that_agree_are_written_alike()
    ensures runs { RunsOnSameData }
    ensures served { ServedOnSameData }
{
    runs_that_agree_write_the_same();
    served_connections_are_isolated();
}

/// All laws of the headline as one: what `run` and `serve` say beside what became of their own connections.
pub fn headline_holds()
    ensures { HeadlineLaws }
{
    own_data_decide_views();
    foreign_items_change_nothing();
    foreign_changes_stay_unseen();
    data_that_agree_are_written_alike();
    served_connections_are_complete();
}
