//! Laws: what listings show, and to whom.
//!
//! Each law is a function that does nothing, and its contract is the law.
//! A caller that needs a law in a proof calls the function, and cites its clause.
ghost use Rattle.std.specs.Prelude.{◌≡◌, List};
ghost use Rattle.radio_listing.specs.declared.rows.MountRow.{MountRow as Mount};
ghost use Rattle.radio_listing.specs.declared.rows.ListedServer.{ListedServer};
ghost use Rattle.radio_listing.specs.Icecast.{icecast_data};
ghost use Rattle.radio_listing.specs.Laws.{LookAlike, mounts_named, not_hidden, shown_names, shown_urls, urls_told};
ghost use Rattle.radio_listing.specs.Public.{rows_shown, status_data};

/// The law of sight: rows that agree on the mounts that are not hidden, and on what everybody may see of them, give
/// everybody and every relay the same bytes, whatever else they hold.
pub fn sight_is_kept()
    ensures { (rows others : List Mount) → rows_shown rows ≡ rows_shown others → LookAlike rows others }
{}

/// What is shown is what the rows that are not hidden show. The mounts that the listing for everybody names are theirs,
/// in their order, as are those in Icecast's words.
// rule: Hidden mounts
pub fn hidden_mounts_are_left_out()
    ensures shown { (rows : List Mount) → rows_shown rows ≡ not_hidden rows }
    ensures status { (rows : List Mount) → mounts_named (status_data rows) ≡ shown_names rows }
    ensures icecast { (server : ListedServer) (rows : List Mount) → urls_told (icecast_data server rows) ≡ shown_urls server.base_url rows }
{}
