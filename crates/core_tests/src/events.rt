//! Events and replies of a core, in tables: among them what no connection asks for.

mod on_demand;
mod relays;
mod standings;
mod words;
