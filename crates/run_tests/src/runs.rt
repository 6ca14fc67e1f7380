//! What no clause says: that memory suffices, and that the definitions mean what the program's
//! words and texts say. The expected texts are those of the words' description.

mod bare;
mod between;
mod crowded;
mod damaged;
mod ends;
mod failing_hands;
mod failing_stores;
mod files;
mod finds;
mod hands;
mod queries;
mod rig;
mod rounds;
mod rows;
mod scans;
mod serves;
mod serves_asked;
mod serves_counters;
mod serves_doors;
mod serves_gates;
mod serves_replies;
mod serves_rig;
mod serves_stops;
mod serves_upstream;
mod told;
mod trials;
mod words;
mod workers;
mod worlds;
