//! What no clause says and no program shows: every key read back, and how names are ordered. Texts with their faults are rows of the end-to-end scripts.

mod dashes;
mod every_key;
mod names;
