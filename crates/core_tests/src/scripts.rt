//! Scripts and lists of deliveries over the server itself. What a script can show else is a case of `tests/run`.

mod deliveries;
mod large;
