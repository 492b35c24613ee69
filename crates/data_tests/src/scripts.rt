//! Scripts over devices that fail, and that keep back what they were given. Lines of scripts and transcripts are rows and
//! cases of the end-to-end scripts, and so are lists of deliveries.

mod devices;
mod echo;
mod play;
