//! Of heads and answers, what the server shows nobody or does not use yet. What comes of responses is in the end-to-end
//! scripts.

mod answers;
mod requests;
mod web_answers;
