//! The machine of sessions: what each command does and is answered, what a level may see of it, and replies as bytes:
//! lines, or a
//! view as a table.
#![tactic(auto)]

mod answered;
mod asked;
mod dumped;
mod dumping;
mod form;
mod known;
mod laws;
mod printing;
mod printing_batch;
mod printing_items;
mod printing_rows;
mod replies;
mod reply;
mod showing;
mod shown;
mod table;
mod turning;

pub use form::{Audience, Form};
pub use known::is_known;
pub use laws::{
    accepted_histories_are_alike, accepted_runs_are_alike, denials_and_calls_are_entered,
    histories_keep_integrity, histories_pass_what_runs_pass, histories_show_only_releases,
    lines_are_picked, lines_have_no_line_feed, low_histories_are_alike, low_runs_are_alike,
    refusals_change_nothing, runs_keep_integrity, secure_histories_are_alike,
    secure_runs_are_alike, tables_are_harmless, untold_runs_release_the_same,
};
pub use replies::reply_bytes;
pub use reply::{Answer, Denial, Reply};
pub use showing::shown_to;
pub use shown::shown_bytes;
pub use turning::turn_bytes;
