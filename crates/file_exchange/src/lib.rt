//! The exchange of one regular file's bytes, which a crash at any moment leaves old or new.
#![tactic(auto)]

mod exchanging;
mod fault;
mod laws;
mod reserved;

pub use exchanging::{create_temporary, exchange, fill_and_rename, put, settle};
pub use fault::ExchangeFault;
pub use laws::{
    an_exchange_leaves_old_or_new, an_exchanged_file_is_on_the_medium, exchanges_compose,
    exchanges_in_turn_leave_old_or_new, loops_over_files_keep_the_crash_clause,
};
pub use reserved::{Temporary, folder_path, temporary_path};
