//! Sessions on threads: up to sixteen edit and read one trace at once, over one legal history.
#![tactic(auto)]

mod book;
mod counted;
mod faults;
mod laws;
mod limits;
mod live;
mod locked;
mod pass;
mod places;
mod publisher;
pub mod race;
mod receipt;
mod shown;
mod submitter;
mod workers;

pub use book::{Book, Front, Naming};
pub use counted::CountedDesk;
pub use faults::{NoMeeting, NoPlace, OpenFault, SubmitFault};
pub use laws::stands_after;
pub use limits::{PLACES, READERS};
pub use live::{Live, Started, Writer, open, writer_of};
pub use pass::Pass;
pub use places::Places;
pub use publisher::Publisher;
pub use receipt::Receipt;
pub use shown::Shown;
pub use workers::Workers;
