//! The checks that keep a running domain within its own memory.
//!
//! After Harbor's store checks (Kumar et al., IPSN 2007). `check_store` tells whether the domain may store
//! to an address, and `check_load` whether it may load from one in a sealed image: they are *Permitted store* and
//! *Permitted load* of `mote_layout` over the segments of the map. `check_sp` tells whether the domain may set the
//! stack pointer to an address. All are total: they answer for any map, window, domain and address.
#![tactic(auto)]

mod load;
mod stack_pointer;
mod store;
mod window;

pub use load::check_load;
pub use stack_pointer::{SpCheck, check_sp};
pub use store::check_store;
pub use window::Window;
