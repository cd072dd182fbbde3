//! The doors of a follower and of a shipper. Upward: the links of a follower's door are followed
//! one after another, until the door gives no more or fails, or a link ends in another way than
//! well; a shipper takes one link. Each link goes back to its door. Of several doors only the first
//! is used. Who keeps the records, and from where they are shipped, are traits.
#![tactic(auto)]

mod door_end;
mod first;
mod following;
mod shipping;

pub use door_end::DoorEnd;
pub use first::{follow_first, ship_first};
pub use following::follow_door;
pub use shipping::ship_door;
