//! Windows as they look from outside, and the source of their ids.
use taxi_base::Time;

/// The free seconds from `from` up to `until`. A window keeps its `id` while seconds away from it are taken or given back.
#[derive(Clone, Copy, Debug, PartialEq, Eq)]
pub struct Window {
    pub from: Time,
    pub until: Time,
    pub id: usize,
}

/// Where ids come from: those from `next` on are not drawn yet.
#[derive(Clone, Copy, Debug, PartialEq, Eq)]
pub struct Ids {
    pub next: usize,
}
