//! What level 0 is made from.

/// The rates of the tasks of a set, in order, in ticks a unit, with the processors and the scale.
#[derive(Clone, Copy)]
pub(crate) struct Rates<'a> {
    pub(crate) processors: u32,
    pub(crate) scale: u128,
    pub(crate) each: &'a [u128],
}
