//! Why a route isn't added.

/// Why a route isn't added.
#[derive(Clone, Copy, Debug, PartialEq, Eq)]
pub enum RouteError {
    /// The ones of the mask aren't its first bits, or the net has bits outside it.
    BadMask,
    /// The route of this number, from 0, has the same net and mask.
    Twice(u32),
    /// There was no memory.
    Memory,
}
