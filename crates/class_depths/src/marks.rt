//! How far depths are known while they are looked for.

/// What is known of the depth of a declared class.
#[derive(Clone, Copy, Debug)]
pub(crate) enum Mark {
    /// The class was not come to.
    Unseen,
    /// The class is on the way up: its depth is being looked for.
    Open,
    /// The class has this depth.
    Settled(u64),
}

/// A class on the way up.
#[derive(Clone, Copy, Debug)]
pub(crate) struct Step {
    /// Its place among the declared classes.
    pub(crate) place: usize,
    /// How many of its direct supertypes have been gone through.
    pub(crate) gone: usize,
    /// The longest way up over one of these.
    pub(crate) depth: u64,
}

/// What is known of the depth of a direct supertype.
#[derive(Clone, Copy, Debug)]
pub(crate) enum Above {
    /// It has this depth.
    Known(u64),
    /// Its class stands at this place, and was not come to.
    Ahead(usize),
    /// Its class stands at this place, and is on the way up.
    Behind(usize),
}

/// Where the way leads from a class.
#[derive(Clone, Copy, Debug)]
pub(crate) enum Turn {
    /// All direct supertypes have been gone through, and the class has this depth.
    Done(u64),
    /// On to the class at the place, which was not come to, and then back to the step.
    On { step: Step, place: usize },
    /// Round to the class at the place, which is on the way already.
    Round { place: usize },
}
