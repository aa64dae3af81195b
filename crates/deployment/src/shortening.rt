//! The shortest run that finds something broken.

use crate::simulating::{Ended, Run, perform};
use crate::world::{Sizes, Troubles};
use std::alloc::{AllocError, Global};

/// How many changes of a run are tried, one after another.
const CHANGES: usize = 9;

/// A shorter run that finds something broken, too, if there is one: with fewer machines, with less
/// that goes wrong, with fewer steps.
///
/// # Errors
///
/// `AllocError` when memory was refused.
pub fn shortest(alloc: Global, run: &Run, ended: &Ended) -> Result<(Run, Ended), AllocError> {
    let mut best = Run {
        steps: ended.steps.min(run.steps),
        ..*run
    };
    let mut last = perform(alloc, &best)?;
    for change in 0..CHANGES {
        let other = changed(&best, change);
        if other == best {
            continue;
        }
        let tried = perform(alloc, &other)?;
        if tried.broken.is_some() && tried.steps <= last.steps {
            best = Run {
                steps: tried.steps.min(other.steps),
                ..other
            };
            last = tried;
        }
    }
    Ok((best, last))
}

// A run that was made simpler in one way.
fn changed(run: &Run, change: usize) -> Run {
    let Run {
        seed,
        steps,
        sizes,
        troubles,
    } = *run;
    let sizes = match change {
        0 => Sizes {
            servers: 1,
            ..sizes
        },
        1 => Sizes {
            clients: 1,
            ..sizes
        },
        2 => Sizes {
            servers: 2.min(sizes.servers),
            ..sizes
        },
        3 => Sizes {
            clients: 2.min(sizes.clients),
            ..sizes
        },
        _ => sizes,
    };
    Run {
        seed,
        steps,
        sizes,
        troubles: less(troubles, change),
    }
}

// Less goes wrong.
fn less(troubles: Troubles, change: usize) -> Troubles {
    match change {
        4 => Troubles {
            disks: false,
            ..troubles
        },
        5 => Troubles {
            partitions: false,
            ..troubles
        },
        6 => Troubles {
            breaks: false,
            ..troubles
        },
        7 => Troubles {
            kills: false,
            ..troubles
        },
        8 => Troubles {
            power: false,
            ..troubles
        },
        _ => troubles,
    }
}
