//! Which list a thread knows a beginning of.

use std::marker::Brand;

/// Which list it is. Whoever makes one picks its name.
pub trait ListNaming {
    ghost use Rattle.logbook.specs.Pages.{Book};

    ghost book: { Book };
}

impl ListNaming for Brand {
    ghost book = { record { number = 0; log_name = 0; cells_name = 0 } };
}
