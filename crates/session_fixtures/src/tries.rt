//! What is made once more if it can't be made at first.

use answer_fixtures::Unfit;

/// Makes it, and once more if that is refused: each run of a test is refused at most one allocation.
pub fn twice<T, F: Fn() -> Result<T, Unfit>>(make: &F) -> Result<T, Unfit>
    requires { F.IsAlwaysCallable make.now }
    ensures { F.post make.now result }
{
    match make() {
        Ok(made) => Ok(made),
        Err(_) => make(),
    }
}
