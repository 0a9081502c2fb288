//! The terms of sessions: both profiles in both forms.

use profiles::Profile;
use sessions::{Form, Terms};

/// Profile 1 and form 1.
pub const FIRST_TERMS: Terms = Terms {
    profile: Profile::One,
    form: Form::One,
};

/// Profile 1 and form 2.
pub const SECOND_FORM: Terms = Terms {
    profile: Profile::One,
    form: Form::Two,
};

/// Profile 2 and form 1.
pub const SECOND_PROFILE: Terms = Terms {
    profile: Profile::Two,
    form: Form::One,
};

/// Profile 2 and form 2.
pub const SECOND_OF_BOTH: Terms = Terms {
    profile: Profile::Two,
    form: Form::Two,
};
