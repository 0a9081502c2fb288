//! Tests of types.
ghost use Rattle.std.specs.Prelude.{◌≡◌};
ghost use Rattle.mj_phrases.specs.Types.{is_int, is_boolean, is_int_array};

use mj_tree::Ty;

pub fn is_int(ty: &Ty) -> bool
    ensures { result ≡ is_int ty.now }
{
    matches!(ty, Ty::Int)
}

pub fn is_boolean(ty: &Ty) -> bool
    ensures { result ≡ is_boolean ty.now }
{
    matches!(ty, Ty::Boolean)
}

pub fn is_int_array(ty: &Ty) -> bool
    ensures { result ≡ is_int_array ty.now }
{
    matches!(ty, Ty::IntArray)
}
