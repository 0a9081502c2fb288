//! The look-up of a class in the chain of another one, which takes no memory.
ghost use Rattle.std.specs.Prelude.{◌≡◌};
ghost use Rattle.mj_classes.specs.Chains.{chain_of, chain_names, is_in};

use crate::declarations::Declarations;
use ordered_names::Name;

impl<'a> Declarations<'a> {
    ghost use Rattle.mj_classes.specs.Index.{declared_in};

    /// Whether the second class stands in the chain of the first. The walk up remembers one class that it has passed and
    /// replaces it by the current one each time the number of steps doubles; if it meets that class again it has
    /// seen the whole chain.
    pub fn descends(&self, class: &Name, ancestor: &Name) -> bool
        ensures { result
            ≡ is_in (chain_names (chain_of (declared_in self.now) class.now)) ancestor.now }
    {
        let Some(sought) = self.place(ancestor) else {
            return false;
        };
        let Some(first) = self.place(class) else {
            return false;
        };
        let mut at = first;
        let mut passed = first;
        for step in 0..self.classes().len() {
            if at == sought {
                return true;
            }
            if step.is_power_of_two() {
                passed = at;
            }
            let Some(above) = self.superclass_of(at) else {
                return false;
            };
            at = above;
            if at == passed {
                return false;
            }
        }
        false
    }
}
