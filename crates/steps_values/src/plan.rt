//! The plan of a build.
ghost use Rattle.std.specs.Prelude.{◌≡◌};

use byte_readers::{
    Format, NameFormat, ReadError, check_list, check_name, put_list, put_name, read_list, read_name,
};
use ordered_names::Name;
use std::alloc::{AllocError, Global};
use std::marker::Model;

/// A step of a build, and the names of what it reads: files, and steps that read files alone.
pub struct Step {
    name: Name,
    reads: Vec<Name>,
}

impl Drop for Step {
    fn drop(self) {
        let Step { name: _, reads: _ } = self;
    }
}

impl Model for Step {
    ghost use Rattle.steps_values.specs.Payloads.{StepValue};
    ghost use Rattle.steps_values.specs.Storable.{StepFits};

    ghost Value = { StepValue };

    ghost view = { λ step. record { name = step.name; reads = step.reads.items } };

    ghost invariant = { λ step. StepFits (record { name = step.name; reads = step.reads.items }) };
}

impl Step {
    ghost use Rattle.steps_values.specs.Storable.{StepFits};

    /// A step of this name, which reads these.
    #[tactic(auto, using(byte_readers::specs::Laws::all_storable))]
    pub fn new(name: Name, reads: Vec<Name>) -> Self
        ensures { result ≡ record { name = name; reads = reads.items } }
    {
        // What the spelling demands of the parts they keep in their types.
        check_name(&name);
        check_list::<NameFormat>(&reads);
        Step { name, reads }
    }

    /// The step's name.
    pub fn name(&self) -> &Name
        ensures value { result.now ≡ self.now.name }
        ensures fits { StepFits self.now }
    {
        &self.name
    }

    /// The names of what it reads, in their order.
    pub fn reads(&self) -> &[Name]
        ensures { result.now ≡ self.now.reads }
    {
        self.reads.as_slice()
    }
}

/// Steps: their name, and the names of what they read.
pub struct StepFormat;

impl Format for StepFormat {
    ghost use Rattle.steps_values.specs.Canon.{step};
    ghost use Rattle.steps_values.specs.Storable.{StepFits};
    ghost use Rattle.steps_values.specs.Reading.{step_at};
    ghost use Rattle.steps_values.specs.ItemLaws.{lawful_step};
    ghost use Rattle.steps_values.specs.Payloads.{StepValue};
    ghost use Rattle.byte_readers.specs.Views.{plain};

    type Item = Step;

    ghost Seen = { StepValue };

    ghost view = { plain };

    ghost is_storable = { λ _. Unit {0} };

    ghost has_spelling = { StepFits };

    ghost spelling = { step };

    ghost reading = { step_at };

    ghost lawful = { lawful_step };

    fn check(item: &Step) {
        let _name = item.name();
    }

    fn write(out: &mut Vec<u8>, item: &Step) -> Result<(), AllocError> {
        put_name(out, item.name())?;
        put_list::<NameFormat>(out, item.reads())
    }

    #[tactic(auto, unfolding(crate::specs::Reading::step_at))]
    fn read(alloc: Global, bytes: &[u8]) -> Result<(Step, &[u8]), ReadError> {
        let (name, rest) = read_name(alloc, bytes)?;
        let (reads, rest) = read_list::<NameFormat>(alloc, rest)?;
        Ok((Step::new(name, reads), rest))
    }
}

/// The steps of a build, in the order in which the plan names them.
pub struct Plan {
    steps: Vec<Step>,
}

impl Drop for Plan {
    fn drop(self) {
        let Plan { steps: _ } = self;
    }
}

impl Model for Plan {
    ghost use Rattle.std.specs.Prelude.{List};
    ghost use Rattle.steps_values.specs.Payloads.{StepValue};
    ghost use Rattle.steps_values.specs.Storable.{PlanFits};

    ghost Value = { List StepValue };

    ghost view = { λ plan. plan.steps.items };

    ghost invariant = { λ plan. PlanFits plan.steps.items };
}

impl Plan {
    ghost use Rattle.steps_values.specs.Storable.{PlanFits};

    /// A plan of these steps.
    #[tactic(auto, using(byte_readers::specs::Laws::all_storable))]
    pub fn new(steps: Vec<Step>) -> Self
        ensures { result ≡ steps.items }
    {
        // What the spelling demands of the steps they keep in their types.
        check_list::<StepFormat>(&steps);
        Plan { steps }
    }

    /// The steps.
    pub fn steps(&self) -> &[Step]
        ensures value { result.now ≡ self.now }
        ensures fits { PlanFits self.now }
    {
        self.steps.as_slice()
    }
}

/// Plans.
pub struct PlanFormat;

impl Format for PlanFormat {
    ghost use Rattle.std.specs.Prelude.{List};
    ghost use Rattle.steps_values.specs.Canon.{plan};
    ghost use Rattle.steps_values.specs.Storable.{PlanFits};
    ghost use Rattle.steps_values.specs.Reading.{plan_at};
    ghost use Rattle.steps_values.specs.ItemLaws.{lawful_plan};
    ghost use Rattle.steps_values.specs.Payloads.{StepValue};
    ghost use Rattle.byte_readers.specs.Views.{plain};

    type Item = Plan;

    ghost Seen = { List StepValue };

    ghost view = { plain };

    ghost is_storable = { λ _. Unit {0} };

    ghost has_spelling = { PlanFits };

    ghost spelling = { plan };

    ghost reading = { plan_at };

    ghost lawful = { lawful_plan };

    fn check(item: &Plan) {
        let _steps = item.steps();
    }

    fn write(out: &mut Vec<u8>, item: &Plan) -> Result<(), AllocError> {
        put_list::<StepFormat>(out, item.steps())
    }

    #[tactic(auto, unfolding(crate::specs::Reading::plan_at))]
    fn read(alloc: Global, bytes: &[u8]) -> Result<(Plan, &[u8]), ReadError> {
        let (steps, rest) = read_list::<StepFormat>(alloc, bytes)?;
        Ok((Plan::new(steps), rest))
    }
}
