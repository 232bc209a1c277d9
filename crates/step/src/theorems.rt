// What holds of the definitions that the contracts cite.
ghost use Rattle.step.specs.Worked.{WorkedSteps};

// The worked values of steps come out.
pub fn steps_stand()
    ensures { WorkedSteps }
{}
