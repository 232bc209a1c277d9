// What holds of the definitions that the contracts cite.
ghost use Rattle.carriers.specs.Runs.{CarriersAgree, StaysInOrder, WorkedPools};

// Carriers given the same calls agree, whatever their make; held copies stay in order of their numbers;
// and the worked figures come out.
pub fn carriers_stand()
    ensures agree { CarriersAgree }
    ensures order { StaysInOrder }
    ensures worked { WorkedPools }
{}
