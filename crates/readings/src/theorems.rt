// What holds of the definitions that the contracts cite.
ghost use Rattle.readings.specs.Ports.{PortsAreSets};
ghost use Rattle.readings.specs.Worked.{WorkedReadings};

// Port sets are sets, and the worked values of both kinds of reading come out.
pub fn readings_stand()
    ensures sets { PortsAreSets }
    ensures worked { WorkedReadings }
{}
