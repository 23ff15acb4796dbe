// Piles deeper than the told levels, as theorems over lists.
ghost use Rattle.machine_tests.specs.Deep.{Deep};

pub fn deep_piles_stand()
    ensures { Deep }
{}
