// The laws of the definitions: each is proved where it is named.
ghost use Rattle.model.specs.Cases.{WorkedCases};
ghost use Rattle.model.specs.Choice.{KeepsTheFirstSixteen, FirstSixteenAreOneList, WalkKeepsTheChosen, KeptIsChosen};
ghost use Rattle.model.specs.Theorems.{AppliedInOrder, OfficeInOrder, OfficeKeepsLaw, OfficeKeepsNumbers};

pub fn records_are_applied_in_order()
    ensures { AppliedInOrder }
{}

pub fn cases_compute()
    ensures { WorkedCases }
{}

pub fn the_office_keeps_the_server_lawful()
    ensures order { OfficeInOrder }
    ensures law { OfficeKeepsLaw }
    ensures numbers { OfficeKeepsNumbers }
{}

pub fn walks_keep_the_first_sixteen()
    ensures choice { KeepsTheFirstSixteen }
    ensures alone { FirstSixteenAreOneList }
    ensures walk { WalkKeepsTheChosen }
    ensures kept { KeptIsChosen }
{}
